//! Faults as they are printed: a path and a word.

ghost use Rattle.std.specs.Prelude.{◌≡◌, ◌++◌, ◌∷◌, IfOk};
ghost use Rattle.hs_graph.specs.Words.{graph_word};
ghost use Rattle.hs_json_form.specs.PathText.{path_text};
ghost use Rattle.hs_json_model.specs.Words.{fault_text};
ghost use Rattle.hs_meta.specs.Words.{model_word};

use crate::{Fault, Wrong};
use hs_expr::Text;
use hs_graph::GraphFaultKind;
use hs_json_form::Path;
use hs_meta::ModelFaultKind;
use std::alloc::{AllocError, Global};

/// The path of a metamodel's fault, a space, and the word of what is wrong; a wrong form is `form`.
pub fn model_fault_text(alloc: Global, fault: &Fault<ModelFaultKind>) -> Result<Text, AllocError>
    ensures { IfOk result (λ text. text ≡ fault_text model_word fault.now) }
{
    match &fault.wrong {
        Wrong::Form => with_word(alloc, &fault.path, "form"),
        Wrong::Meaning(kind) => with_word(alloc, &fault.path, kind.word()),
    }
}

/// The path of a graph's fault, a space, and the word of what is wrong; a wrong form is `form`.
pub fn graph_fault_text(alloc: Global, fault: &Fault<GraphFaultKind>) -> Result<Text, AllocError>
    ensures { IfOk result (λ text. text ≡ fault_text graph_word fault.now) }
{
    match &fault.wrong {
        Wrong::Form => with_word(alloc, &fault.path, "form"),
        Wrong::Meaning(kind) => with_word(alloc, &fault.path, kind.word()),
    }
}

fn with_word(alloc: Global, path: &Path, word: &str) -> Result<Text, AllocError>
    ensures { IfOk result (λ text. text ≡ path_text path.now ++ (32 ∷ word.now)) }
{
    let mut text = path.text(alloc)?.into_string();
    text.push(' ')?;
    text.push_str(word)?;
    Ok(Text::from_string(text))
}
