//! Faults of bundles, and the lines that report them.

ghost use Rattle.std.specs.Prelude.{◌≡◌, ◌++◌, IfOk};
ghost use Rattle.hs_json.specs.Lines.{bundle_fault_line};

use hs_expr::Text;
use hs_graph::GraphFaultKind;
use hs_json_form::Path;
use hs_json_model::{Fault, graph_fault_text, model_fault_text};
use hs_meta::ModelFaultKind;
use std::alloc::{AllocError, Global};

/// Why bytes aren't a bundle. Paths begin at the bundle.
#[derive(Debug, Drop)]
pub enum BundleFault {
    /// They aren't a JSON text.
    BadJson,
    /// The bundle itself isn't an object, has an unknown key or lacks one, or its rules aren't a
    /// text.
    BadBundle(Path),
    /// What is wrong in its metamodel.
    BadModel(Fault<ModelFaultKind>),
    /// What is wrong in its graph.
    BadGraph(Fault<GraphFaultKind>),
}

impl BundleFault {
    /// The fault's line, without its line feed.
    pub fn line(&self, alloc: Global) -> Result<Text, AllocError>
        ensures { IfOk result (λ line. line ≡ bundle_fault_line self.now) }
    {
        match self {
            BundleFault::BadJson => Text::from_str(alloc, "henshin: bad-json"),
            BundleFault::BadBundle(path) => {
                joined(alloc, "henshin: bad-bundle ", &path.text(alloc)?)
            }
            BundleFault::BadModel(fault) => {
                joined(
                    alloc,
                    "henshin: bad-model ",
                    &model_fault_text(alloc, fault)?,
                )
            }
            BundleFault::BadGraph(fault) => {
                joined(
                    alloc,
                    "henshin: bad-graph ",
                    &graph_fault_text(alloc, fault)?,
                )
            }
        }
    }
}

fn joined(alloc: Global, front: &str, back: &Text) -> Result<Text, AllocError>
    ensures { IfOk result (λ text. text ≡ front.now ++ back.now) }
{
    let mut text = String::from_str(alloc, front)?;
    text.push_str(back.as_str())?;
    Ok(Text::from_string(text))
}
