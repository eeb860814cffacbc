//! Refusals as they are printed.

ghost use Rattle.std.specs.Prelude.{◌≡◌, ◌++◌, IfOk};
ghost use Rattle.hs_faults.specs.Words.{fault_word};
ghost use Rattle.hs_input.specs.Lines as spec;

use crate::refusal::Refusal;
use hs_expr::Text;
use hs_faults::{RuleFault, Within};
use std::alloc::{AllocError, Global};

impl Refusal {
    /// The line that reports the refusal, without its line feed.
    pub fn line(&self, alloc: Global) -> Result<Text, AllocError>
        ensures { IfOk result (λ line. line ≡ spec.refusal_line self.now) }
    {
        match self {
            Refusal::NoBundle(fault) => fault.line(alloc),
            Refusal::BadText { line, column, kind } => {
                placed(alloc, "henshin: bad-text ", *line, *column, kind.word())
            }
            Refusal::BadRule(fault) => rule_line(alloc, fault),
            Refusal::NotBuilt => Text::from_str(alloc, "henshin: not-built"),
        }
    }
}

fn rule_line(alloc: Global, fault: &RuleFault) -> Result<Text, AllocError>
    ensures { IfOk result (λ line. line ≡ spec.rule_front fault.now.within
        ++ spec.place_text fault.now.line fault.now.column (fault_word fault.now.kind)) }
{
    let front = rule_front(fault.within);
    placed(alloc, front, fault.line, fault.column, fault.kind.word())
}

fn rule_front(within: Within) -> &'static str
    ensures { result.now ≡ spec.rule_front within }
{
    match within {
        Within::Rule => "henshin: bad-rule ",
        Within::Unit => "henshin: bad-unit ",
    }
}

/// A place in the text of the rules, and the word of what is wrong there.
fn placed(
    alloc: Global,
    front: &str,
    line: usize,
    column: usize,
    word: &str,
) -> Result<Text, AllocError>
    ensures { IfOk result (λ text. text ≡ front.now ++ spec.place_text line column word.now) }
{
    Ok(Text::from_string(format!(in alloc; "{front}{line}:{column} {word}")?))
}
