//! Operands on the stack of the check.

ghost use Rattle.std.specs.Prelude.{◌≡◌};
ghost use Rattle.hs_eval.specs.Stacks.{leaf_operand, checked_operand};

use crate::Checked;
use crate::shallow::Shallow;
use hs_expr::{Expr, Kind};

/// A checked operand, as the stack has it.
#[derive(Debug, Drop)]
pub struct Operand {
    pub kind: Kind,
    /// The expression, where it nests at most 32 deep.
    pub shallow: Option<Shallow>,
}

impl Operand {
    /// One without operators.
    pub fn leaf(expr: Expr, kind: Kind) -> Operand
        ensures { result ≡ leaf_operand (expr, kind) }
    {
        Operand {
            kind,
            shallow: Some(Shallow { expr, depth: 0 }),
        }
    }

    /// What it is checked to be.
    pub fn into_checked(self) -> Checked
        ensures { result ≡ checked_operand self }
    {
        Checked {
            kind: self.kind,
            expr: self.shallow.map(|shallow| shallow.expr),
        }
    }
}
