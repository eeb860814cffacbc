//! Faults of expressions.

ghost use Rattle.std.specs.Prelude.{◌≡◌};
ghost use Rattle.hs_eval.specs.Checking.{wrong_at};

use hs_expr::Span;

/// What is wrong in an expression.
#[derive(Clone, Copy, PartialEq, Eq, Debug)]
pub enum Wrong {
    /// A lone name that is no data parameter.
    UnknownName,
    UnknownNode,
    /// A node that isn't on the left side.
    NotRead,
    UnknownAttribute,
    /// An operand is of a kind that its sign or word doesn't take, or the two differ.
    BadKind,
}

/// What is wrong in an expression, and where.
#[derive(Clone, Copy, PartialEq, Eq, Debug)]
pub struct ExprFault {
    pub at: Span,
    pub kind: Wrong,
}

/// This is wrong at this place.
pub fn wrong_at(at: Span, kind: Wrong) -> ExprFault
    ensures { result ≡ wrong_at at kind }
{
    ExprFault { at, kind }
}
