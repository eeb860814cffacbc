//! The pieces of expressions by names, with their spans.

use crate::{Sign, Text};

/// Where something is in a text: from the character numbered `start` up to the one before `end`,
/// beginning in this line and this column, which count from 1.
#[derive(Clone, Copy, PartialEq, Eq, Debug)]
pub struct Span {
    pub start: usize,
    pub end: usize,
    pub line: usize,
    pub column: usize,
}

/// A word of a text, with its span.
#[derive(Debug, Drop)]
pub struct Name {
    pub text: Text,
    pub span: Span,
}

/// One part of an expression by names.
#[derive(Debug, Drop)]
pub enum Piece {
    Int { value: i64, span: Span },
    Text { value: Text, span: Span },
    Bool { value: bool, span: Span },
    /// A data parameter.
    Name(Name),
    /// An attribute of a node.
    Slot { node: Name, attribute: Name },
    Not { span: Span },
    /// The minus sign of one operand.
    Minus { span: Span },
    Binary { sign: Sign, span: Span },
}

impl Piece {
    ghost use Rattle.std.specs.Prelude.{◌≡◌};
    ghost use Rattle.hs_expr.specs.Trees.{operands};

    /// How many operands it takes.
    pub fn operands(&self) -> usize
        ensures { result ≡ operands self.now }
    {
        match self {
            Piece::Binary { .. } => 2,
            Piece::Not { .. } | Piece::Minus { .. } => 1,
            _ => 0,
        }
    }
}
