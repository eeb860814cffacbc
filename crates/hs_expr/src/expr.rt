//! Expressions by numbers.

use crate::Value;
use sqlite_items::Boxed;

/// The most operators on a path down the expression of a rule.
pub const MAX_NESTING: u32 = 32;

/// A sign or word between two operands.
#[derive(Clone, Copy, PartialEq, Eq, Debug)]
pub enum Sign {
    Or,
    And,
    Equal,
    NotEqual,
    Less,
    AtMost,
    Greater,
    AtLeast,
    Plus,
    Minus,
    Times,
}

/// A slot that an expression reads: an attribute's number at a node's number.
#[derive(Clone, Copy, PartialEq, Eq, Debug)]
pub struct SlotRead {
    pub node: u16,
    pub attribute: u16,
}

/// A checked expression: the nodes, attributes and parameters that it names are numbers, and each
/// part has the kind that its place wants.
#[derive(Debug, Drop)]
pub enum Expr {
    Literal(Value),
    Slot(SlotRead),
    /// A data parameter, by its number among the rule's parameters.
    Param(u16),
    Not(Boxed<Expr>),
    Minus(Boxed<Expr>),
    Binary(Sign, Boxed<Expr>, Boxed<Expr>),
}
