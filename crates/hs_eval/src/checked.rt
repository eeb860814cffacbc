//! Checked expressions.

use hs_expr::{Expr, Kind};

/// What an expression by names is checked to be.
#[derive(Debug, Drop)]
pub struct Checked {
    pub kind: Kind,
    /// The expression by numbers, where it nests at most 32 deep.
    pub expr: Option<Expr>,
}
