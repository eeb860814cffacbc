//! Expressions by names, in postfix order.

ghost use Rattle.std.specs.Prelude.{◌≡◌, true, is_some};
ghost use Rattle.hs_expr.specs.Trees.{tree_of};

use crate::{List, Piece};

/// An expression by names: its parts in postfix order, each operator after its operands. So
/// `a - b - c` is `a b - c -`, and parentheses leave no part.
#[derive(Debug, Drop)]
pub struct NameExpr {
    pub pieces: List<Piece>,
    pub ghost one: { is_some (tree_of pieces) ≡ true },
}

impl NameExpr {
    ghost use Rattle.hs_expr.specs.NameExprs.{name_expr};

    /// The expression that has these pieces, if they are one: each operator finds its operands
    /// before it, and one expression is left.
    pub fn new(pieces: List<Piece>) -> Option<NameExpr>
        ensures { result ≡ name_expr pieces }
    {
        if is_one(pieces.as_slice()) {
            Some(NameExpr { pieces })
        } else {
            None
        }
    }
}

/// Whether the pieces are one expression.
fn is_one(pieces: &[Piece]) -> bool
    ensures { result ≡ is_some (tree_of pieces.now) }
{
    let mut trees: usize = 0;
    for piece in pieces {
        let operands = piece.operands();
        if trees < operands {
            return false;
        }
        trees = trees - operands + 1;
    }
    trees == 1
}
