//! How deep an expression nests.

ghost use Rattle.std.specs.Prelude.{◌≤◌, ◌↔◌, IsTrue};
ghost use Rattle.hs_expr.specs.Evaluation.{nesting};

use hs_expr::Expr;

/// Whether at most `most` operators are on each path down the expression. It calls itself at most
/// that deep, however deep the expression is.
pub fn nests_within(expr: &Expr, most: u32) -> bool
    ensures { IsTrue result ↔ nesting expr.now ≤ most }
{
    match expr {
        Expr::Literal(_) | Expr::Slot(_) | Expr::Param(_) => true,
        Expr::Not(operand) | Expr::Minus(operand) => {
            most > 0 && nests_within(operand.get(), most - 1)
        }
        Expr::Binary(_, left, right) => {
            most > 0 && nests_within(left.get(), most - 1) && nests_within(right.get(), most - 1)
        }
    }
}
