//! Expressions that nest at most [`MAX_NESTING`] deep, built one operator at a time.

ghost use Rattle.std.specs.Prelude.{◌≡◌, IfOk};
ghost use Rattle.hs_eval.specs.Stacks as spec;

use hs_expr::{Expr, MAX_NESTING, Sign};
use sqlite_items::Boxed;
use std::alloc::{AllocError, Global};

/// An expression, with how deep it nests. One that nests deeper than [`MAX_NESTING`] isn't built:
/// dropping one takes a call for each level.
#[derive(Debug, Drop)]
pub struct Shallow {
    pub expr: Expr,
    pub depth: u32,
}

/// `not` on the operand; none where it would nest too deep.
pub fn not_shallow(alloc: Global, operand: Option<Shallow>) -> Result<Option<Shallow>, AllocError>
    ensures { IfOk result (λ made. made ≡ spec.unary_shallow Expr.Not operand) }
{
    match operand {
        Some(operand) if operand.depth < MAX_NESTING => Ok(Some(Shallow {
            expr: Expr::Not(Boxed::new(alloc, operand.expr)?),
            depth: operand.depth + 1,
        })),
        _ => Ok(None),
    }
}

/// The minus sign on the operand; none where it would nest too deep.
pub fn minus_shallow(alloc: Global, operand: Option<Shallow>) -> Result<Option<Shallow>, AllocError>
    ensures { IfOk result (λ made. made ≡ spec.unary_shallow Expr.Minus operand) }
{
    match operand {
        Some(operand) if operand.depth < MAX_NESTING => Ok(Some(Shallow {
            expr: Expr::Minus(Boxed::new(alloc, operand.expr)?),
            depth: operand.depth + 1,
        })),
        _ => Ok(None),
    }
}

/// A sign or word between the operands; none where it would nest too deep.
pub fn binary_shallow(
    alloc: Global,
    sign: Sign,
    left: Option<Shallow>,
    right: Option<Shallow>,
) -> Result<Option<Shallow>, AllocError>
    ensures { IfOk result (λ made. made ≡ spec.binary_shallow (Expr.Binary sign) left right) }
{
    match (left, right) {
        (Some(left), Some(right)) if left.depth < MAX_NESTING && right.depth < MAX_NESTING => {
            let depth = left.depth.max(right.depth) + 1;
            let left = Boxed::new(alloc, left.expr)?;
            let right = Boxed::new(alloc, right.expr)?;
            Ok(Some(Shallow {
                expr: Expr::Binary(sign, left, right),
                depth,
            }))
        }
        _ => Ok(None),
    }
}
