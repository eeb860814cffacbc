//! The value of an expression.

ghost use Rattle.std.specs.Prelude.{◌≡◌, ◌≤◌, option_map};
ghost use Rattle.hs_expr.specs.declared.expr.TheConstants.{MAX_NESTING};
ghost use Rattle.hs_expr.specs.Evaluation.{value_of, nesting, not_value, minus_value};
ghost use Rattle.hs_eval.specs.ValueRefs.{referent};

use crate::joining::{int_value, join};
use crate::{Env, ValueRef};
use hs_expr::Expr;

fn negate(value: ValueRef<'_>) -> Option<ValueRef<'_>>
    ensures { option_map referent result ≡ not_value (referent value.entry) }
{
    match value {
        ValueRef::Bool(truth) => Some(ValueRef::Bool(!truth)),
        _ => None,
    }
}

fn oppose(value: ValueRef<'_>) -> Option<ValueRef<'_>>
    ensures { option_map referent result ≡ minus_value (referent value.entry) }
{
    match value {
        ValueRef::Int(number) => int_value(number.checked_neg()),
        _ => None,
    }
}

/// The value of the expression where `env` is read: strict, so both sides of `and` and of `or` are
/// evaluated. None where a slot or a parameter in it isn't there or is of a kind that its place
/// doesn't take, which a checked expression leaves out, and where a sum, a difference, a product or
/// a negation in it leaves 64 bits. Its text is lent by the expression or by `env`.
///
/// It calls itself once for each level of the expression: at most 33 calls are on the stack.
pub fn eval<'a, E: Env>(expr: &'a Expr, env: &'a E) -> Option<ValueRef<'a>>
    requires shallow { nesting expr.now ≤ MAX_NESTING }
    ensures { option_map referent result ≡ value_of (E.reads env.now) expr.now }
{
    match expr {
        Expr::Literal(value) => Some(ValueRef::of(value)),
        Expr::Slot(read) => Some(ValueRef::of(env.slot(read.node, read.attribute)?)),
        Expr::Param(number) => Some(ValueRef::of(env.param(*number)?)),
        Expr::Not(operand) => negate(eval(operand.get(), env)?),
        Expr::Minus(operand) => oppose(eval(operand.get(), env)?),
        Expr::Binary(sign, left, right) => {
            let left = eval(left.get(), env)?;
            let right = eval(right.get(), env)?;
            join(*sign, left, right)
        }
    }
}
