//! What a sign makes of two values.

ghost use Rattle.std.specs.Prelude.{◌≡◌, ◌≢◌, ℤ, FitsSigned, SomeIff, option_map};
ghost use Rattle.std.specs.Int.{w64};
ghost use Rattle.hs_expr.specs.declared.value.Value.{Value};
ghost use Rattle.hs_expr.specs.declared.value.Value.TheVariants as value;
ghost use Rattle.hs_expr.specs.Evaluation as spec;
ghost use Rattle.hs_expr.specs.Evaluation.{binary_value, kind_of};
ghost use Rattle.hs_eval.specs.ValueRefs.{referent};

use crate::ValueRef;
use hs_expr::Sign;

/// The number as a value, where 64 bits hold it.
pub fn int_value<'a>(number: Option<i64>) -> Option<ValueRef<'a>>
    ensures { (n : ℤ) → SomeIff number (FitsSigned w64 n) n
        → option_map referent result ≡ spec.int_value n }
{
    match number {
        Some(number) => Some(ValueRef::Int(number)),
        None => None,
    }
}

fn bool_value<'a>(answer: bool) -> Option<ValueRef<'a>>
    ensures { option_map referent result ≡ spec.bool_value answer }
{
    Some(ValueRef::Bool(answer))
}

fn join_numbers<'a>(sign: Sign, left: i64, right: i64) -> Option<ValueRef<'a>>
    ensures { option_map referent result ≡ binary_value sign (value.Int left) (value.Int right) }
{
    match sign {
        Sign::Equal => bool_value(left == right),
        Sign::NotEqual => bool_value(left != right),
        Sign::Less => bool_value(left < right),
        Sign::AtMost => bool_value(left <= right),
        Sign::Greater => bool_value(left > right),
        Sign::AtLeast => bool_value(left >= right),
        Sign::Plus => int_value(left.checked_add(right)),
        Sign::Minus => int_value(left.checked_sub(right)),
        Sign::Times => int_value(left.checked_mul(right)),
        Sign::Or | Sign::And => None,
    }
}

fn join_truths<'a>(sign: Sign, left: bool, right: bool) -> Option<ValueRef<'a>>
    ensures { option_map referent result ≡ binary_value sign (value.Bool left) (value.Bool right) }
{
    match sign {
        Sign::Or => bool_value(left || right),
        Sign::And => bool_value(left && right),
        Sign::Equal => bool_value(left == right),
        Sign::NotEqual => bool_value(left != right),
        _ => None,
    }
}

fn join_texts<'a>(sign: Sign, text: &str, other: &str) -> Option<ValueRef<'a>>
    ensures { option_map referent result
        ≡ binary_value sign (value.Text text.now) (value.Text other.now) }
{
    match sign {
        Sign::Equal => bool_value(text == other),
        Sign::NotEqual => bool_value(text != other),
        _ => None,
    }
}

/// Values of two kinds differ, and no other sign takes them.
fn join_unlike<'a>(sign: Sign) -> Option<ValueRef<'a>>
    ensures { (left right : Value) → kind_of left ≢ kind_of right
        → option_map referent result ≡ binary_value sign left right }
{
    match sign {
        Sign::Equal => bool_value(false),
        Sign::NotEqual => bool_value(true),
        _ => None,
    }
}

/// What the sign makes of the two values.
pub fn join<'a>(sign: Sign, left: ValueRef<'a>, right: ValueRef<'a>) -> Option<ValueRef<'a>>
    ensures { option_map referent result
        ≡ binary_value sign (referent left.entry) (referent right.entry) }
{
    match (left, right) {
        (ValueRef::Int(left), ValueRef::Int(right)) => join_numbers(sign, left, right),
        (ValueRef::Bool(left), ValueRef::Bool(right)) => join_truths(sign, left, right),
        (ValueRef::Text(left), ValueRef::Text(right)) => join_texts(sign, left, right),
        _ => join_unlike(sign),
    }
}
