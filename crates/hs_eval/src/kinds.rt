//! The kinds that signs and words take and give.

ghost use Rattle.std.specs.Prelude.{◌≡◌};
ghost use Rattle.hs_expr.specs.declared.value.Kind.TheVariants as kind;
ghost use Rattle.hs_expr.specs.Evaluation.{binary_kind, not_kind, minus_kind};

use hs_expr::{Kind, Sign};

pub fn not_kind(operand: Kind) -> Option<Kind>
    ensures { result ≡ not_kind operand }
{
    match operand {
        Kind::Bool => Some(Kind::Bool),
        Kind::Int | Kind::Text => None,
    }
}

pub fn minus_kind(operand: Kind) -> Option<Kind>
    ensures { result ≡ minus_kind operand }
{
    match operand {
        Kind::Int => Some(Kind::Int),
        Kind::Bool | Kind::Text => None,
    }
}

pub fn binary_kind(sign: Sign, left: Kind, right: Kind) -> Option<Kind>
    ensures { result ≡ binary_kind sign left right }
{
    match (left, right) {
        (Kind::Int, Kind::Int) => numbers_kind(sign),
        (Kind::Bool, Kind::Bool) => truths_kind(sign),
        (Kind::Text, Kind::Text) => texts_kind(sign),
        _ => None,
    }
}

fn numbers_kind(sign: Sign) -> Option<Kind>
    ensures { result ≡ binary_kind sign kind.Int kind.Int }
{
    match sign {
        Sign::Plus | Sign::Minus | Sign::Times => Some(Kind::Int),
        Sign::Or | Sign::And => None,
        _ => Some(Kind::Bool),
    }
}

fn truths_kind(sign: Sign) -> Option<Kind>
    ensures { result ≡ binary_kind sign kind.Bool kind.Bool }
{
    match sign {
        Sign::Or | Sign::And | Sign::Equal | Sign::NotEqual => Some(Kind::Bool),
        _ => None,
    }
}

fn texts_kind(sign: Sign) -> Option<Kind>
    ensures { result ≡ binary_kind sign kind.Text kind.Text }
{
    match sign {
        Sign::Equal | Sign::NotEqual => Some(Kind::Bool),
        _ => None,
    }
}
