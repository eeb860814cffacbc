//! Signs and words with their operands.

ghost use Rattle.hs_expr.specs.Steps.{Gives};
ghost use Rattle.hs_eval.specs.Stacks.{binary_operand, not_operand, minus_operand};

use crate::fault::{ExprFault, Wrong, wrong_at};
use crate::kinds::{binary_kind, minus_kind, not_kind};
use crate::operand::Operand;
use crate::shallow::{binary_shallow, minus_shallow, not_shallow};
use hs_expr::{Failure, Sign, Span, needed};
use std::alloc::Global;

pub fn negation(alloc: Global, span: Span, operand: Operand) -> Result<Operand, Failure<ExprFault>>
    ensures { Gives result (not_operand span operand) }
{
    let kind = needed(not_kind(operand.kind), wrong_at(span, Wrong::BadKind))?;
    let shallow = not_shallow(alloc, operand.shallow)?;
    Ok(Operand { kind, shallow })
}

pub fn opposition(
    alloc: Global,
    span: Span,
    operand: Operand,
) -> Result<Operand, Failure<ExprFault>>
    ensures { Gives result (minus_operand span operand) }
{
    let kind = needed(minus_kind(operand.kind), wrong_at(span, Wrong::BadKind))?;
    let shallow = minus_shallow(alloc, operand.shallow)?;
    Ok(Operand { kind, shallow })
}

pub fn junction(
    alloc: Global,
    sign: Sign,
    span: Span,
    left: Operand,
    right: Operand,
) -> Result<Operand, Failure<ExprFault>>
    ensures { Gives result (binary_operand sign span left right) }
{
    let kind = needed(
        binary_kind(sign, left.kind, right.kind),
        wrong_at(span, Wrong::BadKind),
    )?;
    let shallow = binary_shallow(alloc, sign, left.shallow, right.shallow)?;
    Ok(Operand { kind, shallow })
}
