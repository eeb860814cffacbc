//! The parts of an expression that have no operands.

ghost use Rattle.hs_expr.specs.Steps.{Gives};
ghost use Rattle.hs_eval.specs.Checking.{leaf, param_read, slot_read};
ghost use Rattle.hs_eval.specs.Results.{ok_map};
ghost use Rattle.hs_eval.specs.Stacks.{leaf_operand};

use crate::Scope;
use crate::fault::{ExprFault, Wrong, wrong_at};
use crate::operand::Operand;
use hs_expr::{Expr, Failure, Kind, Name, Piece, SlotRead, Value, demand, needed};

fn param_read<C: Scope>(name: &Name, scope: &C) -> Result<(Expr, Kind), Failure<ExprFault>>
    ensures { Gives result (param_read (C.names scope.now) name.now) }
{
    let (number, kind) = needed(
        scope.param(name.text.as_str()),
        wrong_at(name.span, Wrong::UnknownName),
    )?;
    Ok((Expr::Param(number), kind))
}

fn slot_read<C: Scope>(
    owner: &Name,
    name: &Name,
    scope: &C,
) -> Result<(Expr, Kind), Failure<ExprFault>>
    ensures { Gives result (slot_read (C.names scope.now) owner.now name.now) }
{
    let (node, is_left) = needed(
        scope.node(owner.text.as_str()),
        wrong_at(owner.span, Wrong::UnknownNode),
    )?;
    demand(is_left, wrong_at(owner.span, Wrong::NotRead))?;
    let (attribute, kind) = needed(
        scope.attribute(owner.text.as_str(), name.text.as_str()),
        wrong_at(name.span, Wrong::UnknownAttribute),
    )?;
    Ok((Expr::Slot(SlotRead { node, attribute }), kind))
}

fn read<C: Scope>(piece: &Piece, scope: &C) -> Result<(Expr, Kind), Failure<ExprFault>>
    ensures { Gives result (leaf (C.names scope.now) piece.now) }
{
    match piece {
        Piece::Int { value, .. } => Ok((Expr::Literal(Value::Int(*value)), Kind::Int)),
        Piece::Text { value, .. } => Ok((Expr::Literal(Value::Text(value.clone()?)), Kind::Text)),
        Piece::Bool { value, .. } => Ok((Expr::Literal(Value::Bool(*value)), Kind::Bool)),
        Piece::Name(name) => param_read(name, scope),
        Piece::Slot { node, attribute } => slot_read(node, attribute, scope),
        Piece::Not { span } | Piece::Minus { span } | Piece::Binary { span, .. } => {
            Err(Failure::Fault(wrong_at(*span, Wrong::BadKind)))
        }
    }
}

/// What a part without operands is checked to be.
pub fn leaf<C: Scope>(piece: &Piece, scope: &C) -> Result<Operand, Failure<ExprFault>>
    ensures { Gives result (ok_map leaf_operand (leaf (C.names scope.now) piece.now)) }
{
    let (expr, kind) = read(piece, scope)?;
    Ok(Operand::leaf(expr, kind))
}
