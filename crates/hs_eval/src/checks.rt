//! Checking an expression by names, piece by piece.

ghost use Rattle.std.specs.Prelude.{[]};
ghost use Rattle.hs_expr.specs.Steps.{Gives, GivesBy, Leaves};
ghost use Rattle.hs_expr.specs.NameExprs.{expr_tree};
ghost use Rattle.hs_eval.specs.Checking.{check_tree};
ghost use Rattle.hs_eval.specs.Results.{checked_of, ok_map};
ghost use Rattle.hs_eval.specs.Stacks.{stack_after_all, stack_after, pop};

use crate::fault::{ExprFault, Wrong, wrong_at};
use crate::leaves::leaf;
use crate::operand::Operand;
use crate::operators::{junction, negation, opposition};
use crate::{Checked, Scope};
use hs_expr::{Failure, NameExpr, Piece, Span, Stack, needed};
use std::alloc::Global;

/// Takes the top of the stack. An operator that finds nothing there misses an operand of its kind.
fn take(stack: &mut Stack<Operand>, span: Span) -> Result<Operand, Failure<ExprFault>>
    ensures { GivesBy (λ operand. (operand, stack.new)) result (pop span stack.old) }
{
    needed(stack.pop(), wrong_at(span, Wrong::BadKind))
}

/// Checks one more piece, with its operands on the stack.
fn step<C: Scope>(
    alloc: Global,
    stack: &mut Stack<Operand>,
    piece: &Piece,
    scope: &C,
) -> Result<(), Failure<ExprFault>>
    ensures { Leaves result stack.new (stack_after (C.names scope.now) piece.now stack.old) }
{
    let one = match piece {
        Piece::Not { span } => negation(alloc, *span, take(stack, *span)?)?,
        Piece::Minus { span } => opposition(alloc, *span, take(stack, *span)?)?,
        Piece::Binary { sign, span } => {
            let right = take(stack, *span)?;
            let left = take(stack, *span)?;
            junction(alloc, *sign, *span, left, right)?
        }
        _ => leaf(piece, scope)?,
    };
    stack.push(one)?;
    Ok(())
}

/// The stack after the pieces.
fn run<C: Scope>(
    alloc: Global,
    pieces: &[Piece],
    scope: &C,
) -> Result<Stack<Operand>, Failure<ExprFault>>
    ensures { Gives result (stack_after_all (C.names scope.now) pieces.now []) }
{
    let mut stack = Stack::new(alloc);
    for piece in pieces {
        step(alloc, &mut stack, piece, scope)?;
    }
    Ok(stack)
}

/// The kind of the expression, and the expression with its names resolved to numbers where it nests
/// at most 32 deep; or its first fault: those of operands come first, operand by operand from the
/// left, then the sign's or the word's own. A fault's place is that of the name, the sign or the
/// word that it is reported at.
///
/// It goes through the pieces once, with a stack of its own, and builds nothing that nests deeper,
/// so no text overruns the machine's stack.
pub fn check<C: Scope>(
    alloc: Global,
    names: &NameExpr,
    scope: &C,
) -> Result<Checked, Failure<ExprFault>>
    ensures { Gives result
        (ok_map checked_of (check_tree (C.names scope.now) (expr_tree names.now))) }
{
    match run(alloc, names.pieces.as_slice(), scope) {
        Ok(mut stack) => Ok(stack.pop().unwrap().into_checked()),
        Err(failure) => Err(failure),
    }
}
