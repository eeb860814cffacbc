//! The text of an expression, by a single pass over its pieces from the last to the first. So
//! neither the stack nor the time grows with its depth.

ghost use Rattle.std.specs.Prelude.{◌≡◌, ◌++◌, IfOk, OnOk, string_bytes};
ghost use Rattle.std.specs.List.{concat};
ghost use Rattle.hs_text.specs.Canonical as spec;
ghost use Rattle.hs_text.specs.Canonical.{expr_text};
ghost use Rattle.hs_text.specs.Arranging.{next_expr, below_expr, before_expr, paren_tasks, paren_texts, tasks_after, texts_after};

use crate::spelling::{quoted, sign_word, truth_word};
use hs_expr::{Name, NameExpr, Piece, Stack, Text};
use std::alloc::{AllocError, Global};

/// What is still to be written, before what is written already.
#[derive(Debug, Drop)]
pub enum Task {
    /// This text.
    Text(Text),
    /// An expression: in parentheses, if it has to be and an operator makes it.
    Expr(bool),
}

fn slot(alloc: Global, node: &Name, attribute: &Name) -> Result<Text, AllocError>
    ensures { IfOk result (λ text. text ≡ spec.piece_text (Piece.Slot node.now attribute.now)) }
{
    let mut text = String::from_str(alloc, node.text.as_str())?;
    text.push_str(".")?;
    text.push_str(attribute.text.as_str())?;
    Ok(Text::from_string(text))
}

/// The text of a piece by itself.
fn piece_text(alloc: Global, piece: &Piece) -> Result<Text, AllocError>
    ensures { IfOk result (λ text. text ≡ spec.piece_text piece.now) }
{
    match piece {
        Piece::Int { value, .. } => Ok(Text::from_string(format!(in alloc; "{value}")?)),
        Piece::Text { value, .. } => quoted(alloc, value),
        Piece::Bool { value, .. } => Text::from_str(alloc, truth_word(*value)),
        Piece::Name(name) => name.text.clone(),
        Piece::Slot { node, attribute } => slot(alloc, node, attribute),
        Piece::Not { .. } => Text::from_str(alloc, "not "),
        Piece::Minus { .. } => Text::from_str(alloc, "-"),
        Piece::Binary { sign, .. } => {
            let word = sign_word(*sign);
            Ok(Text::from_string(format!(in alloc; " {word} ")?))
        }
    }
}

/// Takes the next expression that is to be written, and whether it needs parentheses; the texts
/// after it are written then.
fn next(tasks: &mut Stack<Task>, texts: &mut Stack<Text>) -> Result<Option<bool>, AllocError>
    ensures next { IfOk result (λ r. r ≡ next_expr tasks.old) }
    ensures below { OnOk result (tasks.new ≡ below_expr tasks.old) }
    ensures written { OnOk result (texts.new ≡ before_expr tasks.old texts.old) }
{
    'tasks: while let Some(task) = tasks.pop() {
        match task {
            Task::Text(text) => texts.push(text)?,
            Task::Expr(parens) => return Ok(Some(parens)),
        }
    }
    Ok(None)
}

fn open(alloc: Global, parens: bool, tasks: &mut Stack<Task>) -> Result<(), AllocError>
    ensures { OnOk result (tasks.new ≡ paren_tasks parens tasks.old) }
{
    if parens {
        tasks.push(Task::Text(Text::from_str(alloc, "(")?))?;
    }
    Ok(())
}

fn close(alloc: Global, parens: bool, texts: &mut Stack<Text>) -> Result<(), AllocError>
    ensures { OnOk result (texts.new ≡ paren_texts parens texts.old) }
{
    if parens {
        texts.push(Text::from_str(alloc, ")")?)?;
    }
    Ok(())
}

/// The operands of an operator are to be written, and the operator before the last one.
fn put_tasks(
    alloc: Global,
    piece: &Piece,
    parens: bool,
    tasks: &mut Stack<Task>,
) -> Result<(), AllocError>
    ensures { OnOk result (tasks.new ≡ tasks_after piece.now parens tasks.old) }
{
    match piece {
        Piece::Not { .. } | Piece::Minus { .. } => {
            open(alloc, parens, tasks)?;
        }
        Piece::Binary { .. } => {
            open(alloc, parens, tasks)?;
            tasks.push(Task::Expr(true))?;
        }
        _ => return Ok(()),
    }
    tasks.push(Task::Text(piece_text(alloc, piece)?))?;
    tasks.push(Task::Expr(true))
}

fn put_text(
    alloc: Global,
    piece: &Piece,
    parens: bool,
    texts: &mut Stack<Text>,
) -> Result<(), AllocError>
    ensures { OnOk result (texts.new ≡ texts_after piece.now parens texts.old) }
{
    match piece {
        Piece::Not { .. } | Piece::Minus { .. } | Piece::Binary { .. } => {
            close(alloc, parens, texts)
        }
        _ => texts.push(piece_text(alloc, piece)?),
    }
}

/// The texts with which an expression is written, the first one on top.
fn texts_of(alloc: Global, expr: &NameExpr) -> Result<Stack<Text>, AllocError>
    ensures { IfOk result (λ texts. concat texts ≡ expr_text expr.now) }
{
    let pieces = expr.pieces.as_slice();
    let mut tasks = Stack::new(alloc);
    let mut texts = Stack::new(alloc);
    tasks.push(Task::Expr(false))?;
    for i in 0..pieces.len() {
        let piece = &pieces[pieces.len() - 1 - i];
        let parens = next(&mut tasks, &mut texts)?.unwrap_or(false);
        put_tasks(alloc, piece, parens, &mut tasks)?;
        put_text(alloc, piece, parens, &mut texts)?;
    }
    next(&mut tasks, &mut texts)?;
    Ok(texts)
}

/// Writes the texts, the top first.
fn write_texts(out: &mut String, texts: &mut Stack<Text>) -> Result<(), AllocError>
    ensures { OnOk result (string_bytes out.new ≡ string_bytes out.old ++ concat texts.old) }
{
    'texts: while let Some(text) = texts.pop() {
        out.push_str(text.as_str())?;
    }
    Ok(())
}

/// Writes an expression.
pub fn write_expr(alloc: Global, out: &mut String, expr: &NameExpr) -> Result<(), AllocError>
    ensures { OnOk result (string_bytes out.new ≡ string_bytes out.old ++ expr_text expr.now) }
{
    let mut texts = texts_of(alloc, expr)?;
    write_texts(out, &mut texts)
}
