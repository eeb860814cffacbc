//! The conditions and the sets of one part of a rule.

ghost use Rattle.std.specs.Prelude.{◌≡◌, ◌++◌, ◌∷◌, [], IfOk, OnOk, option_copied};
ghost use Rattle.hs_check.specs.Expressions as spec;

use crate::elements::{feature_number, node_number};
use hs_expr::{Expr, List};
use hs_faults::statements::{CheckedStatement, StatementKind};
use hs_faults::{BlockId, DeclaredNode, same_block};
use hs_types::{Meta, SetItem};
use sqlite_items::Boxed;
use std::alloc::{AllocError, Global};

/// A copy of an expression that nests few.
fn copy_of(alloc: Global, expr: &Expr) -> Result<Expr, AllocError>
    ensures { IfOk result (λ copy. copy ≡ expr.now) }
{
    match expr {
        Expr::Literal(value) => Ok(Expr::Literal(value.clone()?)),
        Expr::Slot(read) => Ok(Expr::Slot(*read)),
        Expr::Param(number) => Ok(Expr::Param(*number)),
        Expr::Not(operand) => {
            let operand = copy_of(alloc, operand.get())?;
            Ok(Expr::Not(Boxed::new(alloc, operand)?))
        }
        Expr::Minus(operand) => {
            let operand = copy_of(alloc, operand.get())?;
            Ok(Expr::Minus(Boxed::new(alloc, operand)?))
        }
        Expr::Binary(sign, left, right) => {
            let left = Boxed::new(alloc, copy_of(alloc, left.get())?)?;
            let right = Boxed::new(alloc, copy_of(alloc, right.get())?)?;
            Ok(Expr::Binary(*sign, left, right))
        }
    }
}

/// The condition that the statement means, if it is one of this part of the rule.
fn where_in<'a>(part: BlockId, checked: &'a CheckedStatement<'_>) -> Option<&'a Expr>
    ensures { option_copied result ≡ spec.where_in part checked.now }
{
    match checked.statement.kind {
        StatementKind::Where { .. } if same_block(part, checked.statement.block) => {
            checked.expr.as_ref()
        }
        _ => None,
    }
}

/// Adds the condition that the statement means, if it is one of this part of the rule.
fn add_where(
    alloc: Global,
    wheres: &mut List<Expr>,
    statement: &CheckedStatement<'_>,
    part: BlockId,
) -> Result<(), AllocError>
    ensures { OnOk result (wheres.new ≡ wheres.old ++ spec.wheres_in (statement.now ∷ []) part) }
{
    if let Some(test) = where_in(part, statement) {
        wheres.push(copy_of(alloc, test)?)?;
    }
    Ok(())
}

/// The conditions of one part of the rule.
pub fn wheres_in(
    alloc: Global,
    statements: &[CheckedStatement<'_>],
    part: BlockId,
) -> Result<List<Expr>, AllocError>
    ensures { IfOk result (λ wheres. wheres ≡ spec.wheres_in statements.now part) }
{
    let mut wheres = List::new(alloc);
    for statement in statements {
        add_where(alloc, &mut wheres, statement, part)?;
    }
    Ok(wheres)
}

fn set_meant(
    meta: &Meta,
    declared: &[DeclaredNode],
    node: &str,
    attribute: &str,
    value: Expr,
) -> SetItem
    ensures { result ≡ spec.set_meant meta.now declared.now node.now attribute.now value }
{
    SetItem {
        node: node_number(declared, node),
        attribute: feature_number(meta, declared, node, attribute),
        value,
    }
}

/// The set that the statement means, if it is one of this part of the rule.
fn set_in(
    alloc: Global,
    meta: &Meta,
    declared: &[DeclaredNode],
    part: BlockId,
    checked: &CheckedStatement<'_>,
) -> Result<Option<SetItem>, AllocError>
    ensures { IfOk result (λ item. item ≡ spec.set_in meta.now declared.now part checked.now) }
{
    match (checked.statement.kind, &checked.expr) {
        (
            StatementKind::Set {
                node,
                attribute,
                ..
            },
            Some(value),
        ) if same_block(part, checked.statement.block) => {
            Ok(Some(set_meant(
                meta,
                declared,
                node.text.as_str(),
                attribute.text.as_str(),
                copy_of(alloc, value)?,
            )))
        }
        _ => Ok(None),
    }
}

/// Adds the set that the statement means, if it is one of this part of the rule.
fn add_set(
    alloc: Global,
    meta: &Meta,
    declared: &[DeclaredNode],
    sets: &mut List<SetItem>,
    statement: &CheckedStatement<'_>,
    part: BlockId,
) -> Result<(), AllocError>
    ensures { OnOk result
        (sets.new ≡ sets.old ++ spec.sets_in meta.now declared.now (statement.now ∷ []) part) }
{
    if let Some(item) = set_in(alloc, meta, declared, part, statement)? {
        sets.push(item)?;
    }
    Ok(())
}

/// The sets of one part of the rule.
pub fn sets_in(
    alloc: Global,
    meta: &Meta,
    declared: &[DeclaredNode],
    statements: &[CheckedStatement<'_>],
    part: BlockId,
) -> Result<List<SetItem>, AllocError>
    ensures { IfOk result (λ sets. sets ≡ spec.sets_in meta.now declared.now statements.now part) }
{
    let mut sets = List::new(alloc);
    for statement in statements {
        add_set(alloc, meta, declared, &mut sets, statement, part)?;
    }
    Ok(sets)
}
