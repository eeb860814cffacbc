//! The edges, sets and conditions of a rule, in written order, with their expressions.

ghost use Rattle.std.specs.Prelude.{◌≡◌, ◌++◌, [], List, IfOk, OnOk, is_some};
ghost use Rattle.std.specs.List.{list_all};
ghost use Rattle.hs_expr.specs.Steps.{GivesBy};
ghost use Rattle.hs_expr.specs.Verdict.{verdict};
ghost use Rattle.hs_expr.specs.Steps.{GivesWhere};
ghost use Rattle.hs_faults.specs.Contents.{checked_statements, expr_found, statement_expr};
ghost use Rattle.hs_faults.specs.Depths.{has_expr, is_complete, is_flat, nests_few};
ghost use Rattle.hs_faults.specs.Numbers.{data_params};
ghost use Rattle.hs_faults.specs.StatementKinds.{statement_at};
ghost use Rattle.hs_faults.specs.StatementFaults as spec;
ghost use Rattle.hs_faults.specs.Written.{HasSlots};

use crate::data_parameters::data_params;
use crate::edges::{check_edge, same_block, visible_node};
use crate::fault::{RuleFault, RuleFaultKind, fault_at};
use crate::name_index::{DataIndex, NameIndex, NodeIndex};
use crate::scope::{RuleScope, attribute_of, check_expr};
use crate::statements::{CheckedStatement, Statement, StatementKind};
use crate::written::{Written, is_set_before, set_slot};
use hs_expr::{Expr, Failure, Kind, List, Name, NameExpr, Span, demand, needed};
use hs_text::{Mark, Param};
use hs_types::Meta;
use std::alloc::Global;

pub fn same_kind(one: Kind, other: Kind) -> bool
    ensures { result ≡ spec.same_kind one other }
{
    match (one, other) {
        (Kind::Int, Kind::Int) => true,
        (Kind::Bool, Kind::Bool) => true,
        (Kind::Text, Kind::Text) => true,
        _ => false,
    }
}

/// The value that is set, by numbers where it nests few, or the first fault of the set.
#[tactic(auto, unfolding(crate::specs::StatementFaults::set_checked))]
fn check_set(
    alloc: Global,
    names: &RuleScope<'_, '_, '_>,
    written: &Written<'_>,
    node: &Name,
    attribute: &Name,
    value: &NameExpr,
) -> Result<Option<Expr>, Failure<RuleFault>>
    ensures fault { (slots : List spec.Slot) → HasSlots written.now slots
        → GivesBy (λ expr. tt) result
        (spec.set_checked names.now.meta.now names.now.params.now names.now.nodes.now slots
        names.now.block node.now attribute.now value.now) }
    ensures expr { IfOk result (λ expr. expr ≡ expr_found (spec.expr_checked (spec.rule_scope
        names.now.meta.now names.now.params.now names.now.nodes.now names.now.block) value.now)) }
    ensures depth { IfOk result (λ expr. is_some expr ≡ nests_few (spec.expr_checked
        (spec.rule_scope names.now.meta.now names.now.params.now names.now.nodes.now
        names.now.block) value.now)) }
{
    let target = visible_node(names.nodes, names.block, node)?;
    demand(
        target.mark != Mark::Delete,
        fault_at(node.span, RuleFaultKind::WriteOnDeleted),
    )?;
    demand(
        same_block(names.block, target.block),
        fault_at(node.span, RuleFaultKind::KernelSlotInCopy),
    )?;
    let (_, wanted) = needed(
        attribute_of(names.meta, target, attribute.text.as_str()),
        fault_at(attribute.span, RuleFaultKind::UnknownAttribute),
    )?;
    demand(
        !is_set_before(written, node.text.as_str(), attribute.text.as_str()),
        fault_at(attribute.span, RuleFaultKind::Twice),
    )?;
    let found = check_expr(alloc, names, value)?;
    demand(
        same_kind(found.kind, wanted),
        fault_at(attribute.span, RuleFaultKind::BadKind),
    )?;
    Ok(found.expr)
}

/// The condition by numbers, where it nests few, or its first fault.
#[tactic(auto, unfolding(crate::specs::StatementFaults::where_checked))]
fn check_where(
    alloc: Global,
    names: &RuleScope<'_, '_, '_>,
    word: Span,
    test: &NameExpr,
) -> Result<Option<Expr>, Failure<RuleFault>>
    ensures fault { GivesBy (λ expr. tt) result
        (spec.where_checked names.now.meta.now names.now.params.now names.now.nodes.now
        names.now.block word test.now) }
    ensures expr { IfOk result (λ expr. expr ≡ expr_found (spec.expr_checked (spec.rule_scope
        names.now.meta.now names.now.params.now names.now.nodes.now names.now.block) test.now)) }
    ensures depth { IfOk result (λ expr. is_some expr ≡ nests_few (spec.expr_checked
        (spec.rule_scope names.now.meta.now names.now.params.now names.now.nodes.now
        names.now.block) test.now)) }
{
    let found = check_expr(alloc, names, test)?;
    demand(
        same_kind(found.kind, Kind::Bool),
        fault_at(word, RuleFaultKind::BadKind),
    )?;
    Ok(found.expr)
}

/// The statement's expression by numbers, where it has one that nests few, or the first fault. The
/// slot that it sets joins those that are set.
fn check_statement<'a>(
    alloc: Global,
    names: &RuleScope<'_, '_, '_>,
    written: &mut Written<'a>,
    kind: &StatementKind<'a>,
) -> Result<Option<Expr>, Failure<RuleFault>>
    ensures fault { (slots : List spec.Slot) → HasSlots written.old slots
        → GivesBy (λ expr. tt) result
        (spec.statement_checked names.now.meta.now names.now.params.now names.now.nodes.now slots
        (statement_at names.now.block kind.now)) }
    ensures slots { (slots : List spec.Slot) → HasSlots written.old slots
        → OnOk result (HasSlots written.new
        (slots ++ spec.slot_set_by (statement_at names.now.block kind.now))) }
    ensures expr { IfOk result
        (λ expr. expr ≡ statement_expr names.now.meta.now names.now.params.now names.now.nodes.now
        (statement_at names.now.block kind.now)) }
    ensures depth { IfOk result (λ expr. has_expr expr (statement_at names.now.block kind.now)
        ≡ is_flat names.now.meta.now names.now.params.now names.now.nodes.now
        (statement_at names.now.block kind.now)) }
{
    match kind {
        StatementKind::Edge {
            mark,
            source,
            target,
            reference,
        } => {
            check_edge(
                names.meta,
                names.nodes,
                names.block,
                *mark,
                source,
                target,
                reference,
            )?;
            Ok(None)
        }
        StatementKind::Set {
            node,
            attribute,
            value,
        } => {
            let expr = check_set(alloc, names, written, node, attribute, value)?;
            set_slot(alloc, written, node.text.as_str(), attribute.text.as_str())?;
            Ok(expr)
        }
        StatementKind::Where { word, test } => check_where(alloc, names, *word, test),
    }
}

/// The statements with their expressions, or the first fault of the statements.
pub fn check_statements<'a>(
    alloc: Global,
    meta: &Meta,
    params: &[Param],
    nodes: &NodeIndex<'_>,
    statements: &[Statement<'a>],
) -> Result<List<CheckedStatement<'a>>, Failure<RuleFault>>
    ensures checked { GivesWhere (λ checked. checked ≡ checked_statements meta.now
        (data_params params.now) nodes.now statements.now) result (verdict
        (spec.statement_faults meta.now (data_params params.now) nodes.now [] statements.now)) }
    ensures depth { IfOk result (λ checked. list_all is_complete checked
        ≡ list_all (is_flat meta.now (data_params params.now) nodes.now) statements.now) }
{
    let given = data_params(alloc, params)?;
    let index = NameIndex::of(alloc, given.as_slice())?;
    check_each_statement(alloc, meta, &index, nodes, statements)
}

/// The same, given the parameters for data.
fn check_each_statement<'a>(
    alloc: Global,
    meta: &Meta,
    params: &DataIndex<'_>,
    nodes: &NodeIndex<'_>,
    statements: &[Statement<'a>],
) -> Result<List<CheckedStatement<'a>>, Failure<RuleFault>>
    ensures checked { GivesWhere (λ checked. checked
        ≡ checked_statements meta.now params.now nodes.now statements.now) result (verdict
        (spec.statement_faults meta.now params.now nodes.now [] statements.now)) }
    ensures depth { IfOk result (λ checked. list_all is_complete checked
        ≡ list_all (is_flat meta.now params.now nodes.now) statements.now) }
{
    let mut written = Written::new(alloc);
    let mut checked = List::new(alloc);
    for statement in statements {
        let names = RuleScope {
            meta,
            params,
            nodes,
            block: statement.block,
        };
        let expr = check_statement(alloc, &names, &mut written, &statement.kind)?;
        checked.push(CheckedStatement {
            statement: Statement {
                block: statement.block,
                kind: statement.kind,
            },
            expr,
        })?;
    }
    Ok(checked)
}
