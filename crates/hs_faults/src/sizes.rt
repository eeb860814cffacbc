//! The sizes that rules keep.

ghost use Rattle.std.specs.Prelude.{◌≡◌, ◌++◌, ◌&&◌, IfOk, OnOk, length, not};
ghost use Rattle.std.specs.List.{filter, list_all};
ghost use Rattle.hs_expr.specs.Steps.{Gives};
ghost use Rattle.hs_expr.specs.Verdict.{fault_if, verdict};
ghost use Rattle.hs_faults.specs.Depths.{is_complete};
ghost use Rattle.hs_faults.specs.Places.{fault_at};
ghost use Rattle.hs_faults.specs.Sizes as spec;
ghost use Rattle.hs_faults.specs.StatementFaults.{same_block};

use crate::edges::same_block;
use crate::fault::{RuleFault, RuleFaultKind, fault_at};
use crate::nodes::{BlockId, DeclaredNode};
use crate::numbers::count_in;
use crate::statements::{CheckedStatement, Statement, StatementKind};
use hs_expr::{Failure, List, Name, demand};
use hs_text::{Item, Param, Rule};
use hs_types::limits::{
    MAX_MULTI_BLOCKS, MAX_PARALLEL_EDGES, MAX_PARAMS, MAX_PATTERN_BLOCKS, MAX_PATTERN_EDGES,
    MAX_PATTERN_NODES,
};
use std::alloc::{AllocError, Global};

/// The fault of a rule that doesn't keep the limits.
pub fn check_sizes(
    alloc: Global,
    rule: &Rule,
    nodes: &[DeclaredNode],
    statements: &[Statement<'_>],
    checked: &[CheckedStatement<'_>],
) -> Result<(), Failure<RuleFault>>
    ensures { Gives result (verdict (fault_if
        (not (spec.sizes_fit rule.now.params (spec.blocks rule.now.items) nodes.now statements.now
        && list_all is_complete checked.now))
        (fault_at rule.now.name.span RuleFaultKind.Limit))) }
{
    let blocks = blocks(alloc, rule.items.as_slice())?;
    let keeps = keeps_limits(rule, blocks.as_slice(), nodes, statements, checked);
    demand(keeps, fault_at(rule.name.span, RuleFaultKind::Limit))
}

fn keeps_limits(
    rule: &Rule,
    blocks: &[BlockId],
    nodes: &[DeclaredNode],
    statements: &[Statement<'_>],
    checked: &[CheckedStatement<'_>],
) -> bool
    ensures { result ≡ (spec.sizes_fit rule.now.params blocks.now nodes.now statements.now
        && list_all is_complete checked.now) }
{
    sizes_fit(rule.params.as_slice(), blocks, nodes, statements) && are_complete(checked)
}

/// Whether no expression is missing, as one does that nests deep.
fn are_complete(checked: &[CheckedStatement<'_>]) -> bool
    ensures { result ≡ list_all is_complete checked.now }
{
    checked.iter().all(|statement| is_complete(statement))
}

fn is_complete(checked: &CheckedStatement<'_>) -> bool
    ensures { result ≡ is_complete checked.now }
{
    match checked.statement.kind {
        StatementKind::Edge { .. } => true,
        StatementKind::Set { .. } | StatementKind::Where { .. } => checked.expr.is_some(),
    }
}

/// The forbid, require and multi blocks among the items.
fn blocks(alloc: Global, items: &[Item]) -> Result<List<BlockId>, AllocError>
    ensures { IfOk result (λ blocks. blocks ≡ spec.blocks items.now) }
{
    let mut blocks = List::new(alloc);
    for (i, item) in items.iter().enumerate() {
        add_block(&mut blocks, i, item)?;
    }
    Ok(blocks)
}

/// Adds the item, which has this place, if it is a block.
fn add_block(blocks: &mut List<BlockId>, place: usize, item: &Item) -> Result<(), AllocError>
    ensures { OnOk result (blocks.new ≡ blocks.old ++ spec.block_of place item.now) }
{
    match item {
        Item::Simple(_) => Ok(()),
        Item::Forbid(_) => blocks.push(BlockId::Pattern(place)),
        Item::Require(_) => blocks.push(BlockId::Pattern(place)),
        Item::Multi(_) => blocks.push(BlockId::Multi(place)),
    }
}

/// Whether a rule of these parameters, blocks, nodes and statements keeps the limits of sizes.
fn sizes_fit(
    params: &[Param],
    blocks: &[BlockId],
    nodes: &[DeclaredNode],
    statements: &[Statement<'_>],
) -> bool
    ensures { result ≡ spec.sizes_fit params.now blocks.now nodes.now statements.now }
{
    params.len() <= MAX_PARAMS
        && count_patterns(blocks) <= MAX_PATTERN_BLOCKS
        && count_multis(blocks) <= MAX_MULTI_BLOCKS
        && has_few(nodes, statements, BlockId::Kernel)
        && all_have_few(nodes, statements, blocks)
        && few_alike(statements)
}

fn count_patterns(blocks: &[BlockId]) -> usize
    ensures { result ≡ length (filter spec.is_pattern blocks.now) }
{
    blocks.iter().filter(|block| is_pattern(**block)).count()
}

fn is_pattern(block: BlockId) -> bool
    ensures { result ≡ spec.is_pattern block }
{
    match block {
        BlockId::Pattern(_) => true,
        BlockId::Kernel | BlockId::Multi(_) => false,
    }
}

fn count_multis(blocks: &[BlockId]) -> usize
    ensures { result ≡ length (filter spec.is_multi blocks.now) }
{
    blocks.iter().filter(|block| is_multi(**block)).count()
}

fn is_multi(block: BlockId) -> bool
    ensures { result ≡ spec.is_multi block }
{
    match block {
        BlockId::Multi(_) => true,
        BlockId::Kernel | BlockId::Pattern(_) => false,
    }
}

fn all_have_few(nodes: &[DeclaredNode], statements: &[Statement<'_>], blocks: &[BlockId]) -> bool
    ensures { result ≡ list_all (spec.has_few nodes.now statements.now) blocks.now }
{
    blocks
        .iter()
        .all(|block| has_few(nodes, statements, *block))
}

/// Whether this part of the rule has few nodes and edges.
fn has_few(nodes: &[DeclaredNode], statements: &[Statement<'_>], part: BlockId) -> bool
    ensures { result ≡ spec.has_few nodes.now statements.now part }
{
    count_in(nodes, part) <= MAX_PATTERN_NODES && count_edges(statements, part) <= MAX_PATTERN_EDGES
}

fn count_edges(statements: &[Statement<'_>], part: BlockId) -> usize
    ensures { result ≡ length (filter (spec.is_edge_of part) statements.now) }
{
    statements
        .iter()
        .filter(|statement| is_edge_of(part, statement))
        .count()
}

fn is_edge_of(part: BlockId, statement: &Statement<'_>) -> bool
    ensures { result ≡ spec.is_edge_of part statement.now }
{
    match &statement.kind {
        StatementKind::Edge { .. } => same_block(part, statement.block),
        StatementKind::Set { .. } | StatementKind::Where { .. } => false,
    }
}

/// Whether few edges are alike, each with each.
fn few_alike(statements: &[Statement<'_>]) -> bool
    ensures { result ≡ list_all (spec.has_few_alike statements.now) statements.now }
{
    statements
        .iter()
        .all(|statement| has_few_alike(statements, statement))
}

fn has_few_alike(statements: &[Statement<'_>], statement: &Statement<'_>) -> bool
    ensures { result ≡ spec.has_few_alike statements.now statement.now }
{
    match &statement.kind {
        StatementKind::Edge {
            source,
            target,
            reference,
            ..
        } => count_alike(statements, statement.block, source, target, reference)
            <= MAX_PARALLEL_EDGES,
        StatementKind::Set { .. } | StatementKind::Where { .. } => true,
    }
}

fn count_alike(
    statements: &[Statement<'_>],
    part: BlockId,
    source: &Name,
    target: &Name,
    reference: &Name,
) -> usize
    ensures { result ≡ length
        (filter (spec.is_alike part source.now target.now reference.now) statements.now) }
{
    statements
        .iter()
        .filter(|other| is_alike(part, source, target, reference, other))
        .count()
}

/// Whether the statement is an edge of this part, source, target and reference.
fn is_alike(
    part: BlockId,
    source: &Name,
    target: &Name,
    reference: &Name,
    other: &Statement<'_>,
) -> bool
    ensures { result ≡ spec.is_alike part source.now target.now reference.now other.now }
{
    match &other.kind {
        StatementKind::Edge {
            source: from,
            target: to,
            reference: by,
            ..
        } => {
            same_block(part, other.block)
                && source.text == from.text
                && target.text == to.text
                && reference.text == by.text
        }
        StatementKind::Set { .. } | StatementKind::Where { .. } => false,
    }
}
