//! Edges, and the nodes that may be named.

ghost use Rattle.std.specs.Prelude.{◌≡◌};
ghost use Rattle.hs_expr.specs.Steps.{Gives, GivesBy, needed};
ghost use Rattle.hs_types.specs.RuleForm.{joins};
ghost use Rattle.hs_faults.specs.Marks.{mark_meant};
ghost use Rattle.hs_faults.specs.Places.{fault_at};
ghost use Rattle.hs_faults.specs.StatementFaults as spec;
ghost use Rattle.hs_faults.specs.declared.fault.RuleFaultKind.TheVariants as kind;

use crate::fault::{RuleFault, RuleFaultKind, fault_at};
use crate::name_index::NodeIndex;
use crate::names::{class_number, conforms, target_named};
use crate::nodes::{BlockId, DeclaredNode};
use hs_expr::{Failure, Name, Text, demand, needed};
use hs_text::Mark;
use hs_types::{ClassNo, Meta};

/// Whether the two are the same part of a rule.
pub fn same_block(one: BlockId, other: BlockId) -> bool
    ensures { result ≡ spec.same_block one other }
{
    match (one, other) {
        (BlockId::Kernel, BlockId::Kernel) => true,
        (BlockId::Pattern(i), BlockId::Pattern(j)) => i == j,
        (BlockId::Multi(i), BlockId::Multi(j)) => i == j,
        _ => false,
    }
}

/// Whether the node may be named from this part of the rule.
pub fn is_visible(block: BlockId, node: &DeclaredNode) -> bool
    ensures { result ≡ spec.is_visible block node.now }
{
    node.block == BlockId::Kernel || same_block(block, node.block)
}

/// The node of this name, which may be named from this part of the rule.
pub fn visible_node<'a>(
    nodes: &NodeIndex<'a>,
    block: BlockId,
    name: &Name,
) -> Result<&'a DeclaredNode, Failure<RuleFault>>
    ensures { GivesBy (λ node. node.now) result
        (needed (spec.visible_node nodes.now block name.now.text)
        (fault_at name.now.span kind.UnknownNode)) }
{
    match nodes.find(name.text.as_str()) {
        Some(node) if is_visible(block, node) => Ok(node),
        _ => Err(Failure::Fault(fault_at(name.span, RuleFaultKind::UnknownNode))),
    }
}

/// The number of the node's class.
pub fn node_class(meta: &Meta, node: &DeclaredNode) -> Option<ClassNo>
    ensures { result ≡ spec.node_class meta.now node.now }
{
    class_number(meta, &node.class.text)
}

/// Whether the node's class conforms to this one.
fn is_of_class(meta: &Meta, class: ClassNo, node: &DeclaredNode) -> bool
    ensures { result ≡ spec.is_of_class meta.now class node.now }
{
    match node_class(meta, node) {
        Some(own) => conforms(meta, own, class),
        None => false,
    }
}

/// The class that the reference of this name leads to, from the node's class.
fn target_from(meta: &Meta, node: &DeclaredNode, name: &Text) -> Option<ClassNo>
    ensures { result ≡ spec.target_from meta.now node.now name.now }
{
    let class = node_class(meta, node)?;
    target_named(meta, class, name)
}

/// Whether an edge of this mark, in this part of the rule, may join a node of that mark.
fn may_join(block: BlockId, mark: Mark, end: Mark) -> bool
    ensures { result ≡ spec.may_join block mark end }
{
    match block {
        BlockId::Kernel | BlockId::Multi(_) => joins(mark, end),
        BlockId::Pattern(_) => end != Mark::Create,
    }
}

fn joins(mark: Mark, end: Mark) -> bool
    ensures { result ≡ joins (mark_meant mark) (mark_meant end) }
{
    match mark {
        Mark::Preserve => end == Mark::Preserve,
        Mark::Delete => end != Mark::Create,
        Mark::Create => end != Mark::Delete,
    }
}

/// The first fault of an edge.
#[tactic(auto, unfolding(crate::specs::StatementFaults::edge_checked))]
pub fn check_edge(
    meta: &Meta,
    nodes: &NodeIndex<'_>,
    block: BlockId,
    mark: Mark,
    source: &Name,
    target: &Name,
    reference: &Name,
) -> Result<(), Failure<RuleFault>>
    ensures { Gives result
        (spec.edge_checked meta.now nodes.now block mark source.now target.now reference.now) }
{
    let from = visible_node(nodes, block, source)?;
    let to = visible_node(nodes, block, target)?;
    let class = needed(
        target_from(meta, from, &reference.text),
        fault_at(reference.span, RuleFaultKind::UnknownReference),
    )?;
    demand(
        is_of_class(meta, class, to)
            && may_join(block, mark, from.mark)
            && may_join(block, mark, to.mark),
        fault_at(reference.span, RuleFaultKind::BadEnds),
    )
}
