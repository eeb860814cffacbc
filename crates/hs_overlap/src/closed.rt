//! Whether a span is a conflict reason.

ghost use Rattle.std.specs.Prelude.{◌+◌, Contains, IsTrue, Some, length, ◌↔◌, ◌≡◌, ◌≤◌};
ghost use Rattle.hs_overlap.specs.Contexts.{IsDroppedEdge, IsWrittenSlot};
ghost use Rattle.hs_overlap.specs.LeftSide.{whole};
ghost use Rattle.hs_overlap.specs.Reasons.{IsListed, IsReason};
ghost use Rattle.hs_overlap.specs.Overlaps.{CanOccur, DropsItsEdges, EdgesMeet, HasClosedOverlap, MeetsDropped, SlotsMeet};
ghost use Rattle.hs_overlap.specs.Tests.{AreHeldAt, AreSlotsHeld, KeptAtDropped, LeftAt, PairFits, PairsFit, PassesTests, TakesAt};
ghost use Rattle.hs_overlap.specs.Completions.{Joins};
ghost use Rattle.hs_overlap.specs.declared.pair.Pair.TheVariants.{Slot};
ghost use Rattle.hs_types.specs.Metamodel.{IsMeta};
ghost use Rattle.hs_overlap.specs.Completions as spec;
ghost use Rattle.hs_types.specs.declared.limits.TheConstants.{MAX_PATTERN_EDGES, MAX_PATTERN_NODES};

use crate::elements::{
    is_dropped_edge, is_dropped_node, is_left_node, is_written_slot, nodes_meet,
};
use crate::laws::glue;
use crate::listed::{has_deleted, is_listed};
use crate::partners::{Partners, all_differ, is_partner, partners_of};
use crate::search::search;
use crate::{Pair, Pattern, Whole};
use hs_types::{Mark, Meta, Shape};

/// Whether the span is a conflict reason of the shape and the pattern, after Born, Lambers, Strüber
/// and Taentzer (ICGT 2017). A list that isn't in order, has a pair twice or names an element that
/// isn't there is no reason. It takes no memory. Where the pattern drops a node, n kept edges at its
/// partner can lead to about n! tries.
pub fn is_closed(meta: &Meta, first: &Shape, second: &Pattern, span: &[Pair]) -> bool
    requires metamodel { IsMeta meta.now }
    requires few { length first.now.nodes ≤ MAX_PATTERN_NODES }
    requires few_edges { length first.now.edges ≤ MAX_PATTERN_EDGES }
    requires second_few { length (whole second.now.shape second.now.extra).nodes
        ≤ MAX_PATTERN_NODES + MAX_PATTERN_NODES }
    requires second_few_edges { length (whole second.now.shape second.now.extra).edges
        ≤ MAX_PATTERN_EDGES + MAX_PATTERN_EDGES }
    requires one { CanOccur meta.now first.now }
    requires other { CanOccur meta.now (whole second.now.shape second.now.extra) }
    ensures { IsTrue result
        ↔ IsReason meta.now first.now (whole second.now.shape second.now.extra) span.now }
{
    let left = Whole::alone(first);
    let right = Whole::of(second);
    is_reason(meta, &left, &right, span)
}

/// Whether the span is a conflict reason, of sides that are seen as one shape each.
fn is_reason(meta: &Meta, first: &Whole<'_>, second: &Whole<'_>, span: &[Pair]) -> bool
    requires metamodel { IsMeta meta.now }
    requires few { length first.now.nodes ≤ MAX_PATTERN_NODES }
    requires few_edges { length first.now.edges ≤ MAX_PATTERN_EDGES }
    requires one { CanOccur meta.now first.now }
    requires other { CanOccur meta.now second.now }
    ensures { IsTrue result ↔ IsReason meta.now first.now second.now span.now }
{
    if !is_listed(first, second, span) || !has_deleted(first, span) {
        return false;
    }
    glue();
    has_closed_overlap(meta, first, second, span)
}

/// Whether the span is the part over the context of a closed overlap.
fn has_closed_overlap(meta: &Meta, first: &Whole<'_>, second: &Whole<'_>, span: &[Pair]) -> bool
    requires few { length first.now.nodes ≤ MAX_PATTERN_NODES }
    requires few_edges { length first.now.edges ≤ MAX_PATTERN_EDGES }
    requires one { CanOccur meta.now first.now }
    requires other { CanOccur meta.now second.now }
    requires formed { IsListed first.now second.now span.now }
    ensures { IsTrue result ↔ HasClosedOverlap meta.now first.now second.now span.now }
{
    match partners_of(span) {
        Some(partners) => {
            passes_tests(meta, first, second, span, &partners)
                && search(meta, first, second, &partners)
        }
        None => false,
    }
}

/// Whether the partners and the span are all that a closed overlap needs, but for forced edges.
fn passes_tests(
    meta: &Meta,
    first: &Whole<'_>,
    second: &Whole<'_>,
    span: &[Pair],
    partners: &Partners,
) -> bool
    ensures { IsTrue result ↔ PassesTests meta.now first.now second.now span.now partners.now }
{
    if !pairs_fit(meta, first, second, partners, span) {
        return false;
    }
    if !all_differ(&partners.nodes) || !all_differ(&partners.edges) {
        return false;
    }
    if !slots_held(first, second, span, partners) {
        return false;
    }
    drops_its_edges(first) && drops_its_edges(second)
}

fn pairs_fit(
    meta: &Meta,
    first: &Whole<'_>,
    second: &Whole<'_>,
    partners: &Partners,
    span: &[Pair],
) -> bool
    ensures { IsTrue result ↔ PairsFit meta.now first.now second.now partners.now span.now }
{
    for pair in span {
        if !pair_fits(meta, first, second, partners, *pair) {
            return false;
        }
    }
    true
}

/// Whether the pair may be in a closed overlap.
fn pair_fits(
    meta: &Meta,
    first: &Whole<'_>,
    second: &Whole<'_>,
    partners: &Partners,
    pair: Pair,
) -> bool
    ensures { IsTrue result ↔ PairFits meta.now first.now second.now partners.now pair }
{
    match pair {
        Pair::Node(i, j) => {
            nodes_meet(meta, first, second, i, j)
                && (!is_dropped_node(first, i) || takes_at(first, second, partners, j))
        }
        Pair::Edge(x, y) => edges_meet(first, second, partners, x, y),
        Pair::Slot(k, l) => slots_meet(first, second, partners, k, l),
    }
}

/// Whether each left edge of the second side at the node is paired with a dropped one.
fn takes_at(first: &Whole<'_>, second: &Whole<'_>, partners: &Partners, j: usize) -> bool
    ensures { IsTrue result ↔ TakesAt first.now second.now partners.now j }
{
    for y in 0..second.edge_count() {
        if !is_taken_at(first, second, partners, j, y) {
            return false;
        }
    }
    true
}

/// Whether the second side's edge is paired with a dropped one, if it is a left one at the node.
fn is_taken_at(
    first: &Whole<'_>,
    second: &Whole<'_>,
    partners: &Partners,
    j: usize,
    y: usize,
) -> bool
    ensures { IsTrue result ↔ (LeftAt second.now j y
        → MeetsDropped first.now (λ x. spec.partner partners.now.edges x ≡ Some y)) }
{
    !is_left_at(second, y, j) || meets_dropped(first, partners, y)
}

fn is_left_at(shape: &Whole<'_>, y: usize, j: usize) -> bool
    ensures { IsTrue result ↔ LeftAt shape.now j y }
{
    match shape.edge(y) {
        Some(edge) => {
            edge.mark.is_left() && (usize::from(edge.source) == j || usize::from(edge.target) == j)
        }
        None => false,
    }
}

/// Whether the second side's edge is paired with a dropped one.
fn meets_dropped(first: &Whole<'_>, partners: &Partners, y: usize) -> bool
    ensures { IsTrue result
        ↔ MeetsDropped first.now (λ x. spec.partner partners.now.edges x ≡ Some y) }
{
    for x in 0..first.edge_count() {
        if is_dropped_at(first, partners, x, y) {
            return true;
        }
    }
    false
}

/// Whether the second side's edge is paired with dropped edge x.
fn is_dropped_at(first: &Whole<'_>, partners: &Partners, x: usize, y: usize) -> bool
    ensures { IsTrue result ↔ (IsDroppedEdge first.now x
        × (spec.partner partners.now.edges x ≡ Some y)) }
{
    is_dropped_edge(first, x) && is_partner(&partners.edges, x, y)
}

/// Whether both are left edges of one reference, whose ends are paired.
fn edges_meet(
    first: &Whole<'_>,
    second: &Whole<'_>,
    partners: &Partners,
    x: usize,
    y: usize,
) -> bool
    ensures { IsTrue result ↔ EdgesMeet (Joins partners.now) first.now second.now x y }
{
    let Some(one) = first.edge(x) else {
        return false;
    };
    let Some(other) = second.edge(y) else {
        return false;
    };
    one.mark.is_left()
        && other.mark.is_left()
        && one.reference == other.reference
        && is_partner(
            &partners.nodes,
            usize::from(one.source),
            usize::from(other.source),
        )
        && is_partner(
            &partners.nodes,
            usize::from(one.target),
            usize::from(other.target),
        )
}

/// Whether both are left slots of one kind, whose nodes are paired.
fn slots_meet(
    first: &Whole<'_>,
    second: &Whole<'_>,
    partners: &Partners,
    k: usize,
    l: usize,
) -> bool
    ensures { IsTrue result ↔ SlotsMeet (Joins partners.now) first.now second.now k l }
{
    let Some(one) = first.slot(k) else {
        return false;
    };
    let Some(other) = second.slot(l) else {
        return false;
    };
    one.kind == other.kind
        && is_left_node(first, usize::from(one.node))
        && is_left_node(second, usize::from(other.node))
        && is_partner(
            &partners.nodes,
            usize::from(one.node),
            usize::from(other.node),
        )
}

/// Whether all slots that meet, of which the first is written, are pairs of the span.
fn slots_held(first: &Whole<'_>, second: &Whole<'_>, span: &[Pair], partners: &Partners) -> bool
    ensures { IsTrue result ↔ AreSlotsHeld first.now second.now partners.now span.now }
{
    for k in 0..first.slot_count() {
        if !slots_held_at(first, second, span, partners, k) {
            return false;
        }
    }
    true
}

fn slots_held_at(
    first: &Whole<'_>,
    second: &Whole<'_>,
    span: &[Pair],
    partners: &Partners,
    k: usize,
) -> bool
    ensures { IsTrue result ↔ AreHeldAt first.now second.now partners.now span.now k }
{
    for l in 0..second.slot_count() {
        if !is_slot_held(first, second, span, partners, k, l) {
            return false;
        }
    }
    true
}

/// Whether slots that meet, of which the first is written, are a pair of the span.
fn is_slot_held(
    first: &Whole<'_>,
    second: &Whole<'_>,
    span: &[Pair],
    partners: &Partners,
    k: usize,
    l: usize,
) -> bool
    ensures { IsTrue result ↔ (IsWrittenSlot first.now k
        → SlotsMeet (Joins partners.now) first.now second.now k l → Contains span.now (Slot k l)) }
{
    !is_written_slot(first, k)
        || !slots_meet(first, second, partners, k, l)
        || span.contains(&Pair::Slot(k, l))
}

/// Whether no kept edge is at a dropped node.
fn drops_its_edges(shape: &Whole<'_>) -> bool
    ensures { IsTrue result ↔ DropsItsEdges shape.now }
{
    for x in 0..shape.edge_count() {
        if is_kept_at_dropped(shape, x) {
            return false;
        }
    }
    true
}

/// Whether the edge is a kept one at a dropped node.
fn is_kept_at_dropped(shape: &Whole<'_>, x: usize) -> bool
    ensures { IsTrue result ↔ KeptAtDropped shape.now x }
{
    match shape.edge(x) {
        Some(edge) => {
            matches!(edge.mark, Mark::Keep)
                && (is_dropped_node(shape, usize::from(edge.source))
                    || is_dropped_node(shape, usize::from(edge.target)))
        }
        None => false,
    }
}
