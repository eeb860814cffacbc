//! The search for a closed overlap.

ghost use Rattle.std.specs.Prelude.{Contains, IfSome, IsSomeAnd, IsTrue, List, None, Some, length, ℕ, ◌<◌, ◌↔◌, ◌≡◌, ◌≤◌};
ghost use Rattle.hs_overlap.specs.LeftSide.{whole};
ghost use Rattle.hs_overlap.specs.Overlaps.{CanOccur};
ghost use Rattle.hs_overlap.specs.Tests.{CanPair, EdgesFit, EndsPut, IsAtDropped};
ghost use Rattle.hs_overlap.specs.Completions.{CanComplete, Completes, IsForced, IsNearlyClosed, IsPut, free_count};
ghost use Rattle.hs_overlap.specs.declared.pair.Pair.{Pair};
ghost use Rattle.hs_overlap.specs.declared.pair.Pair.TheVariants.{Edge, Node};
ghost use Rattle.hs_overlap.specs.Completions as spec;
ghost use Rattle.hs_types.specs.declared.limits.TheConstants.{MAX_PATTERN_EDGES, MAX_PATTERN_NODES};

use crate::Whole;
use crate::context::is_in_context;
use crate::elements::{is_dropped_node, nodes_meet};
use crate::partners::{Partners, is_taken, partner, with_edge, with_node};
use hs_types::{Mark, Meta, PatternEdge};

/// Whether the pairs can grow to a closed overlap: each edge that must be paired is tried with each
/// edge of the second side.
pub fn search(meta: &Meta, first: &Whole<'_>, second: &Whole<'_>, partners: &Partners) -> bool
    requires few { length first.now.nodes ≤ MAX_PATTERN_NODES }
    requires few_edges { length first.now.edges ≤ MAX_PATTERN_EDGES }
    ensures sound { IsTrue result → CanOccur meta.now first.now → CanOccur meta.now second.now
        → (span : List Pair) → IsNearlyClosed meta.now first.now second.now span partners.now
        → CanComplete meta.now first.now second.now span partners.now }
    ensures whole { (span overlap : List Pair)
        → IsNearlyClosed meta.now first.now second.now span partners.now
        → Completes meta.now first.now second.now span partners.now overlap → IsTrue result }
{
    let Some(x) = forced_edge(first, second, partners) else {
        return true;
    };
    for y in 0..second.edge_count() {
        let Some(next) = put_edge(meta, first, second, partners, x, y) else {
            continue;
        };
        if search(meta, first, second, &next) {
            return true;
        }
    }
    false
}

/// An edge of the first side that must be paired, and is not.
fn forced_edge(first: &Whole<'_>, second: &Whole<'_>, partners: &Partners) -> Option<usize>
    ensures some { IfSome result (λ x. IsForced first.now second.now partners.now x) }
    ensures none { result ≡ None → (x : ℕ) → IsForced first.now second.now partners.now x → ⊥ }
{
    for x in 0..first.edge_count() {
        if is_forced(first, second, partners, x) {
            return Some(x);
        }
    }
    None
}

/// Whether the first side's edge must be paired, and is not.
fn is_forced(first: &Whole<'_>, second: &Whole<'_>, partners: &Partners, x: usize) -> bool
    ensures { IsTrue result ↔ IsForced first.now second.now partners.now x }
{
    match first.edge(x) {
        Some(edge) => {
            edge.mark.is_left()
                && partner(&partners.edges, x).is_none()
                && (is_at_dropped(second, partners, usize::from(edge.source))
                    || is_at_dropped(second, partners, usize::from(edge.target)))
        }
        None => false,
    }
}

/// Whether the node is paired with a dropped one.
fn is_at_dropped(second: &Whole<'_>, partners: &Partners, i: usize) -> bool
    ensures { IsTrue result ↔ IsAtDropped second.now partners.now i }
{
    match partner(&partners.nodes, i) {
        Some(j) => is_dropped_node(second, j),
        None => false,
    }
}

/// With the kept edge x paired with edge y, and their ends.
fn put_edge(
    meta: &Meta,
    first: &Whole<'_>,
    second: &Whole<'_>,
    partners: &Partners,
    x: usize,
    y: usize,
) -> Option<Partners>
    requires few { length first.now.nodes ≤ MAX_PATTERN_NODES }
    requires few_edges { length first.now.edges ≤ MAX_PATTERN_EDGES }
    requires free { spec.partner partners.now.edges x ≡ None }
    ensures some { (span : List Pair)
        → IsNearlyClosed meta.now first.now second.now span partners.now
        → IfSome result (IsPut meta.now first.now second.now span partners.now (Edge x y)) }
    ensures whole { (span overlap : List Pair)
        → IsNearlyClosed meta.now first.now second.now span partners.now
        → Completes meta.now first.now second.now span partners.now overlap
        → Contains overlap (Edge x y)
        → IsSomeAnd result (λ next. Completes meta.now first.now second.now span next overlap) }
    ensures fewer { IfSome result (λ next. free_count next.edges < free_count partners.now.edges) }
{
    let Some(one) = first.edge(x) else {
        return None;
    };
    let Some(other) = second.edge(y) else {
        return None;
    };
    if !edges_fit(one, other) || is_taken(&partners.edges, y) {
        return None;
    }
    let Some(next) = put_ends(meta, first, second, partners, one, other) else {
        return None;
    };
    Some(with_edge(&next, x, y))
}

/// Whether the first edge is kept, the second a left one, and both are of one reference.
fn edges_fit(one: &PatternEdge, other: &PatternEdge) -> bool
    ensures { IsTrue result ↔ EdgesFit one.now other.now }
{
    matches!(one.mark, Mark::Keep) && other.mark.is_left() && one.reference == other.reference
}

/// With the ends of the edges paired.
fn put_ends(
    meta: &Meta,
    first: &Whole<'_>,
    second: &Whole<'_>,
    partners: &Partners,
    one: &PatternEdge,
    other: &PatternEdge,
) -> Option<Partners>
    requires few { length first.now.nodes ≤ MAX_PATTERN_NODES }
    ensures some { (span : List Pair)
        → IsNearlyClosed meta.now first.now second.now span partners.now
        → IfSome result
        (EndsPut meta.now first.now second.now span partners.now one.now other.now) }
    ensures whole { (span overlap : List Pair)
        → IsNearlyClosed meta.now first.now second.now span partners.now
        → Completes meta.now first.now second.now span partners.now overlap
        → Contains overlap (Node one.now.source other.now.source)
        → Contains overlap (Node one.now.target other.now.target)
        → IsSomeAnd result (λ next. Completes meta.now first.now second.now span next overlap) }
    ensures edges { IfSome result (λ next. next.edges ≡ partners.now.edges) }
{
    let (one_source, other_source) = (usize::from(one.source), usize::from(other.source));
    let (one_target, other_target) = (usize::from(one.target), usize::from(other.target));
    match put_node(meta, first, second, partners, one_source, other_source) {
        Some(next) => put_node(meta, first, second, &next, one_target, other_target),
        None => None,
    }
}

/// With the pair of nodes, if it is not there and may come.
fn put_node(
    meta: &Meta,
    first: &Whole<'_>,
    second: &Whole<'_>,
    partners: &Partners,
    i: usize,
    j: usize,
) -> Option<Partners>
    requires few { length first.now.nodes ≤ MAX_PATTERN_NODES }
    ensures some { (span : List Pair)
        → IsNearlyClosed meta.now first.now second.now span partners.now
        → IfSome result (IsPut meta.now first.now second.now span partners.now (Node i j)) }
    ensures edges { IfSome result (λ next. next.edges ≡ partners.now.edges) }
    ensures whole { (span overlap : List Pair)
        → IsNearlyClosed meta.now first.now second.now span partners.now
        → Completes meta.now first.now second.now span partners.now overlap
        → Contains overlap (Node i j)
        → IsSomeAnd result (λ next. Completes meta.now first.now second.now span next overlap) }
{
    match partner(&partners.nodes, i) {
        Some(k) => { if k == j { Some(*partners) } else { None } }
        None => {
            if can_pair(meta, first, second, partners, i, j) {
                Some(with_node(partners, i, j))
            } else {
                None
            }
        }
    }
}

/// Whether the pair of nodes may come to these.
fn can_pair(
    meta: &Meta,
    first: &Whole<'_>,
    second: &Whole<'_>,
    partners: &Partners,
    i: usize,
    j: usize,
) -> bool
    ensures { IsTrue result ↔ CanPair meta.now first.now second.now partners.now i j }
{
    nodes_meet(meta, first, second, i, j)
        && !is_in_context(first, i)
        && !is_taken(&partners.nodes, j)
}
