//! The weight of two left sides.

ghost use Rattle.std.specs.Prelude.{IsTrue, length, ◌*◌, ◌+◌, ◌↔◌, ◌≡◌, ◌≤◌};
ghost use Rattle.hs_overlap.specs.LeftSide.{whole};
ghost use Rattle.hs_overlap.specs.Overlaps.{NodesMeet};
ghost use Rattle.hs_overlap.specs.Weights.{HasCount, HaveOneReference, IsCappedProduct, IsCappedWeight, capped};
ghost use Rattle.hs_types.specs.declared.limits.TheConstants.{MAX_PATTERN_EDGES, MAX_PATTERN_NODES};

use crate::elements::nodes_meet;
use crate::{Pattern, Whole};
use hs_types::{Mark, Meta, Shape};

/// The greatest weight of two left sides whose reasons are listed.
pub const MAX_WEIGHT: u64 = 1_000_000;

/// The weight: the product, over the left nodes of the shape, of one more than the number of left
/// nodes of the pattern with a common concrete class, times the product, over its left edges, of
/// one more than the number of left edges of the pattern with the same reference. No more spans
/// than these can be built of pairs of nodes and edges. A weight above [`MAX_WEIGHT`] is given as
/// `MAX_WEIGHT + 1`.
pub fn weight(meta: &Meta, first: &Shape, second: &Pattern) -> u64
    requires few { length first.now.nodes ≤ MAX_PATTERN_NODES }
    requires few_edges { length first.now.edges ≤ MAX_PATTERN_EDGES }
    requires second_few { length (whole second.now.shape second.now.extra).nodes
        ≤ MAX_PATTERN_NODES + MAX_PATTERN_NODES }
    requires second_few_edges { length (whole second.now.shape second.now.extra).edges
        ≤ MAX_PATTERN_EDGES + MAX_PATTERN_EDGES }
    ensures { IsCappedWeight meta.now first.now (whole second.now.shape second.now.extra) result }
{
    let left = Whole::alone(first);
    let right = Whole::of(second);
    weight_of(meta, &left, &right)
}

fn weight_of(meta: &Meta, first: &Whole<'_>, second: &Whole<'_>) -> u64
    requires few { length second.now.nodes ≤ MAX_PATTERN_NODES + MAX_PATTERN_NODES }
    requires few_edges { length second.now.edges ≤ MAX_PATTERN_EDGES + MAX_PATTERN_EDGES }
    ensures { IsCappedWeight meta.now first.now second.now result }
{
    times(node_ways(meta, first, second), edge_ways(first, second))
}

/// The product, up to the cap.
fn times(one: u64, other: u64) -> u64
    ensures { result ≡ capped (one * other) }
{
    one.saturating_mul(other).min(MAX_WEIGHT + 1)
}

fn node_ways(meta: &Meta, first: &Whole<'_>, second: &Whole<'_>) -> u64
    requires { length second.now.nodes ≤ MAX_PATTERN_NODES + MAX_PATTERN_NODES }
    ensures { IsCappedProduct (NodesMeet meta.now first.now second.now) (length first.now.nodes)
        result }
{
    let mut ways = 1;
    for i in 0..first.node_count() {
        ways = times(ways, 1 + node_partners(meta, first, second, i));
    }
    ways
}

fn edge_ways(first: &Whole<'_>, second: &Whole<'_>) -> u64
    requires { length second.now.edges ≤ MAX_PATTERN_EDGES + MAX_PATTERN_EDGES }
    ensures { IsCappedProduct (HaveOneReference first.now second.now) (length first.now.edges)
        result }
{
    let mut ways = 1;
    for x in 0..first.edge_count() {
        ways = times(ways, 1 + edge_partners(first, second, x));
    }
    ways
}

/// How many nodes of the second side can be paired with the first side's node.
fn node_partners(meta: &Meta, first: &Whole<'_>, second: &Whole<'_>, i: usize) -> u64
    requires { length second.now.nodes ≤ MAX_PATTERN_NODES + MAX_PATTERN_NODES }
    ensures exact { HasCount (NodesMeet meta.now first.now second.now i) result }
    ensures few { result ≤ MAX_PATTERN_NODES + MAX_PATTERN_NODES }
{
    let mut count = 0;
    for j in 0..second.node_count() {
        if nodes_meet(meta, first, second, i, j) {
            count += 1;
        }
    }
    count
}

/// How many edges of the second side can be paired with the first side's edge.
fn edge_partners(first: &Whole<'_>, second: &Whole<'_>, x: usize) -> u64
    requires { length second.now.edges ≤ MAX_PATTERN_EDGES + MAX_PATTERN_EDGES }
    ensures exact { HasCount (HaveOneReference first.now second.now x) result }
    ensures few { result ≤ MAX_PATTERN_EDGES + MAX_PATTERN_EDGES }
{
    let mut count = 0;
    for y in 0..second.edge_count() {
        if have_one_reference(first, second, x, y) {
            count += 1;
        }
    }
    count
}

/// Whether both are left edges, of one reference.
fn have_one_reference(first: &Whole<'_>, second: &Whole<'_>, x: usize, y: usize) -> bool
    ensures { IsTrue result ↔ HaveOneReference first.now second.now x y }
{
    let Some(one) = first.edge(x) else {
        return false;
    };
    let Some(other) = second.edge(y) else {
        return false;
    };
    one.mark.is_left() && other.mark.is_left() && one.reference == other.reference
}
