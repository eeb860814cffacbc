//! Spans as lists of pairs.

ghost use Rattle.std.specs.Prelude.{Contains, IsTrue, Some, slice_get, ◌↔◌, ◌≡◌};
ghost use Rattle.hs_overlap.specs.Contexts.{IsDeleted, of_first};
ghost use Rattle.hs_overlap.specs.Reasons.{HasDeleted, IsPairBefore, IsListed};
ghost use Rattle.hs_overlap.specs.Tests.{CanMeetHere};
ghost use Rattle.hs_overlap.specs.declared.pair.Pair.{Pair};
ghost use Rattle.std.specs.List.{AllPairs};

use crate::context::is_in_context;
use crate::elements::{
    is_dropped_edge, is_dropped_node, is_left_edge, is_left_node, is_left_slot, is_written_slot,
};
use crate::{Pair, Whole};

pub fn is_listed(first: &Whole<'_>, second: &Whole<'_>, span: &[Pair]) -> bool
    ensures { IsTrue result ↔ IsListed first.now second.now span.now }
{
    in_order(span) && all_can_meet(first, second, span)
}

fn in_order(span: &[Pair]) -> bool
    ensures { IsTrue result ↔ AllPairs IsPairBefore span.now }
{
    for i in 1..span.len() {
        if !is_before_at(span, i - 1, i) {
            return false;
        }
    }
    true
}

/// Whether the pair at place i is before the one at place j, if there are both.
fn is_before_at(span: &[Pair], i: usize, j: usize) -> bool
    ensures { IsTrue result ↔ ((a b : Pair) → slice_get span.now i ≡ Some a
        → slice_get span.now j ≡ Some b → IsPairBefore a b) }
{
    match (span.get(i), span.get(j)) {
        (Some(a), Some(b)) => is_before(*a, *b),
        _ => true,
    }
}

/// Whether a pair is before another.
fn is_before(a: Pair, b: Pair) -> bool
    ensures { IsTrue result ↔ IsPairBefore a b }
{
    match (a, b) {
        (Pair::Node(i, j), Pair::Node(k, l)) => i < k || (i == k && j < l),
        (Pair::Node(_, _), _) => true,
        (Pair::Edge(i, j), Pair::Edge(k, l)) => i < k || (i == k && j < l),
        (Pair::Edge(_, _), Pair::Slot(_, _)) => true,
        (Pair::Slot(i, j), Pair::Slot(k, l)) => i < k || (i == k && j < l),
        _ => false,
    }
}

fn all_can_meet(first: &Whole<'_>, second: &Whole<'_>, span: &[Pair]) -> bool
    ensures { IsTrue result ↔ ((q : Pair) → Contains span.now q
        → CanMeetHere first.now second.now q) }
{
    for pair in span {
        if !can_meet(first, second, *pair) {
            return false;
        }
    }
    true
}

/// Whether the first is of the deletion context and the second of the left side.
fn can_meet(first: &Whole<'_>, second: &Whole<'_>, pair: Pair) -> bool
    ensures { IsTrue result ↔ CanMeetHere first.now second.now pair }
{
    match pair {
        Pair::Node(i, j) => is_in_context(first, i) && is_left_node(second, j),
        Pair::Edge(x, y) => is_dropped_edge(first, x) && is_left_edge(second, y),
        Pair::Slot(k, l) => is_written_slot(first, k) && is_left_slot(second, l),
    }
}

pub fn has_deleted(first: &Whole<'_>, span: &[Pair]) -> bool
    ensures { IsTrue result ↔ HasDeleted first.now span.now }
{
    for pair in span {
        if is_deleted(first, *pair) {
            return true;
        }
    }
    false
}

fn is_deleted(first: &Whole<'_>, pair: Pair) -> bool
    ensures { IsTrue result ↔ IsDeleted first.now (of_first pair) }
{
    match pair {
        Pair::Node(i, _) => is_dropped_node(first, i),
        Pair::Edge(x, _) => is_dropped_edge(first, x),
        Pair::Slot(k, _) => is_written_slot(first, k),
    }
}
