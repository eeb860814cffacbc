//! Tests of single elements of a left side.

ghost use Rattle.std.specs.Prelude.{IsTrue, ◌↔◌, ◌≡◌};
ghost use Rattle.hs_overlap.specs.Contexts.{IsDroppedEdge, IsDroppedNode, IsWrittenSlot};
ghost use Rattle.hs_overlap.specs.LeftSide.{IsLeftEdge, IsLeftNode, IsLeftSlot};
ghost use Rattle.hs_overlap.specs.Overlaps.{NodesMeet};
ghost use Rattle.hs_types.specs.declared.rule.PatternEdge.{PatternEdge};
ghost use Rattle.hs_types.specs.declared.rule.PatternNode.{PatternNode};
ghost use Rattle.hs_types.specs.declared.rule.PatternSlot.{PatternSlot};

use crate::Whole;
use hs_types::{Mark, Meta};

pub fn is_dropped_node(shape: &Whole<'_>, i: usize) -> bool
    ensures { IsTrue result ↔ IsDroppedNode shape.now i }
{
    match shape.node(i) {
        Some(node) => node.mark.is_drop(),
        None => false,
    }
}

pub fn is_dropped_edge(shape: &Whole<'_>, x: usize) -> bool
    ensures { IsTrue result ↔ IsDroppedEdge shape.now x }
{
    match shape.edge(x) {
        Some(edge) => edge.mark.is_drop(),
        None => false,
    }
}

pub fn is_left_node(shape: &Whole<'_>, i: usize) -> bool
    ensures { IsTrue result ↔ (v : PatternNode) × IsLeftNode shape.now i v }
{
    match shape.node(i) {
        Some(node) => node.mark.is_left(),
        None => false,
    }
}

pub fn is_left_edge(shape: &Whole<'_>, y: usize) -> bool
    ensures { IsTrue result ↔ (e : PatternEdge) × IsLeftEdge shape.now y e }
{
    match shape.edge(y) {
        Some(edge) => edge.mark.is_left(),
        None => false,
    }
}

pub fn is_left_slot(shape: &Whole<'_>, l: usize) -> bool
    ensures { IsTrue result ↔ (t : PatternSlot) × (v : PatternNode) × IsLeftSlot shape.now l t v }
{
    match shape.slot(l) {
        Some(slot) => is_left_node(shape, usize::from(slot.node)),
        None => false,
    }
}

pub fn is_written_slot(shape: &Whole<'_>, k: usize) -> bool
    ensures { IsTrue result ↔ IsWrittenSlot shape.now k }
{
    match shape.slot(k) {
        Some(slot) => slot.written && is_left_node(shape, usize::from(slot.node)),
        None => false,
    }
}

/// Whether both are left nodes with a common concrete class.
pub fn nodes_meet(meta: &Meta, first: &Whole<'_>, second: &Whole<'_>, i: usize, j: usize) -> bool
    ensures { IsTrue result ↔ NodesMeet meta.now first.now second.now i j }
{
    let Some(one) = first.node(i) else {
        return false;
    };
    let Some(other) = second.node(j) else {
        return false;
    };
    one.mark.is_left() && other.mark.is_left() && meta.have_common(one.class, other.class)
}
