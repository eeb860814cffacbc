//! The deletion context.

ghost use Rattle.std.specs.Prelude.{◌≤◌, length, IfOk, IsTrue, ℕ, ◌↔◌, ◌⊎◌};
ghost use Rattle.hs_types.specs.Elements.{Edge as EdgeAt, Node as NodeAt, Slot as SlotAt};
ghost use Rattle.hs_overlap.specs.Contexts.{IsInContext};
ghost use Rattle.hs_overlap.specs.LeftSide.{IsGraph};
ghost use Rattle.hs_overlap.specs.Tests.{DropsAt, IsNeeded, WritesAt};
ghost use Rattle.hs_overlap.specs.SubShapes.{AreThose, IsContext};
ghost use Rattle.hs_types.specs.declared.limits.TheConstants.{MAX_PATTERN_EDGES, MAX_PATTERN_NODES};

use crate::Whole;
use crate::elements::{is_dropped_edge, is_dropped_node, is_left_node, is_written_slot};
use hs_expr::List;
use hs_types::{Mark, Shape};
use std::alloc::{AllocError, Global};

/// A subgraph of a left side: the numbers of its nodes, edges and slots, in rising order.
#[derive(Debug, Drop)]
pub struct SubShape {
    pub nodes: List<usize>,
    pub edges: List<usize>,
    pub slots: List<usize>,
}

/// The deletion context: the least subgraph of the left side that has all deleted elements.
pub fn deletion_context(alloc: Global, shape: &Shape) -> Result<SubShape, AllocError>
    requires few { length shape.now.nodes ≤ MAX_PATTERN_NODES }
    requires few_edges { length shape.now.edges ≤ MAX_PATTERN_EDGES }
    requires graph { IsGraph shape.now }
    ensures { IfOk result (IsContext shape.now) }
{
    context_of(alloc, &Whole::alone(shape))
}

/// The context of a shape that may have a part.
fn context_of(alloc: Global, shape: &Whole<'_>) -> Result<SubShape, AllocError>
    requires { IsGraph shape.now }
    ensures { IfOk result (IsContext shape.now) }
{
    let nodes = context_nodes(alloc, shape)?;
    let edges = context_edges(alloc, shape)?;
    let slots = context_slots(alloc, shape)?;
    Ok(SubShape {
        nodes,
        edges,
        slots,
    })
}

fn context_nodes(alloc: Global, shape: &Whole<'_>) -> Result<List<usize>, AllocError>
    requires { IsGraph shape.now }
    ensures { IfOk result (AreThose (λ i. IsInContext shape.now (NodeAt i))) }
{
    let mut numbers = List::new(alloc);
    for i in 0..shape.node_count() {
        if is_in_context(shape, i) {
            numbers.push(i)?;
        }
    }
    Ok(numbers)
}

fn context_edges(alloc: Global, shape: &Whole<'_>) -> Result<List<usize>, AllocError>
    ensures { IfOk result (AreThose (λ x. IsInContext shape.now (EdgeAt x))) }
{
    let mut numbers = List::new(alloc);
    for i in 0..shape.edge_count() {
        if is_dropped_edge(shape, i) {
            numbers.push(i)?;
        }
    }
    Ok(numbers)
}

fn context_slots(alloc: Global, shape: &Whole<'_>) -> Result<List<usize>, AllocError>
    ensures { IfOk result (AreThose (λ k. IsInContext shape.now (SlotAt k))) }
{
    let mut numbers = List::new(alloc);
    for i in 0..shape.slot_count() {
        if is_written_slot(shape, i) {
            numbers.push(i)?;
        }
    }
    Ok(numbers)
}

/// Whether the node is in the deletion context.
pub fn is_in_context(shape: &Whole<'_>, i: usize) -> bool
    ensures { IsTrue result ↔ IsInContext shape.now (NodeAt i) }
{
    is_needed(shape, i)
}

/// Whether the node is dropped, an end of a dropped edge, or the node of a written slot.
fn is_needed(shape: &Whole<'_>, i: usize) -> bool
    ensures { IsTrue result ↔ IsNeeded shape.now i }
{
    is_dropped_node(shape, i) || needs(shape, i)
}

fn needs(shape: &Whole<'_>, i: usize) -> bool
    ensures { IsTrue result ↔ ((x : ℕ) × DropsAt shape.now i x) ⊎ ((k : ℕ)
        × WritesAt shape.now i k) }
{
    some_edge_dropped_at(shape, i) || some_slot_written_at(shape, i)
}

fn some_edge_dropped_at(shape: &Whole<'_>, i: usize) -> bool
    ensures { IsTrue result ↔ (x : ℕ) × DropsAt shape.now i x }
{
    for x in 0..shape.edge_count() {
        if is_edge_dropped_at(shape, x, i) {
            return true;
        }
    }
    false
}

/// Whether edge x is dropped and begins or ends at node i.
fn is_edge_dropped_at(shape: &Whole<'_>, x: usize, i: usize) -> bool
    ensures { IsTrue result ↔ DropsAt shape.now i x }
{
    match shape.edge(x) {
        Some(edge) => {
            edge.mark.is_drop() && (usize::from(edge.source) == i || usize::from(edge.target) == i)
        }
        None => false,
    }
}

fn some_slot_written_at(shape: &Whole<'_>, i: usize) -> bool
    ensures { IsTrue result ↔ (k : ℕ) × WritesAt shape.now i k }
{
    for k in 0..shape.slot_count() {
        if is_slot_written_at(shape, k, i) {
            return true;
        }
    }
    false
}

/// Whether slot k is written and is one of node i.
fn is_slot_written_at(shape: &Whole<'_>, k: usize, i: usize) -> bool
    ensures { IsTrue result ↔ WritesAt shape.now i k }
{
    match shape.slot(k) {
        Some(slot) => slot.written && usize::from(slot.node) == i && is_left_node(shape, i),
        None => false,
    }
}
