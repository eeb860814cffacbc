//! Which objects contain themselves, and which edges contain an object.

ghost use Rattle.std.specs.Prelude.{◌≡◌, ℕ, false, eqb, get_or, slice_get, IfOk};
ghost use Rattle.std.specs.List.{filter, filter_map};
ghost use Rattle.std.specs.Option.{option_map_or};
ghost use Rattle.hs_types.specs.Reachability.{reaches};
ghost use Rattle.hs_types.specs.TypedGraph.{IsTyped};
ghost use Rattle.hs_graph.specs.Index.{indexed_edges};
ghost use Rattle.hs_graph.specs.Problems as spec;

use crate::index::{EdgeIndex, End, edges_of, index_by};
use hs_expr::List;
use hs_reach::on_cycles;
use hs_types::{Edge, FeatureKind, FeatureNo, ListGraph, Meta, Object, ObjectNo};
use std::alloc::{AllocError, Global};

/// For each object, by index, whether it contains itself, by one step or more.
pub fn cycles_of(
    alloc: Global,
    meta: &Meta,
    graph: &ListGraph,
    outgoing: &EdgeIndex,
) -> Result<List<bool>, AllocError>
    requires typed { IsTyped meta.now graph.now.graph }
    requires indexed { (n : ℕ)
        → indexed_edges outgoing.now n ≡ spec.edges_leaving graph.now.graph n }
    ensures { IfOk result (λ marks. (i : ℕ) → get_or marks i false
        ≡ reaches (spec.containment_lists meta.now graph.now.graph) i i) }
{
    let containment_lists = containment_lists(alloc, meta, graph, outgoing)?;
    on_cycles(alloc, containment_lists.as_slice())
}

/// Of each object, by index, the indices of the objects that it contains.
fn containment_lists(
    alloc: Global,
    meta: &Meta,
    graph: &ListGraph,
    outgoing: &EdgeIndex,
) -> Result<List<List<usize>>, AllocError>
    requires typed { IsTyped meta.now graph.now.graph }
    requires indexed { (n : ℕ)
        → indexed_edges outgoing.now n ≡ spec.edges_leaving graph.now.graph n }
    ensures { IfOk result (λ made. made ≡ spec.containment_lists meta.now graph.now.graph) }
{
    let mut made = List::new(alloc);
    for object in graph.objects() {
        let edges = edges_of(outgoing, object.number);
        made.push(contained_indices(alloc, meta, graph, edges)?)?;
    }
    Ok(made)
}

fn contained_indices(
    alloc: Global,
    meta: &Meta,
    graph: &ListGraph,
    edges: &[Edge],
) -> Result<List<usize>, AllocError>
    requires typed { IsTyped meta.now graph.now.graph }
    ensures { IfOk result
        (λ made. made ≡ filter_map (spec.contained_index meta.now graph.now.graph) edges.now) }
{
    let mut made = List::new(alloc);
    for edge in edges {
        if let Some(index) = contained_index(meta, graph, edge) {
            made.push(index)?;
        }
    }
    Ok(made)
}

/// The index of the object that the edge contains.
fn contained_index(meta: &Meta, graph: &ListGraph, edge: &Edge) -> Option<usize>
    requires typed { IsTyped meta.now graph.now.graph }
    ensures { result ≡ spec.contained_index meta.now graph.now.graph edge.now }
{
    if is_containment(meta, edge.reference) {
        index_of(meta, graph, edge.target)
    } else {
        None
    }
}

/// The index of the object of this number.
fn index_of(meta: &Meta, graph: &ListGraph, number: ObjectNo) -> Option<usize>
    requires typed { IsTyped meta.now graph.now.graph }
    ensures { result ≡ spec.index_of graph.now.graph number }
{
    // In a graph that was read, numbers are indices.
    let objects = graph.objects();
    let near = number as usize;
    if is_at(objects, near, number) {
        return Some(near);
    }
    let index = objects.partition_point(|object| object.number < number);
    if is_at(objects, index, number) {
        return Some(index);
    }
    None
}

fn is_at(objects: &[Object], index: usize, number: ObjectNo) -> bool
    ensures { result
        ≡ option_map_or (λ object. eqb object.number number) (slice_get objects.now index) false }
{
    match objects.get(index) {
        Some(object) => object.number == number,
        None => false,
    }
}

/// The edges that contain an object, by the object.
pub fn containing_of(alloc: Global, meta: &Meta, graph: &ListGraph) -> Result<EdgeIndex, AllocError>
    ensures { IfOk result (λ edges. (n : ℕ) → indexed_edges edges n
        ≡ filter (λ e. spec.is_containment meta.now e.reference)
        (spec.edges_entering graph.now.graph n)) }
{
    let edges = containing_edges(alloc, meta, graph)?;
    let index = index_by(End::Target, edges)?;
    Ok(index)
}

fn containing_edges(alloc: Global, meta: &Meta, graph: &ListGraph) -> Result<List<Edge>, AllocError>
    ensures { IfOk result (λ edges. edges
        ≡ filter (λ e. spec.is_containment meta.now e.reference) graph.now.graph.edges) }
{
    let mut made = List::new(alloc);
    for edge in graph.edges() {
        if is_containment(meta, edge.reference) {
            made.push(*edge)?;
        }
    }
    Ok(made)
}

fn is_containment(meta: &Meta, feature: FeatureNo) -> bool
    ensures { result ≡ spec.is_containment meta.now feature }
{
    match meta.feature(feature) {
        Some(feature) => contains_by(&feature.kind),
        None => false,
    }
}

fn contains_by(kind: &FeatureKind) -> bool
    ensures { result ≡ spec.contains_by kind.now }
{
    match kind {
        FeatureKind::Reference { containment, .. } => *containment,
        FeatureKind::Attribute { .. } => false,
    }
}
