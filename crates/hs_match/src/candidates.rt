//! The numbers that an image may have.

ghost use Rattle.std.specs.Prelude.{◌≡◌, ◌≤◌, ◌<◌, ◌↔◌, ◌++◌, ℕ, IsTrue, Some, false, slice_get, IsSomeAnd};
ghost use Rattle.hs_expr.specs.Lists.{has};
ghost use Rattle.hs_types.specs.TypedGraph.{object_numbered};
ghost use Rattle.hs_match.specs.Candidates.{Ascend, IsFree, IsFreeEdge, IsNextFrom, MayBe, MayJoin};

use crate::lookup::{find_object, first_from};
use hs_types::{ClassNo, Edge, EdgeNo, FeatureNo, ListGraph, Meta, Object, ObjectNo};

/// The least free object of the class from this number on.
pub fn next_object(
    meta: &Meta,
    graph: &ListGraph,
    class: ClassNo,
    base: &[ObjectNo],
    taken: &[ObjectNo],
    from: u64,
) -> Option<ObjectNo>
    requires { Ascend (λ object. object.number) graph.now.graph.objects }
    ensures { IsNextFrom (IsFree meta.now graph.now.graph class (base.now ++ taken.now)) from
        result }
{
    let objects = graph.objects();
    for i in first_from(objects, from)..objects.len() {
        let object = &objects[i];
        if may_be(meta, object, class, base, taken) {
            return Some(object.number);
        }
    }
    None
}

/// Whether the object is of the class and in neither list.
fn may_be(
    meta: &Meta,
    object: &Object,
    class: ClassNo,
    base: &[ObjectNo],
    taken: &[ObjectNo],
) -> bool
    ensures { IsTrue result ↔ MayBe meta.now class (base.now ++ taken.now) object.now }
{
    is_new(base, taken, object.number) && meta.conforms(object.class, class)
}

/// Whether the number is in neither list.
fn is_new(base: &[u32], taken: &[u32], number: u32) -> bool
    ensures { IsTrue result ↔ (has (base.now ++ taken.now) number ≡ false) }
{
    !base.contains(&number) && !taken.contains(&number)
}

/// Whether this is a free object of the class.
pub fn is_free(
    meta: &Meta,
    graph: &ListGraph,
    class: ClassNo,
    base: &[ObjectNo],
    taken: &[ObjectNo],
    number: ObjectNo,
) -> bool
    requires { Ascend (λ object. object.number) graph.now.graph.objects }
    ensures { IsTrue result ↔ IsFree meta.now graph.now.graph class (base.now ++ taken.now) number }
{
    if !is_new(base, taken, number) {
        return false;
    }
    match find_object(graph, number) {
        Some(object) => meta.conforms(object.class, class),
        None => false,
    }
}

/// An edge that is sought, between two objects.
#[derive(Clone, Copy)]
pub struct Joining {
    pub source: ObjectNo,
    pub reference: FeatureNo,
    pub target: ObjectNo,
}

/// The least free edge of that kind from this number on.
pub fn next_edge(
    graph: &ListGraph,
    joining: Joining,
    base: &[EdgeNo],
    taken: &[EdgeNo],
    from: u64,
) -> Option<EdgeNo>
    requires { Ascend (λ edge. edge.number) graph.now.graph.edges }
    ensures { IsNextFrom (IsFreeEdge graph.now.graph joining.source joining.reference joining.target
        (base.now ++ taken.now)) from result }
{
    let edges = graph.edges();
    for i in 0..edges.len() {
        let edge = edges[i];
        if u64::from(edge.number) >= from && may_join(edge, joining, base, taken) {
            return Some(edge.number);
        }
    }
    None
}

/// Whether the edge is of that kind and in neither list.
fn may_join(edge: Edge, joining: Joining, base: &[EdgeNo], taken: &[EdgeNo]) -> bool
    ensures { IsTrue result ↔ MayJoin joining.source joining.reference joining.target
        (base.now ++ taken.now) edge }
{
    edge.source == joining.source
        && edge.reference == joining.reference
        && edge.target == joining.target
        && is_new(base, taken, edge.number)
}
