//! Candidates along an edge to an image that is there.

ghost use Rattle.std.specs.Prelude.{◌≡◌, ◌++◌, ◌⊎◌, ◌↔◌, IsTrue};
ghost use Rattle.hs_match.specs.Candidates.{Ascend, IsFree, IsNextFrom};
ghost use Rattle.hs_match.specs.Linked.{IsSmaller, IsLinked, Keeps, Takes, far_end};

use crate::candidates::is_free;
use hs_types::{ClassNo, Edge, FeatureNo, ListGraph, Meta, ObjectNo};

/// What is known of an edge of which one end is still sought.
#[derive(Clone, Copy)]
pub enum Link {
    /// It begins at this object.
    From {
        source: ObjectNo,
        reference: FeatureNo,
    },
    /// It ends at this object.
    Into {
        reference: FeatureNo,
        target: ObjectNo,
    },
}

/// The least free object of the class from this number on to which such an edge leads.
pub fn next_end(
    meta: &Meta,
    graph: &ListGraph,
    link: Link,
    class: ClassNo,
    base: &[ObjectNo],
    taken: &[ObjectNo],
    from: u64,
) -> Option<ObjectNo>
    requires { Ascend (λ object. object.number) graph.now.graph.objects }
    ensures { IsNextFrom (λ y. IsFree meta.now graph.now.graph class (base.now ++ taken.now) y
        × IsLinked graph.now.graph link y) from result }
{
    let mut least = None;
    let edges = graph.edges();
    for i in 0..edges.len() {
        let end = far_end(link, edges[i]);
        least = lesser(meta, graph, class, base, taken, from, end, least);
    }
    least
}

/// The other end of the edge, if it is such an edge.
fn far_end(link: Link, edge: Edge) -> Option<ObjectNo>
    ensures { result ≡ far_end link edge }
{
    match link {
        Link::From { source, reference } => {
            if edge.source == source && edge.reference == reference {
                Some(edge.target)
            } else {
                None
            }
        }
        Link::Into { reference, target } => {
            if edge.target == target && edge.reference == reference {
                Some(edge.source)
            } else {
                None
            }
        }
    }
}

/// The lesser of the two, where the end is free.
fn lesser(
    meta: &Meta,
    graph: &ListGraph,
    class: ClassNo,
    base: &[ObjectNo],
    taken: &[ObjectNo],
    from: u64,
    end: Option<ObjectNo>,
    least: Option<ObjectNo>,
) -> Option<ObjectNo>
    requires { Ascend (λ object. object.number) graph.now.graph.objects }
    ensures { Takes (IsFree meta.now graph.now.graph class (base.now ++ taken.now)) from end least
        result
        ⊎ Keeps (IsFree meta.now graph.now.graph class (base.now ++ taken.now)) from end least
        result }
{
    match end {
        Some(found) => {
            if u64::from(found) >= from
                && is_before(found, least)
                && is_free(meta, graph, class, base, taken, found)
            {
                Some(found)
            } else {
                least
            }
        }
        None => least,
    }
}

fn is_before(found: ObjectNo, least: Option<ObjectNo>) -> bool
    ensures { IsTrue result ↔ IsSmaller found least }
{
    match least {
        Some(other) => found < other,
        None => true,
    }
}
