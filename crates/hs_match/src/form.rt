//! What a search asks of a graph.

ghost use Rattle.std.specs.Prelude.{◌≡◌, ◌↔◌, IsTrue, map};
ghost use Rattle.hs_expr.specs.Lists.{Rise};
ghost use Rattle.hs_match.specs.FirstMatch.{InOrder, IsSmall};

use hs_search::MOST;
use hs_types::{Edge, ListGraph, Object, Shape, count_left_edges, count_left_nodes};

/// Whether the objects and edges are in the order of their numbers, below the next ones.
pub fn is_in_order(graph: &ListGraph) -> bool
    ensures { IsTrue result ↔ InOrder graph.now.graph }
{
    objects_rise(graph.objects(), graph.next_object())
        && edges_rise(graph.edges(), graph.next_edge())
}

fn objects_rise(objects: &[Object], next: u64) -> bool
    ensures { IsTrue result ↔ Rise 0 (map (λ object. object.number) objects.now) next }
{
    let mut low: u64 = 0;
    for object in objects {
        if u64::from(object.number) < low {
            return false;
        }
        low = u64::from(object.number) + 1;
    }
    low <= next
}

fn edges_rise(edges: &[Edge], next: u64) -> bool
    ensures { IsTrue result ↔ Rise 0 (map (λ edge. edge.number) edges.now) next }
{
    let mut low: u64 = 0;
    for edge in edges {
        if u64::from(edge.number) < low {
            return false;
        }
        low = u64::from(edge.number) + 1;
    }
    low <= next
}

/// Whether a search takes the left side of the shape.
pub fn is_small(shape: &Shape) -> bool
    ensures { IsTrue result ↔ IsSmall shape.now }
{
    let nodes = count_left_nodes(shape.nodes.as_slice());
    let edges = count_left_edges(shape.edges.as_slice());
    nodes <= MOST && edges <= MOST - nodes
}
