//! The images of a pattern, as a choice to search for.

ghost use Rattle.std.specs.Prelude.{◌≡◌, ◌≤◌, ◌<◌, ◌+◌, ◌-◌, ◌++◌, length, take, drop, slice_get, IsSomeAnd, IfSome, IfNone, ℕ, List, ◌∷◌};
ghost use Rattle.hs_expr.specs.Lists.{Differ};
ghost use Rattle.hs_types.specs.Pattern.{left_nodes, left_edges};
ghost use Rattle.hs_types.specs.PlainMatch.{image, IsImage};
ghost use Rattle.hs_match.specs.Candidates.{IsFree, IsNextFrom};
ghost use Rattle.hs_match.specs.Extending.{AreImages, IsFreeImage, FitsNext, NoObject};
ghost use Rattle.hs_match.specs.FirstMatch.{InOrder};
ghost use Rattle.hs_match.specs.Linked.{IsLinked};
ghost use Rattle.hs_match.specs.View.{sought};

use crate::Extending;
use crate::candidates::{Joining, next_edge, next_object};
use crate::link::{Link, next_end};
use hs_search::Choice;
use hs_types::{
    ClassNo, EdgeNo, ListGraph, Meta, ObjectNo, PatternEdge, PatternNode, count_left_edges,
    count_left_nodes, image_of, left_edge, left_node, left_nodes_before,
};

impl<'a> Extending<'a> {
    /// The search for the extensions of a match, whose images differ, by these nodes and edges.
    pub fn new(
        meta: &'a Meta,
        graph: &'a ListGraph,
        base_nodes: &'a [PatternNode],
        base_images: &'a [ObjectNo],
        base_edge_images: &'a [EdgeNo],
        nodes: &'a [PatternNode],
        edges: &'a [PatternEdge],
    ) -> Extending<'a>
        requires in_order { InOrder graph.now.graph }
        requires small { length (left_nodes nodes.now) + length (left_edges edges.now) ≤ 28 }
        requires nodes_differ { Differ base_images.now }
        requires edges_differ { Differ base_edge_images.now }
        ensures sought { sought result ≡ record {
          meta = meta.now;
          graph = graph.now.graph;
          base_nodes = base_nodes.now;
          base = record { nodes = base_images.now; edges = base_edge_images.now };
          nodes = nodes.now;
          edges = edges.now;
        } }
        ensures size { result.node_count + result.edge_count
            ≡ length (left_nodes nodes.now) + length (left_edges edges.now) }
    {
        Extending {
            meta,
            graph,
            base_nodes,
            base_images,
            base_edge_images,
            nodes,
            edges,
            node_count: count_left_nodes(nodes),
            edge_count: count_left_edges(edges),
        }
    }
}

impl Choice for Extending<'_> {
    ghost size = { λ e. e.node_count + e.edge_count };

    ghost Fits = { λ e front n. FitsNext (sought e) front n };

    ghost Good = { λ e images. AreImages (sought e) images };

    fn size(&self) -> usize {
        self.node_count + self.edge_count
    }

    fn next(&self, front: &[u32], from: u64) -> Option<u32> {
        match left_node(self.nodes, front.len()) {
            Some(node) => self.next_node_image(node.class, front, from),
            None => self.next_edge_image(front, from),
        }
    }

    fn is_good(&self, _all: &[u32]) -> bool {
        true
    }
}

impl Extending<'_> {
    /// A number from here on that the next node's image may be.
    fn next_node_image(&self, class: ClassNo, front: &[u32], from: u64) -> Option<ObjectNo>
        requires { length front.now < self.now.node_count }
        ensures fits { IfSome result (λ x. IsFree self.now.meta.now self.now.graph.now.graph class
            (self.now.base_images.now ++ front.now) x) }
        ensures from { IfSome result (λ x. from ≤ x) }
        ensures passed { IfSome result
            (λ x. (y : ℕ) → from ≤ y → y < x → NoObject (sought self.now) class front.now y) }
        ensures none { IfNone result
            ((y : ℕ) → from ≤ y → NoObject (sought self.now) class front.now y) }
    {
        let base = self.base_images;
        match self.link(front) {
            Some(link) => next_end(self.meta, self.graph, link, class, base, front, from),
            None => next_object(self.meta, self.graph, class, base, front, from),
        }
    }

    /// A number from here on that the next edge's image may be.
    fn next_edge_image(&self, front: &[u32], from: u64) -> Option<EdgeNo>
        requires nodes_done { self.now.node_count ≤ length front.now }
        requires left { length front.now < self.now.node_count + self.now.edge_count }
        ensures { IsSomeAnd (slice_get (left_edges self.now.edges.now)
            (length front.now - self.now.node_count))
            (λ edge. IsNextFrom (IsFreeImage (sought self.now) (take self.now.node_count front.now)
            (drop self.now.node_count front.now) edge) from result) }
    {
        let (nodes, edges) = front.split_at(self.node_count);
        let edge = left_edge(self.edges, edges.len())?;
        let joining = Joining {
            source: self.image(nodes, edge.source),
            reference: edge.reference,
            target: self.image(nodes, edge.target),
        };
        next_edge(self.graph, joining, self.base_edge_images, edges, from)
    }

    fn image(&self, images: &[ObjectNo], node: u16) -> ObjectNo
        ensures { result ≡ image (self.now.base_nodes.now ++ self.now.nodes.now)
            (self.now.base_images.now ++ images.now) node }
    {
        image_of(self.base_nodes, self.nodes, self.base_images, images, node)
    }
}

impl Extending<'_> {
    /// An edge that the next object must have.
    fn link(&self, front: &[ObjectNo]) -> Option<Link>
        requires { length front.now < self.now.node_count }
        ensures { IfSome result
            (λ link. (y : ℕ) (rest : List ℕ) → AreImages (sought self.now) (front.now ++ y ∷ rest)
            → IsLinked self.now.graph.now.graph link y) }
    {
        for place in 0..self.edge_count {
            if let Some(edge) = left_edge(self.edges, place) {
                let link = self.link_of(edge, front);
                if link.is_some() {
                    return link;
                }
            }
        }
        None
    }

    /// What an image of the edge says of the next object, where its other end is among these.
    fn link_of(&self, edge: &PatternEdge, front: &[ObjectNo]) -> Option<Link>
        ensures { IfSome result (λ link. (y : ℕ) (rest : List ℕ) (n : ℕ)
            → IsImage self.now.graph.now.graph
            (image (self.now.base_nodes.now ++ self.now.nodes.now)
            (self.now.base_images.now ++ (front.now ++ y ∷ rest))) edge.now n
            → IsLinked self.now.graph.now.graph link y) }
    {
        let here = self.base_images.len() + front.len();
        let source = left_nodes_before(self.base_nodes, self.nodes, edge.source);
        let target = left_nodes_before(self.base_nodes, self.nodes, edge.target);
        let reference = edge.reference;
        if target == here && source < here {
            let source = self.image(front, edge.source);
            return Some(Link::From { source, reference });
        }
        if source == here && target < here {
            let target = self.image(front, edge.target);
            return Some(Link::Into { reference, target });
        }
        None
    }
}
