//! What a search for images goes by.

ghost use Rattle.std.specs.Prelude.{◌≡◌, ◌≤◌, ◌+◌, length};
ghost use Rattle.hs_expr.specs.Lists.{Differ};
ghost use Rattle.hs_types.specs.Pattern.{left_nodes, left_edges};
ghost use Rattle.hs_match.specs.Candidates.{Ascend};
ghost use Rattle.hs_match.specs.Distinct.{Differ-prop};

use hs_types::{EdgeNo, ListGraph, Meta, ObjectNo, PatternEdge, PatternNode};

/// The search for an extension: from a match of the base's nodes to one of further nodes and edges.
#[derive(Drop)]
pub struct Extending<'a> {
    pub meta: &'a Meta,
    pub graph: &'a ListGraph,
    pub base_nodes: &'a [PatternNode],
    pub base_images: &'a [ObjectNo],
    pub base_edge_images: &'a [EdgeNo],
    pub nodes: &'a [PatternNode],
    pub edges: &'a [PatternEdge],
    pub node_count: usize,
    pub edge_count: usize,
    ghost objects_ascend: { Ascend (λ object. object.number) graph.now.graph.objects },
    ghost edges_ascend: { Ascend (λ edge. edge.number) graph.now.graph.edges },
    ghost nodes_counted: { node_count ≡ length (left_nodes nodes.now) },
    ghost edges_counted: { edge_count ≡ length (left_edges edges.now) },
    ghost few: { node_count + edge_count ≤ 28 },
    ghost images_differ: { Differ base_images.now } by { Differ-prop base_images.now },
    ghost edge_images_differ: { Differ base_edge_images.now } by { Differ-prop base_edge_images.now },
}
