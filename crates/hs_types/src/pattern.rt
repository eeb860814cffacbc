//! Left sides of patterns, and the images of their nodes.

ghost use Rattle.std.specs.Prelude.{◌≡◌, ◌++◌, length, take, slice_get, slice_index, option_copied};
ghost use Rattle.hs_types.specs.Pattern as spec;
ghost use Rattle.hs_types.specs.Pattern.{left_nodes, left_edges};
ghost use Rattle.hs_types.specs.PlainMatch.{image};

use crate::{Mark, ObjectNo, PatternEdge, PatternNode};

impl Mark {
    /// Whether an element with this mark is on the left side.
    pub fn is_left(self) -> bool
        ensures { result ≡ spec.is_left self }
    {
        matches!(self, Mark::Keep | Mark::Drop)
    }

    /// Whether an element with this mark is deleted.
    pub fn is_drop(self) -> bool
        ensures { result ≡ spec.is_drop self }
    {
        matches!(self, Mark::Drop)
    }

    /// Whether an element with this mark is created.
    pub fn is_make(self) -> bool
        ensures { result ≡ spec.is_make self }
    {
        matches!(self, Mark::Make)
    }
}

/// The left node at index `index` among the left nodes.
pub fn left_node(nodes: &[PatternNode], index: usize) -> Option<&PatternNode>
    ensures { option_copied result ≡ slice_get (left_nodes nodes.now) index }
{
    nodes.iter().filter(|node| node.mark.is_left()).nth(index)
}

/// The left edge at index `index` among the left edges.
pub fn left_edge(edges: &[PatternEdge], index: usize) -> Option<&PatternEdge>
    ensures { option_copied result ≡ slice_get (left_edges edges.now) index }
{
    edges.iter().filter(|edge| edge.mark.is_left()).nth(index)
}

pub fn count_left_nodes(nodes: &[PatternNode]) -> usize
    ensures { result ≡ length (left_nodes nodes.now) }
{
    nodes.iter().filter(|node| node.mark.is_left()).count()
}

pub fn count_left_edges(edges: &[PatternEdge]) -> usize
    ensures { result ≡ length (left_edges edges.now) }
{
    edges.iter().filter(|edge| edge.mark.is_left()).count()
}

/// How many left nodes are before this one, where the nodes are numbered after those of the base.
pub fn left_nodes_before(base: &[PatternNode], nodes: &[PatternNode], node: u16) -> usize
    ensures { result ≡ length (left_nodes (take node (base.now ++ nodes.now))) }
{
    base.iter()
        .chain(nodes.iter())
        .take(usize::from(node))
        .filter(|node| node.mark.is_left())
        .count()
}

/// The image of a node, where the nodes and the images are numbered after those of the base.
pub fn image_of(
    base: &[PatternNode],
    nodes: &[PatternNode],
    base_images: &[ObjectNo],
    images: &[ObjectNo],
    node: u16,
) -> ObjectNo
    ensures { result ≡ image (base.now ++ nodes.now) (base_images.now ++ images.now) node }
{
    let before = left_nodes_before(base, nodes, node);
    base_images
        .iter()
        .chain(images.iter())
        .nth(before)
        .copied()
        .unwrap_or(0)
}
