//! What a block deletes.

ghost use Rattle.std.specs.Prelude.{◌≡◌, ◌++◌, OnOk, false, slice_get};
ghost use Rattle.std.specs.Option.{option_map, unwrap_or};
ghost use Rattle.hs_expr.specs.Lists.{beside};
ghost use Rattle.hs_types.specs.Pattern.{is_drop, left_edges, left_nodes, node_is};

use hs_expr::List;
use hs_types::{EdgeNo, ObjectNo, PatternEdge, PatternNode, left_edge, left_node};
use std::alloc::AllocError;

/// Adds the images of the nodes that are deleted.
pub fn add_dropped_nodes(
    nodes: &[PatternNode],
    images: &[ObjectNo],
    dropped: &mut List<ObjectNo>,
) -> Result<(), AllocError>
    ensures { OnOk result (dropped.new
        ≡ dropped.old ++ beside (λ node. is_drop node.mark) (left_nodes nodes.now) images.now) }
{
    for index in 0..images.len() {
        if is_dropped_node(nodes, index) {
            dropped.push(images[index])?;
        }
    }
    Ok(())
}

/// Adds the images of the edges that are deleted.
pub fn add_dropped_edges(
    edges: &[PatternEdge],
    images: &[EdgeNo],
    dropped: &mut List<EdgeNo>,
) -> Result<(), AllocError>
    ensures { OnOk result (dropped.new
        ≡ dropped.old ++ beside (λ edge. is_drop edge.mark) (left_edges edges.now) images.now) }
{
    for index in 0..images.len() {
        if is_dropped_edge(edges, index) {
            dropped.push(images[index])?;
        }
    }
    Ok(())
}

/// Whether the left node at this index is deleted.
fn is_dropped_node(nodes: &[PatternNode], index: usize) -> bool
    ensures { result ≡ node_is is_drop (left_nodes nodes.now) index }
{
    match left_node(nodes, index) {
        Some(node) => node.mark.is_drop(),
        None => false,
    }
}

/// Whether the left edge at this index is deleted.
fn is_dropped_edge(edges: &[PatternEdge], index: usize) -> bool
    ensures { result ≡ unwrap_or
        (option_map (λ edge. is_drop edge.mark) (slice_get (left_edges edges.now) index)) false }
{
    match left_edge(edges, index) {
        Some(edge) => edge.mark.is_drop(),
        None => false,
    }
}
