//! Vertices that reach each other.

ghost use Rattle.std.specs.Prelude.{◌≡◌, ◌<◌, ◌↔◌, ℕ, true, None, get_or, length, IfOk};
ghost use Rattle.std.specs.List.{range_with_len};
ghost use Rattle.hs_reach.specs.Reaching.{AreComponents, TargetsAreVertices};

use crate::depth_first::search_all;
use crate::reversal::reversed_edges;
use hs_expr::List;
use std::alloc::{AllocError, Global};

/// For each vertex a mark, which two vertices have in common exactly where each reaches the other:
/// the first vertex of an order that it reaches, where the order is the one in which a search
/// finishes the vertices, the last first.
pub fn components(alloc: Global, graph: &[List<usize>]) -> Result<Vec<Option<usize>>, AllocError>
    requires { TargetsAreVertices graph.now }
    ensures { IfOk result (λ marks. AreComponents graph.now marks.items) }
{
    let vertices = all_vertices(alloc, graph.len())?;
    let forward = search_all(alloc, graph, vertices.as_slice())?;
    let order = forward.finished.into_vec();
    let reversed = reversed_edges(alloc, graph)?;
    let backward = search_all(alloc, reversed.as_slice(), order.as_slice())?;
    Ok(backward.starts)
}

fn all_vertices(alloc: Global, count: usize) -> Result<Vec<usize>, AllocError>
    ensures { IfOk result (λ vertices. vertices.items ≡ range_with_len 0 count) }
{
    let mut vertices = Vec::new(alloc);
    for vertex in 0..count {
        vertices.push(vertex)?;
    }
    Ok(vertices)
}
