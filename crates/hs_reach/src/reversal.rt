//! A graph with its edges reversed.

ghost use Rattle.std.specs.Prelude.{◌≡◌, ◌<◌, ◌||◌, ◌&&◌, ℕ, eqb, length, replicate, [], IfOk, OnOk, true};
ghost use Rattle.std.specs.List.{All};
ghost use Rattle.hs_expr.specs.Lists.{has};
ghost use Rattle.hs_reach.specs.Reaching.{AreReversed, TargetsAreVertices, has_edge};

use crate::depth_first::targets_of;
use hs_expr::List;
use std::alloc::{AllocError, Global};

/// The graph that has the edges of this one, reversed.
pub fn reversed_edges(alloc: Global, graph: &[List<usize>]) -> Result<Vec<List<usize>>, AllocError>
    requires { TargetsAreVertices graph.now }
    ensures long { IfOk result (λ reversed. length reversed.items ≡ length graph.now) }
    ensures reversed { IfOk result (λ reversed. AreReversed graph.now reversed.items) }
{
    let mut reversed = no_edges(alloc, graph.len())?;
    for vertex in 0..graph.len() {
        add_reversed(vertex, targets_of(graph, vertex), &mut reversed)?;
    }
    Ok(reversed)
}

fn no_edges(alloc: Global, count: usize) -> Result<Vec<List<usize>>, AllocError>
    ensures { IfOk result (λ graph. graph.items ≡ replicate count []) }
{
    let mut graph = Vec::new(alloc);
    for _vertex in 0..count {
        graph.push(List::new(alloc))?;
    }
    Ok(graph)
}

/// Adds the edges of a vertex, reversed.
fn add_reversed(
    vertex: usize,
    edges: &[usize],
    reversed: &mut Vec<List<usize>>,
) -> Result<(), AllocError>
    requires { (k : ℕ) → (has edges.now k ≡ true) → k < length reversed.old.items }
    ensures long { OnOk result (length reversed.new.items ≡ length reversed.old.items) }
    ensures added { OnOk result ((n k : ℕ) → has_edge reversed.new.items k n
        ≡ (has_edge reversed.old.items k n || (eqb n vertex && has edges.now k))) }
{
    for to in edges {
        add_edge(reversed, *to, vertex)?;
    }
    Ok(())
}

fn add_edge(graph: &mut Vec<List<usize>>, vertex: usize, to: usize) -> Result<(), AllocError>
    requires { vertex < length graph.old.items }
    ensures long { OnOk result (length graph.new.items ≡ length graph.old.items) }
    ensures added { OnOk result ((n k : ℕ) → has_edge graph.new.items n k
        ≡ (has_edge graph.old.items n k || (eqb k to && eqb n vertex))) }
{
    graph[vertex].push(to)?;
    Ok(())
}
