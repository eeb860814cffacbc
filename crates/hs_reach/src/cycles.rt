//! Vertices on cycles.

ghost use Rattle.std.specs.Prelude.{◌≡◌, ℕ, [], None, false, get_or, IfOk};
ghost use Rattle.std.specs.List.{list_any};
ghost use Rattle.hs_types.specs.Reachability.{reaches};
ghost use Rattle.hs_reach.specs.Reaching.{AreComponents, TargetsAreVertices, same_mark};
ghost use Rattle.hs_reach.specs.Reaching as spec;

use crate::depth_first::targets_of;
use crate::kosaraju::components;
use hs_expr::List;
use std::alloc::{AllocError, Global};

/// For each vertex of a graph whether edges lead from it back to it. Takes time and memory in
/// proportion to the vertices and edges.
pub fn on_cycles(alloc: Global, graph: &[List<usize>]) -> Result<List<bool>, AllocError>
    requires { TargetsAreVertices graph.now }
    ensures { IfOk result (λ marks. (n : ℕ) → get_or marks n false ≡ reaches graph.now n n) }
{
    let components = components(alloc, graph)?;
    marks_of(alloc, graph, components.as_slice())
}

#[tactic(auto, using(hs_types::proofs::Paths::one_row_more))]
fn marks_of(
    alloc: Global,
    graph: &[List<usize>],
    components: &[Option<usize>],
) -> Result<List<bool>, AllocError>
    requires whole { TargetsAreVertices graph.now }
    requires components { AreComponents graph.now components.now }
    ensures { IfOk result (λ marks. (n : ℕ) → get_or marks n false ≡ reaches graph.now n n) }
{
    let mut marks = List::new(alloc);
    for vertex in 0..graph.len() {
        marks.push(edge_leads_back(graph, components, vertex))?;
    }
    Ok(marks)
}

/// Whether an edge leads to a vertex with the same mark.
fn edge_leads_back(graph: &[List<usize>], components: &[Option<usize>], vertex: usize) -> bool
    ensures { result ≡ spec.edge_leads_back graph.now components.now vertex }
{
    let mark = mark_of(components, vertex);
    targets_of(graph, vertex)
        .iter()
        .any(|to| is_same(mark_of(components, *to), mark))
}

fn mark_of(components: &[Option<usize>], vertex: usize) -> Option<usize>
    ensures { result ≡ get_or components.now vertex None }
{
    match components.get(vertex) {
        Some(mark) => *mark,
        None => None,
    }
}

fn is_same(edges_left: Option<usize>, right: Option<usize>) -> bool
    ensures { result ≡ same_mark edges_left right }
{
    match (edges_left, right) {
        (None, None) => true,
        (Some(edges_left), Some(right)) => edges_left == right,
        _ => false,
    }
}
