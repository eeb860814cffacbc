//! Whether all edges of a graph lead to vertices.

ghost use Rattle.std.specs.Prelude.{◌≡◌, ◌↔◌, IsTrue, length, nat_lt};
ghost use Rattle.std.specs.List.{list_all};
ghost use Rattle.hs_reach.specs.Reaching.{TargetsAreVertices};

use hs_expr::List;

/// Whether each edge leads to a vertex of the graph.
pub fn targets_are_vertices(graph: &[List<usize>]) -> bool
    ensures { IsTrue result ↔ TargetsAreVertices graph.now }
{
    all_within(graph, graph.len())
}

fn all_within(graph: &[List<usize>], count: usize) -> bool
    ensures { result ≡ list_all (list_all (λ to. nat_lt to count)) graph.now }
{
    graph
        .iter()
        .all(|edges| are_within(edges.as_slice(), count))
}

fn are_within(edges: &[usize], count: usize) -> bool
    ensures { result ≡ list_all (λ to. nat_lt to count) edges.now }
{
    edges.iter().all(|to| *to < count)
}
