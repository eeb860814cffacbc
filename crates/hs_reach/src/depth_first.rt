//! A depth-first search. Its path is a list of its own, so no graph is too deep for it.

ghost use Rattle.std.specs.Prelude.{◌≡◌, ◌<◌, ◌≤◌, ◌+◌, ◌||◌, ℕ, List, [], ◌∷◌, ◌++◌, true, false, None, Some, get_or, is_some, length, replicate, IfOk, OnOk};
ghost use Rattle.std.specs.List.{All};
ghost use Rattle.hs_expr.specs.Lists.{has};
ghost use Rattle.hs_reach.specs.Reaching.{IsOrderly, TargetsAreVertices, has_edge};
ghost use Rattle.hs_reach.specs.Searching as spec;

use hs_expr::{List, Stack};
use std::alloc::{AllocError, Global};

/// What is known while a graph is searched.
#[derive(Drop)]
pub struct Search {
    /// How many edges of each vertex were followed.
    pub tried: Vec<usize>,
    /// The start from which each vertex was found.
    pub starts: Vec<Option<usize>>,
    /// The current vertex, above those that led to it.
    pub path: Stack<usize>,
    /// The vertices of which all edges were followed.
    pub finished: Stack<usize>,
}

/// Depth-first search from these vertices in order.
pub fn search_all(
    alloc: Global,
    graph: &[List<usize>],
    from: &[usize],
) -> Result<Search, AllocError>
    requires whole { TargetsAreVertices graph.now }
    requires within { All (λ n. n < length graph.now) from.now }
    ensures first { IfOk result (λ search. spec.AreFirst graph.now from.now search.starts.items) }
    ensures found { IfOk result
        (λ search. (n : ℕ) → spec.is_found search.starts.items n ≡ has search.finished n) }
    ensures inside { IfOk result (λ search. All (λ n. n < length graph.now) search.finished) }
    ensures orderly { IfOk result (λ search. IsOrderly graph.now search.finished) }
{
    let mut search = empty_search(alloc, graph.len())?;
    for start in from {
        search_from(graph, *start, &mut search)?;
    }
    Ok(search)
}

fn empty_search(alloc: Global, count: usize) -> Result<Search, AllocError>
    ensures goes { IfOk result (λ search. (graph : List (List ℕ)) → count ≡ length graph
        → spec.IsSearchState graph search) }
    ensures first { IfOk result
        (λ search. (graph : List (List ℕ)) → spec.AreFirst graph [] search.starts.items) }
    ensures at_end { IfOk result (λ search. search.path ≡ []) }
{
    Ok(Search {
        tried: vec![in alloc; 0; count]?,
        starts: vec![in alloc; None; count]?,
        path: Stack::new(alloc),
        finished: Stack::new(alloc),
    })
}

/// Finds all that this vertex reaches and that isn't found yet.
fn search_from(graph: &[List<usize>], start: usize, search: &mut Search) -> Result<(), AllocError>
    requires whole { TargetsAreVertices graph.now }
    requires within { start < length graph.now }
    requires goes { spec.IsSearchState graph.now search.old }
    requires at_end { search.old.path ≡ [] }
    ensures goes { OnOk result (spec.IsSearchState graph.now search.new) }
    ensures at_end { OnOk result (search.new.path ≡ []) }
    ensures first { OnOk result
        ((before : List ℕ) → spec.AreFirst graph.now before search.old.starts.items
        → spec.AreFirst graph.now (before ++ start ∷ []) search.new.starts.items) }
{
    push_start(start, search)?;
    while let Some(vertex) = search.path.top() {
        advance(graph, start, vertex, search)?;
    }
    Ok(())
}

/// Puts the start on the path where it isn't found yet.
fn push_start(start: usize, search: &mut Search) -> Result<(), AllocError>
    requires within { start < length search.old.starts.items }
    requires at_end { search.old.path ≡ [] }
    ensures goes { OnOk result ((graph : List (List ℕ)) → spec.IsSearchState graph search.old
        → spec.IsSearchState graph search.new) }
    ensures comes { OnOk result ((graph : List (List ℕ)) (before : List ℕ)
        → spec.AreFirst graph before search.old.starts.items
        → spec.IsSearchFrom graph before start search.new) }
    ensures found { OnOk result (spec.is_found search.new.starts.items start ≡ true) }
{
    if is_found(search, start) {
        return Ok(());
    }
    search.starts[start] = Some(start);
    search.path.push(start)?;
    Ok(())
}

/// Follows the next edge of the current vertex, or finishes it where all were followed.
fn advance(
    graph: &[List<usize>],
    start: usize,
    vertex: usize,
    search: &mut Search,
) -> Result<(), AllocError>
    requires whole { TargetsAreVertices graph.now }
    requires goes { spec.IsSearchState graph.now search.old }
    requires at { (rest : List ℕ) × (search.old.path ≡ vertex ∷ rest) }
    ensures goes { OnOk result (spec.IsSearchState graph.now search.new) }
    ensures comes { OnOk result
        ((before : List ℕ) → spec.IsSearchFrom graph.now before start search.old
        → spec.IsSearchFrom graph.now before start search.new) }
    ensures kept { OnOk result (spec.is_found search.old.starts.items start ≡ true
        → spec.is_found search.new.starts.items start ≡ true) }
    ensures less { OnOk result (spec.work graph.now search.new < spec.work graph.now search.old) }
{
    let count = tried_edges(search, vertex);
    match targets_of(graph, vertex).get(count) {
        Some(to) => {
            visit(start, *to, search)?;
            search.tried[vertex] = count + 1;
            Ok(())
        }
        None => {
            finish_top(search)?;
            Ok(())
        }
    }
}

fn tried_edges(search: &Search, vertex: usize) -> usize
    ensures { result ≡ get_or search.now.tried.items vertex 0 }
{
    match search.tried.as_slice().get(vertex) {
        Some(count) => *count,
        None => 0,
    }
}

/// The vertices to which a vertex leads.
pub fn targets_of(graph: &[List<usize>], vertex: usize) -> &[usize]
    ensures { result.now ≡ get_or graph.now vertex [] }
{
    match graph.get(vertex) {
        Some(edges) => edges.as_slice(),
        None => &[],
    }
}

/// Puts a vertex to which an edge leads on the path where it isn't found yet.
fn visit(start: usize, to: usize, search: &mut Search) -> Result<(), AllocError>
    requires { to < length search.old.starts.items }
    ensures tried { OnOk result (search.new.tried.items ≡ search.old.tried.items) }
    ensures goes { OnOk result ((graph : List (List ℕ)) (vertex : ℕ) (rest : List ℕ)
        → search.old.path ≡ vertex ∷ rest → has_edge graph vertex to ≡ true
        → spec.IsSearchState graph search.old → spec.IsSearchState graph search.new) }
    ensures comes { OnOk result ((graph : List (List ℕ)) (before : List ℕ) (vertex : ℕ)
        (rest : List ℕ) → search.old.path ≡ vertex ∷ rest → has_edge graph vertex to ≡ true
        → spec.IsSearchFrom graph before start search.old
        → spec.IsSearchFrom graph before start search.new) }
    ensures found { OnOk result (spec.is_found search.new.starts.items to ≡ true) }
    ensures kept { OnOk result ((n : ℕ) → spec.is_found search.old.starts.items n ≡ true
        → spec.is_found search.new.starts.items n ≡ true) }
    ensures no_more { OnOk result
        ((graph : List (List ℕ)) → spec.work graph search.new ≤ spec.work graph search.old) }
{
    if is_found(search, to) {
        return Ok(());
    }
    search.starts[to] = Some(start);
    search.path.push(to)?;
    Ok(())
}

/// Finishes the current vertex.
fn finish_top(search: &mut Search) -> Result<(), AllocError>
    ensures tried { OnOk result (search.new.tried.items ≡ search.old.tried.items) }
    ensures starts { OnOk result (search.new.starts.items ≡ search.old.starts.items) }
    ensures moved { OnOk result ((vertex : ℕ) (rest : List ℕ) → search.old.path ≡ vertex ∷ rest
        → (search.new.path ≡ rest) × (search.new.finished ≡ vertex ∷ search.old.finished)) }
{
    match search.path.pop() {
        Some(vertex) => search.finished.push(vertex),
        None => Ok(()),
    }
}

fn is_found(search: &Search, vertex: usize) -> bool
    ensures { result ≡ spec.is_found search.now.starts.items vertex }
{
    match search.starts.as_slice().get(vertex) {
        Some(start) => start.is_some(),
        None => false,
    }
}
