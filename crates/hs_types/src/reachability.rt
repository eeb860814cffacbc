//! Reachability in a graph given by adjacency lists, found in rounds of one edge.

ghost use Rattle.std.specs.Prelude.{◌≡◌, ◌<◌, ◌↔◌, IsTrue, [], map, length, false, get_or, IfOk};
ghost use Rattle.std.specs.List.{list_any};
ghost use Rattle.hs_types.specs.Reachability as spec;

use hs_expr::List;
use std::alloc::{AllocError, Global};

/// For each vertex a row with, for each vertex, whether it reaches that one.
#[tactic(auto, using(crate::proofs::Paths::one_row_more))]
pub fn reach_rows(alloc: Global, supers: &[List<usize>]) -> Result<List<List<bool>>, AllocError>
    ensures { IfOk result (λ made. made ≡ spec.reach_rows supers.now) }
{
    let mut rows = List::new(alloc);
    for d in 0..supers.len() {
        rows.push(below(alloc, supers, d)?)?;
    }
    Ok(rows)
}

/// For each vertex, whether it reaches `w`.
#[tactic(auto, using(crate::proofs::Paths::stays_to_the_end))]
fn below(alloc: Global, supers: &[List<usize>], d: usize) -> Result<List<bool>, AllocError>
    ensures { IfOk result (λ marks. marks ≡ spec.reaching_within supers.now d (length supers.now)) }
{
    let mut marks = no_marks(alloc, supers)?;
    for _step in 0..supers.len() {
        let more = one_step_more(alloc, supers, d, marks.as_slice())?;
        if are_same(more.as_slice(), marks.as_slice()) {
            return Ok(marks);
        }
        marks = more;
    }
    Ok(marks)
}

fn are_same(left: &[bool], right: &[bool]) -> bool
    ensures { IsTrue result ↔ (left.now ≡ right.now) }
{
    left == right
}

fn no_marks(alloc: Global, supers: &[List<usize>]) -> Result<List<bool>, AllocError>
    ensures { IfOk result (λ marks. marks ≡ map (λ numbers. false) supers.now) }
{
    let mut marks = List::new(alloc);
    for _ in supers {
        marks.push(false)?;
    }
    Ok(marks)
}

/// For each vertex, whether an edge leads from it to `w` or to a marked vertex.
fn one_step_more(
    alloc: Global,
    supers: &[List<usize>],
    d: usize,
    marks: &[bool],
) -> Result<List<bool>, AllocError>
    ensures { IfOk result
        (λ more. more ≡ map (list_any (spec.is_or_reaches d marks.now)) supers.now) }
{
    let mut more = List::new(alloc);
    for numbers in supers {
        more.push(one_leads_to(numbers.as_slice(), d, marks))?;
    }
    Ok(more)
}

fn one_leads_to(numbers: &[usize], d: usize, marks: &[bool]) -> bool
    ensures { result ≡ list_any (spec.is_or_reaches d marks.now) numbers.now }
{
    numbers.iter().any(|s| is_or_reaches(d, marks, *s))
}

fn is_or_reaches(d: usize, marks: &[bool], s: usize) -> bool
    ensures { result ≡ spec.is_or_reaches d marks.now s }
{
    d == s || is_marked(marks, s)
}

fn is_marked(marks: &[bool], s: usize) -> bool
    ensures { result ≡ get_or marks.now s false }
{
    match marks.get(s) {
        Some(mark) => *mark,
        None => false,
    }
}

/// Whether `v` reaches `w`, by the rows of their graph.
#[tactic(auto, using(crate::proofs::Paths::row_at))]
pub fn reaches(rows: &[List<bool>], c: usize, d: usize) -> bool
    ensures { (supers : _) → rows.now ≡ spec.reach_rows supers → d < length supers
        → result ≡ spec.reaches supers c d }
{
    is_in_row(rows, c, d)
}

/// Whether row `w` has a mark for `v`.
pub fn is_in_row(rows: &[List<bool>], c: usize, d: usize) -> bool
    ensures { result ≡ get_or (get_or rows.now d []) c false }
{
    match rows.get(d) {
        Some(marks) => is_marked(marks.as_slice(), c),
        None => false,
    }
}
