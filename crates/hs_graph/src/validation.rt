//! The problems of a graph.

ghost use Rattle.std.specs.Prelude.{◌≡◌, ◌++◌, ℕ, [], false, get_or, length, eqb, OnOk, IfOk};
ghost use Rattle.std.specs.List.{filter, flat_map};
ghost use Rattle.std.specs.Option.{option_map_or};
ghost use Rattle.hs_expr.specs.Verdict.{fault_if};
ghost use Rattle.hs_types.specs.Metamodel.{feature_at};
ghost use Rattle.hs_types.specs.TypedGraph.{IsTyped};
ghost use Rattle.hs_graph.specs.Index.{indexed_edges};
ghost use Rattle.hs_graph.specs.Problems as spec;

use crate::containment::{containing_of, cycles_of};
use crate::index::{EdgeIndex, edges_of, outgoing_of};
use crate::problem::{Problem, ProblemKind};
use hs_expr::List;
use hs_types::{Edge, FeatureKind, FeatureNo, ListGraph, Meta, Object, ObjectNo};
use std::alloc::{AllocError, Global};

/// The problems of a typed graph, object by object.
pub fn problems(alloc: Global, meta: &Meta, graph: &ListGraph) -> Result<List<Problem>, AllocError>
    requires { IsTyped meta.now graph.now.graph }
    ensures { IfOk result (λ problems. problems ≡ spec.problems_of meta.now graph.now.graph) }
{
    let outgoing = outgoing_of(alloc, graph)?;
    let containing = containing_of(alloc, meta, graph)?;
    let cycles = cycles_of(alloc, meta, graph, &outgoing)?;
    let mut problems = List::new(alloc);
    let objects = graph.objects();
    for (i, object) in objects.iter().enumerate() {
        let is_in_itself = is_marked(cycles.as_slice(), i);
        add_problems_at(
            meta,
            graph,
            &outgoing,
            &containing,
            is_in_itself,
            object,
            &mut problems,
        )?;
    }
    Ok(problems)
}

/// Adds the problems of an object, which contains itself or doesn't.
fn add_problems_at(
    meta: &Meta,
    graph: &ListGraph,
    outgoing: &EdgeIndex,
    containing: &EdgeIndex,
    is_in_itself: bool,
    object: &Object,
    problems: &mut List<Problem>,
) -> Result<(), AllocError>
    requires leave { (n : ℕ) → indexed_edges outgoing.now n ≡ spec.edges_leaving graph.now.graph n }
    requires contain { (n : ℕ) → indexed_edges containing.now n
        ≡ filter (λ e. spec.is_containment meta.now e.reference)
        (spec.edges_entering graph.now.graph n) }
    requires marked { is_in_itself ≡ spec.is_in_itself meta.now graph.now.graph object.now.number }
    ensures { OnOk result
        (problems.new ≡ problems.old ++ spec.problems_at meta.now graph.now.graph object.now) }
{
    add_problems(
        meta,
        edges_of(outgoing, object.number),
        edges_of(containing, object.number).len(),
        is_in_itself,
        object,
        problems,
    )
}

fn is_marked(marks: &[bool], place: usize) -> bool
    ensures { result ≡ get_or marks.now place false }
{
    match marks.get(place) {
        Some(mark) => *mark,
        None => false,
    }
}

/// Adds the problems of an object that these edges leave, and that has this number of
/// containers.
fn add_problems(
    meta: &Meta,
    outgoing: &[Edge],
    containers: usize,
    is_in_itself: bool,
    object: &Object,
    problems: &mut List<Problem>,
) -> Result<(), AllocError>
    ensures { OnOk result (problems.new ≡ problems.old
        ++ spec.problems_by meta.now outgoing.now containers is_in_itself object.now) }
{
    add_feature_problems(
        meta,
        object.number,
        outgoing,
        meta.features_of(object.class),
        problems,
    )?;
    let object = object.number;
    add_if(
        containers > 1,
        Problem {
            object,
            kind: ProblemKind::Containers,
        },
        problems,
    )?;
    add_if(
        is_in_itself,
        Problem {
            object,
            kind: ProblemKind::Cycle,
        },
        problems,
    )
}

fn add_if(test: bool, problem: Problem, problems: &mut List<Problem>) -> Result<(), AllocError>
    ensures { OnOk result (problems.new ≡ problems.old ++ fault_if test problem) }
{
    if test {
        problems.push(problem)?;
    }
    Ok(())
}

fn add_feature_problems(
    meta: &Meta,
    object: ObjectNo,
    outgoing: &[Edge],
    features: &[FeatureNo],
    problems: &mut List<Problem>,
) -> Result<(), AllocError>
    ensures { OnOk result (problems.new ≡ problems.old
        ++ flat_map (spec.feature_problems_by meta.now outgoing.now object) features.now) }
{
    for feature in features {
        add_count_problems(
            meta,
            object,
            *feature,
            targets_count(outgoing, *feature),
            problems,
        )?;
    }
    Ok(())
}

fn add_count_problems(
    meta: &Meta,
    object: ObjectNo,
    feature: FeatureNo,
    count: u64,
    problems: &mut List<Problem>,
) -> Result<(), AllocError>
    ensures { OnOk result (problems.new ≡ problems.old ++ option_map_or (λ found.
        spec.count_problems object feature count found.kind) (feature_at meta.now feature) []) }
{
    match meta.feature(feature) {
        Some(found) => match &found.kind {
            FeatureKind::Reference { lower, upper, .. } => {
                add_if(
                    count < *lower,
                    Problem {
                        object,
                        kind: ProblemKind::Lower(feature),
                    },
                    problems,
                )?;
                add_if(
                    is_above(count, *upper),
                    Problem {
                        object,
                        kind: ProblemKind::Upper(feature),
                    },
                    problems,
                )
            }
            FeatureKind::Attribute { .. } => Ok(()),
        },
        None => Ok(()),
    }
}

fn is_above(count: u64, upper: Option<u64>) -> bool
    ensures { result ≡ spec.is_above count upper }
{
    match upper {
        Some(most) => count > most,
        None => false,
    }
}

fn targets_count(edges: &[Edge], reference: FeatureNo) -> u64
    ensures { result ≡ length (filter (λ edge. eqb edge.reference reference) edges.now) }
{
    edges
        .iter()
        .filter(|edge| edge.reference == reference)
        .count() as u64
}
