//! The problems of a graph as they are printed.

ghost use Rattle.std.specs.Prelude.{◌≡◌, ◌++◌, ℕ, List, IfOk, OnOk, Some, codes, length, option_map, string_bytes, unwrap_or};
ghost use Rattle.serde_json.specs.Data.{string};
ghost use Rattle.serde_json.specs.View.{view};
ghost use Rattle.hs_graph.specs.Index.{indexed_name};
ghost use Rattle.hs_graph.specs.Problems.{problems_of};
ghost use Rattle.hs_json_model.specs.Written.{line_of, name_in, object_data};
ghost use Rattle.hs_types.specs.TypedGraph.{IsTyped, object_numbered};
ghost use Rattle.hs_json.specs.Problems as spec;

use hs_expr::Text;
use hs_graph::{ObjectIndex, Problem, ProblemKind, name_of, objects_of, problems};
use hs_json_model::{add_line, class_name};
use hs_types::{FeatureNo, ListGraph, Meta};
use serde_json::{Value, json};
use std::alloc::{AllocError, Global};

/// The problems of a typed graph, a line of JSON for each, and a last one with their count.
pub fn problems_text(alloc: Global, meta: &Meta, graph: &ListGraph) -> Result<Text, AllocError>
    requires { IsTyped meta.now graph.now.graph }
    ensures { IfOk result (λ text. text ≡ spec.problems_text meta.now graph.now.graph) }
{
    let problems = problems(alloc, meta, graph)?;
    let objects = objects_of(alloc, graph)?;
    let mut text = String::new(alloc);
    add_problems(alloc, &mut text, meta, &objects, problems.as_slice())?;
    add_count(alloc, &mut text, problems.len())?;
    Ok(Text::from_string(text))
}

fn add_problems(
    alloc: Global,
    text: &mut String,
    meta: &Meta,
    objects: &ObjectIndex<'_>,
    problems: &[Problem],
) -> Result<(), AllocError>
    ensures { (names : ℕ → List ℕ) → ((n : ℕ) → names n ≡ indexed_name objects.now n)
        → OnOk result (string_bytes text.new
        ≡ string_bytes text.old ++ spec.problem_lines meta.now names problems.now) }
{
    for problem in problems {
        add_problem(alloc, text, meta, objects, problem)?;
    }
    Ok(())
}

fn add_problem(
    alloc: Global,
    text: &mut String,
    meta: &Meta,
    objects: &ObjectIndex<'_>,
    problem: &Problem,
) -> Result<(), AllocError>
    ensures { (names : ℕ → List ℕ) → ((n : ℕ) → names n ≡ indexed_name objects.now n)
        → OnOk result (string_bytes text.new
        ≡ string_bytes text.old ++ line_of (spec.problem_data meta.now names problem.now)) }
{
    let object = name_of(objects, problem.object);
    add_named(alloc, text, meta, object, problem.kind)
}

/// Adds the line of a problem of the object of this name.
fn add_named(
    alloc: Global,
    text: &mut String,
    meta: &Meta,
    object: &str,
    kind: ProblemKind,
) -> Result<(), AllocError>
    ensures { OnOk result (string_bytes text.new ≡ string_bytes text.old
        ++ line_of (object_data (spec.problem_members meta.now object.now kind))) }
{
    let line = problem_value(alloc, meta, object, kind)?;
    add_line(alloc, text, &line)
}

fn problem_value(
    alloc: Global,
    meta: &Meta,
    object: &str,
    kind: ProblemKind,
) -> Result<Value, AllocError>
    ensures { IfOk result
        (λ v. view v ≡ object_data (spec.problem_members meta.now object.now kind)) }
{
    match kind {
        ProblemKind::Lower(reference) => bound_value(alloc, meta, object, "lower", reference),
        ProblemKind::Upper(reference) => bound_value(alloc, meta, object, "upper", reference),
        ProblemKind::Containers => { json!(in alloc; {"object": object, "problem": "containers"}) }
        ProblemKind::Cycle => { json!(in alloc; {"object": object, "problem": "cycle"}) }
    }
}

/// A problem with a bound of a reference.
fn bound_value(
    alloc: Global,
    meta: &Meta,
    object: &str,
    problem: &str,
    reference: FeatureNo,
) -> Result<Value, AllocError>
    ensures { IfOk result
        (λ v. view v ≡ object_data (spec.bound_members meta.now object.now problem.now reference)) }
{
    let reference = owned_name(alloc, meta, reference)?;
    let reference = reference.as_str();
    json!(in alloc; {"object": object, "problem": problem, "reference": reference})
}

/// The name of a feature, after that of the class that owns it.
fn owned_name(alloc: Global, meta: &Meta, feature: FeatureNo) -> Result<String, AllocError>
    ensures { IfOk result (λ name. string_bytes name ≡ spec.owned_name meta.now feature) }
{
    let mut name = String::new(alloc);
    if let Some(feature) = meta.feature(feature) {
        name.push_str(class_name(meta, feature.owner))?;
        name.push_str(".")?;
        name.push_str(feature.name.as_str())?;
    }
    Ok(name)
}

/// Adds the line with the number of problems.
fn add_count(alloc: Global, text: &mut String, count: usize) -> Result<(), AllocError>
    ensures { OnOk result
        (string_bytes text.new ≡ string_bytes text.old ++ line_of (spec.count_data count)) }
{
    let line = count_value(alloc, count)?;
    add_line(alloc, text, &line)
}

fn count_value(alloc: Global, count: usize) -> Result<Value, AllocError>
    ensures { IfOk result (λ v. view v ≡ spec.count_data count) }
{
    let count = count as u64;
    json!(in alloc; {"problems": count})
}
