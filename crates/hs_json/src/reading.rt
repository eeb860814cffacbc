//! Reading bundles.

ghost use Rattle.std.specs.Prelude.{◌≡◌, [], codes, Ok, IfErr, IfOk, option_map};
ghost use Rattle.serde_json.specs.Errors.{IsMemory};
ghost use Rattle.serde_json.specs.Find.{get};
ghost use Rattle.serde_json.specs.View.{view};
ghost use Rattle.hs_expr.specs.declared.failure.Failure.TheVariants as failed;
ghost use Rattle.hs_expr.specs.Steps.{Gives, GivesBy, fault_as};
ghost use Rattle.hs_json_form.specs.Form.{at_or, text_value};
ghost use Rattle.hs_graph.specs.Meaning.{graph_of};
ghost use Rattle.hs_json_model.specs.Meta.{meta_at};
ghost use Rattle.hs_types.specs.declared.meta.Metamodel.{Metamodel};
ghost use Rattle.hs_json.specs.declared.fault.BundleFault.TheVariants as fault;
ghost use Rattle.hs_json.specs.Reading as spec;
ghost use Rattle.hs_json_model.specs.Sound.{IsSound};
ghost use Rattle.hs_types.specs.Host.{HasNearNames};
ghost use Rattle.hs_types.specs.TypedGraph.{IsTyped};

use crate::BundleFault;
use hs_expr::{Failure, List, Text};
use hs_graph::GraphFaultKind;
use hs_json_form::{Path, Step, at_key, fault_with, member_at, only_known, text_of};
use hs_json_model::laws::models_are_sound;
use hs_json_model::{Fault, GraphFailure, read_graph, read_meta};
use hs_meta::ModelFaultKind;
use hs_types::{Graph, ListGraph, Meta};
use serde_json::{Error, Value};
use std::alloc::{AllocError, Global};
use std::sync::Arc;

/// What a bundle holds.
#[derive(Debug, Drop)]
pub struct Bundle {
    /// The graph with its metamodel.
    pub graph: ListGraph,
    /// The text of its rules.
    pub rules: Text,
    /// The value of its sessions, which are read after the rules.
    pub sessions: Option<Value>,
    /// The value of its journal.
    pub journal: Option<Value>,
}

/// Reads the bundle that the bytes are, or reports its first fault: bytes that aren't JSON, then
/// the bundle's own form, then the metamodel, then the graph. What is read is sound.
pub fn read_bundle(alloc: Global, bytes: &[u8]) -> Result<Bundle, Failure<BundleFault>>
    ensures answers { spec.Answers bytes.now result }
    ensures sound { IfOk result
        (λ bundle. IsSound bundle.graph.meta bundle.graph.graph) }
{
    models_are_sound();
    let value = json_of(alloc, bytes)?;
    bundle_of(alloc, value)
}

/// The value of the JSON text that the bytes are.
fn json_of(alloc: Global, bytes: &[u8]) -> Result<Value, Failure<BundleFault>>
    ensures json { IfOk result (λ value. spec.IsJson bytes.now (view value)) }
    ensures none { IfErr result (λ f. (found : _) → f ≡ failed.Fault found
        → (found ≡ fault.BadJson) × spec.IsNoJson bytes.now) }
{
    match Value::from_slice(alloc, bytes) {
        Ok(value) => Ok(value),
        Err(error) => Err(failure_of(&error)),
    }
}

/// The failure that an error of reading JSON is.
fn failure_of(error: &Error) -> Failure<BundleFault>
    ensures { (found : _) → result ≡ failed.Fault found
        → (found ≡ fault.BadJson) × ¬ IsMemory error.now }
{
    if error.is_memory() {
        Failure::NoMemory
    } else {
        Failure::Fault(BundleFault::BadJson)
    }
}

/// What the value holds.
#[tactic(auto, unfolding(crate::specs::Reading::contents_of))]
fn bundle_of(alloc: Global, value: Value) -> Result<Bundle, Failure<BundleFault>>
    ensures { GivesBy spec.contents result (spec.contents_of (view value)) }
{
    let (meta, rules) = top(alloc, &value)?;
    let meta = meta_part(alloc, meta)?;
    let graph = graph_part(alloc, &meta, &value)?;
    let meta = Arc::new(alloc, meta)?;
    let journal = copy_at(&value, "journal")?;
    let sessions = taken_at(value, "sessions");
    Ok(Bundle {
        graph: ListGraph::new(meta, graph),
        rules,
        sessions,
        journal,
    })
}

/// A copy of the value at a key.
fn copy_at(value: &Value, key: &str) -> Result<Option<Value>, AllocError>
    ensures { IfOk result (λ copy. option_map view copy ≡ get key.now (view value.now)) }
{
    match value.get(key) {
        Some(found) => Ok(Some(found.clone()?)),
        None => Ok(None),
    }
}

/// The value at a key; the rest is let go.
fn taken_at(value: Value, key: &str) -> Option<Value>
    ensures { option_map view result ≡ get key.now (view value) }
{
    let mut value = value;
    match value.get_mut(key) {
        Some(found) => Some(found.take()),
        None => None,
    }
}

/// The value of the metamodel and the text of the rules, by the bundle's own form.
#[tactic(auto, using(hs_expr::proofs::Answers::widened))]
fn top(alloc: Global, value: &Value) -> Result<(&Value, Text), Failure<BundleFault>>
    ensures { GivesBy (λ t. (view t.0.now, t.1)) result
        (fault_as fault.BadBundle (spec.top_of (view value.now))) }
{
    hs_expr::fault_as(
        top_form(alloc, value),
        &|path: Path| -> BundleFault
            ensures { result ≡ fault.BadBundle path }
        { BundleFault::BadBundle(path) },
    )
}

#[tactic(auto, unfolding(crate::specs::Reading::top_of))]
fn top_form(alloc: Global, value: &Value) -> Result<(&Value, Text), Failure<Path>>
    ensures { GivesBy (λ t. (view t.0.now, t.1)) result (spec.top_of (view value.now)) }
{
    only_known(
        alloc,
        value,
        &["meta", "graph", "rules", "sessions", "journal"],
    )?;
    let meta = member_at(alloc, value, "meta")?;
    let rules = rules_at(alloc, value)?;
    Ok((meta, rules))
}

/// The text of the rules; empty where it is left out.
fn rules_at(alloc: Global, value: &Value) -> Result<Text, Failure<Path>>
    ensures { Gives result (at_or (codes "rules") [] text_value (view value.now)) }
{
    match value.get("rules") {
        Some(rules) => at_key(alloc, "rules", text_of(alloc, rules)),
        None => Ok(Text::from_str(alloc, "")?),
    }
}

/// The fault, reported from the bundle that has the part at this key.
fn under<K: Drop>(alloc: Global, key: &str, fault: Fault<K>) -> Result<Fault<K>, AllocError>
    ensures { IfOk result (λ found. found ≡ spec.under key.now fault) }
{
    let Fault { path, wrong } = fault;
    let path = path.within(Step::Key(Text::from_str(alloc, key)?))?;
    Ok(Fault { path, wrong })
}

/// The metamodel, its fault reported from the bundle.
fn meta_part(alloc: Global, value: &Value) -> Result<Meta, Failure<BundleFault>>
    ensures { Gives result (fault_as spec.in_model (meta_at (view value.now))) }
{
    fault_with(
        read_meta(alloc, value),
        &|fault: Fault<ModelFaultKind>| -> Result<BundleFault, AllocError>
            ensures { IfOk result (λ made. made ≡ spec.in_model fault) }
        { Ok(BundleFault::BadModel(under(alloc, "meta", fault)?)) },
    )
}

/// The graph, its fault reported from the bundle.
fn graph_part(alloc: Global, meta: &Meta, value: &Value) -> Result<Graph, Failure<BundleFault>>
    ensures graph { Gives result (fault_as spec.in_graph
        (spec.graph_or_empty meta.now (get (codes "graph") (view value.now)))) }
    ensures typed { IfOk result (λ graph. IsTyped meta.now graph × HasNearNames graph) }
{
    meta.is_metamodel();
    models_are_sound();
    fault_with(
        graph_at(alloc, meta, value),
        &|fault: Fault<GraphFaultKind>| -> Result<BundleFault, AllocError>
            ensures { IfOk result (λ made. made ≡ spec.in_graph fault) }
        { Ok(BundleFault::BadGraph(under(alloc, "graph", fault)?)) },
    )
}

/// The graph of a bundle; empty where it is left out.
fn graph_at(alloc: Global, meta: &Meta, value: &Value) -> Result<Graph, GraphFailure>
    ensures { Gives result (spec.graph_or_empty meta.now (get (codes "graph") (view value.now))) }
{
    match value.get("graph") {
        Some(graph) => read_graph(alloc, meta, graph),
        None => empty(alloc),
    }
}

/// The graph without objects.
#[tactic(auto, unfolding(hs_graph::specs::Meaning::graph_of))]
fn empty(alloc: Global) -> Result<Graph, GraphFailure>
    ensures { (m : Metamodel) → Gives result (Ok (graph_of m [])) }
{
    Ok(Graph {
        objects: List::new(alloc),
        edges: List::new(alloc),
        next_object: 0,
        next_edge: 0,
        next_name: 0,
    })
}
