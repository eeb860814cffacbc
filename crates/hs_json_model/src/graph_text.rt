//! The text of a graph, written token by token.

ghost use Rattle.std.specs.Prelude.{◌≡◌, ℕ, ◌++◌, ◌∷◌, List, [], IfOk, OnOk, eqb, map, option_map, string_bytes, unwrap_or};
ghost use Rattle.std.specs.List.{list_any};
ghost use Rattle.std.specs.Str.{IsUtf8};
ghost use Rattle.json.specs.Print.{print};
ghost use Rattle.json.specs.Token.{key, string};
ghost use Rattle.json.specs.Tree.{items_tokens, json_tokens};
ghost use Rattle.serde_json.specs.Data.{Data, no_members, object, string as text_data};
ghost use Rattle.serde_json.specs.View.{items_of};
ghost use Rattle.serde_json.specs.Written.{compact_text, items_outline, outline};
ghost use Rattle.hs_graph.specs.Index.{indexed_edges, indexed_name, indexed_object};
ghost use Rattle.hs_json_model.specs.ByName.{entry_members};
ghost use Rattle.hs_json_model.specs.Written.{attrs_data, feature_name, graph_data, list_data, object_data, object_line, object_members, reference_member, refs_members, targets_of, value_data, with_members};
ghost use Rattle.hs_graph.specs.Problems.{edges_leaving};
ghost use Rattle.hs_types.specs.Metamodel.{features_of};
ghost use Rattle.hs_types.specs.declared.graph.Graph.{Graph};
ghost use Rattle.hs_types.specs.TypedGraph.{object_numbered};

use crate::values::{class_name, feature_name};
use hs_expr::{List, Text, Value as Datum};
use hs_graph::{EdgeIndex, ObjectIndex, edges_of, name_of, objects_of, outgoing_of};
use hs_types::{ClassNo, Edge, FeatureNo, ListGraph, Meta, Object, Slot};
use json::Writer;
use std::alloc::{AllocError, Global};
use std::collections::BTreeMap;

/// The compact text of a graph.
pub fn write_graph(alloc: Global, meta: &Meta, graph: &ListGraph) -> Result<Text, AllocError>
    ensures { IfOk result (λ text. text ≡ compact_text (graph_data meta.now graph.now.graph)) }
{
    let text = with_graph(alloc, String::new(alloc), meta, graph)?;
    Ok(Text::from_string(text))
}

/// The text, and after it the compact text of a graph.
pub fn with_graph(
    alloc: Global,
    text: String,
    meta: &Meta,
    graph: &ListGraph,
) -> Result<String, AllocError>
    ensures { IfOk result (λ written. string_bytes written
        ≡ string_bytes text ++ compact_text (graph_data meta.now graph.now.graph)) }
{
    let mut out = Writer::new(text.into_bytes());
    add_graph(alloc, &mut out, meta, graph)?;
    Ok(text_of(out))
}

/// What is written, as a text.
fn text_of(out: Writer) -> String
    requires { IsUtf8 out.before }
    ensures { string_bytes result ≡ out.before ++ print out.tokens }
{
    String::from_utf8(out.into_inner()).unwrap()
}

/// Adds a graph.
fn add_graph(
    alloc: Global,
    out: &mut Writer,
    meta: &Meta,
    graph: &ListGraph,
) -> Result<(), AllocError>
    ensures ok { OnOk result
        (out.new.tokens
        ≡ out.old.tokens ++ json_tokens (outline (graph_data meta.now graph.now.graph))) }
    ensures before { out.new.before ≡ out.old.before }
{
    out.begin_object()?;
    out.key("graph")?;
    add_objects(alloc, out, meta, graph)?;
    out.end_object()
}

/// Adds the list of a graph's objects.
fn add_objects(
    alloc: Global,
    out: &mut Writer,
    meta: &Meta,
    graph: &ListGraph,
) -> Result<(), AllocError>
    ensures ok { OnOk result (out.new.tokens ≡ out.old.tokens
        ++ json_tokens (outline
        (list_data (object_line meta.now graph.now.graph) graph.now.graph.objects))) }
    ensures before { out.new.before ≡ out.old.before }
{
    let objects = objects_of(alloc, graph)?;
    let outgoing = outgoing_of(alloc, graph)?;
    out.begin_array()?;
    for object in graph.objects() {
        add_object(alloc, out, meta, &objects, &outgoing, object)?;
    }
    out.end_array()
}

/// Adds an object of the graph that the objects and the outgoing edges are of.
fn add_object(
    alloc: Global,
    out: &mut Writer,
    meta: &Meta,
    objects: &ObjectIndex<'_>,
    outgoing: &EdgeIndex,
    object: &Object,
) -> Result<(), AllocError>
    ensures ok { (g : Graph)
        → ((n : ℕ) → option_map (λ o. o.now) (indexed_object objects.now n) ≡ object_numbered g n)
        → ((n : ℕ) → indexed_edges outgoing.now n ≡ edges_leaving g n)
        → OnOk result (out.new.tokens
        ≡ out.old.tokens ++ json_tokens (outline (object_line meta.now g object.now))) }
    ensures before { out.new.before ≡ out.old.before }
{
    let edges = edges_of(outgoing, object.number);
    add_parts(alloc, out, meta, objects, edges, object)
}

/// Adds an object at which these edges begin.
fn add_parts(
    alloc: Global,
    out: &mut Writer,
    meta: &Meta,
    objects: &ObjectIndex<'_>,
    edges: &[Edge],
    object: &Object,
) -> Result<(), AllocError>
    ensures ok { OnOk result (out.new.tokens ≡ out.old.tokens ++ json_tokens (outline
        (object_data (object_members meta.now (indexed_name objects.now) edges.now object.now)))) }
    ensures before { out.new.before ≡ out.old.before }
{
    out.begin_object()?;
    out.key("attrs")?;
    add_attrs(alloc, out, meta, &object.slots)?;
    add_text(out, "class", class_name(meta, object.class))?;
    add_text(out, "name", object.name.as_str())?;
    out.key("refs")?;
    add_refs(alloc, out, meta, objects, object.class, edges)?;
    out.end_object()?;
    Ok(())
}

/// Adds a member that is a text.
fn add_text(out: &mut Writer, name: &str, text: &str) -> Result<(), AllocError>
    ensures ok { OnOk result
        (out.new.tokens ≡ out.old.tokens ++ key name.now ∷ string text.now ∷ []) }
    ensures before { out.new.before ≡ out.old.before }
{
    out.key(name)?;
    out.string(text)
}

/// Adds the values of slots, by the names of their attributes.
fn add_attrs(
    alloc: Global,
    out: &mut Writer,
    meta: &Meta,
    slots: &List<Slot>,
) -> Result<(), AllocError>
    ensures ok { OnOk result
        (out.new.tokens ≡ out.old.tokens ++ json_tokens (outline (attrs_data meta.now slots.now))) }
    ensures before { out.new.before ≡ out.old.before }
{
    let slots = slots_by_name(alloc, meta, slots)?;
    add_slots(out, &slots)
}

fn add_slots(out: &mut Writer, slots: &BTreeMap<&str, &Slot>) -> Result<(), AllocError>
    ensures ok { OnOk result (out.new.tokens ≡ out.old.tokens ++ json_tokens
        (outline (object (entry_members (λ slot. value_data slot.now.value) slots.now.entries)))) }
    ensures before { out.new.before ≡ out.old.before }
{
    out.begin_object()?;
    for (name, slot) in slots.iter() {
        out.key(name)?;
        add_datum(out, &slot.value)?;
    }
    out.end_object()
}

/// The slots by the names of their attributes: of one name the last.
fn slots_by_name<'a>(
    alloc: Global,
    meta: &'a Meta,
    slots: &'a List<Slot>,
) -> Result<BTreeMap<&'a str, &'a Slot>, AllocError>
    ensures { IfOk result (λ found. entry_members (λ slot. value_data slot.now.value) found.entries
        ≡ with_members no_members (map
        (λ slot. (feature_name meta.now slot.attribute, value_data slot.value)) slots.now)) }
{
    let mut found = BTreeMap::new(alloc);
    for slot in slots.as_slice() {
        found.insert(feature_name(meta, slot.attribute), slot)?;
    }
    Ok(found)
}

/// Adds a value of an attribute.
fn add_datum(out: &mut Writer, datum: &Datum) -> Result<(), AllocError>
    ensures ok { OnOk result
        (out.new.tokens ≡ out.old.tokens ++ json_tokens (outline (value_data datum.now))) }
    ensures before { out.new.before ≡ out.old.before }
{
    match datum {
        Datum::Int(number) => out.i64(*number),
        Datum::Bool(truth) => out.boolean(*truth),
        Datum::Text(text) => out.string(text.as_str()),
    }
}

/// Adds the references of a class that have an edge, each with the names of its targets.
fn add_refs(
    alloc: Global,
    out: &mut Writer,
    meta: &Meta,
    objects: &ObjectIndex<'_>,
    class: ClassNo,
    edges: &[Edge],
) -> Result<(), AllocError>
    ensures ok { OnOk result (out.new.tokens ≡ out.old.tokens ++ json_tokens (outline
        (object_data (refs_members meta.now (indexed_name objects.now) edges.now
        (features_of meta.now class))))) }
    ensures before { out.new.before ≡ out.old.before }
{
    let refs = refs_by_name(alloc, meta, class, edges)?;
    add_references(out, objects, &refs, edges)
}

fn add_references(
    out: &mut Writer,
    objects: &ObjectIndex<'_>,
    refs: &BTreeMap<&str, FeatureNo>,
    edges: &[Edge],
) -> Result<(), AllocError>
    ensures ok { OnOk result (out.new.tokens ≡ out.old.tokens
        ++ json_tokens (outline
        (object (entry_members (λ f. list_data text_data
        (targets_of (indexed_name objects.now) edges.now f)) refs.now.entries)))) }
    ensures before { out.new.before ≡ out.old.before }
{
    out.begin_object()?;
    for (name, reference) in refs.iter() {
        out.key(name)?;
        add_targets(out, objects, *reference, edges)?;
    }
    out.end_object()
}

/// The references of a class that have an edge, by their names: of one name the last.
fn refs_by_name<'a>(
    alloc: Global,
    meta: &'a Meta,
    class: ClassNo,
    edges: &[Edge],
) -> Result<BTreeMap<&'a str, FeatureNo>, AllocError>
    ensures { (names : ℕ → List ℕ) → IfOk result (λ found.
        entry_members (λ f. list_data text_data (targets_of names edges.now f)) found.entries
        ≡ with_members no_members
        (refs_members meta.now names edges.now (features_of meta.now class))) }
{
    let mut found = BTreeMap::new(alloc);
    if let Some(class) = meta.class(class) {
        for feature in class.features.as_slice() {
            add_reference(&mut found, meta, *feature, edges)?;
        }
    }
    Ok(found)
}

/// Adds a reference, if it has an edge.
fn add_reference<'a>(
    found: &mut BTreeMap<&'a str, FeatureNo>,
    meta: &'a Meta,
    feature: FeatureNo,
    edges: &[Edge],
) -> Result<(), AllocError>
    ensures { (names : ℕ → List ℕ) → OnOk result
        (entry_members (λ f. list_data text_data (targets_of names edges.now f)) found.new.entries
        ≡ with_members (entry_members (λ f. list_data text_data (targets_of names edges.now f))
        found.old.entries)
        (reference_member (feature_name meta.now feature) (targets_of names edges.now feature))) }
{
    if has_edge(edges, feature) {
        found.insert(feature_name(meta, feature), feature)?;
    }
    Ok(())
}

fn has_edge(edges: &[Edge], reference: FeatureNo) -> bool
    ensures { result ≡ list_any (λ e. eqb e.reference reference) edges.now }
{
    edges.iter().any(|edge| edge.reference == reference)
}

/// Adds the names of the targets at a reference.
fn add_targets(
    out: &mut Writer,
    objects: &ObjectIndex<'_>,
    reference: FeatureNo,
    edges: &[Edge],
) -> Result<(), AllocError>
    ensures ok { OnOk result (out.new.tokens ≡ out.old.tokens ++ json_tokens (outline
        (list_data text_data (targets_of (indexed_name objects.now) edges.now reference)))) }
    ensures before { out.new.before ≡ out.old.before }
{
    out.begin_array()?;
    for edge in edges {
        if edge.reference == reference {
            out.string(name_of(objects, edge.target))?;
        }
    }
    out.end_array()
}
