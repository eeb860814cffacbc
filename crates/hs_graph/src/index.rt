//! A graph's objects by number, and edges by their sources or by their targets.

ghost use Rattle.std.specs.Prelude.{◌≡◌, ◌≤◌, ℕ, IfOk, OnOk, eqb, if◌then◌else◌, option_map, Some, None};
ghost use Rattle.std.specs.Option.{option_or};
ghost use Rattle.std.specs.List.{All, filter};
ghost use Rattle.std.specs.List.Sorted.{IsNonDecreasingBy};
ghost use Rattle.hs_types.specs.TypedGraph.{object_numbered};
ghost use Rattle.hs_graph.specs.Ends.{end_number};
ghost use Rattle.hs_graph.specs.Index.{indexed_edges, indexed_name, indexed_object};
ghost use Rattle.hs_graph.specs.Problems.{edges_leaving};

use hs_expr::List;
use hs_types::{Edge, ListGraph, Object, ObjectNo};
use std::alloc::{AllocError, Global};
use std::collections::BTreeMap;
use std::marker::Model;

/// The objects of a graph by their numbers.
#[derive(Drop)]
pub struct ObjectIndex<'a> {
    /// By place those whose numbers are below the number of objects.
    near: Vec<Option<&'a Object>>,
    far: BTreeMap<ObjectNo, &'a Object>,
}

/// An end of an edge.
#[derive(Clone, Copy, PartialEq, Eq, Debug)]
pub enum End {
    Source,
    Target,
}

/// Edges in the order of the numbers of an end; those of one number as they were before.
#[derive(Drop)]
pub struct EdgeIndex {
    by: End,
    edges: Vec<Edge>,
}

impl Model for EdgeIndex {
    ghost use Rattle.std.specs.List.Sorted.{IsNonDecreasingBy};
    ghost use Rattle.hs_graph.specs.Ends.{EdgesBy, end_number};

    ghost Value = { EdgesBy };

    ghost view = { λ index. record { by = index.by; edges = index.edges.items } };

    ghost invariant = { λ index. IsNonDecreasingBy (end_number index.by) index.edges.items };
}

/// The objects of the graph by their numbers: of one number the first.
pub fn objects_of(alloc: Global, graph: &ListGraph) -> Result<ObjectIndex<'_>, AllocError>
    ensures { IfOk result (λ objects. (n : ℕ)
        → option_map (λ o. o.now) (indexed_object objects n) ≡ object_numbered graph.now.graph n) }
{
    let mut objects = no_objects(alloc, graph.objects().len())?;
    for object in graph.objects() {
        add_object(&mut objects, object)?;
    }
    Ok(objects)
}

fn no_objects<'a>(alloc: Global, places: usize) -> Result<ObjectIndex<'a>, AllocError>
    ensures { IfOk result (λ objects. (n : ℕ) → indexed_object objects n ≡ None) }
{
    Ok(ObjectIndex {
        near: vec![in alloc; None; places]?,
        far: BTreeMap::new(alloc),
    })
}

/// Adds an object, unless there is one of its number.
fn add_object<'a>(objects: &mut ObjectIndex<'a>, object: &'a Object) -> Result<(), AllocError>
    ensures { OnOk result ((n : ℕ) → option_map (λ o. o.now) (indexed_object objects.new n)
        ≡ option_or (option_map (λ o. o.now) (indexed_object objects.old n))
        (if eqb object.now.number n then Some object.now else None)) }
{
    let place = object.number as usize;
    if place < objects.near.len() {
        if objects.near[place].is_none() {
            objects.near[place] = Some(object);
        }
        return Ok(());
    }
    if !objects.far.contains_key(&object.number) {
        objects.far.insert(object.number, object)?;
    }
    Ok(())
}

/// The name of the object of this number; the empty text where there is no such object.
pub fn name_of<'a>(objects: &ObjectIndex<'a>, number: ObjectNo) -> &'a str
    ensures { result.now ≡ indexed_name objects.now number }
{
    match object_of(objects, number) {
        Some(object) => object.name.as_str(),
        None => "",
    }
}

/// The object of this number.
pub fn object_of<'a>(objects: &ObjectIndex<'a>, number: ObjectNo) -> Option<&'a Object>
    ensures { result ≡ indexed_object objects.now number }
{
    match objects.near.get(number as usize) {
        Some(object) => *object,
        None => objects.far.get(&number).copied(),
    }
}

/// The edges by the objects that they leave.
pub fn outgoing_of(alloc: Global, graph: &ListGraph) -> Result<EdgeIndex, AllocError>
    ensures { IfOk result
        (λ edges. (n : ℕ) → indexed_edges edges n ≡ edges_leaving graph.now.graph n) }
{
    index_by(End::Source, List::from_vec(copied(alloc, graph.edges())?))
}

fn copied(alloc: Global, edges: &[Edge]) -> Result<Vec<Edge>, AllocError>
    ensures { IfOk result (λ copy. copy.items ≡ edges.now) }
{
    let mut copy = Vec::with_capacity(alloc, edges.len())?;
    copy.extend_from_slice(edges)?;
    Ok(copy)
}

/// The edges by that end.
pub fn index_by(by: End, edges: List<Edge>) -> Result<EdgeIndex, AllocError>
    ensures { IfOk result
        (λ index. (n : ℕ) → indexed_edges index n ≡ filter (λ e. eqb (end_number by e) n) edges) }
{
    let mut edges = edges.into_vec();
    edges.sort_by_key(
        |edge: &Edge| -> ObjectNo
            ensures { result ≡ end_number by edge.now }
        { end_number(by, edge) },
    )?;
    Ok(EdgeIndex { by, edges })
}

fn end_number(by: End, edge: &Edge) -> ObjectNo
    ensures { result ≡ end_number by edge.now }
{
    match by {
        End::Source => edge.source,
        End::Target => edge.target,
    }
}

/// The edges that have the object of this number at that end.
pub fn edges_of(index: &EdgeIndex, number: ObjectNo) -> &[Edge]
    ensures { result.now ≡ indexed_edges index.now number }
{
    let by = index.by;
    let edges = edges_from(by, index.edges.as_slice(), number);
    &edges[..edges.partition_point(|edge| end_number(by, edge) <= number)]
}

/// The edges that have this number or a greater one at that end.
fn edges_from(by: End, edges: &[Edge], number: ObjectNo) -> &[Edge]
    requires { IsNonDecreasingBy (end_number by) edges.now }
    ensures rising { IsNonDecreasingBy (end_number by) result.now }
    ensures same { filter (λ e. eqb (end_number by e) number) result.now
        ≡ filter (λ e. eqb (end_number by e) number) edges.now }
    ensures from { All (λ e. number ≤ end_number by e) result.now }
{
    &edges[edges.partition_point(|edge| end_number(by, edge) < number)..]
}
