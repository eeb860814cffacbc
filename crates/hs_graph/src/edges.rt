//! The edges that references mean.

ghost use Rattle.std.specs.Prelude.{◌≡◌, ◌≤◌, ◌++◌, ℕ, List, map, length, IfOk, OnOk, option_copied, unwrap_or};
ghost use Rattle.std.specs.List.{find};
ghost use Rattle.hs_expr.specs.Steps.{GivesWhere};
ghost use Rattle.hs_expr.specs.Verdict.{verdict};
ghost use Rattle.hs_graph.specs.Faults as faults;
ghost use Rattle.hs_graph.specs.Links as spec;
ghost use Rattle.hs_graph.specs.Lookups.{classes_of_objects, is_reference_named as named, number_named, object_names, place_of};
ghost use Rattle.hs_graph.specs.Meaning as meaning;

use crate::borrowed::TextRef;
use crate::fault::{GraphFault, GraphFaultKind, GraphPlace, fault};
use crate::lookups::is_reference_named;
use crate::numbers::Numbers;
use crate::raw::{RawObject, RawRef};
use hs_expr::{Failure, List};
use hs_types::limits::{MAX_EDGES, MAX_OBJECTS};
use hs_types::{ClassNo, Edge, EdgeNo, FeatureNo, Meta, ObjectNo};
use std::alloc::{AllocError, Global};

/// An edge before it is numbered.
#[derive(Clone, Copy, PartialEq, Eq, Debug)]
pub struct Link {
    pub source: ObjectNo,
    pub reference: FeatureNo,
    pub target: ObjectNo,
}

/// The edges of all objects, object by object, unless there are too many.
pub fn all_links(
    alloc: Global,
    meta: &Meta,
    numbers: &Numbers<'_>,
    classes: &[ClassNo],
    objects: &[RawObject<'_>],
) -> Result<List<Link>, Failure<GraphFault>>
    requires few { length objects.now ≤ MAX_OBJECTS }
    requires resolved { classes.now ≡ classes_of_objects meta.now objects.now }
    requires numbered { (name : List ℕ)
        → number_named numbers.now name ≡ place_of (object_names objects.now) name }
    ensures gives { GivesWhere (λ links. links ≡ spec.all_links meta.now objects.now) result
        (verdict (faults.many_edges meta.now objects.now)) }
    ensures few { IfOk result (λ links. length links ≤ MAX_EDGES) }
{
    let mut links = List::new(alloc);
    for (i, object) in objects.iter().enumerate() {
        add_links(
            meta,
            numbers,
            i as u32,
            classes[i],
            object.refs.as_slice(),
            &mut links,
        )?;
        if links.len() > MAX_EDGES {
            return Err(Failure::Fault(fault(GraphPlace::Graph, GraphFaultKind::Limit)));
        }
    }
    Ok(links)
}

/// Adds the edges of a source, reference by reference in the order of its class.
fn add_links(
    meta: &Meta,
    numbers: &Numbers<'_>,
    source: ObjectNo,
    class: ClassNo,
    refs: &[RawRef<'_>],
    links: &mut List<Link>,
) -> Result<(), AllocError>
    ensures { (names : List (List ℕ))
        → ((name : List ℕ) → number_named numbers.now name ≡ place_of names name)
        → OnOk result (links.new
        ≡ links.old ++ spec.links_of meta.now names source class refs.now) }
{
    for feature in meta.features_of(class) {
        add_links_at(meta, numbers, source, *feature, refs, links)?;
    }
    Ok(())
}

/// Adds the edges of a source at a feature.
fn add_links_at(
    meta: &Meta,
    numbers: &Numbers<'_>,
    source: ObjectNo,
    feature: FeatureNo,
    refs: &[RawRef<'_>],
    links: &mut List<Link>,
) -> Result<(), AllocError>
    ensures { (names : List (List ℕ))
        → ((name : List ℕ) → number_named numbers.now name ≡ place_of names name)
        → OnOk result (links.new ≡ links.old
        ++ map (spec.link_of names source feature) (spec.targets_at meta.now refs.now feature)) }
{
    match ref_for(meta, refs, feature) {
        Some(found) => add_targets(numbers, source, feature, found.targets.as_slice(), links),
        None => Ok(()),
    }
}

/// What is written for a reference.
fn ref_for<'a, 'b>(
    meta: &Meta,
    refs: &'a [RawRef<'b>],
    feature: FeatureNo,
) -> Option<&'a RawRef<'b>>
    ensures { option_copied result
        ≡ find (λ written. named meta.now written.name feature) refs.now }
{
    refs.iter().find(|written| is_reference_named(meta, written.name.as_str(), feature))
}

/// Adds an edge for each target of the source at this reference.
fn add_targets(
    numbers: &Numbers<'_>,
    source: ObjectNo,
    reference: FeatureNo,
    targets: &[TextRef<'_>],
    links: &mut List<Link>,
) -> Result<(), AllocError>
    ensures { (names : List (List ℕ))
        → ((name : List ℕ) → number_named numbers.now name ≡ place_of names name)
        → OnOk result (links.new
        ≡ links.old ++ map (spec.link_of names source reference) targets.now) }
{
    for target in targets {
        links.push(Link {
            source,
            reference,
            target: number_of(numbers, target),
        })?;
    }
    Ok(())
}

/// The number of the object of this name, or 0 where there is none.
fn number_of(numbers: &Numbers<'_>, name: &TextRef<'_>) -> ObjectNo
    ensures { result ≡ unwrap_or (number_named numbers.now name.now) 0 }
{
    numbers.get(name.as_str()).copied().unwrap_or(0)
}

/// The edges, numbered by their places.
pub fn numbered_edges(alloc: Global, links: &[Link]) -> Result<List<Edge>, AllocError>
    requires { length links.now ≤ MAX_EDGES }
    ensures { IfOk result (λ made. made ≡ meaning.edges_of_links 0 links.now) }
{
    let mut made = List::from_vec(Vec::with_capacity(alloc, links.len())?);
    for (i, link) in links.iter().enumerate() {
        made.push(edge_of(i as u32, link))?;
    }
    Ok(made)
}

/// The edge of this number that a link is.
fn edge_of(number: EdgeNo, link: &Link) -> Edge
    ensures { result ≡ record {
      number = number;
      source = link.now.source;
      reference = link.now.reference;
      target = link.now.target;
    } }
{
    Edge {
        number,
        source: link.source,
        reference: link.reference,
        target: link.target,
    }
}
