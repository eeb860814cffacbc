//! The typed graph that written objects denote.

ghost use Rattle.std.specs.Prelude.{◌≡◌, ◌≤◌, ◌++◌, ℕ, List, Ok, length, OnOk};
ghost use Rattle.hs_expr.specs.Steps.{Gives};
ghost use Rattle.hs_expr.specs.Verdict.{unless, verdict};
ghost use Rattle.hs_graph.specs.Faults as spec;
ghost use Rattle.hs_graph.specs.Lookups as lookups;
ghost use Rattle.hs_graph.specs.Meaning as meaning;

use crate::attrs::attrs_right;
use crate::classes::classes_of_objects;
use crate::edges::{all_links, numbered_edges};
use crate::fault::{GraphFault, GraphFaultKind, GraphPlace, fault};
use crate::numbers::{Named, names_of};
use crate::objects::numbered_objects;
use crate::raw::RawObject;
use crate::refs::refs_right;
use hs_expr::{Failure, as_failure};
use hs_types::limits::MAX_OBJECTS;
use hs_types::{Graph, Meta};
use std::alloc::Global;

/// The typed graph that written objects denote over the metamodel, or the first fault of the six
/// checks, each over the objects in order.
#[tactic(auto, using(hs_expr::proofs::Faults::checks))]
pub fn build(
    alloc: Global,
    meta: &Meta,
    objects: &[RawObject<'_>],
) -> Result<Graph, Failure<GraphFault>>
    ensures { Gives result
        (unless (spec.graph_faults meta.now objects.now) (meaning.graph_of meta.now objects.now)) }
{
    as_failure(objects_few(objects))?;
    let named = names_of(alloc, objects)?;
    build_named(alloc, meta, &named, objects)
}

fn objects_few(objects: &[RawObject<'_>]) -> Result<(), GraphFault>
    ensures answers { result ≡ verdict (spec.many_objects objects.now) }
    ensures few { OnOk result (length objects.now ≤ MAX_OBJECTS) }
{
    if objects.len() > MAX_OBJECTS {
        return Err(fault(GraphPlace::Graph, GraphFaultKind::Limit));
    }
    Ok(())
}

/// The graph, or the first fault of the checks that come after those of the names.
#[tactic(auto, using(hs_expr::proofs::Faults::checks), unfolding(crate::specs::Meaning::graph_of))]
fn build_named(
    alloc: Global,
    meta: &Meta,
    named: &Named<'_>,
    objects: &[RawObject<'_>],
) -> Result<Graph, Failure<GraphFault>>
    requires few { length objects.now ≤ MAX_OBJECTS }
    requires numbered { (name : List ℕ) → lookups.number_named named.now.numbers name
        ≡ lookups.place_of (lookups.object_names objects.now) name }
    requires next { named.now.next_name
        ≡ meaning.next_name_after (lookups.object_names objects.now) }
    ensures { (before : List GraphFault) → verdict before ≡ Ok tt
        → Gives result (unless (before ++ spec.object_class_faults meta.now objects.now
        ++ spec.attr_faults meta.now objects.now
        ++ spec.ref_faults meta.now objects.now ++ spec.many_edges meta.now objects.now)
        (meaning.graph_of meta.now objects.now)) }
{
    let classes = classes_of_objects(alloc, meta, objects)?;
    let classes = classes.as_slice();
    as_failure(attrs_right(meta, classes, objects))?;
    as_failure(refs_right(meta, &named.numbers, classes, objects))?;
    let links = all_links(alloc, meta, &named.numbers, classes, objects)?;
    let next_edge = links.len() as u64;
    Ok(Graph {
        objects: numbered_objects(alloc, meta, classes, objects)?,
        edges: numbered_edges(alloc, links.as_slice())?,
        next_object: objects.len() as u64,
        next_edge,
        next_name: named.next_name,
    })
}
