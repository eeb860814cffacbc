//! Typed graphs, read from a JSON value.

ghost use Rattle.std.specs.Prelude.{◌≡◌, ◌∷◌, [], codes, IfOk};
ghost use Rattle.serde_json.specs.View.{view};
ghost use Rattle.hs_expr.specs.Steps.{Gives, fault_as};
ghost use Rattle.hs_json_form.specs.declared.path.Step.TheVariants as step;
ghost use Rattle.hs_expr.specs.Verdict.{unless};
ghost use Rattle.hs_graph.specs.Faults.{graph_faults};
ghost use Rattle.hs_graph.specs.Meaning.{graph_of};
ghost use Rattle.hs_json_model.specs.Graph as spec;

use crate::graph_form::raw_objects;
use crate::meta::as_part;
use crate::paths::{keyed, named, placed};
use crate::{Fault, Wrong};
use hs_expr::Failure;
use hs_graph::{GraphFault, GraphFaultKind, GraphPlace, RawObject, build};
use hs_json_form::{Path, fault_with};
use hs_types::{Graph, Meta};
use serde_json::Value;
use std::alloc::{AllocError, Global};

/// Why a graph isn't read.
pub type GraphFailure = Failure<Fault<GraphFaultKind>>;

/// The typed graph that the value is over the metamodel; else its first fault: those of its form
/// come first, object by object, and then those of its meaning.
#[tactic(auto, unfolding(crate::specs::Graph::graph_at))]
pub fn read_graph(alloc: Global, meta: &Meta, value: &Value) -> Result<Graph, GraphFailure>
    ensures { Gives result (spec.graph_at meta.now (view value.now)) }
{
    let objects = as_part(raw_objects(alloc, value))?;
    graph_of(alloc, meta, objects.as_slice())
}

/// The graph of what is written.
fn graph_of(alloc: Global, meta: &Meta, objects: &[RawObject<'_>]) -> Result<Graph, GraphFailure>
    ensures { Gives result (fault_as (spec.graph_fault_at objects.now)
        (unless (graph_faults meta.now objects.now) (graph_of meta.now objects.now))) }
{
    fault_with(
        build(alloc, meta, objects),
        &|fault: GraphFault| -> Result<Fault<GraphFaultKind>, AllocError>
            ensures { IfOk result (λ made. made ≡ spec.graph_fault_at objects.entry.now fault) }
        {
            Ok(Fault {
                path: graph_path(alloc, objects, fault.place)?,
                wrong: Wrong::Meaning(fault.kind),
            })
        },
    )
}

/// The path of a place in a graph.
fn graph_path(
    alloc: Global,
    objects: &[RawObject<'_>],
    place: GraphPlace,
) -> Result<Path, AllocError>
    ensures { IfOk result (λ path. path ≡ spec.graph_path objects.now place) }
{
    match place {
        GraphPlace::Graph => Ok(Path::new(alloc)),
        GraphPlace::Object { object } => placed(object, Path::new(alloc)),
        GraphPlace::ObjectName { object } => placed(object, named(alloc, "name")?),
        GraphPlace::ObjectClass { object } => placed(object, named(alloc, "class")?),
        GraphPlace::Attr { object, number } => {
            let attr = named(alloc, attr_name(objects, object, number))?;
            placed(object, keyed(alloc, "attrs", attr)?)
        }
        GraphPlace::Ref { object, number } => {
            in_ref(alloc, objects, object, number, Path::new(alloc))
        }
        GraphPlace::Target {
            object,
            number,
            place,
        } => {
            let target = placed(place, Path::new(alloc))?;
            in_ref(alloc, objects, object, number, target)
        }
    }
}

fn in_ref(
    alloc: Global,
    objects: &[RawObject<'_>],
    object: usize,
    number: usize,
    inner: Path,
) -> Result<Path, AllocError>
    ensures { IfOk result (λ path. path ≡ spec.in_ref objects.now object number inner) }
{
    let inner = keyed(alloc, ref_name(objects, object, number), inner)?;
    placed(object, keyed(alloc, "refs", inner)?)
}

fn attr_name<'a>(objects: &[RawObject<'a>], object: usize, number: usize) -> &'a str
    ensures { result.now ≡ spec.attr_name objects.now object number }
{
    match objects.get(object) {
        Some(object) => match object.attrs.get(number) {
            Some(attr) => attr.name.as_str(),
            None => "",
        },
        None => "",
    }
}

fn ref_name<'a>(objects: &[RawObject<'a>], object: usize, number: usize) -> &'a str
    ensures { result.now ≡ spec.ref_name objects.now object number }
{
    match objects.get(object) {
        Some(object) => match object.refs.get(number) {
            Some(found) => found.name.as_str(),
            None => "",
        },
        None => "",
    }
}
