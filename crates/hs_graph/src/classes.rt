//! The classes of objects.

ghost use Rattle.std.specs.Prelude.{◌≡◌};
ghost use Rattle.hs_expr.specs.Steps.{GivesWhere};
ghost use Rattle.hs_expr.specs.Verdict.{unless, verdict};
ghost use Rattle.hs_graph.specs.Faults as spec;
ghost use Rattle.hs_graph.specs.Lookups as lookups;

use crate::fault::{GraphFault, GraphFaultKind, GraphPlace, fault};
use crate::lookups::{class_named, is_abstract};
use crate::raw::RawObject;
use hs_expr::{Failure, List};
use hs_types::{ClassNo, Meta};
use std::alloc::Global;

/// The number of each object's class, or the first class that isn't there or is abstract.
pub fn classes_of_objects(
    alloc: Global,
    meta: &Meta,
    objects: &[RawObject<'_>],
) -> Result<List<ClassNo>, Failure<GraphFault>>
    ensures { GivesWhere (λ classes. classes ≡ lookups.classes_of_objects meta.now objects.now)
        result (verdict (spec.object_class_faults meta.now objects.now)) }
{
    let mut classes = List::from_vec(Vec::with_capacity(alloc, objects.len())?);
    for (i, object) in objects.iter().enumerate() {
        match class_of_object(meta, i, object) {
            Ok(class) => classes.push(class)?,
            Err(fault) => return Err(Failure::Fault(fault)),
        }
    }
    Ok(classes)
}

/// The number of the object's class.
fn class_of_object(meta: &Meta, i: usize, object: &RawObject<'_>) -> Result<ClassNo, GraphFault>
    ensures { result ≡ unless (spec.object_class_faults_at meta.now i object.now)
        (lookups.class_of_object meta.now object.now) }
{
    match class_named(meta, object.class.as_str()) {
        None => Err(fault(
            GraphPlace::ObjectClass { object: i },
            GraphFaultKind::UnknownClass,
        )),
        Some(class) if is_abstract(meta, class) => Err(fault(
            GraphPlace::Object { object: i },
            GraphFaultKind::Abstract,
        )),
        Some(class) => Ok(class),
    }
}
