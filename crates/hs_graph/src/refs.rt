//! References as they are written: whether they and their targets are there and fit.

ghost use Rattle.std.specs.Prelude.{◌≡◌, ◌<◌, ℕ, List, Some, length, slice_get};
ghost use Rattle.hs_expr.specs.Verdict.{verdict, each};
ghost use Rattle.hs_graph.specs.Faults as spec;
ghost use Rattle.hs_graph.specs.Lookups.{class_of_object, classes_of_objects, number_named, object_names, place_of};

use crate::borrowed::TextRef;
use crate::fault::{GraphFault, GraphFaultKind, GraphPlace, fault};
use crate::lookups::{both_conform, reference_named};
use crate::numbers::Numbers;
use crate::raw::{RawObject, RawRef};
use hs_expr::{check_each, fault_if};
use hs_types::{ClassNo, FeatureNo, Meta, ObjectNo};

/// The first reference that the object's class doesn't have, target that isn't there, or target of
/// a class that the reference doesn't lead to.
#[tactic(auto, using(crate::proofs::Lists::class_stands))]
pub fn refs_right(
    meta: &Meta,
    numbers: &Numbers<'_>,
    classes: &[ClassNo],
    objects: &[RawObject<'_>],
) -> Result<(), GraphFault>
    requires resolved { classes.now ≡ classes_of_objects meta.now objects.now }
    requires numbered { (name : List ℕ)
        → number_named numbers.now name ≡ place_of (object_names objects.now) name }
    ensures { result ≡ verdict (spec.ref_faults meta.now objects.now) }
{
    check_each(
        objects,
        &|i: usize, object: &RawObject<'_>| refs_right_at(meta, numbers, classes, i, object),
    )
}

fn refs_right_at(
    meta: &Meta,
    numbers: &Numbers<'_>,
    classes: &[ClassNo],
    i: usize,
    object: &RawObject<'_>,
) -> Result<(), GraphFault>
    requires { i < length classes.now }
    ensures { (objects : List RawObject) → classes.now ≡ classes_of_objects meta.now objects
        → ((name : List ℕ) → number_named numbers.now name ≡ place_of (object_names objects) name)
        → slice_get objects i ≡ Some object.now
        → result ≡ verdict (each (spec.ref_faults_at meta.now (object_names objects)
        (classes_of_objects meta.now objects) (class_of_object meta.now object.now) i)
        object.now.refs) }
{
    refs_right_in(
        meta,
        numbers,
        classes,
        classes[i],
        i,
        object.refs.as_slice(),
    )
}

fn refs_right_in(
    meta: &Meta,
    numbers: &Numbers<'_>,
    classes: &[ClassNo],
    class: ClassNo,
    i: usize,
    refs: &[RawRef<'_>],
) -> Result<(), GraphFault>
    ensures { (names : List (List ℕ))
        → ((name : List ℕ) → number_named numbers.now name ≡ place_of names name)
        → result ≡ verdict (each (spec.ref_faults_at meta.now names classes.now class i) refs.now) }
{
    check_each(
        refs,
        &|r: usize, written: &RawRef<'_>| ref_right(meta, numbers, classes, class, i, r, written),
    )
}

fn ref_right(
    meta: &Meta,
    numbers: &Numbers<'_>,
    classes: &[ClassNo],
    class: ClassNo,
    i: usize,
    r: usize,
    written: &RawRef<'_>,
) -> Result<(), GraphFault>
    ensures { (names : List (List ℕ))
        → ((name : List ℕ) → number_named numbers.now name ≡ place_of names name)
        → result ≡ verdict (spec.ref_faults_at meta.now names classes.now class i r written.now) }
{
    match reference_named(meta, class, written.name.as_str()) {
        Some(reference) => targets_right(
            meta,
            numbers,
            classes,
            reference,
            i,
            r,
            written.targets.as_slice(),
        ),
        None => Err(fault(
            GraphPlace::Ref {
                object: i,
                number: r,
            },
            GraphFaultKind::UnknownReference,
        )),
    }
}

fn targets_right(
    meta: &Meta,
    numbers: &Numbers<'_>,
    classes: &[ClassNo],
    reference: FeatureNo,
    i: usize,
    r: usize,
    targets: &[TextRef<'_>],
) -> Result<(), GraphFault>
    ensures { (names : List (List ℕ))
        → ((name : List ℕ) → number_named numbers.now name ≡ place_of names name)
        → result ≡ verdict (each (spec.target_faults_at meta.now names classes.now reference i r)
        targets.now) }
{
    check_each(
        targets,
        &|t: usize, name: &TextRef<'_>| {
            let place = GraphPlace::Target {
                object: i,
                number: r,
                place: t,
            };
            target_right(meta, numbers, classes, reference, place, name)
        },
    )
}

fn target_right(
    meta: &Meta,
    numbers: &Numbers<'_>,
    classes: &[ClassNo],
    reference: FeatureNo,
    place: GraphPlace,
    name: &TextRef<'_>,
) -> Result<(), GraphFault>
    ensures { (names : List (List ℕ))
        → ((name : List ℕ) → number_named numbers.now name ≡ place_of names name)
        → result ≡ verdict (spec.reach_faults meta.now classes.now reference place
        (place_of names name.now)) }
{
    match numbers.get(name.as_str()) {
        Some(target) => fault_if(
            !leads_to(meta, classes, reference, *target),
            fault(place, GraphFaultKind::BadTarget),
        ),
        None => Err(fault(place, GraphFaultKind::UnknownTarget)),
    }
}

/// Whether the target's class conforms to the one that the reference leads to.
fn leads_to(meta: &Meta, classes: &[ClassNo], reference: FeatureNo, target: ObjectNo) -> bool
    ensures { result ≡ spec.leads_to meta.now classes.now reference target }
{
    both_conform(
        meta,
        classes.get(target as usize).copied(),
        meta.target_of(reference),
    )
}
