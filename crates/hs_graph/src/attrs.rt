//! Attributes as they are written, and the slots that they mean.

ghost use Rattle.std.specs.Prelude.{◌≡◌, ◌<◌, ◌++◌, List, Some, slice_get, length, map, option_copied, IfOk, OnOk};
ghost use Rattle.std.specs.List.{filter_map, find};
ghost use Rattle.std.specs.Option.{option_map, unwrap_or};
ghost use Rattle.hs_expr.specs.Verdict.{verdict, each};
ghost use Rattle.hs_graph.specs.Faults as spec;
ghost use Rattle.hs_graph.specs.Lookups as lookups;
ghost use Rattle.hs_graph.specs.Meaning as meaning;

use crate::borrowed::ValueRef;
use crate::fault::{GraphFault, GraphFaultKind, GraphPlace, fault};
use crate::lookups::{attribute_named, is_attribute_named};
use crate::raw::{RawAttr, RawObject, RawValue};
use crate::values::takes;
use hs_expr::{List, Value, check_each, fault_if};
use hs_types::{ClassNo, FeatureNo, Meta, Slot};
use std::alloc::{AllocError, Global};

/// The first attribute that the object's class doesn't have, or that doesn't take what is written.
#[tactic(auto, using(crate::proofs::Lists::class_stands))]
pub fn attrs_right(
    meta: &Meta,
    classes: &[ClassNo],
    objects: &[RawObject<'_>],
) -> Result<(), GraphFault>
    requires { classes.now ≡ lookups.classes_of_objects meta.now objects.now }
    ensures { result ≡ verdict (spec.attr_faults meta.now objects.now) }
{
    check_each(
        objects,
        &|i: usize, object: &RawObject<'_>| attrs_right_at(meta, classes, i, object),
    )
}

fn attrs_right_at(
    meta: &Meta,
    classes: &[ClassNo],
    i: usize,
    object: &RawObject<'_>,
) -> Result<(), GraphFault>
    requires { i < length classes.now }
    ensures { (objects : List RawObject) → classes.now ≡ lookups.classes_of_objects meta.now objects
        → slice_get objects i ≡ Some object.now
        → result ≡ verdict (each (spec.attr_faults_at meta.now
        (lookups.class_of_object meta.now object.now) i) object.now.attrs) }
{
    attrs_right_in(meta, classes[i], i, object.attrs.as_slice())
}

fn attrs_right_in(
    meta: &Meta,
    class: ClassNo,
    i: usize,
    attrs: &[RawAttr<'_>],
) -> Result<(), GraphFault>
    ensures { result ≡ verdict (each (spec.attr_faults_at meta.now class i) attrs.now) }
{
    check_each(
        attrs,
        &|a: usize, attr: &RawAttr<'_>| attr_right(meta, class, i, a, attr),
    )
}

fn attr_right(
    meta: &Meta,
    class: ClassNo,
    i: usize,
    a: usize,
    attr: &RawAttr<'_>,
) -> Result<(), GraphFault>
    ensures { result ≡ verdict (spec.attr_faults_at meta.now class i a attr.now) }
{
    let place = GraphPlace::Attr {
        object: i,
        number: a,
    };
    match attribute_named(meta, class, attr.name.as_str()) {
        Some(attribute) => fault_if(
            !takes(meta, attribute, &attr.value),
            fault(place, GraphFaultKind::BadValue),
        ),
        None => Err(fault(place, GraphFaultKind::UnknownAttribute)),
    }
}

/// A slot for each attribute of the class, with the value that is written, or else the default.
pub fn slots_for(
    alloc: Global,
    meta: &Meta,
    class: ClassNo,
    attrs: &[RawAttr<'_>],
) -> Result<List<Slot>, AllocError>
    ensures { IfOk result (λ slots. slots ≡ meaning.slots_for meta.now class attrs.now) }
{
    let mut slots = List::new(alloc);
    for feature in meta.features_of(class) {
        match meta.default_of(*feature) {
            Some(default) => slots.push(slot_for(alloc, meta, attrs, *feature, default)?)?,
            None => {}
        }
    }
    Ok(slots)
}

/// The slot for the attribute, which has this default.
fn slot_for(
    alloc: Global,
    meta: &Meta,
    attrs: &[RawAttr<'_>],
    attribute: FeatureNo,
    default: &Value,
) -> Result<Slot, AllocError>
    ensures { IfOk result
        (λ slot. slot ≡ record {
          attribute = attribute;
          value = unwrap_or (meaning.written_value meta.now attrs.now attribute) default.now;
        }) }
{
    let value = match written_value(meta, attrs, attribute) {
        Some(written) => written.to_value(alloc)?,
        None => default.clone()?,
    };
    Ok(Slot { attribute, value })
}

/// The value that is written for the attribute.
fn written_value<'a, 'b>(
    meta: &Meta,
    attrs: &'a [RawAttr<'b>],
    attribute: FeatureNo,
) -> Option<&'a ValueRef<'b>>
    ensures { option_copied result ≡ meaning.written_value meta.now attrs.now attribute }
{
    value_of_raw(&attr_for(meta, attrs, attribute)?.value)
}

/// What is written for the attribute.
fn attr_for<'a, 'b>(
    meta: &Meta,
    attrs: &'a [RawAttr<'b>],
    attribute: FeatureNo,
) -> Option<&'a RawAttr<'b>>
    ensures { option_copied result
        ≡ find (λ attr. lookups.is_attribute_named meta.now attr.name attribute) attrs.now }
{
    attrs.iter().find(|attr| is_attribute_named(meta, attr.name.as_str(), attribute))
}

fn value_of_raw<'a, 'b>(written: &'a RawValue<'b>) -> Option<&'a ValueRef<'b>>
    ensures { option_copied result ≡ meaning.value_of_raw written.now }
{
    match written {
        RawValue::Given(value) => Some(value),
        RawValue::NoValue => None,
    }
}
