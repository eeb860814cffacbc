//! Faults of what classes declare, each by itself.

ghost use Rattle.std.specs.Prelude.{◌≡◌, ◌++◌, not, is_some};
ghost use Rattle.hs_expr.specs.Verdict.{verdict, each, fault_if};
ghost use Rattle.hs_meta.specs.Faults as spec;
ghost use Rattle.hs_meta.specs.Names as names;

use crate::fault::{ModelFault, ModelFaultKind, ModelPlace, fault};
use crate::names::{data_type_named, is_class, is_identifier};
use crate::raw::{RawAttribute, RawClass, RawDefault, RawReference};
use hs_expr::{Text, check_each, fault_if};
use hs_types::limits::MAX_CLASSES;

pub fn classes_few(classes: &[RawClass]) -> Result<(), ModelFault>
    ensures { result ≡ verdict (spec.many_classes classes.now) }
{
    fault_if(
        classes.len() > MAX_CLASSES,
        fault(ModelPlace::Classes, ModelFaultKind::Limit),
    )
}

pub fn names_right(classes: &[RawClass]) -> Result<(), ModelFault>
    ensures { result ≡ verdict (spec.wrong_names classes.now) }
{
    check_each(
        classes,
        &|c: usize, class: &RawClass| names_right_in(c, class),
    )
}

#[tactic(auto, using(hs_expr::proofs::Verdicts::each_steps))]
fn names_right_in(c: usize, class: &RawClass) -> Result<(), ModelFault>
    ensures { result ≡ verdict (spec.wrong_names_in c class.now) }
{
    name_right(&class.name, ModelPlace::ClassName { class: c })?;
    attribute_names_right(c, class)?;
    reference_names_right(c, class)
}

fn attribute_names_right(c: usize, class: &RawClass) -> Result<(), ModelFault>
    ensures { result ≡ verdict (each (spec.wrong_attribute_name c) class.now.attributes) }
{
    check_each(
        class.attributes.as_slice(),
        &|a: usize, attribute: &RawAttribute| {
            name_right(
                &attribute.name,
                ModelPlace::AttributeName {
                    class: c,
                    number: a,
                },
            )
        },
    )
}

fn reference_names_right(c: usize, class: &RawClass) -> Result<(), ModelFault>
    ensures { result ≡ verdict (each (spec.wrong_reference_name c) class.now.references) }
{
    check_each(
        class.references.as_slice(),
        &|r: usize, reference: &RawReference| {
            name_right(
                &reference.name,
                ModelPlace::ReferenceName {
                    class: c,
                    number: r,
                },
            )
        },
    )
}

fn name_right(name: &Text, place: ModelPlace) -> Result<(), ModelFault>
    ensures { result ≡ verdict (fault_if (not (names.is_identifier name.now))
        (spec.model_fault place ModelFaultKind.Name)) }
{
    fault_if(!is_identifier(name), fault(place, ModelFaultKind::Name))
}

pub fn classes_differ(classes: &[RawClass]) -> Result<(), ModelFault>
    ensures { result ≡ verdict (spec.repeated_classes classes.now) }
{
    check_each(
        classes,
        &|c: usize, class: &RawClass| {
            fault_if(
                is_class(&classes[..c], &class.name),
                fault(ModelPlace::ClassName { class: c }, ModelFaultKind::Twice),
            )
        },
    )
}

pub fn supers_known(classes: &[RawClass]) -> Result<(), ModelFault>
    ensures { result ≡ verdict (spec.unknown_supers classes.now) }
{
    check_each(
        classes,
        &|c: usize, class: &RawClass| {
            check_each(
                class.supers.as_slice(),
                &|s: usize, name: &Text| {
                    fault_if(
                        !is_class(classes, name),
                        fault(
                            ModelPlace::Super {
                                class: c,
                                number: s,
                            },
                            ModelFaultKind::UnknownSuper,
                        ),
                    )
                },
            )
        },
    )
}

pub fn types_known(classes: &[RawClass]) -> Result<(), ModelFault>
    ensures { result ≡ verdict (spec.unknown_types classes.now) }
{
    check_each(
        classes,
        &|c: usize, class: &RawClass| types_known_in(classes, c, class),
    )
}

#[tactic(auto, using(hs_expr::proofs::Verdicts::each_steps))]
fn types_known_in(classes: &[RawClass], c: usize, class: &RawClass) -> Result<(), ModelFault>
    ensures { result ≡ verdict (each (spec.unknown_type c) class.now.attributes
        ++ each (spec.unknown_target classes.now c) class.now.references) }
{
    data_types_known(c, class)?;
    targets_known(classes, c, class)
}

fn data_types_known(c: usize, class: &RawClass) -> Result<(), ModelFault>
    ensures { result ≡ verdict (each (spec.unknown_type c) class.now.attributes) }
{
    check_each(
        class.attributes.as_slice(),
        &|a: usize, attribute: &RawAttribute| {
            fault_if(
                !is_data_type(&attribute.data_type),
                fault(
                    ModelPlace::AttributeType {
                        class: c,
                        number: a,
                    },
                    ModelFaultKind::UnknownType,
                ),
            )
        },
    )
}

fn targets_known(classes: &[RawClass], c: usize, class: &RawClass) -> Result<(), ModelFault>
    ensures { result ≡ verdict (each (spec.unknown_target classes.now c) class.now.references) }
{
    check_each(
        class.references.as_slice(),
        &|r: usize, reference: &RawReference| {
            fault_if(
                !is_class(classes, &reference.target),
                fault(
                    ModelPlace::ReferenceTarget {
                        class: c,
                        number: r,
                    },
                    ModelFaultKind::UnknownType,
                ),
            )
        },
    )
}

pub fn defaults_fit(classes: &[RawClass]) -> Result<(), ModelFault>
    ensures { result ≡ verdict (spec.bad_defaults classes.now) }
{
    check_each(
        classes,
        &|c: usize, class: &RawClass| {
            check_each(
                class.attributes.as_slice(),
                &|a: usize, attribute: &RawAttribute| {
                    fault_if(
                        !default_fits(&attribute.data_type, &attribute.default),
                        fault(
                            ModelPlace::AttributeDefault {
                                class: c,
                                number: a,
                            },
                            ModelFaultKind::BadDefault,
                        ),
                    )
                },
            )
        },
    )
}

fn default_fits(data_type: &Text, default: &RawDefault) -> bool
    ensures { result ≡ spec.default_fits data_type.now default.now }
{
    match default {
        RawDefault::LeftOut => true,
        RawDefault::Given(value) => match data_type_named(data_type) {
            Some(known) => known.has(value),
            None => true,
        },
        RawDefault::NoValue => false,
    }
}

fn is_data_type(name: &Text) -> bool
    ensures { result ≡ is_some (names.data_type_named name.now) }
{
    data_type_named(name).is_some()
}

pub fn bounds_right(classes: &[RawClass]) -> Result<(), ModelFault>
    ensures { result ≡ verdict (spec.bad_bounds classes.now) }
{
    check_each(
        classes,
        &|c: usize, class: &RawClass| {
            check_each(
                class.references.as_slice(),
                &|r: usize, reference: &RawReference| {
                    fault_if(
                        !bounds_fit(reference.lower, reference.upper),
                        fault(
                            ModelPlace::Reference {
                                class: c,
                                number: r,
                            },
                            ModelFaultKind::BadBounds,
                        ),
                    )
                },
            )
        },
    )
}

fn bounds_fit(lower: i64, upper: i64) -> bool
    ensures { result ≡ spec.bounds_fit lower upper }
{
    lower >= 0 && (upper == -1 || (upper >= 1 && lower <= upper))
}
