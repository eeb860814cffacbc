//! What names denote in a metamodel.

ghost use Rattle.std.specs.Prelude.{◌≡◌, option_copied};
ghost use Rattle.std.specs.List.{find, position};
ghost use Rattle.hs_expr.specs.Lists.{same_text};
ghost use Rattle.hs_types.specs.Metamodel.{is_attribute, supers_of};
ghost use Rattle.hs_types.specs.Metamodel.{conforms as is_or_below};
ghost use Rattle.hs_types.specs.Names.{class_named};
ghost use Rattle.hs_graph.specs.Faults as faults;
ghost use Rattle.hs_graph.specs.Lookups as spec;

use hs_types::{Class, ClassNo, Feature, FeatureKind, FeatureNo, Meta};

/// The number of the class of this name.
pub fn class_named(meta: &Meta, name: &str) -> Option<ClassNo>
    ensures { result ≡ class_named meta.now name.now }
{
    meta.is_metamodel();
    match place_of_class(meta.plain().classes.as_slice(), name) {
        Some(place) => Some(place as ClassNo),
        None => None,
    }
}

fn place_of_class(classes: &[Class], name: &str) -> Option<usize>
    ensures { result ≡ position (λ class. same_text name.now class.name) classes.now }
{
    classes.iter().position(|class| name == class.name.as_str())
}

/// Whether the class is there and abstract.
pub fn is_abstract(meta: &Meta, class: ClassNo) -> bool
    ensures { result ≡ faults.is_abstract meta.now class }
{
    match meta.class(class) {
        Some(class) => class.is_abstract,
        None => false,
    }
}

/// The attribute of this name among the features of the class.
pub fn attribute_named(meta: &Meta, class: ClassNo, name: &str) -> Option<FeatureNo>
    ensures { result ≡ spec.attribute_named meta.now class name.now }
{
    first_attribute(meta, meta.features_of(class), name).copied()
}

fn first_attribute<'a>(meta: &Meta, features: &'a [FeatureNo], name: &str) -> Option<&'a FeatureNo>
    ensures { option_copied result ≡ find (spec.is_attribute_named meta.now name.now) features.now }
{
    features
        .iter()
        .find(|feature| is_attribute_named(meta, name, **feature))
}

/// The reference of this name among the features of the class.
pub fn reference_named(meta: &Meta, class: ClassNo, name: &str) -> Option<FeatureNo>
    ensures { result ≡ spec.reference_named meta.now class name.now }
{
    first_reference(meta, meta.features_of(class), name).copied()
}

fn first_reference<'a>(meta: &Meta, features: &'a [FeatureNo], name: &str) -> Option<&'a FeatureNo>
    ensures { option_copied result ≡ find (spec.is_reference_named meta.now name.now) features.now }
{
    features
        .iter()
        .find(|feature| is_reference_named(meta, name, **feature))
}

/// Whether the feature is an attribute of this name.
pub fn is_attribute_named(meta: &Meta, name: &str, feature: FeatureNo) -> bool
    ensures { result ≡ spec.is_attribute_named meta.now name.now feature }
{
    match meta.feature(feature) {
        Some(feature) => name == feature.name.as_str() && is_attribute(feature),
        None => false,
    }
}

/// Whether the feature is a reference of this name.
pub fn is_reference_named(meta: &Meta, name: &str, feature: FeatureNo) -> bool
    ensures { result ≡ spec.is_reference_named meta.now name.now feature }
{
    match meta.feature(feature) {
        Some(feature) => name == feature.name.as_str() && is_reference(feature),
        None => false,
    }
}

fn is_attribute(feature: &Feature) -> bool
    ensures { result ≡ is_attribute feature.now }
{
    matches!(feature.kind, FeatureKind::Attribute { .. })
}

fn is_reference(feature: &Feature) -> bool
    ensures { result ≡ spec.is_reference feature.now }
{
    matches!(feature.kind, FeatureKind::Reference { .. })
}

/// Whether both classes are there, and the first conforms to the second.
pub fn both_conform(meta: &Meta, class: Option<ClassNo>, above: Option<ClassNo>) -> bool
    ensures { result ≡ faults.both_conform meta.now class above }
{
    match (class, above) {
        (Some(class), Some(above)) => conforms(meta, class, above),
        _ => false,
    }
}

fn conforms(meta: &Meta, class: ClassNo, above: ClassNo) -> bool
    ensures { result ≡ is_or_below (supers_of meta.now) class above }
{
    meta.conforms(class, above)
}
