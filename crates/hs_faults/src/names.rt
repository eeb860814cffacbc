//! What names mean in a metamodel.

ghost use Rattle.std.specs.Prelude.{◌≡◌, find};
ghost use Rattle.std.specs.List.{position};
ghost use Rattle.hs_expr.specs.Lists.{same_text};
ghost use Rattle.hs_types.specs.Metamodel.{kind_of_type, supers_of};
ghost use Rattle.hs_types.specs.Metamodel.{conforms};
ghost use Rattle.hs_faults.specs.Names as spec;

use hs_expr::{Kind, Text};
use hs_types::{ClassNo, DataType, FeatureNo, Meta};

/// The first class of this name.
pub fn class_number(meta: &Meta, name: &Text) -> Option<ClassNo>
    ensures { result ≡ spec.class_number meta.now name.now }
{
    let place = class_place(meta, name)?;
    u16::try_from(place).ok()
}

fn class_place(meta: &Meta, name: &Text) -> Option<usize>
    ensures { result ≡ position (λ class. same_text class.name name.now) meta.now.classes }
{
    meta.plain()
        .classes
        .iter()
        .position(|class| class.name == *name)
}

/// The kind of data that a parameter of this kind has; none where it takes an object.
pub fn data_named(name: &Text) -> Option<Kind>
    ensures { result ≡ spec.data_named name.now }
{
    match name.as_str() {
        "int" => Some(Kind::Int),
        "bool" => Some(Kind::Bool),
        "text" => Some(Kind::Text),
        _ => None,
    }
}

/// Whether there can be objects of this very class.
pub fn is_concrete(meta: &Meta, class: ClassNo) -> bool
    ensures { result ≡ spec.is_concrete meta.now class }
{
    match meta.class(class) {
        Some(class) => !class.is_abstract,
        None => false,
    }
}

/// Whether some concrete class conforms to this one.
pub fn has_concrete(meta: &Meta, class: ClassNo) -> bool
    ensures { result ≡ spec.has_concrete meta.now class }
{
    meta.have_common(class, class)
}

/// The class that the reference of this name leads to, from this class.
pub fn target_named(meta: &Meta, class: ClassNo, name: &Text) -> Option<ClassNo>
    ensures { result ≡ spec.target_named meta.now class name.now }
{
    let reference = feature_named(meta, class, name.as_str())?;
    meta.target_of(reference)
}

/// The first of the class's features that has this name.
pub fn feature_named(meta: &Meta, class: ClassNo, name: &str) -> Option<FeatureNo>
    ensures { result ≡ spec.feature_named meta.now class name.now }
{
    first_named(meta, meta.features_of(class), name)
}

fn first_named(meta: &Meta, features: &[FeatureNo], name: &str) -> Option<FeatureNo>
    ensures { result ≡ find (spec.is_named meta.now name.now) features.now }
{
    features
        .iter()
        .copied()
        .find(|feature| is_named(meta, name, *feature))
}

fn is_named(meta: &Meta, name: &str, feature: FeatureNo) -> bool
    ensures { result ≡ spec.is_named meta.now name.now feature }
{
    match meta.feature(feature) {
        Some(feature) => feature.name.as_str() == name,
        None => false,
    }
}

/// Whether the one class conforms to the other.
pub fn conforms(meta: &Meta, class: ClassNo, above: ClassNo) -> bool
    ensures { result ≡ conforms (supers_of meta.now) class above }
{
    meta.conforms(class, above)
}

/// The number and the kind of the feature, where it is an attribute.
fn as_attribute(meta: &Meta, feature: FeatureNo) -> Option<(FeatureNo, Kind)>
    ensures { result ≡ spec.as_attribute meta.now feature }
{
    let data_type = meta.type_of(feature)?;
    Some((feature, kind_of_type(data_type)))
}

/// The number and the kind of the attribute of this name, of this class.
pub fn class_attribute(meta: &Meta, class: ClassNo, name: &str) -> Option<(FeatureNo, Kind)>
    ensures { result ≡ spec.class_attribute meta.now class name.now }
{
    let feature = feature_named(meta, class, name)?;
    as_attribute(meta, feature)
}

/// The kind of the values that a data type has.
pub fn kind_of_type(data_type: DataType) -> Kind
    ensures { result ≡ kind_of_type data_type }
{
    match data_type {
        DataType::EInt | DataType::ELong => Kind::Int,
        DataType::EBoolean => Kind::Bool,
        DataType::EString => Kind::Text,
    }
}
