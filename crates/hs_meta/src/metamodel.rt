//! The metamodel that written classes denote.

ghost use Rattle.std.specs.Prelude.{◌≡◌, ◌++◌, ◌∷◌, [], ◌≤◌, List, length, map, IfOk, OnOk};
ghost use Rattle.std.specs.List.{range_with_len};
ghost use Rattle.hs_meta.specs.declared.raw.RawClass.{RawClass};
ghost use Rattle.hs_meta.specs.Faults.{model_faults};
ghost use Rattle.hs_meta.specs.Meaning as spec;
ghost use Rattle.hs_meta.specs.Numbered.{KnowsClasses};
ghost use Rattle.hs_meta.specs.WrittenSupers.{supers_found};
ghost use Rattle.hs_expr.specs.Steps.{Gives};
ghost use Rattle.hs_expr.specs.Verdict.{unless, verdict};
ghost use Rattle.hs_types.specs.Limits.{IsSmallMeta};
ghost use Rattle.hs_types.specs.Metamodel.{IsMeta};

use crate::checking::{Supers, supers_of_valid};
use crate::fault::ModelFault;
use crate::features::{own_numbers, ranks_of, with_inherited};
use crate::names::data_type_named;
use crate::numbers::{Numbers, number_of, numbers_named, numbers_of};
use crate::raw::{RawAttribute, RawClass, RawDefault, RawMeta, RawReference};
use hs_expr::{Failure, List, Text, Value};
use hs_types::limits::MAX_CLASSES;
use hs_types::{Class, ClassNo, DataType, Feature, FeatureKind, FeatureNo, Meta, Metamodel};
use std::alloc::{AllocError, Global};

/// The metamodel that is written, where that has no fault, or else the first fault of the ten
/// checks, each over the classes in order.
#[tactic(auto, using(hs_expr::proofs::Faults::values))]
pub fn build(alloc: Global, raw: RawMeta) -> Result<Meta, Failure<ModelFault>>
    ensures built { Gives result (unless (model_faults raw.classes) (spec.metamodel_of raw)) }
    ensures whole { IfOk result IsMeta }
    ensures small { IfOk result IsSmallMeta }
{
    let supers = supers_of_valid(alloc, raw.classes.as_slice())?;
    let plain = metamodel_of(alloc, raw, &supers)?;
    Ok(Meta::from_rows(plain, supers.rows))
}

/// Whether what is written has no fault, or else the first fault of the ten checks, each over the
/// classes in order.
#[tactic(auto, using(hs_expr::proofs::Faults::values))]
pub fn check(alloc: Global, raw: &RawMeta) -> Result<(), Failure<ModelFault>>
    ensures { Gives result (verdict (model_faults raw.now.classes)) }
{
    supers_of_valid(alloc, raw.classes.as_slice())?;
    Ok(())
}

/// The metamodel of what has no fault.
fn metamodel_of(alloc: Global, raw: RawMeta, supers: &Supers) -> Result<Metamodel, AllocError>
    requires free { model_faults raw.classes ≡ [] }
    requires supers { supers.now ≡ supers_found raw.classes }
    ensures { IfOk result (λ meta. meta ≡ spec.metamodel_of raw) }
{
    let RawMeta { format, classes } = raw;
    let features = features_of_each(alloc, classes.as_slice(), supers)?;
    let numbers = numbers_of(alloc, classes.as_slice())?;
    meta_of(alloc, format, classes, &numbers, features.as_slice())
}

/// The features of each class.
fn features_of_each(
    alloc: Global,
    classes: &[RawClass],
    supers: &Supers,
) -> Result<List<List<FeatureNo>>, AllocError>
    requires free { model_faults classes.now ≡ [] }
    requires supers { supers.now ≡ supers_found classes.now }
    ensures { IfOk result (λ features. features
        ≡ map (spec.features_at classes.now) (range_with_len 0 (length classes.now))) }
{
    let own = own_numbers(alloc, classes)?;
    let ranks = ranks_of(alloc, supers.rows.as_slice())?;
    with_inherited(alloc, supers.direct.as_slice(), ranks.as_slice(), own)
}

/// The metamodel of these classes, whose numbers and whose features are found.
fn meta_of(
    alloc: Global,
    format: u8,
    classes: List<RawClass>,
    numbers: &Numbers,
    features: &[List<FeatureNo>],
) -> Result<Metamodel, AllocError>
    requires few { length classes ≤ MAX_CLASSES }
    requires numbered { KnowsClasses numbers.now classes }
    requires found { features.now
        ≡ map (spec.features_at classes) (range_with_len 0 (length classes)) }
    ensures { IfOk result
        (λ meta. meta ≡ spec.metamodel_of (record { format = format; classes = classes })) }
{
    let mut meta = Metamodel {
        format,
        classes: List::new(alloc),
        features: List::new(alloc),
    };
    for class in classes.into_vec() {
        let number = meta.classes.len();
        let features = features[number].clone()?;
        add_class(
            alloc,
            class,
            number as ClassNo,
            features,
            numbers,
            &mut meta,
        )?;
    }
    Ok(meta)
}

/// Adds a class, and the features that it owns.
fn add_class(
    alloc: Global,
    class: RawClass,
    number: ClassNo,
    features: List<FeatureNo>,
    numbers: &Numbers,
    meta: &mut Metamodel,
) -> Result<(), AllocError>
    ensures { (classes : List RawClass) → KnowsClasses numbers.now classes
        → OnOk result (meta.new ≡ record {
          format = meta.old.format;
          classes = meta.old.classes
              ++ (record {
                name = class.name;
                is_abstract = class.is_abstract;
                supers = spec.direct_supers classes class;
                features = features;
              }) ∷ [];
          features = meta.old.features ++ spec.own_features classes number class;
        }) }
{
    let RawClass {
        name,
        is_abstract,
        supers,
        attributes,
        references,
    } = class;
    let supers = numbers_named(alloc, numbers, supers.as_slice())?;
    meta.classes.push(Class {
        name,
        is_abstract,
        supers,
        features,
    })?;
    add_features(
        alloc,
        number,
        attributes,
        references,
        numbers,
        &mut meta.features,
    )?;
    Ok(())
}

/// Adds the features that a class owns, its attributes before its references.
#[tactic(auto, using(std::proofs::lemmas::List::append_assoc))]
fn add_features(
    alloc: Global,
    owner: ClassNo,
    attributes: List<RawAttribute>,
    references: List<RawReference>,
    numbers: &Numbers,
    features: &mut List<Feature>,
) -> Result<(), AllocError>
    ensures { (classes : List RawClass) → KnowsClasses numbers.now classes
        → OnOk result (features.new ≡ features.old ++ (map (spec.attribute_of_raw owner) attributes
        ++ map (spec.reference_of_raw classes owner) references)) }
{
    add_attributes(alloc, owner, attributes, features)?;
    add_references(owner, references, numbers, features)?;
    Ok(())
}

fn add_attributes(
    alloc: Global,
    owner: ClassNo,
    attributes: List<RawAttribute>,
    features: &mut List<Feature>,
) -> Result<(), AllocError>
    ensures { OnOk result
        (features.new ≡ features.old ++ map (spec.attribute_of_raw owner) attributes) }
{
    for attribute in attributes.into_vec() {
        features.push(attribute_of_raw(alloc, owner, attribute))?;
    }
    Ok(())
}

fn attribute_of_raw(alloc: Global, owner: ClassNo, attribute: RawAttribute) -> Feature
    ensures { result ≡ spec.attribute_of_raw owner attribute }
{
    let RawAttribute {
        name,
        data_type,
        default,
    } = attribute;
    let data_type = data_type_named(&data_type).unwrap_or(DataType::EString);
    Feature {
        owner,
        name,
        kind: FeatureKind::Attribute {
            data_type,
            default: default_value(alloc, data_type, default),
        },
    }
}

fn default_value(alloc: Global, data_type: DataType, default: RawDefault) -> Value
    ensures { result ≡ spec.default_value data_type default }
{
    match default {
        RawDefault::Given(value) => value,
        RawDefault::LeftOut | RawDefault::NoValue => plain_value(alloc, data_type),
    }
}

/// What an attribute of this type has where nothing is given.
fn plain_value(alloc: Global, data_type: DataType) -> Value
    ensures { result ≡ spec.plain_value data_type }
{
    match data_type {
        DataType::EInt | DataType::ELong => Value::Int(0),
        DataType::EBoolean => Value::Bool(false),
        DataType::EString => Value::Text(Text::from_string(String::new(alloc))),
    }
}

fn add_references(
    owner: ClassNo,
    references: List<RawReference>,
    numbers: &Numbers,
    features: &mut List<Feature>,
) -> Result<(), AllocError>
    ensures { (classes : List RawClass) → KnowsClasses numbers.now classes
        → OnOk result (features.new
        ≡ features.old ++ map (spec.reference_of_raw classes owner) references) }
{
    for reference in references.into_vec() {
        features.push(reference_of_raw(owner, reference, numbers))?;
    }
    Ok(())
}

fn reference_of_raw(owner: ClassNo, reference: RawReference, numbers: &Numbers) -> Feature
    ensures { (classes : List RawClass) → KnowsClasses numbers.now classes
        → result ≡ spec.reference_of_raw classes owner reference }
{
    let RawReference {
        name,
        target,
        containment,
        lower,
        upper,
    } = reference;
    Feature {
        owner,
        name,
        kind: FeatureKind::Reference {
            target: number_of(numbers, &target),
            containment,
            lower: least(lower),
            upper: most(upper),
        },
    }
}

fn least(lower: i64) -> u64
    ensures { result ≡ spec.least lower }
{
    u64::try_from(lower).unwrap_or(0)
}

/// A negative bound means: no bound.
fn most(upper: i64) -> Option<u64>
    ensures { result ≡ spec.most upper }
{
    u64::try_from(upper).ok()
}
