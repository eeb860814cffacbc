//! What objects, features and values are written as, for lines of JSON.

ghost use Rattle.std.specs.Prelude.{◌≡◌, List, [], ◌++◌, ◌∷◌, IfOk, map};
ghost use Rattle.serde_json.specs.Data.{Data, string, no_members};
ghost use Rattle.serde_json.specs.View.{view, members_view};
ghost use Rattle.hs_json_model.specs.Written.{with_members, list_data, value_data, class_name, feature_name, attrs_data};

use hs_expr::{List, Text, Value as Datum};
use hs_types::{FeatureNo, Meta, Slot};
use serde_json::{Map, Value, put};
use std::alloc::{AllocError, Global};

/// The members of an object, by their keys.
pub type Members = Map<String, Value>;

/// The list of what `one` makes of each item.
pub fn list_value<T, F: Fn(&T) -> Result<Value, AllocError>>(
    alloc: Global,
    items: &List<T>,
    one: &F,
) -> Result<Value, AllocError>
    requires { F.IsAlwaysCallable one.now }
    ensures { (data_of : T → Data)
        → ((x : _) (r : _) → F.post one.now x r → IfOk r (λ v. view v ≡ data_of x.now))
        → IfOk result (λ v. view v ≡ list_data data_of items.now) }
{
    let mut values = Vec::new(alloc);
    for item in items.as_slice() {
        values.push(one(item)?)?;
    }
    Ok(Value::Array(values))
}

pub fn text_value(alloc: Global, text: &Text) -> Result<Value, AllocError>
    ensures { IfOk result (λ v. view v ≡ string text.now) }
{
    Value::try_from_str(alloc, text.as_str())
}

pub fn texts_value(alloc: Global, texts: &List<Text>) -> Result<Value, AllocError>
    ensures { IfOk result (λ v. view v ≡ list_data string texts.now) }
{
    list_value(
        alloc,
        texts,
        &|text: &Text| -> Result<Value, AllocError>
            ensures { IfOk result (λ v. view v ≡ string text.now) }
        { text_value(alloc, text) },
    )
}

/// A value of an attribute.
pub fn datum_value(alloc: Global, datum: &Datum) -> Result<Value, AllocError>
    ensures { IfOk result (λ v. view v ≡ value_data datum.now) }
{
    match datum {
        Datum::Int(number) => Ok(Value::from(*number)),
        Datum::Bool(truth) => Ok(Value::from(*truth)),
        Datum::Text(text) => text_value(alloc, text),
    }
}

/// The values of slots, by the names of their attributes.
pub fn attrs_value(alloc: Global, meta: &Meta, slots: &List<Slot>) -> Result<Value, AllocError>
    ensures { IfOk result (λ v. view v ≡ attrs_data meta.now slots.now) }
{
    let mut members = Members::new(alloc);
    for slot in slots.as_slice() {
        let value = datum_value(alloc, &slot.value)?;
        put(
            &mut members,
            alloc,
            feature_name(meta, slot.attribute),
            value,
        )?;
    }
    Ok(Value::Object(members))
}

/// The name of a class; the empty text where there is no such class.
pub fn class_name(meta: &Meta, class: u16) -> &str
    ensures { result.now ≡ class_name meta.now class }
{
    match meta.class(class) {
        Some(class) => class.name.as_str(),
        None => "",
    }
}

/// The name of a feature; the empty text where there is no such feature.
pub fn feature_name(meta: &Meta, feature: FeatureNo) -> &str
    ensures { result.now ≡ feature_name meta.now feature }
{
    match meta.feature(feature) {
        Some(feature) => feature.name.as_str(),
        None => "",
    }
}
