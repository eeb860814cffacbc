//! Typed graphs as they are written in JSON.

ghost use Rattle.serde_json.specs.View.{view};
ghost use Rattle.std.specs.Prelude.{◌≡◌};
ghost use Rattle.hs_expr.specs.Steps.{Gives};
ghost use Rattle.hs_graph.specs.Borrowed.{value_of_scalar};
ghost use Rattle.hs_graph.specs.declared.raw.RawValue.TheVariants.{Given};
ghost use Rattle.hs_json_form.specs.Form.{text_at, text_value};
ghost use Rattle.hs_json_model.specs.GraphForm as spec;

use hs_expr::{Failure, List};
use hs_graph::{RawAttr, RawObject, RawRef, RawValue, Scalar, TextRef, ValueRef};
use hs_json_form::{Path, at_key, integer_of, list_of, member_at, members_at, only_known};
use serde_json::Value;
use std::alloc::Global;

/// The objects that are written as the value, before anything is asked of their meaning.
pub fn raw_objects<'a>(
    alloc: Global,
    value: &'a Value,
) -> Result<List<RawObject<'a>>, Failure<Path>>
    ensures { Gives result (spec.raw_objects (view value.now)) }
{
    list_of(alloc, value, &|object| { raw_object(alloc, object) })
}

#[tactic(auto, unfolding(crate::specs::GraphForm::raw_object))]
fn raw_object<'a>(alloc: Global, value: &'a Value) -> Result<RawObject<'a>, Failure<Path>>
    ensures { Gives result (spec.raw_object (view value.now)) }
{
    only_known(alloc, value, &["name", "class", "attrs", "refs"])?;
    let name = member_at(alloc, value, "name")?;
    let class = member_at(alloc, value, "class")?;
    let name = text_ref_at(alloc, "name", name)?;
    let class = text_ref_at(alloc, "class", class)?;
    let attrs = members_at(
        alloc,
        value,
        "attrs",
        &|name, value| { raw_attr(alloc, name, value) },
    )?;
    let refs = members_at(
        alloc,
        value,
        "refs",
        &|name, value| { raw_ref(alloc, name, value) },
    )?;
    Ok(RawObject {
        name,
        class,
        attrs,
        refs,
    })
}

fn raw_attr<'a>(
    alloc: Global,
    name: &'a str,
    value: &'a Value,
) -> Result<RawAttr<'a>, Failure<Path>>
    ensures { Gives result (spec.raw_attr name.now (view value.now)) }
{
    let value = raw_value(alloc, value)?;
    Ok(RawAttr {
        name: TextRef::new(name),
        value,
    })
}

fn raw_value<'a>(alloc: Global, value: &'a Value) -> Result<RawValue<'a>, Failure<Path>>
    ensures { Gives result (spec.raw_value (view value.now)) }
{
    Ok(match value {
        Value::Bool(truth) => given(Scalar::Bool(*truth)),
        Value::Number(_) => given(Scalar::Int(integer_of(alloc, value)?)),
        Value::String(text) => given(Scalar::Text(text.as_str())),
        Value::Null | Value::Array(_) | Value::Object(_) => RawValue::NoValue,
    })
}

fn given(scalar: Scalar<'_>) -> RawValue<'_>
    ensures { result ≡ Given (value_of_scalar scalar.entry) }
{
    RawValue::Given(ValueRef::new(scalar))
}

fn raw_ref<'a>(alloc: Global, name: &'a str, value: &'a Value) -> Result<RawRef<'a>, Failure<Path>>
    ensures { Gives result (spec.raw_ref name.now (view value.now)) }
{
    let targets = list_of(alloc, value, &|name| { text_ref_of(alloc, name) })?;
    Ok(RawRef {
        name: TextRef::new(name),
        targets,
    })
}

/// The text that the value is.
fn text_ref_of<'a>(alloc: Global, value: &'a Value) -> Result<TextRef<'a>, Failure<Path>>
    ensures { Gives result (text_value (view value.now)) }
{
    match value.as_str() {
        Some(text) => Ok(TextRef::new(text)),
        None => Err(Failure::Fault(Path::new(alloc))),
    }
}

/// The text at a key that was found there.
fn text_ref_at<'a>(alloc: Global, key: &str, value: &'a Value) -> Result<TextRef<'a>, Failure<Path>>
    ensures { Gives result (text_at key.now (view value.now)) }
{
    at_key(alloc, key, text_ref_of(alloc, value))
}
