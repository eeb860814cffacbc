//! Metamodels as they are written in JSON.

ghost use Rattle.std.specs.Prelude.{codes};
ghost use Rattle.serde_json.specs.View.{view};
ghost use Rattle.hs_expr.specs.Steps.{Gives};
ghost use Rattle.hs_meta.specs.declared.raw.RawDefault.TheVariants.{LeftOut};
ghost use Rattle.hs_json_form.specs.Form.{at_or};
ghost use Rattle.hs_json_model.specs.MetaForm as spec;

use hs_expr::{Failure, List, Text, Value as Scalar};
use hs_json_form::{
    Path, at_key, integer_at, integer_of, list_at, list_of, member_at, only_known, text_at,
    text_of, truth_at,
};
use hs_meta::{RawAttribute, RawClass, RawDefault, RawMeta, RawReference};
use serde_json::Value;
use std::alloc::Global;

/// The metamodel that is written as the value, before anything is asked of its meaning.
#[tactic(auto, unfolding(crate::specs::MetaForm::raw_meta))]
pub fn raw_meta(alloc: Global, value: &Value) -> Result<RawMeta, Failure<Path>>
    ensures { Gives result (spec.raw_meta (view value.now)) }
{
    only_known(alloc, value, &["classes", "format"])?;
    let classes = member_at(alloc, value, "classes")?;
    let classes = at_key(alloc, "classes", raw_classes(alloc, classes))?;
    let format = format_at(alloc, value)?;
    Ok(RawMeta { format, classes })
}

fn raw_classes(alloc: Global, value: &Value) -> Result<List<RawClass>, Failure<Path>>
    ensures { Gives result (spec.raw_classes (view value.now)) }
{
    list_of(alloc, value, &|class: &Value| { raw_class(alloc, class) })
}

/// The version of the metamodel's meaning, which is 1.
fn format_at(alloc: Global, value: &Value) -> Result<u8, Failure<Path>>
    ensures { Gives result (spec.format_at (view value.now)) }
{
    match value.get("format") {
        Some(format) => at_key(alloc, "format", format_of(alloc, format)),
        None => Ok(1),
    }
}

fn format_of(alloc: Global, value: &Value) -> Result<u8, Failure<Path>>
    ensures { Gives result (spec.format_of (view value.now)) }
{
    match integer_of(alloc, value)? {
        1 => Ok(1),
        _ => Err(Failure::Fault(Path::new(alloc))),
    }
}

#[tactic(auto, unfolding(crate::specs::MetaForm::raw_class))]
fn raw_class(alloc: Global, value: &Value) -> Result<RawClass, Failure<Path>>
    ensures { Gives result (spec.raw_class (view value.now)) }
{
    only_known(
        alloc,
        value,
        &["name", "abstract", "supers", "attributes", "references"],
    )?;
    let name = member_at(alloc, value, "name")?;
    let name = text_at(alloc, "name", name)?;
    let is_abstract = truth_at(alloc, value, "abstract")?;
    let supers = list_at(
        alloc,
        value,
        "supers",
        &|name: &Value| { text_of(alloc, name) },
    )?;
    let (attributes, references) = raw_features(alloc, value)?;
    Ok(RawClass {
        name,
        is_abstract,
        supers,
        attributes,
        references,
    })
}

/// The attributes and the references that a class owns.
#[tactic(auto, unfolding(crate::specs::MetaForm::raw_features))]
fn raw_features(
    alloc: Global,
    value: &Value,
) -> Result<(List<RawAttribute>, List<RawReference>), Failure<Path>>
    ensures { Gives result (spec.raw_features (view value.now)) }
{
    let attributes = list_at(
        alloc,
        value,
        "attributes",
        &|attribute: &Value| { raw_attribute(alloc, attribute) },
    )?;
    let references = list_at(
        alloc,
        value,
        "references",
        &|reference: &Value| { raw_reference(alloc, reference) },
    )?;
    Ok((attributes, references))
}

#[tactic(auto, unfolding(crate::specs::MetaForm::raw_attribute))]
fn raw_attribute(alloc: Global, value: &Value) -> Result<RawAttribute, Failure<Path>>
    ensures { Gives result (spec.raw_attribute (view value.now)) }
{
    only_known(alloc, value, &["name", "type", "default"])?;
    let name = member_at(alloc, value, "name")?;
    let data_type = member_at(alloc, value, "type")?;
    let name = text_at(alloc, "name", name)?;
    let data_type = text_at(alloc, "type", data_type)?;
    let default = default_at(alloc, value)?;
    Ok(RawAttribute {
        name,
        data_type,
        default,
    })
}

fn default_at(alloc: Global, value: &Value) -> Result<RawDefault, Failure<Path>>
    ensures { Gives result (at_or (codes "default") LeftOut spec.raw_default (view value.now)) }
{
    match value.get("default") {
        Some(default) => at_key(alloc, "default", raw_default(alloc, default)),
        None => Ok(RawDefault::LeftOut),
    }
}

fn raw_default(alloc: Global, value: &Value) -> Result<RawDefault, Failure<Path>>
    ensures { Gives result (spec.raw_default (view value.now)) }
{
    Ok(match value {
        Value::Bool(truth) => RawDefault::Given(Scalar::Bool(*truth)),
        Value::Number(_) => RawDefault::Given(Scalar::Int(integer_of(alloc, value)?)),
        Value::String(text) => {
            RawDefault::Given(Scalar::Text(Text::from_str(alloc, text.as_str())?))
        }
        Value::Null | Value::Array(_) | Value::Object(_) => RawDefault::NoValue,
    })
}

#[tactic(auto, unfolding(crate::specs::MetaForm::raw_reference))]
fn raw_reference(alloc: Global, value: &Value) -> Result<RawReference, Failure<Path>>
    ensures { Gives result (spec.raw_reference (view value.now)) }
{
    only_known(
        alloc,
        value,
        &["name", "target", "containment", "lower", "upper"],
    )?;
    let name = member_at(alloc, value, "name")?;
    let target = member_at(alloc, value, "target")?;
    let name = text_at(alloc, "name", name)?;
    let target = text_at(alloc, "target", target)?;
    let containment = truth_at(alloc, value, "containment")?;
    let lower = integer_at(alloc, value, "lower", 0)?;
    let upper = integer_at(alloc, value, "upper", 1)?;
    Ok(RawReference {
        name,
        target,
        containment,
        lower,
        upper,
    })
}
