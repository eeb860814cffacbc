//! What a call binds to the parameters of what it calls.

ghost use Rattle.std.specs.Prelude.{◌≡◌, false, not, is_some};
ghost use Rattle.std.specs.Option.{option_map_or};
ghost use Rattle.hs_faults.specs.Named.{first_named};
ghost use Rattle.hs_faults.specs.ParamNodes as second;
ghost use Rattle.hs_faults.specs.UnitFaults as spec;

use crate::name_index::ParamIndex;
use crate::names::{class_number, conforms, data_named};
use crate::statement_faults::same_kind;
use hs_expr::{Kind, Text};
use hs_text::{Atom, Bind, Direction, Param};
use hs_types::{ClassNo, Meta};

/// Whether the parameter is given back.
pub fn is_out(param: &Param) -> bool
    ensures { result ≡ second.is_out param.now.direction }
{
    param.direction == Direction::Out
}

/// Whether something has to be given to the parameter.
pub fn takes_value(param: &Param) -> bool
    ensures { result ≡ spec.takes_value param.now }
{
    !is_out(param)
}

/// Whether there is such a kind, of data or of objects.
pub fn is_known_kind(meta: &Meta, word: &Text) -> bool
    ensures { result ≡ spec.is_known_kind meta.now word.now }
{
    data_named(word).is_some() || class_number(meta, word).is_some()
}

/// The class of a parameter of this kind, if it isn't for data.
fn class_of_kind(meta: &Meta, word: &Text) -> Option<ClassNo>
    ensures { result ≡ spec.class_of_kind meta.now word.now }
{
    match data_named(word) {
        Some(_) => None,
        None => class_number(meta, word),
    }
}

/// Whether the one kind is of a class that conforms to the other's.
fn class_fits(meta: &Meta, given: &Text, wanted: &Text) -> bool
    ensures { result ≡ spec.class_fits meta.now given.now wanted.now }
{
    match (class_of_kind(meta, given), class_of_kind(meta, wanted)) {
        (Some(class), Some(above)) => conforms(meta, class, above),
        _ => false,
    }
}

/// Whether the parameter is for data of this kind.
pub fn is_data(wanted: Kind, param: &Param) -> bool
    ensures { result ≡ spec.is_data wanted param.now }
{
    match data_named(&param.kind.text) {
        Some(found) => same_kind(found, wanted),
        None => false,
    }
}

/// Whether the value can be given where something of this kind is wanted.
fn value_fits(meta: &Meta, own: &ParamIndex<'_>, wanted: &Text, value: &Atom) -> bool
    ensures { result ≡ spec.value_fits meta.now own.now wanted.now value.now }
{
    match data_named(wanted) {
        Some(kind) => data_fits(own, kind, value),
        None => object_fits(meta, own, wanted, value),
    }
}

fn data_fits(own: &ParamIndex<'_>, wanted: Kind, value: &Atom) -> bool
    ensures { result ≡ spec.data_fits own.now wanted value.now }
{
    match value {
        Atom::Int { .. } => same_kind(Kind::Int, wanted),
        Atom::Text { .. } => same_kind(Kind::Text, wanted),
        Atom::Bool { .. } => same_kind(Kind::Bool, wanted),
        Atom::Name(name) => names_data(own, wanted, &name.text),
    }
}

fn names_data(own: &ParamIndex<'_>, wanted: Kind, name: &Text) -> bool
    ensures { result ≡ option_map_or (spec.is_data wanted) (spec.first_param own.now name.now)
        false }
{
    match own.find(name.as_str()) {
        Some(param) => is_data(wanted, param),
        None => false,
    }
}

fn object_fits(meta: &Meta, own: &ParamIndex<'_>, wanted: &Text, value: &Atom) -> bool
    ensures { result ≡ spec.object_fits meta.now own.now wanted.now value.now }
{
    match value {
        Atom::Int { .. } | Atom::Text { .. } | Atom::Bool { .. } => false,
        Atom::Name(name) => names_object(meta, own, wanted, &name.text),
    }
}

fn names_object(meta: &Meta, own: &ParamIndex<'_>, wanted: &Text, name: &Text) -> bool
    ensures { result ≡ option_map_or (λ param. spec.class_fits meta.now param.kind.text wanted.now)
        (spec.first_param own.now name.now) false }
{
    match own.find(name.as_str()) {
        Some(param) => class_fits(meta, &param.kind.text, wanted),
        None => false,
    }
}

/// Whether what the bind ties is a parameter of what is called, in a way that it takes.
pub fn bind_fits(meta: &Meta, own: &ParamIndex<'_>, params: &ParamIndex<'_>, bind: &Bind) -> bool
    ensures { result ≡ spec.bind_fits meta.now own.now params.now bind.now }
{
    match bind {
        Bind::Give { parameter, value } => gives(meta, own, params, &parameter.text, value),
        Bind::Take {
            parameter,
            variable,
        } => takes(meta, own, params, &parameter.text, &variable.text),
    }
}

fn gives(
    meta: &Meta,
    own: &ParamIndex<'_>,
    params: &ParamIndex<'_>,
    parameter: &Text,
    value: &Atom,
) -> bool
    ensures { result ≡ option_map_or (spec.is_given meta.now own.now value.now)
        (spec.first_param params.now parameter.now) false }
{
    match params.find(parameter.as_str()) {
        Some(param) => is_given(meta, own, value, param),
        None => false,
    }
}

fn is_given(meta: &Meta, own: &ParamIndex<'_>, value: &Atom, param: &Param) -> bool
    ensures { result ≡ spec.is_given meta.now own.now value.now param.now }
{
    takes_value(param) && value_fits(meta, own, &param.kind.text, value)
}

fn takes(
    meta: &Meta,
    own: &ParamIndex<'_>,
    params: &ParamIndex<'_>,
    parameter: &Text,
    variable: &Text,
) -> bool
    ensures { result ≡ option_map_or (spec.is_taken meta.now own.now variable.now)
        (spec.first_param params.now parameter.now) false }
{
    match params.find(parameter.as_str()) {
        Some(param) => is_taken(meta, own, variable, param),
        None => false,
    }
}

fn is_taken(meta: &Meta, own: &ParamIndex<'_>, variable: &Text, param: &Param) -> bool
    ensures { result ≡ spec.is_taken meta.now own.now variable.now param.now }
{
    is_out(param) && has_goal(meta, own, variable, param)
}

/// Whether what the parameter gives back can go to this one of the unit.
fn has_goal(meta: &Meta, own: &ParamIndex<'_>, variable: &Text, param: &Param) -> bool
    ensures { result ≡ option_map_or (spec.is_goal meta.now param.now)
        (spec.first_param own.now variable.now) false }
{
    match own.find(variable.as_str()) {
        Some(goal) => is_goal(meta, param, goal),
        None => false,
    }
}

fn is_goal(meta: &Meta, param: &Param, goal: &Param) -> bool
    ensures { result ≡ spec.is_goal meta.now param.now goal.now }
{
    is_out(goal) && class_fits(meta, &param.kind.text, &goal.kind.text)
}
