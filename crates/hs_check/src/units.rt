//! The units that a text means.

ghost use Rattle.std.specs.Prelude.{◌≡◌, ◌++◌, IfOk, OnOk, map, true};
ghost use Rattle.std.specs.List.{All, position};
ghost use Rattle.std.specs.Option.{option_map};
ghost use Rattle.hs_text.specs.WellFormed.{IsAtomFine, IsBindFine, IsBodyFine, IsCallFine, IsDefinitionFine, IsElseFine, is_literal};
ghost use Rattle.hs_expr.specs.Lists.{same_text};
ghost use Rattle.hs_faults.specs.UnitFaults.{rules_of, as_unit, units_of};
ghost use Rattle.hs_check.specs.Units as spec;

use crate::parameters::params_meant;
use hs_expr::{List, Text, Value};
use hs_text::{
    Atom as WrittenAtom, Bind as WrittenBind, Body as WrittenBody, Call as WrittenCall,
    Count as WrittenCount, Definition, Unit as WrittenUnit,
};
use hs_types::{Atom, Bind, Body, Call, Callee, Count, Meta, Unit};
use std::alloc::{AllocError, Global};

/// The names that calls may have: those of rules and those of units.
#[derive(Debug, Drop)]
pub struct Callees {
    pub rules: List<Text>,
    pub units: List<Text>,
}

fn place_of(names: &[Text], name: &Text) -> Option<usize>
    ensures { result ≡ position (same_text name.now) names.now }
{
    names.iter().position(|other| *name == *other)
}

/// The number of this name among these.
fn place_among(names: &[Text], name: &Text) -> Option<u16>
    ensures { result ≡ spec.place_among names.now name.now }
{
    let place = place_of(names, name)?;
    u16::try_from(place).ok()
}

/// The rule of this name, or else the unit.
fn callee_meant(known: &Callees, name: &Text) -> Callee
    ensures { result ≡ spec.callee_meant known.now name.now }
{
    match place_among(known.rules.as_slice(), name) {
        Some(number) => Callee::Rule(number),
        None => Callee::Unit(place_among(known.units.as_slice(), name).unwrap_or(0)),
    }
}

fn with_sign(minus: bool, value: i64) -> i64
    requires literal { is_literal value ≡ true }
    ensures { result ≡ spec.with_sign minus value }
{
    if minus { -value } else { value }
}

fn atom_meant(atom: &WrittenAtom) -> Result<Atom, AllocError>
    requires fine { IsAtomFine atom.now }
    ensures { IfOk result (λ meant. meant ≡ spec.atom_meant atom.now) }
{
    match atom {
        WrittenAtom::Int { minus, value, .. } => Ok(Atom::Value(Value::Int(with_sign(
            *minus, *value,
        )))),
        WrittenAtom::Text { value, .. } => Ok(Atom::Value(Value::Text(value.clone()?))),
        WrittenAtom::Bool { value, .. } => Ok(Atom::Value(Value::Bool(*value))),
        WrittenAtom::Name(name) => Ok(Atom::Name(name.text.clone()?)),
    }
}

fn bind_meant(bind: &WrittenBind) -> Result<Bind, AllocError>
    requires fine { IsBindFine bind.now }
    ensures { IfOk result (λ meant. meant ≡ spec.bind_meant bind.now) }
{
    match bind {
        WrittenBind::Give { parameter, value } => Ok(Bind::Give {
            parameter: parameter.text.clone()?,
            atom: atom_meant(value)?,
        }),
        WrittenBind::Take {
            parameter,
            variable,
        } => Ok(Bind::Take {
            parameter: parameter.text.clone()?,
            variable: variable.text.clone()?,
        }),
    }
}

fn binds_meant(alloc: Global, binds: &[WrittenBind]) -> Result<List<Bind>, AllocError>
    requires fine { All IsBindFine binds.now }
    ensures { IfOk result (λ meant. meant ≡ map spec.bind_meant binds.now) }
{
    let mut meant = List::new(alloc);
    for bind in binds {
        meant.push(bind_meant(bind)?)?;
    }
    Ok(meant)
}

#[tactic(auto, using(hs_expr::proofs::Lists::all_from_recursion))]
fn call_meant(alloc: Global, known: &Callees, call: &WrittenCall) -> Result<Call, AllocError>
    requires fine { IsCallFine call.now }
    ensures { IfOk result (λ meant. meant ≡ spec.call_meant known.now call.now) }
{
    Ok(Call {
        callee: callee_meant(known, &call.callee.text),
        binds: binds_meant(alloc, call.binds.as_slice())?,
    })
}

fn calls_meant(
    alloc: Global,
    known: &Callees,
    calls: &[WrittenCall],
) -> Result<List<Call>, AllocError>
    requires fine { All IsCallFine calls.now }
    ensures { IfOk result (λ meant. meant ≡ map (spec.call_meant known.now) calls.now) }
{
    let mut meant = List::new(alloc);
    for call in calls {
        meant.push(call_meant(alloc, known, call)?)?;
    }
    Ok(meant)
}

fn count_meant(count: &WrittenCount) -> Result<Count, AllocError>
    ensures { IfOk result (λ meant. meant ≡ spec.count_meant count.now) }
{
    match count {
        WrittenCount::Int { value, .. } => Ok(Count::Literal(*value)),
        WrittenCount::Param(name) => Ok(Count::Param(name.text.clone()?)),
    }
}

fn else_meant(
    alloc: Global,
    known: &Callees,
    otherwise: &Option<WrittenCall>,
) -> Result<Option<Call>, AllocError>
    requires fine { IsElseFine otherwise.now }
    ensures { IfOk result (λ meant. meant ≡ option_map (spec.call_meant known.now) otherwise.now) }
{
    match otherwise {
        Some(call) => Ok(Some(call_meant(alloc, known, call)?)),
        None => Ok(None),
    }
}

/// What a unit does.
#[tactic(auto, using(hs_expr::proofs::Lists::all_from_recursion))]
fn body_meant(alloc: Global, known: &Callees, body: &WrittenBody) -> Result<Body, AllocError>
    requires fine { IsBodyFine body.now }
    ensures { IfOk result (λ meant. meant ≡ spec.body_meant known.now body.now) }
{
    match body {
        WrittenBody::Sequential(calls) => {
            Ok(Body::Sequential(calls_meant(alloc, known, calls.as_slice())?))
        }
        WrittenBody::Independent(calls) => {
            Ok(Body::Independent(calls_meant(alloc, known, calls.as_slice())?))
        }
        WrittenBody::Priority(calls) => {
            Ok(Body::Priority(calls_meant(alloc, known, calls.as_slice())?))
        }
        WrittenBody::Conditional {
            test,
            then,
            otherwise,
        } => Ok(Body::Conditional {
            test: call_meant(alloc, known, test)?,
            then: call_meant(alloc, known, then)?,
            otherwise: else_meant(alloc, known, otherwise)?,
        }),
        WrittenBody::Loop(call) => Ok(Body::Loop(call_meant(alloc, known, call)?)),
        WrittenBody::Iterated { count, call } => Ok(Body::Iterated {
            count: count_meant(count)?,
            call: call_meant(alloc, known, call)?,
        }),
    }
}

fn unit_meant(
    alloc: Global,
    meta: &Meta,
    known: &Callees,
    unit: &WrittenUnit,
) -> Result<Unit, AllocError>
    requires fine { IsBodyFine unit.now.body }
    ensures { IfOk result (λ meant. meant ≡ spec.unit_meant meta.now known.now unit.now) }
{
    Ok(Unit {
        name: unit.name.text.clone()?,
        params: params_meant(alloc, meta, unit.params.as_slice())?,
        body: body_meant(alloc, known, &unit.body)?,
    })
}

fn rule_names(alloc: Global, definitions: &[Definition]) -> Result<List<Text>, AllocError>
    ensures { IfOk result
        (λ names. names ≡ map (λ rule. rule.name.text) (rules_of definitions.now)) }
{
    let mut names = List::new(alloc);
    for definition in definitions {
        if let Definition::Rule(rule) = definition {
            names.push(rule.name.text.clone()?)?;
        }
    }
    Ok(names)
}

fn unit_names(alloc: Global, definitions: &[Definition]) -> Result<List<Text>, AllocError>
    ensures { IfOk result
        (λ names. names ≡ map (λ unit. unit.name.text) (units_of definitions.now)) }
{
    let mut names = List::new(alloc);
    for definition in definitions {
        if let Definition::Unit(unit) = definition {
            names.push(unit.name.text.clone()?)?;
        }
    }
    Ok(names)
}

/// Adds the unit that the definition means, if it is one.
fn add_unit(
    alloc: Global,
    meta: &Meta,
    known: &Callees,
    units: &mut List<Unit>,
    definition: &Definition,
) -> Result<(), AllocError>
    requires fine { IsDefinitionFine definition.now }
    ensures { OnOk result (units.new
        ≡ units.old ++ map (spec.unit_meant meta.now known.now) (as_unit definition.now)) }
{
    match definition {
        Definition::Unit(unit) => {
            units.push(unit_meant(alloc, meta, known, unit)?)?;
            Ok(())
        }
        Definition::Rule(_) => Ok(()),
    }
}

fn units_among(
    alloc: Global,
    meta: &Meta,
    known: &Callees,
    definitions: &[Definition],
) -> Result<List<Unit>, AllocError>
    requires fine { All IsDefinitionFine definitions.now }
    ensures { IfOk result
        (λ units. units ≡ map (spec.unit_meant meta.now known.now) (units_of definitions.now)) }
{
    let mut units = List::new(alloc);
    for definition in definitions {
        add_unit(alloc, meta, known, &mut units, definition)?;
    }
    Ok(units)
}

/// The units of a text.
pub fn units_meant(
    alloc: Global,
    meta: &Meta,
    definitions: &[Definition],
) -> Result<List<Unit>, AllocError>
    requires fine { All IsDefinitionFine definitions.now }
    ensures { IfOk result (λ units. units ≡ spec.units_meant meta.now definitions.now) }
{
    let known = Callees {
        rules: rule_names(alloc, definitions)?,
        units: unit_names(alloc, definitions)?,
    };
    units_among(alloc, meta, &known, definitions)
}
