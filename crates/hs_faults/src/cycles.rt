//! Units that call themselves, by one call or more.

ghost use Rattle.std.specs.Prelude.{◌≡◌, ◌++◌, ◌∷◌, [], ◌<◌, IfOk, OnOk, map, length};
ghost use Rattle.std.specs.List.{filter_map, position};
ghost use Rattle.hs_expr.specs.Steps.{Gives};
ghost use Rattle.hs_expr.specs.Verdict.{each, verdict};
ghost use Rattle.hs_expr.specs.Lists.{same_text};
ghost use Rattle.hs_types.specs.Reachability as steps;
ghost use Rattle.hs_faults.specs.Places.{unit_fault_at};
ghost use Rattle.hs_faults.specs.UnitFaults as spec;

use crate::callees::Callees;
use crate::fault::{RuleFault, RuleFaultKind, unit_fault_at};
use hs_expr::{Failure, List, Text, demand};
use hs_text::{Body, Call, Definition, Unit};
use hs_types::{reach_rows, reaches};
use std::alloc::{AllocError, Global};
use std::marker::Model;

/// A unit of a text. Contracts see it as the unit.
#[derive(Drop)]
pub struct UnitRef<'a> {
    pub unit: &'a Unit,
}

impl<'a> Model for UnitRef<'a> {
    ghost use Rattle.hs_text.specs.declared.syntax.Unit.{Unit as WrittenUnit};

    ghost Value = { WrittenUnit };

    ghost view = { λ reference. reference.unit.now };
}

/// The fault of the first unit that calls itself by a path.
pub fn check_cycles(
    alloc: Global,
    callees: &Callees<'_, '_>,
    definitions: &[Definition],
) -> Result<(), Failure<RuleFault>>
    requires callees { callees.now.definitions ≡ definitions.now }
    ensures { Gives result (verdict
        (spec.cycle_faults (spec.rules_of definitions.now) (spec.units_of definitions.now))) }
{
    let units = units_of(alloc, definitions)?;
    let called = called_by_each(alloc, callees, units.as_slice())?;
    let rows = reach_rows(alloc, called.as_slice())?;
    none_below_itself(rows.as_slice(), units.as_slice())
}

/// The fault of the first unit that its row says to be below itself.
#[tactic(auto, using(hs_expr::proofs::Verdicts::each_steps, crate::proofs::Failures::fails))]
fn none_below_itself(rows: &[List<bool>], units: &[UnitRef<'_>]) -> Result<(), Failure<RuleFault>>
    ensures { (called : _) → rows.now ≡ steps.reach_rows called → length called ≡ length units.now
        → Gives result (verdict (each (spec.cycle_fault called) units.now)) }
{
    for (i, unit) in units.iter().enumerate() {
        demand(
            !reaches(rows, i, i),
            unit_fault_at(unit.unit.name.span, RuleFaultKind::UnitCycle),
        )?;
    }
    Ok(())
}

/// The units among the definitions.
fn units_of<'a>(
    alloc: Global,
    definitions: &'a [Definition],
) -> Result<List<UnitRef<'a>>, AllocError>
    ensures { IfOk result (λ units. units ≡ spec.units_of definitions.now) }
{
    let mut units = List::new(alloc);
    for definition in definitions {
        add_unit(&mut units, definition)?;
    }
    Ok(units)
}

/// Adds the definition, if it is a unit.
fn add_unit<'a>(units: &mut List<UnitRef<'a>>, definition: &'a Definition) -> Result<(), AllocError>
    ensures { OnOk result (units.new ≡ units.old ++ spec.as_unit definition.now) }
{
    match definition {
        Definition::Rule(_) => Ok(()),
        Definition::Unit(unit) => units.push(UnitRef { unit }),
    }
}

/// For each unit the numbers of the units that it calls.
fn called_by_each(
    alloc: Global,
    callees: &Callees<'_, '_>,
    units: &[UnitRef<'_>],
) -> Result<List<List<usize>>, AllocError>
    ensures { IfOk result (λ called. called
        ≡ map (spec.called_units (spec.rules_of callees.now.definitions) units.now) units.now) }
{
    let mut called = List::new(alloc);
    for unit in units {
        called.push(called_by(alloc, callees, units, &unit.unit.body)?)?;
    }
    Ok(called)
}

/// The numbers of the units that the body calls.
fn called_by(
    alloc: Global,
    callees: &Callees<'_, '_>,
    units: &[UnitRef<'_>],
    body: &Body,
) -> Result<List<usize>, AllocError>
    ensures { IfOk result (λ called. called ≡ filter_map (spec.unit_called
        (spec.rules_of callees.now.definitions) units.now) (spec.written_calls body.now)) }
{
    let mut called = List::new(alloc);
    add_called_by(callees, units, &mut called, body)?;
    Ok(called)
}

/// Adds the numbers of the units that the body calls.
fn add_called_by(
    callees: &Callees<'_, '_>,
    units: &[UnitRef<'_>],
    called: &mut List<usize>,
    body: &Body,
) -> Result<(), AllocError>
    ensures { OnOk result (called.new ≡ called.old ++ filter_map (spec.unit_called
        (spec.rules_of callees.now.definitions) units.now) (spec.written_calls body.now)) }
{
    match body {
        Body::Sequential(calls) => add_all_called(callees, units, called, calls.as_slice()),
        Body::Independent(calls) => add_all_called(callees, units, called, calls.as_slice()),
        Body::Priority(calls) => add_all_called(callees, units, called, calls.as_slice()),
        Body::Conditional {
            test,
            then,
            otherwise,
        } => {
            add_called(callees, units, called, test)?;
            add_called(callees, units, called, then)?;
            add_called_else(callees, units, called, otherwise)
        }
        Body::Loop(call) => add_called(callees, units, called, call),
        Body::Iterated { call, .. } => add_called(callees, units, called, call),
    }
}

fn add_called_else(
    callees: &Callees<'_, '_>,
    units: &[UnitRef<'_>],
    called: &mut List<usize>,
    otherwise: &Option<Call>,
) -> Result<(), AllocError>
    ensures { OnOk result (called.new ≡ called.old ++ filter_map (spec.unit_called
        (spec.rules_of callees.now.definitions) units.now) (spec.else_calls otherwise.now)) }
{
    match otherwise {
        Some(call) => add_called(callees, units, called, call),
        None => Ok(()),
    }
}

fn add_all_called(
    callees: &Callees<'_, '_>,
    units: &[UnitRef<'_>],
    called: &mut List<usize>,
    calls: &[Call],
) -> Result<(), AllocError>
    ensures { OnOk result (called.new ≡ called.old ++ filter_map
        (spec.unit_called (spec.rules_of callees.now.definitions) units.now) calls.now) }
{
    for call in calls {
        add_called(callees, units, called, call)?;
    }
    Ok(())
}

/// Adds the number of the unit that is called, if it is a unit.
fn add_called(
    callees: &Callees<'_, '_>,
    units: &[UnitRef<'_>],
    called: &mut List<usize>,
    call: &Call,
) -> Result<(), AllocError>
    ensures { OnOk result (called.new ≡ called.old ++ filter_map
        (spec.unit_called (spec.rules_of callees.now.definitions) units.now) (call.now ∷ [])) }
{
    match unit_called(callees, units, call) {
        Some(number) => called.push(number),
        None => Ok(()),
    }
}

/// The number of the unit that is called; a rule comes before a unit of its name.
fn unit_called(callees: &Callees<'_, '_>, units: &[UnitRef<'_>], call: &Call) -> Option<usize>
    ensures { result ≡ spec.unit_called (spec.rules_of callees.now.definitions) units.now call.now }
{
    if callees.is_rule(call.callee.text.as_str()) {
        return None;
    }
    place_of(units, &call.callee.text)
}

fn place_of(units: &[UnitRef<'_>], name: &Text) -> Option<usize>
    ensures { result ≡ position (λ unit. same_text name.now unit.name.text) units.now }
{
    units.iter().position(|unit| *name == unit.unit.name.text)
}
