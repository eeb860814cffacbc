//! All units of a text.

ghost use Rattle.std.specs.Prelude.{◌≡◌, ◌++◌, ◌∷◌, [], List, IfOk, OnOk, is_some, length, nat_le, ◌&&◌, not, ◌+◌};
ghost use Rattle.hs_expr.specs.Steps.{Gives};
ghost use Rattle.hs_expr.specs.Verdict.{fault_if, verdict};
ghost use Rattle.hs_text.specs.declared.syntax.Param.{Param as WrittenParam};
ghost use Rattle.hs_text.specs.declared.syntax.Unit.{Unit as WrittenUnit};
ghost use Rattle.hs_expr.specs.Steps.{GivesWhere};
ghost use Rattle.hs_faults.specs.Named.{Knows};
ghost use Rattle.hs_faults.specs.Places.{unit_fault_at};
ghost use Rattle.hs_faults.specs.SeenUnits.{HasSeenUnits};
ghost use Rattle.hs_faults.specs.UnitFaults as spec;

use crate::arguments::{is_known_kind, is_out};
use crate::callees::Callees;
use crate::calls::check_body;
use crate::fault::{RuleFault, RuleFaultKind, unit_fault_at};
use crate::name_index::{NameIndex, ParamIndex};
use crate::names::data_named;
use crate::names_seen::{NamesSeen, add_named};
use hs_expr::{Failure, demand};
use hs_text::{Body, Call, Definition, Param, Unit};
use hs_types::Meta;
use hs_types::limits::{MAX_CALLS, MAX_PARAMS, MAX_UNITS};
use std::alloc::Global;

/// The units of a text that are checked so far.
#[derive(Drop)]
pub struct SeenUnits<'a> {
    pub by_name: NamesSeen<'a, Unit>,
    pub count: usize,
}

/// The first fault of the units among the definitions, but for cycles.
pub fn check_each_unit(
    alloc: Global,
    callees: &Callees<'_, '_>,
    definitions: &[Definition],
) -> Result<(), Failure<RuleFault>>
    requires callees { callees.now.definitions ≡ definitions.now }
    ensures { Gives result (verdict (spec.faults_of_each callees.now.meta definitions.now)) }
{
    let mut seen = SeenUnits {
        by_name: NamesSeen::new(alloc),
        count: 0,
    };
    for definition in definitions {
        check_definition(alloc, callees, &mut seen, definition)?;
    }
    Ok(())
}

/// The first fault of the definition, if it is a unit; then adds it to those seen.
fn check_definition<'a>(
    alloc: Global,
    callees: &Callees<'_, '_>,
    seen: &mut SeenUnits<'a>,
    definition: &'a Definition,
) -> Result<(), Failure<RuleFault>>
    ensures fault { (before : List WrittenUnit) → HasSeenUnits seen.old before
        → Gives result (verdict
        (spec.unit_faults_of_definition callees.now.meta (spec.rules_of callees.now.definitions)
        (spec.units_of callees.now.definitions) before definition.now)) }
    ensures seen { (before : List WrittenUnit) → HasSeenUnits seen.old before
        → OnOk result (HasSeenUnits seen.new (before ++ spec.as_unit definition.now)) }
{
    match definition {
        Definition::Rule(_) => Ok(()),
        Definition::Unit(unit) => check_next(alloc, callees, seen, unit),
    }
}

/// The unit's first fault; then adds it to those seen.
#[tactic(auto, using(hs_expr::proofs::Verdicts::each_steps, crate::proofs::Failures::fails))]
fn check_next<'a>(
    alloc: Global,
    callees: &Callees<'_, '_>,
    seen: &mut SeenUnits<'a>,
    unit: &'a Unit,
) -> Result<(), Failure<RuleFault>>
    ensures fault { (before : List WrittenUnit) → HasSeenUnits seen.old before
        → Gives result (verdict
        (spec.faults_of_unit callees.now.meta (spec.rules_of callees.now.definitions)
        (spec.units_of callees.now.definitions) before unit.now)) }
    ensures seen { (before : List WrittenUnit) → HasSeenUnits seen.old before
        → OnOk result (HasSeenUnits seen.new (before ++ unit.now ∷ [])) }
{
    demand(
        seen.count < MAX_UNITS,
        unit_fault_at(unit.name.span, RuleFaultKind::Limit),
    )?;
    demand(
        !callees.is_rule(unit.name.text.as_str()),
        unit_fault_at(unit.name.span, RuleFaultKind::Twice),
    )?;
    demand(
        add_named(&mut seen.by_name, unit)?,
        unit_fault_at(unit.name.span, RuleFaultKind::Twice),
    )?;
    seen.count += 1;
    check_unit(alloc, callees, unit)
}

/// The first fault of a unit's contents.
#[tactic(auto, using(hs_expr::proofs::Verdicts::each_steps, crate::proofs::Failures::fails))]
fn check_unit(
    alloc: Global,
    callees: &Callees<'_, '_>,
    unit: &Unit,
) -> Result<(), Failure<RuleFault>>
    ensures { Gives result
        (verdict (spec.faults_in_unit callees.now.meta (spec.rules_of callees.now.definitions)
        (spec.units_of callees.now.definitions) unit.now)) }
{
    let own = unit_params_by_name(alloc, callees.meta(), unit.params.as_slice())?;
    check_body(alloc, callees, &own, &unit.body)?;
    demand(
        keeps_limits(unit),
        unit_fault_at(unit.name.span, RuleFaultKind::Limit),
    )
}

fn keeps_limits(unit: &Unit) -> bool
    ensures { result ≡ spec.keeps_unit_limits unit.now }
{
    unit.params.as_slice().len() <= MAX_PARAMS && count_calls(&unit.body) <= MAX_CALLS
}

fn count_calls(body: &Body) -> usize
    ensures { result ≡ length (spec.written_calls body.now) }
{
    match body {
        Body::Sequential(calls) => calls.as_slice().len(),
        Body::Independent(calls) => calls.as_slice().len(),
        Body::Priority(calls) => calls.as_slice().len(),
        Body::Conditional { otherwise, .. } => count_choices(otherwise),
        Body::Loop(_) => 1,
        Body::Iterated { .. } => 1,
    }
}

/// How many calls a choice with this last one has.
fn count_choices(otherwise: &Option<Call>) -> usize
    ensures { result ≡ 2 + length (spec.else_calls otherwise.now) }
{
    match otherwise {
        Some(_) => 3,
        None => 2,
    }
}

/// The parameters by their names, or their first fault, each by itself.
#[tactic(auto, using(hs_expr::proofs::Verdicts::each_steps))]
fn unit_params_by_name<'a>(
    alloc: Global,
    meta: &Meta,
    params: &'a [Param],
) -> Result<ParamIndex<'a>, Failure<RuleFault>>
    ensures { GivesWhere (λ index. index ≡ params.now) result
        (verdict (spec.faults_of_unit_params meta.now params.now)) }
{
    let mut known = NamesSeen::new(alloc);
    for param in params {
        check_unit_param(meta, &mut known, param)?;
    }
    Ok(NameIndex::new(params, known))
}

/// The parameter's first fault; then adds it to those known.
#[tactic(auto, using(hs_expr::proofs::Verdicts::each_steps))]
fn check_unit_param<'a>(
    meta: &Meta,
    known: &mut NamesSeen<'a, Param>,
    param: &'a Param,
) -> Result<(), Failure<RuleFault>>
    ensures fault { (before : List WrittenParam) → Knows (λ other. other.name) known.old before
        → Gives result (verdict (spec.unit_param_faults meta.now before param.now)) }
    ensures known { (before : List WrittenParam) → Knows (λ other. other.name) known.old before
        → OnOk result (Knows (λ other. other.name) known.new (before ++ param.now ∷ [])) }
{
    demand(
        add_named(known, param)?,
        unit_fault_at(param.name.span, RuleFaultKind::Twice),
    )?;
    check_unit_kind(meta, param)
}

/// The first fault of a parameter's kind.
fn check_unit_kind(meta: &Meta, param: &Param) -> Result<(), Failure<RuleFault>>
    ensures { Gives result (verdict (spec.unit_kind_faults meta.now param.now)) }
{
    demand(
        is_known_kind(meta, &param.kind.text),
        unit_fault_at(param.kind.span, RuleFaultKind::UnknownClass),
    )?;
    demand(
        !gives_data_back(param),
        unit_fault_at(param.name.span, RuleFaultKind::ArgMismatch),
    )
}

fn gives_data_back(param: &Param) -> bool
    ensures { result ≡ spec.gives_data_back param.now }
{
    data_named(&param.kind.text).is_some() && is_out(param)
}
