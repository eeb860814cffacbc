//! The calls of a unit, one by one.

ghost use Rattle.std.specs.Prelude.{◌≡◌, ◌++◌, ◌∷◌, [], List, OnOk, not, false};
ghost use Rattle.std.specs.List.{list_all};
ghost use Rattle.std.specs.Option.{option_map_or};
ghost use Rattle.hs_expr.specs.Steps.{Gives};
ghost use Rattle.hs_expr.specs.Verdict.{each, fault_if, verdict};
ghost use Rattle.hs_text.specs.declared.syntax.Bind.{Bind as WrittenBind};
ghost use Rattle.hs_expr.specs.Steps.{GivesWhere};
ghost use Rattle.hs_faults.specs.Bound.{tied_name};
ghost use Rattle.hs_faults.specs.Named.{Knows};
ghost use Rattle.hs_faults.specs.Places.{unit_fault_at};
ghost use Rattle.hs_faults.specs.UnitFaults as spec;

use crate::arguments::{bind_fits, is_data, takes_value};
use crate::callees::Callees;
use crate::fault::{RuleFault, RuleFaultKind, unit_fault_at};
use crate::name_index::{BindIndex, NameIndex, ParamIndex};
use crate::names_seen::{NamesSeen, add_named};
use crate::signature::{MeantParam, Signature};
use hs_expr::{Failure, Kind, Name, demand, needed};
use hs_text::{Bind, Body, Call, Count, Param};
use hs_types::Meta;
use std::alloc::Global;

/// The first fault of the calls of a body, and of its count.
#[tactic(auto, using(hs_expr::proofs::Verdicts::each_steps, crate::proofs::Failures::fails))]
pub fn check_body(
    alloc: Global,
    callees: &Callees<'_, '_>,
    own: &ParamIndex<'_>,
    body: &Body,
) -> Result<(), Failure<RuleFault>>
    ensures { Gives result (verdict
        (spec.body_faults (spec.call_faults callees.now.meta (spec.rules_of callees.now.definitions)
        (spec.units_of callees.now.definitions) own.now) own.now body.now)) }
{
    match body {
        Body::Sequential(calls) => check_calls(alloc, callees, own, calls.as_slice()),
        Body::Independent(calls) => check_calls(alloc, callees, own, calls.as_slice()),
        Body::Priority(calls) => check_calls(alloc, callees, own, calls.as_slice()),
        Body::Conditional {
            test,
            then,
            otherwise,
        } => check_choice(alloc, callees, own, test, then, otherwise),
        Body::Loop(call) => check_call(alloc, callees, own, call),
        Body::Iterated { count, call } => check_counted(alloc, callees, own, count, call),
    }
}

/// The first fault of calls in a row.
#[tactic(auto, using(hs_expr::proofs::Verdicts::each_steps, crate::proofs::Failures::fails))]
fn check_calls(
    alloc: Global,
    callees: &Callees<'_, '_>,
    own: &ParamIndex<'_>,
    calls: &[Call],
) -> Result<(), Failure<RuleFault>>
    ensures { Gives result
        (verdict (each (λ i call. spec.call_faults callees.now.meta (spec.rules_of
        callees.now.definitions) (spec.units_of callees.now.definitions) own.now call) calls.now)) }
{
    for call in calls {
        check_call(alloc, callees, own, call)?;
    }
    Ok(())
}

/// The first fault of a choice.
#[tactic(auto, using(hs_expr::proofs::Verdicts::each_steps, crate::proofs::Failures::fails))]
fn check_choice(
    alloc: Global,
    callees: &Callees<'_, '_>,
    own: &ParamIndex<'_>,
    test: &Call,
    then: &Call,
    otherwise: &Option<Call>,
) -> Result<(), Failure<RuleFault>>
    ensures { Gives result (verdict (spec.choice_faults
        (spec.call_faults callees.now.meta (spec.rules_of callees.now.definitions)
        (spec.units_of callees.now.definitions) own.now) test.now then.now otherwise.now)) }
{
    check_call(alloc, callees, own, test)?;
    check_call(alloc, callees, own, then)?;
    match otherwise {
        Some(call) => check_call(alloc, callees, own, call),
        None => Ok(()),
    }
}

/// The first fault of a call that is counted, and of its count.
#[tactic(auto, using(hs_expr::proofs::Verdicts::each_steps, crate::proofs::Failures::fails))]
fn check_counted(
    alloc: Global,
    callees: &Callees<'_, '_>,
    own: &ParamIndex<'_>,
    count: &Count,
    call: &Call,
) -> Result<(), Failure<RuleFault>>
    ensures { Gives result
        (verdict (spec.call_faults callees.now.meta (spec.rules_of callees.now.definitions)
        (spec.units_of callees.now.definitions) own.now call.now
        ++ spec.count_faults own.now count.now)) }
{
    check_call(alloc, callees, own, call)?;
    check_count(own, count)
}

/// A count that is a name is an in parameter of kind int.
fn check_count(own: &ParamIndex<'_>, count: &Count) -> Result<(), Failure<RuleFault>>
    ensures { Gives result (verdict (spec.count_faults own.now count.now)) }
{
    match count {
        Count::Int { .. } => Ok(()),
        Count::Param(name) => demand(
            names_count(own, name),
            unit_fault_at(name.span, RuleFaultKind::ArgMismatch),
        ),
    }
}

fn names_count(own: &ParamIndex<'_>, name: &Name) -> bool
    ensures { result ≡ option_map_or spec.is_count (spec.first_param own.now name.now.text) false }
{
    match own.find(name.text.as_str()) {
        Some(param) => is_count(param),
        None => false,
    }
}

fn is_count(param: &Param) -> bool
    ensures { result ≡ spec.is_count param.now }
{
    takes_value(param) && is_data(Kind::Int, param)
}

/// The first fault of a call.
fn check_call(
    alloc: Global,
    callees: &Callees<'_, '_>,
    own: &ParamIndex<'_>,
    call: &Call,
) -> Result<(), Failure<RuleFault>>
    ensures { Gives result
        (verdict (spec.call_faults callees.now.meta (spec.rules_of callees.now.definitions)
        (spec.units_of callees.now.definitions) own.now call.now)) }
{
    let signature = needed(
        callees.signature_of(call.callee.text.as_str()),
        unit_fault_at(call.callee.span, RuleFaultKind::UnknownUnit),
    )?;
    check_arguments(alloc, callees.meta(), own, signature, call)
}

/// The first fault of a call of what has this signature.
#[tactic(auto, using(hs_expr::proofs::Verdicts::each_steps, crate::proofs::Failures::fails))]
fn check_arguments(
    alloc: Global,
    meta: &Meta,
    own: &ParamIndex<'_>,
    signature: &Signature<'_>,
    call: &Call,
) -> Result<(), Failure<RuleFault>>
    ensures { Gives result
        (verdict (spec.argument_faults meta.now own.now signature.now.params call.now)) }
{
    let bound = binds_by_name(alloc, meta, own, signature.params(), call)?;
    let binds = NameIndex::new(call.binds.as_slice(), bound);
    demand(
        is_served(signature, &binds),
        unit_fault_at(call.callee.span, RuleFaultKind::ArgMismatch),
    )
}

/// Whether what is called has all that it needs. Where it has, each parameter that needs something
/// has a bind of its own, so a call that is served costs no more than its binds.
fn is_served(signature: &Signature<'_>, binds: &BindIndex<'_>) -> bool
    ensures { result ≡ spec.are_served signature.now.params binds.now }
{
    are_bound(binds, signature.needed())
}

fn are_bound(binds: &BindIndex<'_>, params: &[MeantParam<'_>]) -> bool
    ensures { result ≡ list_all (spec.is_bound binds.now) params.now }
{
    params.iter().all(|meant| is_bound(binds, meant.param))
}

fn is_bound(binds: &BindIndex<'_>, param: &Param) -> bool
    ensures { result ≡ spec.is_bound binds.now param.now }
{
    binds.find(param.name.text.as_str()).is_some()
}

/// The binds by the names that they tie, or their first fault, each by itself.
#[tactic(auto, using(hs_expr::proofs::Verdicts::each_steps))]
fn binds_by_name<'a>(
    alloc: Global,
    meta: &Meta,
    own: &ParamIndex<'_>,
    params: &ParamIndex<'_>,
    call: &'a Call,
) -> Result<NamesSeen<'a, Bind>, Failure<RuleFault>>
    ensures { GivesWhere (λ bound. Knows tied_name bound call.now.binds) result (verdict
        (spec.faults_of_binds meta.now own.now params.now call.now.callee call.now.binds)) }
{
    let mut bound = NamesSeen::new(alloc);
    for bind in call.binds.as_slice() {
        check_bind(meta, own, params, &call.callee, &mut bound, bind)?;
    }
    Ok(bound)
}

/// The bind's first fault; then adds it to those bound.
#[tactic(auto, using(hs_expr::proofs::Verdicts::each_steps))]
fn check_bind<'a>(
    meta: &Meta,
    own: &ParamIndex<'_>,
    params: &ParamIndex<'_>,
    callee: &Name,
    bound: &mut NamesSeen<'a, Bind>,
    bind: &'a Bind,
) -> Result<(), Failure<RuleFault>>
    ensures fault { (before : List WrittenBind) → Knows tied_name bound.old before
        → Gives result (verdict
        (spec.bind_faults meta.now own.now params.now callee.now before bind.now)) }
    ensures bound { (before : List WrittenBind) → Knows tied_name bound.old before
        → OnOk result (Knows tied_name bound.new (before ++ bind.now ∷ [])) }
{
    demand(
        add_named(bound, bind)?,
        unit_fault_at(callee.span, RuleFaultKind::ArgMismatch),
    )?;
    demand(
        bind_fits(meta, own, params, bind),
        unit_fault_at(callee.span, RuleFaultKind::ArgMismatch),
    )
}
