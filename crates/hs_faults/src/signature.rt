//! What a call asks of what it calls.

ghost use Rattle.std.specs.Prelude.{◌≡◌, ◌++◌, ◌∷◌, [], IfOk, OnOk, List as Sequence, if◌then◌else◌};
ghost use Rattle.std.specs.List.{filter, flat_map};
ghost use Rattle.hs_text.specs.declared.syntax.Param.{Param as WrittenParam};
ghost use Rattle.hs_faults.specs.Declarations.{is_again};
ghost use Rattle.hs_faults.specs.Named.{Knows};
ghost use Rattle.hs_faults.specs.NamedParams.{all_params, named_params, rule_params, unit_params};
ghost use Rattle.hs_faults.specs.UnitFaults as spec;

use crate::arguments::takes_value;
use crate::name_index::{NameIndex, ParamIndex};
use crate::names_seen::{Named, NamesSeen, find_named, keep_first};
use hs_expr::{List, Name};
use hs_text::{Definition, Param};
use std::alloc::{AllocError, Global};
use std::marker::Model;

/// A parameter that counts: the first of its name. Contracts see it as the parameter.
#[derive(Drop)]
pub struct MeantParam<'a> {
    pub param: &'a Param,
}

impl<'a> Model for MeantParam<'a> {
    ghost use Rattle.hs_text.specs.declared.syntax.Param.{Param as WrittenParam};

    ghost Value = { WrittenParam };

    ghost view = { λ meant. meant.param.now };
}

/// The parameters of a rule or a unit, with a way to look them up by name, and what is asked of
/// them at each call.
#[derive(Drop)]
pub struct Signature<'a> {
    name: &'a Name,
    params: ParamIndex<'a>,
    needed: List<MeantParam<'a>>,
}

impl<'a> Model for Signature<'a> {
    ghost use Rattle.std.specs.Prelude.{◌≡◌};
    ghost use Rattle.std.specs.List.{filter};
    ghost use Rattle.hs_faults.specs.NamedParams.{NamedParams};
    ghost use Rattle.hs_faults.specs.UnitFaults as spec;

    ghost Value = { NamedParams };

    ghost view = { λ signature. record { name = signature.name.now; params = signature.params } };

    ghost invariant = { λ signature. signature.needed
        ≡ filter spec.takes_value (spec.meant_params signature.params) };
}

impl<'a> Signature<'a> {
    fn new(alloc: Global, name: &'a Name, params: &'a [Param]) -> Result<Signature<'a>, AllocError>
        ensures { IfOk result (λ signature. signature ≡ named_params name.now params.now) }
    {
        let mut known = NamesSeen::new(alloc);
        let mut meant = List::new(alloc);
        add_params(&mut known, &mut meant, params)?;
        let needed = needed(alloc, meant.as_slice())?;
        Ok(Signature {
            name,
            params: NameIndex::new(params, known),
            needed,
        })
    }

    pub fn params(&self) -> &ParamIndex<'a>
        ensures { result.now ≡ self.now.params }
    {
        &self.params
    }

    /// The parameters to which something has to be given, each name's first.
    pub fn needed(&self) -> &[MeantParam<'a>]
        ensures { result.now ≡ filter spec.takes_value (spec.meant_params self.now.params) }
    {
        self.needed.as_slice()
    }
}

impl<'a> Named for Signature<'a> {
    ghost named = { λ signature. signature.name };

    fn name(&self) -> &Name {
        self.name
    }
}

/// What calls ask of the rules and, after them, of the units.
pub fn signatures<'a>(
    alloc: Global,
    definitions: &'a [Definition],
) -> Result<List<Signature<'a>>, AllocError>
    ensures { IfOk result (λ signatures. signatures ≡ all_params definitions.now) }
{
    let mut signatures = List::new(alloc);
    add_rules(alloc, &mut signatures, definitions)?;
    add_units(alloc, &mut signatures, definitions)?;
    Ok(signatures)
}

fn add_rules<'a>(
    alloc: Global,
    signatures: &mut List<Signature<'a>>,
    definitions: &'a [Definition],
) -> Result<(), AllocError>
    ensures { OnOk result
        (signatures.new ≡ signatures.old ++ flat_map rule_params definitions.now) }
{
    for definition in definitions {
        add_rule(alloc, signatures, definition)?;
    }
    Ok(())
}

/// Adds the definition, if it is a rule.
fn add_rule<'a>(
    alloc: Global,
    signatures: &mut List<Signature<'a>>,
    definition: &'a Definition,
) -> Result<(), AllocError>
    ensures { OnOk result (signatures.new ≡ signatures.old ++ rule_params definition.now) }
{
    match definition {
        Definition::Rule(rule) => {
            let params = rule.params.as_slice();
            signatures.push(Signature::new(alloc, &rule.name, params)?)
        }
        Definition::Unit(_) => Ok(()),
    }
}

fn add_units<'a>(
    alloc: Global,
    signatures: &mut List<Signature<'a>>,
    definitions: &'a [Definition],
) -> Result<(), AllocError>
    ensures { OnOk result
        (signatures.new ≡ signatures.old ++ flat_map unit_params definitions.now) }
{
    for definition in definitions {
        add_unit(alloc, signatures, definition)?;
    }
    Ok(())
}

/// Adds the definition, if it is a unit.
fn add_unit<'a>(
    alloc: Global,
    signatures: &mut List<Signature<'a>>,
    definition: &'a Definition,
) -> Result<(), AllocError>
    ensures { OnOk result (signatures.new ≡ signatures.old ++ unit_params definition.now) }
{
    match definition {
        Definition::Rule(_) => Ok(()),
        Definition::Unit(unit) => {
            let params = unit.params.as_slice();
            signatures.push(Signature::new(alloc, &unit.name, params)?)
        }
    }
}

fn needed<'a>(alloc: Global, meant: &[MeantParam<'a>]) -> Result<List<MeantParam<'a>>, AllocError>
    ensures { IfOk result (λ needed. needed ≡ filter spec.takes_value meant.now) }
{
    let mut needed = List::new(alloc);
    for meant in meant {
        add_needed(&mut needed, meant.param)?;
    }
    Ok(needed)
}

/// Adds the parameter, if something has to be given to it.
fn add_needed<'a>(needed: &mut List<MeantParam<'a>>, param: &'a Param) -> Result<(), AllocError>
    ensures { OnOk result
        (needed.new ≡ needed.old ++ (if spec.takes_value param.now then param.now ∷ [] else [])) }
{
    if takes_value(param) {
        needed.push(MeantParam { param })?;
    }
    Ok(())
}

/// Adds the parameters, by name and as a list, each name's first.
fn add_params<'a>(
    known: &mut NamesSeen<'a, Param>,
    meant: &mut List<MeantParam<'a>>,
    params: &'a [Param],
) -> Result<(), AllocError>
    requires known { Knows (λ other. other.name) known.now [] }
    requires meant { meant.now ≡ [] }
    ensures known { OnOk result (Knows (λ other. other.name) known.new params.now) }
    ensures meant { OnOk result (meant.new ≡ spec.meant_params params.now) }
{
    for param in params {
        add_param(known, meant, param)?;
    }
    Ok(())
}

/// Adds the parameter after those before, which are known.
fn add_param<'a>(
    known: &mut NamesSeen<'a, Param>,
    meant: &mut List<MeantParam<'a>>,
    param: &'a Param,
) -> Result<(), AllocError>
    ensures known { (before : Sequence WrittenParam) → Knows (λ other. other.name) known.old before
        → OnOk result (Knows (λ other. other.name) known.new (before ++ param.now ∷ [])) }
    ensures meant { (before : Sequence WrittenParam) → Knows (λ other. other.name) known.old before
        → OnOk result (meant.new ≡ meant.old ++ (if is_again (λ other. other.name) before
        param.now.name then [] else param.now ∷ [])) }
{
    if find_named(known, param.name.text.as_str()).is_none() {
        meant.push(MeantParam { param })?;
    }
    keep_first(known, param)
}
