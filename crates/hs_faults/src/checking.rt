//! All rules and all units of a text.

ghost use Rattle.std.specs.Prelude.{◌≡◌, map};
ghost use Rattle.hs_expr.specs.Steps.{Gives, GivesWhere};
ghost use Rattle.hs_expr.specs.Verdict.{verdict};
ghost use Rattle.hs_faults.specs.Contents.{rule_contents};
ghost use Rattle.hs_faults.specs.NamedParams.{all_params};
ghost use Rattle.hs_faults.specs.UnitFaults as spec;

use crate::callees::Callees;
use crate::cycles::check_cycles;
use crate::fault::RuleFault;
use crate::rule::RuleContents;
use crate::rules::check_rules;
use crate::signature::{Signature, signatures};
use crate::units::check_each_unit;
use hs_expr::{Failure, List};
use hs_text::{Definition, Syntax};
use hs_types::Meta;
use std::alloc::Global;

/// What the rules of a text declare and state, where its rules and units are free of faults over
/// the metamodel, and else their first fault: all rules come before all units.
#[tactic(auto, using(hs_expr::proofs::Verdicts::each_steps, crate::proofs::Failures::fails))]
pub fn check<'a>(
    alloc: Global,
    meta: &Meta,
    syntax: &'a Syntax,
) -> Result<List<RuleContents<'a>>, Failure<RuleFault>>
    ensures { GivesWhere
        (λ rules. rules ≡ map (rule_contents meta.now) (spec.rules_of syntax.now.definitions))
        result (verdict (spec.faults_of meta.now syntax.now.definitions)) }
{
    let rules = check_rules(alloc, meta, syntax)?;
    check_units(alloc, meta, syntax)?;
    Ok(rules)
}

/// Whether the units of a text are free of faults over the metamodel, and else their first fault:
/// unit by unit in written order, and then the first unit that calls itself by a path. Rules are
/// looked at for their names and parameters alone.
pub fn check_units(alloc: Global, meta: &Meta, syntax: &Syntax) -> Result<(), Failure<RuleFault>>
    ensures { Gives result (verdict (spec.faults_of_units meta.now syntax.now.definitions)) }
{
    let definitions = syntax.definitions.as_slice();
    let signatures = signatures(alloc, definitions)?;
    check_units_with(alloc, meta, definitions, signatures.as_slice())
}

/// The first fault of the units among the definitions, given what calls ask of what they call.
fn check_units_with(
    alloc: Global,
    meta: &Meta,
    definitions: &[Definition],
    signatures: &[Signature<'_>],
) -> Result<(), Failure<RuleFault>>
    requires signatures { signatures.now ≡ all_params definitions.now }
    ensures { Gives result (verdict (spec.faults_of_units meta.now definitions.now)) }
{
    let callees = Callees::new(alloc, meta, definitions, signatures)?;
    check_each_and_cycles(alloc, &callees, definitions)
}

/// The first fault of the units among the definitions, cycles after all others.
#[tactic(auto, using(hs_expr::proofs::Verdicts::each_steps, crate::proofs::Failures::fails))]
fn check_each_and_cycles(
    alloc: Global,
    callees: &Callees<'_, '_>,
    definitions: &[Definition],
) -> Result<(), Failure<RuleFault>>
    requires callees { callees.now.definitions ≡ definitions.now }
    ensures { Gives result (verdict (spec.faults_of_units callees.now.meta definitions.now)) }
{
    check_each_unit(alloc, callees, definitions)?;
    check_cycles(alloc, callees, definitions)
}
