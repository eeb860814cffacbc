//! All rules of a text.

ghost use Rattle.std.specs.Prelude.{◌≡◌, ◌++◌, ◌∷◌, [], List, OnOk, length, map};
ghost use Rattle.hs_expr.specs.Steps.{Gives, GivesWhere};
ghost use Rattle.hs_expr.specs.Verdict.{verdict};
ghost use Rattle.hs_text.specs.declared.syntax.Rule.{Rule as WrittenRule};
ghost use Rattle.hs_faults.specs.Contents.{rule_contents};
ghost use Rattle.hs_faults.specs.Faults as spec;
ghost use Rattle.hs_faults.specs.Named.{Knows};
ghost use Rattle.hs_faults.specs.UnitFaults.{rules_of};

use crate::fault::{RuleFault, RuleFaultKind, fault_at};
use crate::names_seen::{NamesSeen, add_named};
use crate::rule::{RuleContents, check_rule};
use hs_expr::{Failure, List, demand};
use hs_text::{Definition, Rule, Syntax};
use hs_types::Meta;
use hs_types::limits::MAX_RULES;
use std::alloc::Global;

/// What the rules of a text declare and state, where they are free of faults over the metamodel,
/// and else their first fault: rule by rule in written order, and in each rule pass by pass. Units
/// aren't looked at.
pub fn check_rules<'a>(
    alloc: Global,
    meta: &Meta,
    syntax: &'a Syntax,
) -> Result<List<RuleContents<'a>>, Failure<RuleFault>>
    ensures { GivesWhere
        (λ rules. rules ≡ map (rule_contents meta.now) (rules_of syntax.now.definitions)) result
        (verdict (spec.faults_of_rules meta.now syntax.now.definitions)) }
{
    check_definitions(alloc, meta, syntax.definitions.as_slice())
}

/// What the rules among the definitions declare and state, or their first fault.
fn check_definitions<'a>(
    alloc: Global,
    meta: &Meta,
    definitions: &'a [Definition],
) -> Result<List<RuleContents<'a>>, Failure<RuleFault>>
    ensures { GivesWhere (λ rules. rules ≡ map (rule_contents meta.now) (rules_of definitions.now))
        result (verdict (spec.faults_of_rules meta.now definitions.now)) }
{
    let mut known = NamesSeen::new(alloc);
    let mut rules = List::new(alloc);
    for definition in definitions {
        check_definition(alloc, meta, &mut known, &mut rules, definition)?;
    }
    Ok(rules)
}

/// The first fault of the definition, if it is a rule; then adds it to those known, and what it
/// declares and states to that of the rules before.
fn check_definition<'a>(
    alloc: Global,
    meta: &Meta,
    known: &mut NamesSeen<'a, Rule>,
    rules: &mut List<RuleContents<'a>>,
    definition: &'a Definition,
) -> Result<(), Failure<RuleFault>>
    ensures fault { (before : List WrittenRule) → Knows (λ other. other.name) known.old before
        → length rules.old ≡ length before
        → Gives result (verdict (spec.faults_of_definition meta.now before definition.now)) }
    ensures known { (before : List WrittenRule) → Knows (λ other. other.name) known.old before
        → OnOk result
        (Knows (λ other. other.name) known.new (before ++ spec.as_rule definition.now)) }
    ensures rules { OnOk result (rules.new
        ≡ rules.old ++ map (rule_contents meta.now) (spec.as_rule definition.now)) }
{
    match definition {
        Definition::Rule(rule) => check_next(alloc, meta, known, rules, rule),
        Definition::Unit(_) => Ok(()),
    }
}

/// The rule's first fault; then adds it to those known, and what it declares and states to that of
/// the rules before.
#[tactic(auto, using(hs_expr::proofs::Verdicts::each_steps, crate::proofs::Failures::fails))]
fn check_next<'a>(
    alloc: Global,
    meta: &Meta,
    known: &mut NamesSeen<'a, Rule>,
    rules: &mut List<RuleContents<'a>>,
    rule: &'a Rule,
) -> Result<(), Failure<RuleFault>>
    ensures fault { (before : List WrittenRule) → Knows (λ other. other.name) known.old before
        → length rules.old ≡ length before
        → Gives result (verdict (spec.faults_of_rule meta.now before rule.now)) }
    ensures known { (before : List WrittenRule) → Knows (λ other. other.name) known.old before
        → OnOk result (Knows (λ other. other.name) known.new (before ++ rule.now ∷ [])) }
    ensures rules { OnOk result (rules.new ≡ rules.old ++ rule_contents meta.now rule.now ∷ []) }
{
    demand(
        rules.len() < MAX_RULES,
        fault_at(rule.name.span, RuleFaultKind::Limit),
    )?;
    demand(
        add_named(known, rule)?,
        fault_at(rule.name.span, RuleFaultKind::Twice),
    )?;
    let contents = check_rule(alloc, meta, rule)?;
    rules.push(contents)?;
    Ok(())
}
