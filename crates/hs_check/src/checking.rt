//! A text, checked and understood.

ghost use Rattle.std.specs.Prelude.{◌≡◌, IfOk, Ok, map};
ghost use Rattle.std.specs.Arc.{arc_value};
ghost use Rattle.hs_expr.specs.Verdict.{verdict};
ghost use Rattle.hs_expr.specs.Steps.{GivesWhere};
ghost use Rattle.hs_faults.specs.Contents.{rule_contents};
ghost use Rattle.hs_faults.specs.UnitFaults.{faults_of, rules_of};
ghost use Rattle.hs_check.specs.Counts.{KeepAll};
ghost use Rattle.hs_check.specs.Meaning.{IsMeant};
ghost use Rattle.hs_check.specs.Resolution.{Resolve};

use crate::rules::rules_meant;
use crate::units::units_meant;
use hs_expr::Failure;
use hs_faults::{RuleContents, RuleFault};
use hs_text::Syntax;
use hs_types::{Meta, RuleSet};
use std::alloc::{AllocError, Global};
use std::sync::Arc;

/// The rules and the units that a text means over the metamodel, which the set shares; or the
/// text's first fault: all rules come before all units, and of each the parts are in written order.
/// The limits of rules and units are among the faults. The set is well formed, as its type says, so
/// nothing has to test it again. Each condition and each set of the text is in the set, and the
/// classes, nodes, references and attributes that parameters, declarations, edges and sets name are
/// found, and the rules and units that calls name.
pub fn check(
    alloc: Global,
    meta: &Arc<Meta>,
    syntax: &Syntax,
) -> Result<RuleSet, Failure<RuleFault>>
    ensures set { GivesWhere (IsMeant (arc_value meta.now) syntax.now.definitions) result
        (verdict (faults_of (arc_value meta.now) syntax.now.definitions)) }
    ensures meta { IfOk result (λ set. set.meta ≡ arc_value meta.now) }
    ensures whole { IfOk result (λ set. KeepAll syntax.now.definitions set.rules) }
    ensures found { IfOk result (λ set. Resolve (arc_value meta.now) syntax.now.definitions) }
{
    let rules = hs_faults::check(alloc, meta, syntax)?;
    let set = set_meant(alloc, meta, syntax, rules.as_slice())?;
    Ok(set)
}

/// The rules and the units that a text without faults means, whose rules declare and state this.
#[tactic(auto, using(hs_expr::proofs::Lists::all_from_recursion))]
fn set_meant(
    alloc: Global,
    meta: &Arc<Meta>,
    syntax: &Syntax,
    rules: &[RuleContents<'_>],
) -> Result<RuleSet, AllocError>
    requires fine { verdict (faults_of (arc_value meta.now) syntax.now.definitions) ≡ Ok tt }
    requires rules { rules.now
        ≡ map (rule_contents (arc_value meta.now)) (rules_of syntax.now.definitions) }
    ensures set { IfOk result (IsMeant (arc_value meta.now) syntax.now.definitions) }
    ensures meta { IfOk result (λ set. set.meta ≡ arc_value meta.now) }
    ensures whole { IfOk result (λ set. KeepAll syntax.now.definitions set.rules) }
    ensures found { IfOk result (λ set. Resolve (arc_value meta.now) syntax.now.definitions) }
{
    meta.is_metamodel();
    Ok(RuleSet {
        meta: meta.clone()?,
        rules: rules_meant(alloc, meta, rules)?,
        units: units_meant(alloc, meta, syntax.definitions.as_slice())?,
    })
}
