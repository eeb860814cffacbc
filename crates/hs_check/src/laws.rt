//! Laws of what a text means.

ghost use Rattle.std.specs.Prelude.{◌≡◌, List, []};
ghost use Rattle.hs_text.specs.declared.syntax.Definition.{Definition};
ghost use Rattle.hs_types.specs.declared.meta.Metamodel.{Metamodel};
ghost use Rattle.hs_types.specs.Metamodel.{IsMeta};
ghost use Rattle.hs_types.specs.UnitForm.{IsRuleSet};
ghost use Rattle.hs_faults.specs.UnitFaults.{faults_of};
ghost use Rattle.hs_check.specs.Counts.{KeepAll};
ghost use Rattle.hs_check.specs.Resolution.{Resolve};
ghost use Rattle.hs_check.specs.Rules.{rules_meant};
ghost use Rattle.hs_check.specs.Units.{units_meant};

/// Where a text has no fault over a metamodel, the rules and units that it means are a rule set
/// over that metamodel: each has its form and keeps the limits.
pub fn sets_are_formed()
    ensures { (m : Metamodel) (definitions : List Definition) → IsMeta m
        → faults_of m definitions ≡ []
        → IsRuleSet m (rules_meant m definitions) (units_meant m definitions) }
{}

/// Where a text has no fault, each condition and each set of each rule is in the rule that it
/// means: each part has the same number of them as in the text, in written order.
pub fn nothing_is_left_out()
    ensures { (m : Metamodel) (definitions : List Definition) → faults_of m definitions ≡ []
        → KeepAll definitions (rules_meant m definitions) }
{}

/// Where a text has no fault, what parameters, declared nodes, edges and the targets of sets name
/// is found, and what calls name. Names in expressions and in binds are not spoken of.
pub fn names_are_found()
    ensures { (m : Metamodel) (definitions : List Definition) → faults_of m definitions ≡ []
        → Resolve m definitions }
{}
