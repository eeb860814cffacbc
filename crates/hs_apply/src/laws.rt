//! Laws of the plans of rules that only add.

ghost use Rattle.hs_apply.specs.Additions.{AdditionsOnlyMake};

/// The plan of a rule that only adds drops and writes nothing, and makes no more than the rule
/// names.
pub fn additions_only_make()
    ensures { AdditionsOnlyMake }
{}
