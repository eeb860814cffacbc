//! Rules and units over a metamodel.

ghost use Rattle.hs_types.specs.Limits.{IsSmallMeta};
ghost use Rattle.hs_types.specs.Metamodel.{IsMeta};
ghost use Rattle.hs_types.specs.UnitForm.{IsRuleSet};

use crate::{Meta, Rule, Unit};
use hs_expr::List;
use std::marker::Model;
use std::sync::Arc;

/// The checked rules and units over a metamodel. Contracts see them as plain `Rules`;
/// [`RuleSet::are_formed`] says that they are in their form.
#[derive(Debug, Drop)]
pub struct RuleSet {
    pub meta: Arc<Meta>,
    pub rules: List<Rule>,
    pub units: List<Unit>,
}

impl Model for RuleSet {
    ghost use Rattle.std.specs.Arc.{arc_value};
    ghost use Rattle.std.specs.Coded.{codes};
    ghost use Rattle.hs_expr.specs.contracts.expr.Expr as expr;
    ghost use Rattle.hs_types.specs.Rules.{AreFormed, Rules};

    ghost Value = { Rules };

    ghost coded = { Prim.hlevel (codes, expr.the_row.coded) };

    ghost view = { λ set. record {
      meta = arc_value set.meta;
      rules = set.rules;
      units = set.units;
    } };

    ghost invariant = { λ set. ∥ AreFormed (record {
      meta = arc_value set.meta;
      rules = set.rules;
      units = set.units;
    }) ∥₁ };
}

impl RuleSet {
    /// What its type carries: rules and units in their form, over a metamodel within the limits.
    #[tactic(auto, using(crate::proofs::Forms::set_of_form))]
    pub fn are_formed(&self)
        ensures sound { IsMeta self.now.meta }
        ensures small { IsSmallMeta self.now.meta }
        ensures formed { IsRuleSet self.now.meta self.now.rules self.now.units }
    {
        let _ = &self.rules;
    }
}
