//! The definitions, tried on a small text.

ghost use Rattle.std.specs.Prelude.{◌≡◌, [], ◌∷◌, map, codes, true, false, pos, negsuc};
ghost use Rattle.hs_expr.specs.declared.Expr.TheVariants as expr;
ghost use Rattle.hs_expr.specs.declared.Kind.TheVariants as sort;
ghost use Rattle.hs_expr.specs.declared.Sign.TheVariants.{Greater};
ghost use Rattle.hs_expr.specs.declared.Value.TheVariants as value;
ghost use Rattle.hs_text.specs.declared.syntax.Atom.TheVariants as written_atom;
ghost use Rattle.hs_text.specs.declared.syntax.Bind.TheVariants as written_bind;
ghost use Rattle.hs_text.specs.declared.syntax.Direction.TheVariants as given;
ghost use Rattle.hs_types.specs.declared.rule.Direction.TheVariants.{In, Out};
ghost use Rattle.hs_types.specs.declared.rule.Mark.TheVariants.{Keep, Drop, Make};
ghost use Rattle.hs_types.specs.declared.rule.ParamKind.TheVariants.{Data, Object};
ghost use Rattle.hs_types.specs.declared.rule.SlotKind.TheVariants.{Attribute};
ghost use Rattle.hs_types.specs.declared.unit.Atom.TheVariants as atom;
ghost use Rattle.hs_types.specs.declared.unit.Bind.TheVariants as bind;
ghost use Rattle.hs_types.specs.declared.unit.Body.TheVariants as body;
ghost use Rattle.hs_types.specs.declared.unit.Callee.TheVariants as callee;
ghost use Rattle.hs_types.specs.declared.unit.Count.TheVariants as count;
ghost use Rattle.hs_types.specs.UnitForm.{AreBinds, BindFits, CountFits, IsRuleSet};
ghost use Rattle.hs_faults.specs.Samples.{small_bank, call, give, param, place, take, unit, word};
ghost use Rattle.hs_check.specs.Rules.{rules_meant};
ghost use Rattle.hs_check.specs.Units.{units_meant};
ghost use Rattle.hs_check.specs.Samples.{an_account, an_edge, balance_gets, balance_slot, hiring, params_of_hiring};
ghost use Rattle.hs_check.specs.SetSamples.{calling, empty_rule, give_int, give_name, give_text, parameter, params_of_pay, params_of_run, pay, run_unit};

/// A rule with a forbid block, a multi block, a condition and sets.
pub fn rule_tried()
    ensures params { map (λ rule. rule.params) (rules_meant small_bank (hiring ∷ []))
        ≡ params_of_hiring ∷ [] }
    ensures nodes { map (λ rule. rule.shape.nodes) (rules_meant small_bank (hiring ∷ []))
        ≡ (an_account (codes "a") Keep ∷ an_account (codes "c") Make ∷ []) ∷ [] }
    ensures edges { map (λ rule. rule.shape.edges) (rules_meant small_bank (hiring ∷ []))
        ≡ (an_edge Make 0 1 ∷ []) ∷ [] }
    ensures forbids { map (λ rule. rule.forbids) (rules_meant small_bank (hiring ∷ []))
        ≡ (record { nodes = an_account (codes "d") Keep ∷ []; edges = an_edge Keep 2 0 ∷ [] } ∷ [])
        ∷ [] }
    ensures needs { map (λ rule. rule.needs) (rules_meant small_bank (hiring ∷ [])) ≡ [] ∷ [] }
    ensures multi_nodes { map (λ rule. map (λ multi. multi.shape.nodes) rule.multis)
        (rules_meant small_bank (hiring ∷ [])) ≡ ((an_account (codes "b") Keep ∷ []) ∷ []) ∷ [] }
    ensures multi_edges { map (λ rule. map (λ multi. multi.shape.edges) rule.multis)
        (rules_meant small_bank (hiring ∷ [])) ≡ ((an_edge Drop 0 2 ∷ []) ∷ []) ∷ [] }
{}

/// The expressions and the slots of that rule: the multi block reads a slot of the kernel, and
/// writes one of its own.
pub fn slots_tried()
    ensures wheres { map (λ rule. rule.wheres) (rules_meant small_bank (hiring ∷ []))
        ≡ (expr.Binary Greater (balance_slot 0) (expr.Param 1) ∷ []) ∷ [] }
    ensures sets { map (λ rule. rule.sets) (rules_meant small_bank (hiring ∷ []))
        ≡ (balance_gets 1 (expr.Param 1) ∷ []) ∷ [] }
    ensures multi_sets { map (λ rule. map (λ multi. multi.sets) rule.multis) (rules_meant small_bank
        (hiring ∷ [])) ≡ ((balance_gets 2 (balance_slot 0) ∷ []) ∷ []) ∷ [] }
    ensures slots { map (λ rule. rule.shape.slots) (rules_meant small_bank (hiring ∷ []))
        ≡ (record { node = 0; kind = Attribute 1; written = false } ∷ []) ∷ [] }
    ensures multi_slots { map (λ rule. map (λ multi. multi.shape.slots) rule.multis)
        (rules_meant small_bank (hiring ∷ []))
        ≡ ((record { node = 2; kind = Attribute 1; written = true } ∷ []) ∷ []) ∷ [] }
{}

/// A unit that calls that rule, and one that calls the unit.
pub fn units_tried()
    ensures { units_meant small_bank
        (hiring
        ∷ unit 0 (codes "v") [] (call 0 (codes "u") [] ∷ [])
        ∷ unit 0 (codes "u") (param given.In 0 (codes "x") (codes "Client") ∷ [])
        (call 0 (codes "open") (give (codes "a") (codes "x")
        ∷ written_bind.Give (word 0 (codes "n")) (written_atom.Int true (pos 5) (place 0))
        ∷ take (codes "c") (codes "y") ∷ []) ∷ [])
        ∷ [])
        ≡ record {
          name = codes "v";
          params = [];
          body = body.Sequential (record { callee = callee.Unit 1; binds = [] } ∷ []);
        }
        ∷ record {
          name = codes "u";
          params = record { direction = In; name = codes "x"; kind = Object 0 } ∷ [];
          body = body.Sequential (record {
            callee = callee.Rule 0;
            binds = bind.Give (codes "a") (atom.Name (codes "x"))
                ∷ bind.Give (codes "n") (atom.Value (value.Int (negsuc 4)))
                ∷ bind.Take (codes "c") (codes "y") ∷ [];
          } ∷ []);
        }
        ∷ [] }
{}

/// A set of an empty rule and two units, the first of which calls the second; and sets that are
/// none: what is called is missing, a unit calls itself by way of another, a rule and a unit have
/// one name.
pub fn sets_tried()
    ensures fine { IsRuleSet small_bank (empty_rule (codes "r") ∷ []) (run_unit ∷ pay ∷ []) }
    ensures missing { IsRuleSet small_bank [] (run_unit ∷ []) → ⊥ }
    ensures circle { IsRuleSet small_bank [] (calling (codes "u") 1 ∷ calling (codes "v") 0 ∷ [])
        → ⊥ }
    ensures one_name { IsRuleSet small_bank (empty_rule (codes "pay") ∷ []) (pay ∷ []) → ⊥ }
{}

/// Calls that tie parameters wrongly, and parameters that can be counts and that can't.
pub fn binds_tried()
    ensures not_given { AreBinds small_bank params_of_run params_of_pay
        (give_int (codes "sum") 5 ∷ []) → ⊥ }
    ensures twice { AreBinds small_bank params_of_run params_of_pay (give_name (codes "into")
        (codes "a") ∷ give_int (codes "sum") 5 ∷ give_int (codes "sum") 6 ∷ []) → ⊥ }
    ensures other_kind { BindFits small_bank params_of_run params_of_pay
        (give_text (codes "sum") (codes "5")) → ⊥ }
    ensures other_class { BindFits small_bank params_of_run params_of_pay
        (give_name (codes "into") (codes "o")) → ⊥ }
    ensures into_given { BindFits small_bank params_of_run params_of_pay
        (bind.Take (codes "paid") (codes "a")) → ⊥ }
    ensures count { CountFits params_of_pay (count.Param (codes "sum")) }
    ensures text_count { CountFits params_of_run (count.Param (codes "word")) → ⊥ }
    ensures out_count { CountFits (parameter Out (codes "n") (Data sort.Int) ∷ [])
        (count.Param (codes "n")) → ⊥ }
{}
