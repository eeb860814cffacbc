//! What the definitions refuse, and elements and copies, tried on a small bank.

ghost use Rattle.std.specs.Prelude.{◌≡◌, ℕ, pos, Some, None, [], ◌∷◌, true, false, codes, replicate};
ghost use Rattle.hs_expr.specs.declared.expr.Expr.TheVariants as expr;
ghost use Rattle.hs_expr.specs.declared.expr.Sign.TheVariants as sign;
ghost use Rattle.hs_expr.specs.declared.value.Kind.TheVariants as kind;
ghost use Rattle.hs_expr.specs.declared.value.Value.TheVariants as value;
ghost use Rattle.hs_types.specs.declared.meta.DataType.TheVariants.{EInt};
ghost use Rattle.hs_types.specs.declared.meta.FeatureKind.TheVariants.{Attribute, Reference};
ghost use Rattle.hs_types.specs.declared.rule.Direction.TheVariants.{Out};
ghost use Rattle.hs_types.specs.declared.rule.Mark.TheVariants.{Keep, Drop, Make};
ghost use Rattle.hs_types.specs.declared.rule.ParamKind.TheVariants as param;
ghost use Rattle.hs_types.specs.declared.rule.SlotKind.TheVariants as slot;
ghost use Rattle.hs_types.specs.Arguments.{ArgsFit, Follows};
ghost use Rattle.hs_types.specs.Copies.{NoneTouch};
ghost use Rattle.hs_types.specs.Elements as element;
ghost use Rattle.hs_types.specs.Limits.{IsSmallRule};
ghost use Rattle.hs_types.specs.Metamodel.{IsMeta};
ghost use Rattle.hs_types.specs.Plan.{plan_of};
ghost use Rattle.hs_types.specs.RuleForm.{IsRule, inverse};
ghost use Rattle.hs_types.specs.Spares.{Spares};
ghost use Rattle.hs_types.specs.TypedGraph.{IsTyped};
ghost use Rattle.hs_types.specs.ValidMatch.{IsFirst, IsNext};
ghost use Rattle.hs_laws.specs.Bank.{account, add, args_of, arrow, at_match, balance_of, client, copy, kernel, link, model, node, number, object_arg, one_account, open_account, own, pair_with, reset, rule, set_balance, three_with, touch, transfer, two, two_accounts, value_arg};
ghost use Rattle.hs_laws.specs.Strange.{drops, drops_edge, empty_multi, family, gift, made_account, made_edge, mark_accounts, nots, two_classes, with_feature, rule_that_sets, with_slots};

/// Elements: a rule that adds to a balance uses, deletes and creates its slot; kept edges are used
/// and not deleted; a created account isn't used, and the inverse of the rule that opens it deletes
/// it with its edge.
pub fn elements()
    ensures slot_used { element.uses add.shape (element.Slot 0) ≡ true }
    ensures slot_deleted { element.deletes add.shape (element.Slot 0) ≡ true }
    ensures slot_created { element.creates add.shape (element.Slot 0) ≡ true }
    ensures edge_used { element.uses touch.shape (element.Edge 1) ≡ true }
    ensures edge_kept { element.deletes touch.shape (element.Edge 1) ≡ false }
    ensures node_created { element.creates open_account.shape (element.Node 1) ≡ true }
    ensures node_not_used { element.uses open_account.shape (element.Node 1) ≡ false }
    ensures inverse_node { element.deletes (inverse open_account.shape) (element.Node 1) ≡ true }
    ensures inverse_edge { element.deletes (inverse open_account.shape) (element.Edge 0) ≡ true }
    ensures inverse_kept { element.deletes (inverse open_account.shape) (element.Node 0) ≡ false }
{}

/// Graphs: two objects of one name, numbers that fall or reach the next one, a value outside EInt,
/// and a reference that the source's class lacks.
pub fn graphs_refused()
    ensures same_name { IsTyped model (record (two_accounts (pos 0) (pos 0)) {
      objects = account 0 (codes "a1") (pos 0) ∷ account 1 (codes "a1") (pos 0) ∷ [];
    }) → ⊥ }
    ensures falling { IsTyped model (record (two_accounts (pos 0) (pos 0)) {
      objects = account 1 (codes "a1") (pos 0) ∷ account 0 (codes "a2") (pos 0) ∷ [];
    }) → ⊥ }
    ensures not_below { IsTyped model (record (one_account (pos 0)) { next_object = 0 }) → ⊥ }
    ensures too_great { IsTyped model (one_account (pos 2147483648)) → ⊥ }
    ensures foreign { IsTyped model (pair_with (link 0 1 0 0 ∷ []) 1) → ⊥ }
{}

/// Metamodels: two classes of one name, a default of another type, a reference to a class that
/// isn't there, and one without room for a target.
pub fn metamodels_refused()
    ensures same_name { IsMeta (two_classes (codes "A") (codes "A")) → ⊥ }
    ensures other_default { IsMeta (with_feature (Attribute EInt (value.Bool true))) → ⊥ }
    ensures no_class { IsMeta (with_feature (Reference 1 false 0 None)) → ⊥ }
    ensures no_room { IsMeta (with_feature (Reference 0 false 0 (Some 0))) → ⊥ }
{}

/// Rules: a created node of an abstract class, a kept edge at a deleted node, a reference of
/// another class, a condition that is a number, a set at a deleted node, a slot set twice, a slot
/// that nothing reads or sets, one that isn't marked as written, a forbid part that deletes, an out
/// parameter for data, and two nodes of one name.
pub fn malformed_rules()
    ensures abstract_node { IsRule family (rule [] (kernel (node (codes "a") 0 Make ∷ []) [] []))
        → ⊥ }
    ensures kept_at_dropped { IsRule model (rule [] (kernel
        (node (codes "c") 0 Drop ∷ node (codes "a") 1 Keep ∷ []) (arrow 0 0 1 Keep ∷ []) [])) → ⊥ }
    ensures foreign { IsRule model (rule [] (kernel
        (node (codes "c") 0 Keep ∷ node (codes "a") 1 Keep ∷ []) (arrow 1 0 0 Keep ∷ []) [])) → ⊥ }
    ensures number_condition { IsRule model (record touch { wheres = number (pos 1) ∷ [] }) → ⊥ }
    ensures set_at_dropped { IsRule model
        (rule_that_sets Drop (set_balance 0 (number (pos 1)) ∷ [])) → ⊥ }
    ensures set_twice { IsRule model (rule_that_sets Keep
        (set_balance 0 (number (pos 1)) ∷ set_balance 0 (number (pos 2)) ∷ [])) → ⊥ }
    ensures slot_not_needed { IsRule model (rule_that_sets Keep []) → ⊥ }
    ensures slot_not_written { IsRule model (with_slots
        (record (balance_of 0) { written = false } ∷ []) (set_balance 0 (number (pos 1)) ∷ []))
        → ⊥ }
    ensures deleting_part { IsRule model (record touch {
      forbids = record { nodes = node (codes "z") 0 Drop ∷ []; edges = [] } ∷ [];
    }) → ⊥ }
    ensures data_out { IsRule model (record touch {
      params = record { direction = Out; name = codes "n"; kind = param.Data kind.Int } ∷ [];
    }) → ⊥ }
    ensures same_node { IsRule model (rule []
        (kernel (node (codes "x") 1 Keep ∷ node (codes "x") 1 Keep ∷ []) [] [])) → ⊥ }
{}

/// Arguments: names out of their order, and one that names another object.
pub fn arguments_refused()
    ensures out_of_order { ArgsFit transfer.params (args_of (object_arg (codes "to") (codes "a2")
        ∷ object_arg (codes "from") (codes "a1") ∷ value_arg (codes "amount") (pos 1) ∷ [])) → ⊥ }
    ensures other_object { Follows (two_accounts (pos 0) (pos 0))
        (args_of (object_arg (codes "x") (codes "a2") ∷ [])) (node (codes "x") 1 Keep) 0 → ⊥ }
{}

/// Copies that make and set: for each of two clients an account with the balance of the kernel's,
/// and edges to it and to the account that the kernel makes. And two copies that write one slot
/// touch.
pub fn copies_tried()
    ensures balances { (plan_of model (record (three_with (link 0 0 0 2 ∷ link 1 1 0 2 ∷ []) 2) {
      objects = client 0 (codes "c1") ∷ client 1 (codes "c2") ∷ account 2 (codes "a1") (pos 5) ∷ [];
    }) gift (args_of []) (record {
      nodes = 2 ∷ [];
      edges = [];
      copies = (copy 0 0 ∷ copy 1 1 ∷ []) ∷ [];
    })).make_objects ≡ made_account (pos 0) ∷ made_account (pos 5) ∷ made_account (pos 5) ∷ [] }
    ensures edges { (plan_of model (three_with (link 0 0 0 2 ∷ link 1 1 0 2 ∷ []) 2) gift
        (args_of []) (record {
          nodes = 2 ∷ [];
          edges = [];
          copies = (copy 0 0 ∷ copy 1 1 ∷ []) ∷ [];
        })).make_edges ≡ made_edge 0 1 ∷ made_edge 0 0 ∷ made_edge 1 2 ∷ made_edge 1 0 ∷ [] }
    ensures one_slot { NoneTouch mark_accounts (record {
      nodes = 0 ∷ [];
      edges = [];
      copies = (copy 1 0 ∷ copy 1 1 ∷ []) ∷ [];
    }) → ⊥ }
{}

/// What a plan doesn't spare: a match whose require part loses its edge, one whose forbid part
/// could be found after a made edge, and one whose slot is written.
pub fn not_spared()
    ensures support { Spares model (pair_with (link 0 1 2 0 ∷ []) 1) (drops_edge 0) own
        (at_match (1 ∷ []) []) (record { nodes = 0 ∷ []; edges = 0 ∷ [] } ∷ []) → ⊥ }
    ensures dropped { Spares model (pair_with (link 0 1 2 0 ∷ []) 1) (drops (0 ∷ [])) own
        (at_match (1 ∷ []) []) (record { nodes = 0 ∷ []; edges = 0 ∷ [] } ∷ []) → ⊥ }
    ensures written { Spares model (one_account (pos 0)) (record (drops []) {
      writes = record { object = 0; slot = slot.Attribute 1; value = value.Int (pos 1) } ∷ [];
    }) reset (at_match (0 ∷ []) []) [] → ⊥ }
{}

/// Limits: four edges of one source, reference and target, five multi blocks, and an expression
/// that nests 33 deep.
pub fn limits_refused()
    ensures parallel { IsSmallRule (rule [] (kernel
        (node (codes "c") 0 Keep ∷ node (codes "a") 1 Keep ∷ [])
        (replicate 4 (arrow 0 0 1 Keep)) [])) → ⊥ }
    ensures multis { IsSmallRule (record touch { multis = replicate 5 empty_multi }) → ⊥ }
    ensures deep { IsSmallRule (record touch { wheres = nots 33 ∷ [] }) → ⊥ }
{}

/// Searches: of two accounts the first match has them in order, and the next one the other way
/// round.
pub fn searches_tried()
    ensures first { IsFirst model (two_accounts (pos 0) (pos 0)) two (args_of [])
        (Some (at_match (0 ∷ 1 ∷ []) [])) }
    ensures next { IsNext model (two_accounts (pos 0) (pos 0)) two (args_of [])
        (at_match (0 ∷ 1 ∷ []) []) (Some (at_match (1 ∷ 0 ∷ []) [])) }
    ensures not_other { IsFirst model (two_accounts (pos 0) (pos 0)) two (args_of [])
        (Some (at_match (1 ∷ 0 ∷ []) [])) → ⊥ }
{}
