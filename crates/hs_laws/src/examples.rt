//! The definitions, tried on a small bank.

ghost use Rattle.std.specs.Prelude.{◌≡◌, ◌≢◌, ◌-◌, ◌^◌, ◌<◌, ℕ, pos, negsuc, Some, None, [], ◌∷◌, true, false, codes};
ghost use Rattle.hs_expr.specs.declared.expr.Expr.TheVariants as expr;
ghost use Rattle.hs_expr.specs.declared.expr.Sign.TheVariants as sign;
ghost use Rattle.hs_expr.specs.declared.value.Value.TheVariants as value;
ghost use Rattle.hs_expr.specs.Evaluation.{Env, value_of};
ghost use Rattle.hs_types.specs.declared.entry.Cause.TheVariants as cause;
ghost use Rattle.hs_types.specs.declared.graph.Graph.{Graph};
ghost use Rattle.hs_types.specs.declared.meta.Metamodel.{Metamodel};
ghost use Rattle.hs_types.specs.declared.rule.Mark.TheVariants.{Drop, Keep, Make};
ghost use Rattle.hs_types.specs.declared.meta.DataType.TheVariants.{EInt};
ghost use Rattle.hs_types.specs.Metamodel.{Conforms, HaveCommon, IsMeta, is_of_type};
ghost use Rattle.hs_types.specs.RuleForm.{IsRule};
ghost use Rattle.hs_types.specs.TypedGraph.{IsTyped, IsOpening, hash_name};
ghost use Rattle.hs_types.specs.ValidMatch.{IsValid, NoneIsValid};
ghost use Rattle.hs_types.specs.PlainMatch.{IsPlain, kernel_of, edge_image};
ghost use Rattle.hs_types.specs.Dangling.{NoneDangle};
ghost use Rattle.hs_expr.specs.Lexicographic.{IsBefore};
ghost use Rattle.hs_types.specs.MatchOrder.{IsEarlier};
ghost use Rattle.hs_types.specs.Arguments.{ArgsFit};
ghost use Rattle.hs_types.specs.Conditions.{AreFit, AreTrue, IsAbsent, IsPresent, env_of};
ghost use Rattle.hs_types.specs.Copies.{AreCopies, NoneTouch};
ghost use Rattle.hs_types.specs.Journal.{IsLawful, IsLawfulWritten, IsUnlawfulAt, after_journal, new_names};
ghost use Rattle.hs_types.specs.Plan.{Fits, plan_of};
ghost use Rattle.hs_types.specs.Spares.{Spares};
ghost use Rattle.hs_types.specs.Step.{step};
ghost use Rattle.hs_laws.specs.Bank.{arrow, bank_rules, model, client, account, link, transfer, transfer_args, two_accounts, one_account, pair_with, three_with, at_match, lone, open_account, drop_client, unlink, two, add, touch, reset, own, alone, purge, sweep, owned_by_another, owned_by_a_third, args_of, object_arg, value_arg, number, nothing, just_client, client_with_new_account, two_clients, purge_args, copy, opens, adds, adds_first, opens_second, client_with_one, always_unless_it_overflows, opens_missed, opens_misnamed, opens_and_drops};
ghost use Rattle.hs_laws.specs.Strange.{looped, family, abstract_object, slotless_account, client_for_account, reused_name, old_names, leaves_a_name_out, hang, slotless, drops};

/// Metamodels: one that is, one whose class is its own supertype; conformance goes up alone;
/// classes that nothing concrete joins; the bounds of EInt.
pub fn metamodels()
    ensures is_meta { IsMeta model }
    ensures no_loop { IsMeta looped → ⊥ }
    ensures up { Conforms family 1 0 }
    ensures not_down { Conforms family 0 1 → ⊥ }
    ensures common { HaveCommon family 0 1 }
    ensures none_common { HaveCommon model 0 1 → ⊥ }
    ensures greatest { is_of_type EInt (value.Int (pos 2147483647)) ≡ true }
    ensures too_great { is_of_type EInt (value.Int (pos 2147483648)) ≡ false }
    ensures least { is_of_type EInt (value.Int (negsuc 2147483647)) ≡ true }
{}

/// Graphs: one that is typed; an object of an abstract class, one without its slot, an edge to an
/// object of another class, and a name that would be given again, none of which is.
pub fn graphs()
    ensures typed { IsTyped model (two_accounts (pos 100) (pos 5)) }
    ensures no_abstract_object { IsTyped family abstract_object → ⊥ }
    ensures no_missing_slot { IsTyped model slotless_account → ⊥ }
    ensures no_other_target { IsTyped model client_for_account → ⊥ }
    ensures no_reused_name { IsTyped model reused_name → ⊥ }
    ensures canonical { hash_name 8 ≡ codes "#8" }
    ensures opening { IsOpening model old_names }
    ensures no_gap { IsOpening model leaves_a_name_out → ⊥ }
{}

/// Expressions are strict: where one part leaves 64 bits the expression has no value, whatever the
/// rest is.
pub fn expressions()
    ensures strict_or { (env : Env) → env.param 0 ≡ Some (value.Int (pos (2 ^ 63 - 1)))
        → value_of env (expr.Binary sign.Or (expr.Literal (value.Bool true))
        (expr.Binary sign.Greater (expr.Binary sign.Plus (expr.Param 0) (number (pos 1)))
        (number (pos 0)))) ≡ None }
    ensures strict_not { (env : Env) → env.param 0 ≡ Some (value.Int (pos (2 ^ 63 - 1)))
        → value_of env (expr.Not (expr.Binary sign.Greater
        (expr.Binary sign.Plus (expr.Param 0) (number (pos 1))) (number (pos 0)))) ≡ None }
    ensures within { (env : Env) → env.param 0 ≡ Some (value.Int (pos (2 ^ 63 - 2)))
        → value_of env (expr.Binary sign.Plus (expr.Param 0) (number (pos 1)))
        ≡ Some (value.Int (pos (2 ^ 63 - 1))) }
    ensures least_negated { (env : Env)
        → value_of env (expr.Minus (number (negsuc (2 ^ 63 - 1)))) ≡ None }
{}

/// Plain matches: two parallel edges serve two pattern edges, one doesn't, and neither does one
/// object two nodes. The image of an edge is found by the left edges before it.
pub fn plain_matches()
    ensures two_edges { IsPlain model (pair_with (link 0 0 0 1 ∷ link 1 0 0 1 ∷ []) 2) touch.shape
        (kernel_of (at_match (0 ∷ 1 ∷ []) (0 ∷ 1 ∷ []))) }
    ensures not_twice { IsPlain model (pair_with (link 0 0 0 1 ∷ link 1 0 0 1 ∷ []) 2) touch.shape
        (kernel_of (at_match (0 ∷ 1 ∷ []) (0 ∷ 0 ∷ []))) → ⊥ }
    ensures injective { IsPlain model (one_account (pos 0)) two.shape
        (kernel_of (at_match (0 ∷ 0 ∷ []) [])) → ⊥ }
    ensures conforming { IsPlain model (pair_with [] 0) two.shape
        (kernel_of (at_match (0 ∷ 1 ∷ []) [])) → ⊥ }
    ensures edges_by_left_edges { edge_image
        (arrow 0 0 1 Keep ∷ arrow 0 0 1 Make ∷ arrow 1 2 0 Drop ∷ []) (7 ∷ 9 ∷ []) 2 ≡ 9 }
{}

/// An account's owner can't go without the edge: it ends at the client.
pub fn dangling()
    ensures dangles { NoneDangle (0 ∷ []) [] (pair_with (link 0 1 2 0 ∷ []) 1) → ⊥ }
    ensures with_edge { NoneDangle (0 ∷ []) (0 ∷ []) (pair_with (link 0 1 2 0 ∷ []) 1) }
    ensures none_valid { NoneIsValid model (pair_with (link 0 1 2 0 ∷ []) 1) drop_client
        (args_of (object_arg (codes "c") (codes "c1") ∷ [])) }
{}

/// Of nodes the first decides, and nodes come before edges; of different numbers of nodes the order
/// isn't that of nodes and edges in one list.
pub fn orders()
    ensures first_node { IsEarlier (record { nodes = 0 ∷ 5 ∷ []; edges = 9 ∷ [] })
        (record { nodes = 1 ∷ 2 ∷ []; edges = 0 ∷ [] }) }
    ensures then_edges { IsEarlier (record { nodes = 1 ∷ 2 ∷ []; edges = 0 ∷ [] })
        (record { nodes = 1 ∷ 2 ∷ []; edges = 3 ∷ [] }) }
    ensures not_itself { IsEarlier (record { nodes = 1 ∷ []; edges = 0 ∷ [] })
        (record { nodes = 1 ∷ []; edges = 0 ∷ [] }) → ⊥ }
    ensures longer { IsEarlier (record { nodes = 3 ∷ []; edges = 9 ∷ [] })
        (record { nodes = 3 ∷ 5 ∷ []; edges = [] }) }
    ensures not_as_one_list { IsBefore (3 ∷ 9 ∷ []) (3 ∷ 5 ∷ []) → ⊥ }
{}

/// Arguments: those that a transfer takes, one of the wrong kind, and one too many.
pub fn arguments()
    ensures fit { ArgsFit transfer.params (transfer_args (pos 30)) }
    ensures wrong_kind { ArgsFit add.params (args_of (value_arg (codes "a") (pos 1) ∷ [])) → ⊥ }
    ensures too_many { ArgsFit add.params
        (args_of (object_arg (codes "a") (codes "a1") ∷ value_arg (codes "z") (pos 1) ∷ [])) → ⊥ }
    ensures missing { ArgsFit add.params (args_of []) → ⊥ }
{}

/// Conditions: a sum that leaves EInt, one that leaves 64 bits beside `true or`, a client that a
/// forbid part finds, a client that it can't take since the kernel has it, and one that a require
/// part wants.
pub fn conditions()
    ensures fits { AreFit model
        (env_of (one_account (pos 2147483646)) add (args_of []) add.shape.nodes (0 ∷ [])) add.sets }
    ensures leaves { AreFit model (env_of (one_account (pos 2147483647)) add (args_of [])
        add.shape.nodes (0 ∷ [])) add.sets → ⊥ }
    ensures too_much { AreTrue (env_of (two_accounts (pos 100) (pos 5)) transfer
        (transfer_args (pos 101)) transfer.shape.nodes (0 ∷ 1 ∷ [])) transfer.wheres → ⊥ }
    ensures overflows { AreTrue
        (env_of (two_accounts (pos 100) (pos 5)) transfer (transfer_args (pos (2 ^ 63 - 1)))
        transfer.shape.nodes (0 ∷ 1 ∷ [])) (always_unless_it_overflows ∷ []) → ⊥ }
    ensures forbidden { IsAbsent model (pair_with (link 0 1 2 0 ∷ []) 1) reset
        (record { nodes = 1 ∷ []; edges = [] }) owned_by_another → ⊥ }
    ensures allowed { IsAbsent model (pair_with [] 0) reset (record { nodes = 1 ∷ []; edges = [] })
        owned_by_another }
    ensures kernel_has_it { IsAbsent model (pair_with (link 0 1 2 0 ∷ []) 1) alone
        (record { nodes = 1 ∷ 0 ∷ []; edges = [] }) owned_by_a_third }
    ensures required { IsPresent model (pair_with (link 0 1 2 0 ∷ []) 1) own
        (record { nodes = 1 ∷ []; edges = [] }) owned_by_another }
    ensures not_there { IsPresent model (pair_with [] 0) own (record { nodes = 1 ∷ []; edges = [] })
        owned_by_another → ⊥ }
{}

/// Rules: no edge can be made at a deleted node, and each slot that is set is in the list.
pub fn rules_refused()
    ensures no_hanging { IsRule model hang → ⊥ }
    ensures no_missing_slot { IsRule model slotless → ⊥ }
{}

/// Plans: one that drops an object of the graph fits and spares a match elsewhere; one that drops
/// it twice doesn't fit; and none that drops an object spares a match that has it.
pub fn plans()
    ensures fits { Fits model (two_accounts (pos 0) (pos 0)) (drops (1 ∷ [])) }
    ensures not_twice { Fits model (two_accounts (pos 0) (pos 0)) (drops (1 ∷ 1 ∷ [])) → ⊥ }
    ensures spares { Spares model (two_accounts (pos 0) (pos 0)) (drops (1 ∷ [])) add
        (at_match (0 ∷ []) []) [] }
    ensures spares_not { Spares model (two_accounts (pos 0) (pos 0)) (drops (0 ∷ [])) add
        (at_match (0 ∷ []) []) [] → ⊥ }
{}

/// A transfer of 30 between accounts with 100 and 5.
pub fn transfers()
    ensures is_rule { IsRule model transfer }
    ensures valid { IsValid model (two_accounts (pos 100) (pos 5)) transfer (transfer_args (pos 30))
        (at_match (0 ∷ 1 ∷ []) []) }
    ensures after { step (two_accounts (pos 100) (pos 5))
        (plan_of model (two_accounts (pos 100) (pos 5)) transfer (transfer_args (pos 30))
        (at_match (0 ∷ 1 ∷ []) [])) ≡ two_accounts (pos 70) (pos 35) }
{}

/// Steps: new objects get the next numbers and names, and of parallel edges the one that the match
/// took goes.
pub fn steps_made()
    ensures first_name { new_names nothing
        (plan_of model nothing lone (args_of []) (at_match [] [])) ≡ codes "#0" ∷ [] }
    ensures next_name { new_names old_names
        (plan_of model old_names lone (args_of []) (at_match [] [])) ≡ codes "#8" ∷ [] }
    ensures opened { step (just_client) (plan_of model just_client open_account (args_of [])
        (at_match (0 ∷ []) [])) ≡ client_with_new_account }
    ensures unlinked { step (pair_with (link 0 0 0 1 ∷ link 1 0 0 1 ∷ []) 2)
        (plan_of model (pair_with (link 0 0 0 1 ∷ link 1 0 0 1 ∷ []) 2) unlink (args_of [])
        (at_match (0 ∷ 1 ∷ []) (0 ∷ []))) ≡ pair_with (link 1 0 0 1 ∷ []) 2 }
{}

/// Copies: two clients each lose their link to an account that goes; no client is no copy; a copy
/// can't be left out; and two copies that drop one client touch.
pub fn copies()
    ensures both { IsValid model (three_with (link 0 0 0 2 ∷ link 1 1 0 2 ∷ []) 2) purge purge_args
        (record { nodes = 2 ∷ []; edges = []; copies = (copy 0 0 ∷ copy 1 1 ∷ []) ∷ [] }) }
    ensures none { IsValid model (one_account (pos 0)) purge purge_args
        (record { nodes = 0 ∷ []; edges = []; copies = [] ∷ [] }) }
    ensures not_one { IsValid model (three_with (link 0 0 0 2 ∷ link 1 1 0 2 ∷ []) 2) purge
        purge_args (record { nodes = 2 ∷ []; edges = []; copies = (copy 0 0 ∷ []) ∷ [] }) → ⊥ }
    ensures purged { step (three_with (link 0 0 0 2 ∷ link 1 1 0 2 ∷ []) 2)
        (plan_of model (three_with (link 0 0 0 2 ∷ link 1 1 0 2 ∷ []) 2) purge purge_args
        (record { nodes = 2 ∷ []; edges = []; copies = (copy 0 0 ∷ copy 1 1 ∷ []) ∷ [] }))
        ≡ two_clients }
    ensures touching { NoneTouch sweep
        (record { nodes = 1 ∷ []; edges = []; copies = (copy 0 0 ∷ copy 0 1 ∷ []) ∷ [] }) → ⊥ }
{}

/// A journal of two entries, of which the first opens an account and the second adds to it; the
/// other way round the first names a match that isn't there. And entries that say what wasn't.
pub fn journals_tried()
    ensures lawful { IsLawful bank_rules just_client (opens ∷ adds ∷ []) }
    ensures graph { after_journal bank_rules just_client (opens ∷ adds ∷ []) ≡ client_with_one }
    ensures exchanged { IsUnlawfulAt bank_rules just_client
        ((0, adds_first) ∷ (1, opens_second) ∷ []) 0 cause.Match }
    ensures missed { IsUnlawfulAt bank_rules just_client ((0, opens_missed) ∷ []) 0 cause.Valid }
    ensures misnamed { IsUnlawfulAt bank_rules just_client ((0, opens_misnamed) ∷ []) 0 cause.New }
    ensures not_gone { IsUnlawfulAt bank_rules just_client ((0, opens_and_drops) ∷ []) 0 cause.Old }
    ensures wrong_place { IsUnlawfulAt bank_rules just_client ((1, opens) ∷ []) 0 cause.Number }
{}
