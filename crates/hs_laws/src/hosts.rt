//! What hosts ask of plans: the law, and the definitions tried.

ghost use Rattle.std.specs.Prelude.{◌≡◌, ◌∷◌, []};
ghost use Rattle.hs_types.specs.declared.graph.Graph.{Graph};
ghost use Rattle.hs_types.specs.declared.matching.Match.{Match};
ghost use Rattle.hs_types.specs.declared.meta.Metamodel.{Metamodel};
ghost use Rattle.hs_types.specs.declared.request.Args.{Args};
ghost use Rattle.hs_types.specs.declared.rule.Rule.{Rule};
ghost use Rattle.hs_types.specs.Host.{CanInstall, HasNearNames, edges_at};
ghost use Rattle.hs_types.specs.Journal.{IsWithinNumbers};
ghost use Rattle.hs_types.specs.Metamodel.{IsMeta};
ghost use Rattle.hs_types.specs.Plan.{plan_of};
ghost use Rattle.hs_types.specs.RuleForm.{IsRule};
ghost use Rattle.hs_types.specs.Step.{step};
ghost use Rattle.hs_types.specs.TypedGraph.{IsTyped};
ghost use Rattle.hs_types.specs.ValidMatch.{IsValid};
ghost use Rattle.hs_laws.specs.Bank.{just_client, link, model};
ghost use Rattle.hs_laws.specs.Strange.{drops};
ghost use Rattle.hs_laws.specs.Hosts.{makes_an_object, numbered_from, two_loops};

/// The plan of a valid match can be carried out by a host, where no more than 1,000,000,000 objects
/// and as many edges are drawn after it.
pub fn plans_can_be_installed()
    ensures { (m : Metamodel) (g : Graph) (rule : Rule) (args : Args) (f : Match)
        → IsMeta m → IsRule m rule → IsTyped m g → IsValid m g rule args f
        → IsWithinNumbers (step g (plan_of m g rule args f))
        → CanInstall m g (plan_of m g rule args f) }
{}

/// A loop is once among the edges at its object. The next name may be 3,000,000,001 ahead, and no
/// more. The last object number can be drawn, and none after it; nothing can be dropped twice.
pub fn hosts_tried()
    ensures at_first { edges_at two_loops 0 ≡ link 0 0 0 0 ∷ link 2 0 0 1 ∷ [] }
    ensures at_second { edges_at two_loops 1 ≡ link 1 1 0 1 ∷ link 2 0 0 1 ∷ [] }
    ensures near { HasNearNames (numbered_from 0 0 3000000001) }
    ensures far { HasNearNames (numbered_from 0 0 3000000002) → ⊥ }
    ensures last { CanInstall model (numbered_from 999999999 0 0) (makes_an_object 0) }
    ensures used_up { CanInstall model (numbered_from 1000000000 0 0) (makes_an_object 0) → ⊥ }
    ensures once { CanInstall model just_client (drops (0 ∷ 0 ∷ [])) → ⊥ }
{}
