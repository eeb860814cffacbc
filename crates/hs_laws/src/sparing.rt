//! Matches that a plan spares.

ghost use Rattle.std.specs.Prelude.{◌≡◌, List};
ghost use Rattle.hs_types.specs.declared.graph.Graph.{Graph};
ghost use Rattle.hs_types.specs.declared.matching.Extension.{Extension};
ghost use Rattle.hs_types.specs.declared.matching.Match.{Match};
ghost use Rattle.hs_types.specs.declared.meta.Metamodel.{Metamodel};
ghost use Rattle.hs_types.specs.declared.request.Args.{Args};
ghost use Rattle.hs_types.specs.declared.rule.Rule.{Rule};
ghost use Rattle.hs_types.specs.Plan.{Plan, plan_of};
ghost use Rattle.hs_types.specs.RuleForm.{IsRule};
ghost use Rattle.hs_types.specs.Spares.{IsSupported, Spares};
ghost use Rattle.hs_types.specs.Step.{step};

/// A plan that spares what a valid match has, and the kept extensions onto its require parts,
/// leaves the match valid with these extensions, and with the same plan.
pub fn spared_matches_stay_valid()
    ensures valid { (m : Metamodel) (g : Graph) (plan : Plan) (rule : Rule) (args : Args)
        (f : Match) (supports : List Extension)
        → IsRule m rule → IsSupported m g rule args f supports → Spares m g plan rule f supports
        → IsSupported m (step g plan) rule args f supports }
    ensures same_plan { (m : Metamodel) (g : Graph) (plan : Plan) (rule : Rule) (args : Args)
        (f : Match) (supports : List Extension)
        → IsRule m rule → IsSupported m g rule args f supports → Spares m g plan rule f supports
        → plan_of m (step g plan) rule args f ≡ plan_of m g rule args f }
{}
