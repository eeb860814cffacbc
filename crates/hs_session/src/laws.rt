//! Laws of reports, and that the serial report is one.

ghost use Rattle.std.specs.Prelude.{◌≡◌, ◌⊎◌, ◌∷◌, ℕ, List, [], IsSome, IsSomeAnd, Some, false, slice_get};
ghost use Rattle.std.specs.List.{All, enumerate_from};
ghost use Rattle.hs_types.specs.declared.graph.Graph.{Graph};
ghost use Rattle.hs_types.specs.declared.request.Args.{Args};
ghost use Rattle.hs_types.specs.declared.request.Request.{Request};
ghost use Rattle.hs_types.specs.declared.unit.Callee.TheVariants as callee;
ghost use Rattle.hs_types.specs.Arguments.{no_args};
ghost use Rattle.hs_types.specs.Journal.{IsLawfulWritten};
ghost use Rattle.hs_types.specs.Rules.{AreFormed, Rules};
ghost use Rattle.hs_types.specs.TypedGraph.{IsTyped};
ghost use Rattle.hs_unit.specs.Courses.{Asks, Course};
ghost use Rattle.hs_session.specs.declared.report.Report.{Report};
ghost use Rattle.hs_session.specs.LawfulReport.{IsLawfulReport};
ghost use Rattle.hs_session.specs.Requests.{callee_named};
ghost use Rattle.hs_session.specs.Runnable.{IsRunnable};
ghost use Rattle.hs_session.specs.Runs.{ComesTo, run_of};
ghost use Rattle.hs_session.specs.SerialReport.{IsDecided, IsSerialReport};
ghost use Rattle.hs_session.specs.Standing.{Made, outcome_made};

use crate::serial::rule_at;
use hs_apply::laws::additions_only_make;
use hs_laws::{attempts_stay_typed, least_is_unique};
use hs_match::is_applicable;
use hs_types::{ListGraph, Request, RuleSet};

/// Two serial reports of the same requests, in each of which every request was served to its end,
/// have the same journal, replies and graph.
pub fn serial_reports_are_one()
    ensures { (rules : Rules) (opening : Graph) (sessions : List (List Request)) (a b : Report)
        → AreFormed rules → IsTyped rules.meta opening
        → IsSerialReport rules opening sessions a → IsSerialReport rules opening sessions b
        → All IsDecided a.replies → All IsDecided b.replies
        → (a.journal ≡ b.journal) × (a.replies ≡ b.replies) × (a.graph.graph ≡ b.graph.graph) }
{
    least_is_unique();
    attempts_stay_typed();
}

/// The journal of a lawful report, written with its places, is a lawful one.
pub fn lawful_reports_replay()
    ensures { (rules : Rules) (opening : Graph) (sessions : List (List Request)) (report : Report)
        → IsLawfulReport rules opening sessions report
        → IsLawfulWritten rules opening (enumerate_from 0 report.journal) }
{}

/// A call of a rule has no attempt, or it has one, at this rule and with these arguments, which
/// decides how the call ends.
pub fn rules_are_tried_once()
    ensures { (rules : Rules) (rule : ℕ) (args : Args) (fuel number : ℕ) (made : List Made)
        (course : Course)
        → ComesTo rules (run_of rules (callee.Rule rule) args fuel number) made course
        → (made ≡ [])
        ⊎ ((one : Made) × (made ≡ one ∷ []) × (one.tried.rule ≡ rule) × (one.tried.args ≡ args)
        × (course
        ≡ run_of rules (callee.Rule rule) args fuel number (outcome_made rules one ∷ []))) }
{}

/// One request of one session, as [`run_serial`](crate::run_serial) takes it, has exactly one
/// serial report in which it was served to its end: there is one, and two such reports have the
/// same journal, replies and graph.
pub fn one_serial_report(graph: &ListGraph, rules: &RuleSet, called: u16, request: &Request)
    requires same_model { graph.now.meta ≡ rules.now.meta }
    requires called { callee_named rules.now request.now.call ≡ Some (callee.Rule called) }
    requires runnable { IsSomeAnd (slice_get rules.now.rules called) (IsRunnable graph.now.graph) }
    requires no_arguments { request.now.args ≡ no_args }
    requires not_grouped { request.now.group ≡ false }
    ensures exists { (report : Report) × IsSerialReport rules.now graph.now.graph
        ((request.now ∷ []) ∷ []) report × All IsDecided report.replies }
    ensures one { (a b : Report)
        → IsSerialReport rules.now graph.now.graph ((request.now ∷ []) ∷ []) a
        → IsSerialReport rules.now graph.now.graph ((request.now ∷ []) ∷ []) b
        → All IsDecided a.replies → All IsDecided b.replies
        → (a.journal ≡ b.journal) × (a.replies ≡ b.replies) × (a.graph.graph ≡ b.graph.graph) }
{
    rules.are_formed();
    serial_reports_are_one();
    additions_only_make();
    // The search takes no memory, so its answer is always there.
    let _ = is_applicable(graph.meta(), graph, rule_at(rules, called));
}
