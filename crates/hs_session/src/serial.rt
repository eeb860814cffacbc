//! Running requests one after another.

ghost use Rattle.std.specs.Prelude.{◌≡◌, ◌≤◌, ◌∷◌, [], IfOk, IsSome, IsSomeAnd, Some, false, slice_get, map, drop, length};
ghost use Rattle.std.specs.List.{All, filter_map};
ghost use Rattle.hs_types.specs.declared.entry.Cause.{Cause};
ghost use Rattle.hs_types.specs.declared.unit.Callee.TheVariants as callee;
ghost use Rattle.hs_types.specs.Journal.{OutcomeAsks, after_outcome, match_named};
ghost use Rattle.hs_types.specs.Limits.{IsSmallRule};
ghost use Rattle.hs_types.specs.RuleForm.{IsRule};
ghost use Rattle.hs_types.specs.Rules.{Rules};
ghost use Rattle.hs_types.specs.TypedGraph.{name_at};
ghost use Rattle.hs_types.specs.ValidMatch.{IsLeast, IsValid};
ghost use Rattle.hs_types.specs.Arguments.{no_args};
ghost use Rattle.hs_types.specs.Additions.{OnlyAdds};
ghost use Rattle.hs_session.specs.Requests.{callee_named};
ghost use Rattle.hs_session.specs.Runnable.{IsRunnable, outcome_word};
ghost use Rattle.hs_session.specs.SerialReport.{IsLeastOutcome, IsSerialReport};
ghost use Rattle.hs_session.specs.Standing.{no_outs};

use crate::report::{Reply, Report, Word};
use hs_apply::laws::additions_only_make;
use hs_apply::plan;
use hs_expr::{List, Text};
use hs_laws::plans_fit;
use hs_match::first_match;
use hs_types::{
    Args, Entry, Host, ListGraph, Match, MatchNames, Object, ObjectNo, Outcome, Outs, Request,
    Rule, RuleSet, Tried, What,
};
use std::alloc::{AllocError, Global};

/// How an attempt went, and the graph after it.
#[derive(Debug, Drop)]
struct Attempted {
    outcome: Outcome,
    graph: ListGraph,
}

/// Runs one request of one session, which calls the rule at this place without arguments and isn't
/// grouped, from this graph on.
pub fn run_serial(
    alloc: Global,
    graph: ListGraph,
    rules: &RuleSet,
    called: u16,
    request: &Request,
) -> Result<Report, AllocError>
    requires same_model { graph.meta ≡ rules.now.meta }
    requires called { callee_named rules.now request.now.call ≡ Some (callee.Rule called) }
    requires runnable { IsSomeAnd (slice_get rules.now.rules called) (IsRunnable graph.graph) }
    requires no_arguments { request.now.args ≡ no_args }
    requires not_grouped { request.now.group ≡ false }
    ensures { IfOk result (IsSerialReport rules.now graph.graph ((request.now ∷ []) ∷ [])) }
{
    rules.are_formed();
    let rule = rule_at(rules, called);
    let Attempted { outcome, graph } = attempt(alloc, graph, rule)?;
    let reply = reply_of(alloc, &outcome)?;
    let tried = first_try(called, request, outcome)?;
    let entry = Entry {
        session: 0,
        request: 0,
        what: What::One(tried),
    };
    Ok(Report {
        journal: one(alloc, entry)?,
        replies: one(alloc, reply)?,
        graph,
    })
}

/// The report of a run in which nothing is asked for: the graph as it was.
pub fn run_nothing(alloc: Global, graph: ListGraph) -> Report
    ensures { (rules : Rules) → graph.meta ≡ rules.meta
        → IsSerialReport rules graph.graph [] result }
{
    Report {
        journal: List::new(alloc),
        replies: List::new(alloc),
        graph,
    }
}

pub fn rule_at(rules: &RuleSet, place: u16) -> &Rule
    requires { IsSome (slice_get rules.now.rules place) }
    ensures { slice_get rules.now.rules place ≡ Some result.now }
{
    &rules.rules.as_slice()[usize::from(place)]
}

/// The first attempt at the rule at this place.
fn first_try(called: u16, request: &Request, outcome: Outcome) -> Result<Tried, AllocError>
    ensures first { IfOk result (λ tried. tried.attempt ≡ 0) }
    ensures rule { IfOk result (λ tried. tried.rule ≡ called) }
    ensures args { IfOk result (λ tried. tried.args ≡ request.now.args) }
    ensures outcome { IfOk result (λ tried. tried.outcome ≡ outcome) }
{
    Ok(Tried {
        attempt: 0,
        rule: called,
        args: request.args.clone()?,
        outcome,
    })
}

/// A list of one item.
fn one<T: Drop>(alloc: Global, item: T) -> Result<List<T>, AllocError>
    ensures { IfOk result (λ list. list ≡ item ∷ []) }
{
    let mut list = List::new(alloc);
    list.push(item)?;
    Ok(list)
}

/// The reply to the first request of the first session, whose attempt is the journal's first entry.
fn reply_of(alloc: Global, outcome: &Outcome) -> Result<Reply, AllocError>
    ensures { IfOk result
        (λ reply. reply ≡ record {
          session = 0;
          request = 0;
          word = outcome_word outcome.now;
          places = 0 ∷ [];
          outs = no_outs;
        }) }
{
    Ok(Reply {
        session: 0,
        request: 0,
        word: outcome_word(outcome),
        places: one(alloc, 0)?,
        outs: Outs {
            list: List::new(alloc),
        },
    })
}

fn outcome_word(outcome: &Outcome) -> Word
    ensures { result ≡ outcome_word outcome.now }
{
    match outcome {
        Outcome::Applied { .. } => Word::Ok,
        Outcome::Missed => Word::NoMatch,
    }
}

/// Applies the rule at its least valid match, or misses where there is none.
fn attempt(alloc: Global, graph: ListGraph, rule: &Rule) -> Result<Attempted, AllocError>
    requires form { IsRule graph.meta rule.now }
    requires small { IsSmallRule rule.now }
    requires runnable { IsRunnable graph.graph rule.now }
    ensures lawful { IfOk result (λ a. (asked : Cause)
        → OutcomeAsks graph.meta graph.graph rule.now no_args a.outcome asked) }
    ensures least { IfOk result
        (λ a. IsLeastOutcome graph.meta graph.graph rule.now no_args a.outcome) }
    ensures after { IfOk result
        (λ a. a.graph.graph ≡ after_outcome graph.meta graph.graph rule.now no_args a.outcome) }
    ensures meta { IfOk result (λ a. a.graph.meta ≡ graph.meta) }
{
    match first_match(alloc, graph.meta(), &graph, rule)? {
        Some(found) => applied(alloc, graph, rule, found),
        None => Ok(Attempted {
            outcome: Outcome::Missed,
            graph,
        }),
    }
}

fn applied(
    alloc: Global,
    graph: ListGraph,
    rule: &Rule,
    found: Match,
) -> Result<Attempted, AllocError>
    requires form { IsRule graph.meta rule.now }
    requires small { IsSmallRule rule.now }
    requires runnable { IsRunnable graph.graph rule.now }
    requires least { IsLeast graph.meta graph.graph rule.now no_args found }
    ensures lawful { IfOk result (λ a. (asked : Cause)
        → OutcomeAsks graph.meta graph.graph rule.now no_args a.outcome asked) }
    ensures least { IfOk result
        (λ a. IsLeastOutcome graph.meta graph.graph rule.now no_args a.outcome) }
    ensures after { IfOk result
        (λ a. a.graph.graph ≡ after_outcome graph.meta graph.graph rule.now no_args a.outcome) }
    ensures meta { IfOk result (λ a. a.graph.meta ≡ graph.meta) }
{
    // The laws on plans are what `install` asks.
    graph.meta().is_metamodel();
    plans_fit();
    additions_only_make();
    let mut graph = graph;
    let args = Args {
        list: List::new(alloc),
    };
    let mut plan = plan(alloc, &graph, rule, &args, &found)?;
    let found = names_of_match(alloc, &graph, rule, found)?;
    let count = graph.objects().len();
    graph.install(&mut plan)?;
    let outcome = Outcome::Applied {
        found,
        new: names_from(alloc, graph.objects(), count)?,
        old: List::new(alloc),
        gone: List::new(alloc),
    };
    Ok(Attempted { outcome, graph })
}

/// The names of the objects from this place on.
fn names_from(alloc: Global, objects: &[Object], place: usize) -> Result<List<Text>, AllocError>
    requires { place ≤ length objects.now }
    ensures { IfOk result
        (λ names. names ≡ map (λ object. object.name) (drop place objects.now)) }
{
    let mut names = List::new(alloc);
    for object in &objects[place..] {
        names.push(object.name.clone()?)?;
    }
    Ok(names)
}

/// A valid match with its objects by name.
fn names_of_match(
    alloc: Global,
    graph: &ListGraph,
    rule: &Rule,
    found: Match,
) -> Result<MatchNames, AllocError>
    requires only_adds { OnlyAdds rule.now }
    requires valid { IsValid graph.now.meta graph.now.graph rule.now no_args found }
    ensures { IfOk result (λ names. match_named graph.now.graph names ≡ Some found) }
{
    graph.meta();
    Ok(MatchNames {
        nodes: names_of(alloc, graph, found.nodes.as_slice())?,
        edges: found.edges,
        copies: List::new(alloc),
    })
}

/// The names of the objects at these numbers.
fn names_of(
    alloc: Global,
    graph: &ListGraph,
    numbers: &[ObjectNo],
) -> Result<List<Text>, AllocError>
    ensures { IfOk result (λ names. names ≡ filter_map (name_at graph.now.graph) numbers.now) }
{
    let mut names = List::new(alloc);
    for number in numbers {
        if let Some(name) = graph.name_of(*number) {
            names.push(Text::from_str(alloc, name)?)?;
        }
    }
    Ok(names)
}
