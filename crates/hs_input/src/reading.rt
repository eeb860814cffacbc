//! Reading a bundle with its rules and requests.

ghost use Rattle.std.specs.Prelude.{◌≡◌, ℕ, List, IfErr, IfOk, IfSome, Ok, Some, None};
ghost use Rattle.std.specs.Str.{chars};
ghost use Rattle.hs_expr.specs.Verdict.{verdict};
ghost use Rattle.hs_text.specs.Parsing.{IsSyntaxOf};
ghost use Rattle.hs_json.specs.Reading.{Contents, IsBundleAnswer, contents};
ghost use Rattle.hs_json_model.specs.Sound.{IsSound};
ghost use Rattle.hs_faults.specs.UnitFaults.{faults_of};
ghost use Rattle.hs_check.specs.Meaning.{IsMeant};
ghost use Rattle.hs_input.specs.declared.refusal.Refusal.TheVariants.{NoBundle, BadText, BadRule};
ghost use Rattle.hs_input.specs.Input.{IsInput, IsRead};
ghost use Rattle.hs_input.specs.Refusing.{Tells};
ghost use Rattle.hs_input.specs.Sessions as asking;
ghost use Rattle.hs_input.specs.Sessions.{seen};

use crate::refusal::Refusal;
use crate::sessions::sessions_asked;
use hs_check::check;
use hs_expr::{Failure, List, fault_as};
use hs_faults::RuleFault;
use hs_json::{Bundle, BundleFault, read_bundle};
use hs_text::{Syntax, TextFault, parse};
use hs_types::{ListGraph, Request, RuleSet};
use serde_json::Value;
use std::alloc::Global;

/// What a bundle holds in which nothing is wrong.
#[derive(Drop)]
pub struct Input {
    /// The graph with its metamodel.
    pub graph: ListGraph,
    /// The rules and units as they are written.
    pub syntax: Syntax,
    /// What they mean.
    pub rules: RuleSet,
    /// The requests of each session.
    pub sessions: List<List<Request>>,
}

/// Reads what the bytes hold, or says why they are refused.
pub fn read_input(alloc: Global, bytes: &[u8]) -> Result<Input, Failure<Refusal>>
    ensures read { IfOk result (λ input. (held : Contents) × IsInput bytes.now held input) }
    ensures sound { IfOk result (λ input. IsSound input.graph.meta input.graph.graph) }
    ensures refused { Tells bytes.now result }
{
    let Bundle {
        graph,
        rules,
        sessions,
        journal,
    } = bundle_of(alloc, bytes)?;
    let syntax = syntax_of(alloc, rules.as_str())?;
    let rules = rules_of(alloc, &graph, &syntax)?;
    let sessions = sessions_built(alloc, &rules, sessions.as_ref(), journal.as_ref())?;
    Ok(Input {
        graph,
        syntax,
        rules,
        sessions,
    })
}

fn bundle_of(alloc: Global, bytes: &[u8]) -> Result<Bundle, Failure<Refusal>>
    ensures read { IfOk result (λ bundle. IsBundleAnswer bytes.now (Ok (contents bundle))) }
    ensures sound { IfOk result (λ bundle. IsSound bundle.graph.meta bundle.graph.graph) }
    ensures refused { Tells bytes.now result }
{
    fault_as(
        read_bundle(alloc, bytes),
        &|fault: BundleFault| -> Refusal
            ensures { result ≡ NoBundle fault }
        { Refusal::NoBundle(fault) },
    )
}

fn syntax_of(alloc: Global, text: &str) -> Result<Syntax, Failure<Refusal>>
    ensures parsed { IfOk result (IsSyntaxOf (chars text.now)) }
    ensures refused { (bytes : List ℕ) (held : Contents) → held.rules ≡ text.now
        → IsBundleAnswer bytes (Ok held) → Tells bytes result }
{
    fault_as(
        parse(alloc, text),
        &|fault: TextFault| -> Refusal
            ensures { result ≡ BadText fault.line fault.column fault.kind }
        {
            Refusal::BadText {
                line: fault.line,
                column: fault.column,
                kind: fault.kind,
            }
        },
    )
}

/// The rules and units that the syntax means, where nothing is wrong in them.
fn rules_of(alloc: Global, graph: &ListGraph, syntax: &Syntax) -> Result<RuleSet, Failure<Refusal>>
    ensures right { IfOk result
        (λ set. verdict (faults_of graph.now.meta syntax.now.definitions) ≡ Ok tt) }
    ensures meant { IfOk result (IsMeant graph.now.meta syntax.now.definitions) }
    ensures model { IfOk result (λ set. set.meta ≡ graph.now.meta) }
    ensures refused { (bytes : List ℕ) (held : Contents) → held.meta ≡ graph.now.meta
        → IsBundleAnswer bytes (Ok held) → IsSyntaxOf (chars held.rules) syntax.now
        → Tells bytes result }
{
    fault_as(
        check(alloc, graph.meta(), syntax),
        &|fault: RuleFault| -> Refusal
            ensures { result ≡ BadRule fault }
        { Refusal::BadRule(fault) },
    )
}

/// The requests of each session, where they are built.
fn sessions_built(
    alloc: Global,
    rules: &RuleSet,
    sessions: Option<&Value>,
    journal: Option<&Value>,
) -> Result<List<List<Request>>, Failure<Refusal>>
    ensures asked { IfOk result (λ found. asking.sessions_asked rules.now.rules rules.now.units
        (seen sessions.entry) (seen journal.entry) ≡ Some found) }
    ensures refused { (bytes : List ℕ) (held : Contents) (syntax : Syntax)
        → held.sessions ≡ seen sessions.entry → held.journal ≡ seen journal.entry → IsMeant
        held.meta syntax.definitions rules.now → IsRead bytes held syntax → Tells bytes result }
{
    match sessions_asked(alloc, rules, sessions, journal)? {
        Some(sessions) => Ok(sessions),
        None => Err(Failure::Fault(Refusal::NotBuilt)),
    }
}
