//! From a bundle's bytes to what a command gives for them.

ghost use Rattle.std.specs.Prelude.{ℕ, ◌≡◌, IfOk, List, Option, Some, slice_get};
ghost use Rattle.std.specs.Option.{option_and_then, option_copied};
ghost use Rattle.serde_json.specs.Data.{Data};
ghost use Rattle.hs_json.specs.Reading.{Contents};
ghost use Rattle.hs_json_model.specs.Sound.{IsSound};
ghost use Rattle.hs_input.specs.Input.{IsInput};
ghost use Rattle.hs_input.specs.Refusing.{Tells};
ghost use Rattle.hs_input.specs.Sessions.{sessions_asked};
ghost use Rattle.hs_session.specs.SerialReport.{IsSerialReport};
ghost use Rattle.henshin.specs.Served.{IsOutput};

use crate::lines::report_text;
use crate::words::Command;
use hs_expr::{Failure, List, Text};
use hs_input::{Input, Refusal, read_input};
use hs_json::problems_text;
use hs_session::{Report, run_nothing, run_serial};
use hs_text::print;
use hs_types::{ListGraph, Request, RuleSet};
use std::alloc::{AllocError, Global};

/// What a command gives for a bundle.
#[derive(Debug, Drop)]
pub struct Answer {
    /// There for `apply` alone.
    pub report: Option<Report>,
    /// What is written.
    pub text: Text,
}

/// What the command gives for the bundle that the bytes are, or why they are refused. The bytes are
/// let go once they are read.
pub fn serve(alloc: Global, command: Command, bytes: Vec<u8>) -> Result<Answer, Failure<Refusal>>
    ensures gives { IfOk result (λ answer. IsOutput command bytes.items answer.report answer.text) }
    ensures refused { Tells bytes.items result }
{
    let input = read_input(alloc, bytes.as_slice())?;
    drop(bytes);
    Ok(match command {
        Command::Apply => applied(alloc, input)?,
        Command::Validate => validated(alloc, &input)?,
        Command::Check => checked(alloc, &input)?,
    })
}

/// The problems of the graph.
fn validated(alloc: Global, input: &Input) -> Result<Answer, AllocError>
    requires sound { IsSound input.now.graph.meta input.now.graph.graph }
    ensures { (bytes : List ℕ) (held : Contents) → IsInput bytes held input.now
        → IfOk result (λ answer. IsOutput Command.Validate bytes answer.report answer.text) }
{
    Ok(Answer {
        report: None,
        text: problems_text(alloc, input.graph.meta(), &input.graph)?,
    })
}

/// The canonical text of the rules.
fn checked(alloc: Global, input: &Input) -> Result<Answer, AllocError>
    ensures { (bytes : List ℕ) (held : Contents) → IsInput bytes held input.now
        → IfOk result (λ answer. IsOutput Command.Check bytes answer.report answer.text) }
{
    Ok(Answer {
        report: None,
        text: print(alloc, &input.syntax)?,
    })
}

/// The report of what is asked for.
fn applied(alloc: Global, input: Input) -> Result<Answer, AllocError>
    requires sound { IsSound input.graph.meta input.graph.graph }
    requires same_model { input.graph.meta ≡ input.rules.meta }
    requires asked { (found : Option Data) × (journal : Option Data)
        × (sessions_asked input.rules.rules input.rules.units found journal ≡ Some input.sessions) }
    ensures { (bytes : List ℕ) (held : Contents) → IsInput bytes held input
        → IfOk result (λ answer. IsOutput Command.Apply bytes answer.report answer.text) }
{
    let Input {
        graph,
        rules,
        sessions,
        ..
    } = input;
    let report = ran(alloc, graph, &rules, sessions.as_slice())?;
    let text = report_text(alloc, &rules, &report)?;
    Ok(Answer {
        report: Some(report),
        text,
    })
}

/// Runs the requests of the sessions.
fn ran(
    alloc: Global,
    graph: ListGraph,
    rules: &RuleSet,
    sessions: &[List<Request>],
) -> Result<Report, AllocError>
    requires sound { IsSound graph.meta graph.graph }
    requires same_model { graph.meta ≡ rules.now.meta }
    requires asked { (found : Option Data) × (journal : Option Data)
        × (sessions_asked rules.now.rules rules.now.units found journal ≡ Some sessions.now) }
    ensures { IfOk result (IsSerialReport rules.now graph.graph sessions.now) }
{
    rules.are_formed();
    match first_request(sessions) {
        Some(request) => run_serial(alloc, graph, rules, 0, request),
        None => Ok(run_nothing(alloc, graph)),
    }
}

fn first_request(sessions: &[List<Request>]) -> Option<&Request>
    ensures { option_copied result
        ≡ option_and_then (λ session. slice_get session 0) (slice_get sessions.now 0) }
{
    match sessions.first() {
        Some(session) => session.get(0),
        None => None,
    }
}
