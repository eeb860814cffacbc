//! The program over any source and sink.

ghost use Rattle.std.specs.Prelude.{◌≡◌, ◌≢◌, ◌↔◌, ◌<◌, ◌≤◌, [], Some, None, true, length, map, string_bytes, IfSome, IsSome};
ghost use Rattle.hs_base.specs.Faults.{one_more};
ghost use Rattle.hs_input.specs.Refusing.{Refuses};
ghost use Rattle.henshin.specs.Ending.{IsReadToEnd, IsRun, IsWritten};
ghost use Rattle.henshin.specs.Words.{AreWords};

use crate::reading::{ReadFault, read_all};
use crate::serving::{Answer, serve};
use crate::status::Status;
use crate::words::{Command, command_of};
use crate::writing::write_all;
use hs_base::{Sink, Source};
use hs_expr::Failure;
use hs_input::Refusal;
use hs_session::Report;
use std::alloc::Global;

/// The most bytes of a bundle.
pub const BUNDLE_BYTES: usize = 67_108_864;

/// How a run ended, and what it reported.
#[derive(Debug, Drop)]
pub struct Outcome {
    pub status: Status,
    /// Present exactly if the command is `apply` and the status is `Done` or `WriteFault`.
    pub report: Option<Report>,
}

/// Runs the program with these words, over this source and sink.
pub fn once<S: Source, K: Sink>(
    alloc: Global,
    words: &[String],
    source: &mut S,
    sink: &mut K,
) -> Outcome
    // The words.
    ensures usage { (result.status ≡ Status.Usage) ↔
        ((command : Command) → ¬ AreWords (map string_bytes words.now) command) }
    ensures untouched { result.status ≡ Status.Usage → source.new ≡ source.old }

    // The source: its fault is reported exactly if a read failed, and then no further read is made.
    ensures read_fault { result.status ≡ Status.ReadFault
        → (S.failed source.new ≡ true) × (S.faults source.new ≡ one_more (S.faults source.old)) }
    ensures source_well { result.status ≢ Status.ReadFault
        → S.faults source.new ≡ S.faults source.old }
    ensures too_long { result.status ≡ Status.TooLong
        → IfSome (S.left source.old) (λ bytes. BUNDLE_BYTES < length bytes) }
    ensures read { IsReadToEnd result.status → IfSome (S.left source.old)
        (λ bytes. (length bytes ≤ BUNDLE_BYTES) × (S.left source.new ≡ Some [])) }

    // The bytes: each refusal has its cause.
    ensures refused { (refusal : Refusal) → result.status ≡ Status.Refused refusal
        → IfSome (S.left source.old) (λ bytes. Refuses bytes refusal) }

    // The sink: its fault is reported exactly if a write failed, and then no further write is made.
    ensures unwritten { ¬ (IsWritten result.status) → sink.new ≡ sink.old }
    ensures write_fault { result.status ≡ Status.WriteFault
        → (K.failed sink.new ≡ true) × (K.faults sink.new ≡ one_more (K.faults sink.old)) }
    ensures sink_well { result.status ≢ Status.WriteFault → K.faults sink.new ≡ K.faults sink.old }

    // What was written: what the command gives for the bytes, or a prefix of it. Only `apply`
    // reports.
    ensures served { IsWritten result.status
        → (command : Command) × AreWords (map string_bytes words.now) command
        × IsRun command result.status result.report (S.left source.old) (K.written sink.old)
        (K.written sink.new) }
    ensures unreported { ¬ (IsWritten result.status) → result.report ≡ None }
{
    let Some(command) = command_of(words) else {
        return ended(Status::Usage);
    };
    let bytes = match read_all(alloc, source, BUNDLE_BYTES) {
        Ok(bytes) => bytes,
        Err(Failure::Fault(ReadFault::Failed)) => return ended(Status::ReadFault),
        Err(Failure::Fault(ReadFault::TooLong)) => return ended(Status::TooLong),
        Err(Failure::NoMemory) => return ended(Status::NoMemory),
    };
    let Answer { report, text } = match serve(alloc, command, bytes) {
        Ok(answer) => answer,
        Err(Failure::Fault(refusal)) => return ended(Status::Refused(refusal)),
        Err(Failure::NoMemory) => return ended(Status::NoMemory),
    };
    let status = match write_all(sink, text.as_str().as_bytes()) {
        Ok(()) => Status::Done,
        Err(_) => Status::WriteFault,
    };
    Outcome { status, report }
}

/// A run that ended before its writing.
fn ended(status: Status) -> Outcome
    ensures { result ≡ record { status = status; report = None } }
{
    Outcome {
        status,
        report: None,
    }
}
