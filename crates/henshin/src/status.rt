//! The ways in which a run can end, with their exit statuses and lines.

ghost use Rattle.std.specs.Prelude.{◌≡◌, IfOk, map, option_map};
ghost use Rattle.henshin.specs.Statuses as spec;

use hs_expr::Text;
use hs_faults::Within;
use hs_input::Refusal;
use hs_json::BundleFault;
use std::alloc::{AllocError, Global};

/// How a run of the program ended.
#[derive(Debug, Drop)]
pub enum Status {
    /// The text was written.
    Done,
    /// The command line isn't one that the program knows.
    Usage,
    /// The source failed.
    ReadFault,
    /// The source gave more bytes than a bundle may have.
    TooLong,
    /// The bytes are refused.
    Refused(Refusal),
    /// The sink failed.
    WriteFault,
    /// Out of memory.
    NoMemory,
}

impl Status {
    /// The number that the process ends with.
    pub fn number(&self) -> u8
        ensures { result ≡ spec.exit_number self.now }
    {
        match self {
            Status::Done => 0,
            Status::Usage => 2,
            Status::ReadFault => 3,
            Status::TooLong => 4,
            Status::Refused(refusal) => refusal_number(refusal),
            Status::WriteFault => 18,
            Status::NoMemory => 20,
        }
    }
}

fn refusal_number(refusal: &Refusal) -> u8
    ensures { result ≡ spec.refusal_number refusal.now }
{
    match refusal {
        Refusal::NoBundle(BundleFault::BadJson) => 5,
        Refusal::NoBundle(BundleFault::BadBundle(_)) => 6,
        Refusal::NoBundle(BundleFault::BadModel(_)) => 7,
        Refusal::NoBundle(BundleFault::BadGraph(_)) => 8,
        Refusal::BadText { .. } => 9,
        Refusal::BadRule(fault) => rule_number(fault.within),
        Refusal::NotBuilt => 21,
    }
}

fn rule_number(within: Within) -> u8
    ensures { result ≡ spec.rule_number within }
{
    match within {
        Within::Rule => 10,
        Within::Unit => 11,
    }
}

/// The line for standard error, without its line feed; `None` for `Done`.
pub fn fault_line(alloc: Global, status: &Status) -> Result<Option<Text>, AllocError>
    ensures { IfOk result (λ line. line ≡ spec.fault_line status.now) }
{
    let line = match status {
        Status::Done => return Ok(None),
        Status::Usage => Text::from_str(alloc, "henshin: usage"),
        Status::ReadFault => Text::from_str(alloc, "henshin: read"),
        Status::TooLong => Text::from_str(alloc, "henshin: too-long"),
        Status::Refused(refusal) => refusal.line(alloc),
        Status::WriteFault => Text::from_str(alloc, "henshin: write"),
        Status::NoMemory => Text::from_str(alloc, "henshin: memory"),
    };
    Ok(Some(line?))
}
