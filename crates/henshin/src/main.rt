//! `henshin`: rule-based change of a typed graph, from the command line.
//!
//! [`once`](once::once) is the program over any source and sink; `main` hands it the real ones. The
//! words say the command ([`words`]), the source is read to its end ([`reading`]), the bundle that
//! the bytes are is read and served ([`serving`]), a report becomes a text ([`lines`]), and the
//! text is written ([`writing`]). [`status`] has how a run can end.
#![tactic(auto)]

mod lines;
mod once;
mod reading;
mod serving;
mod status;
mod words;
mod writing;

use hs_base::{SinkStd, SourceStd};
use once::once;
use status::{Status, fault_line};
use std::env;
use std::process::ExitCode;

fn main(rt: HostRuntime) -> ExitCode {
    let status = run(&rt);
    let status = match fault_line(rt.alloc(), &status) {
        Ok(None) => status,
        Ok(Some(line)) => {
            let _ = rt.eprintln(line.as_str());
            status
        }
        Err(_) => {
            let _ = rt.eprintln("henshin: memory");
            Status::NoMemory
        }
    };
    ExitCode::from(status.number())
}

/// Runs the program over standard input and output. A word that isn't UTF-8 is a faulty command
/// line.
fn run(rt: &HostRuntime) -> Status {
    let Ok(args) = env::args(rt) else {
        return Status::Usage;
    };
    let Ok(words) = args.skip(1).collect::<Vec<String>>(rt.alloc()) else {
        return Status::NoMemory;
    };
    let mut source = SourceStd::new(rt.stdin());
    let mut sink = SinkStd::new(rt.stdout());
    once(rt.alloc(), words.as_slice(), &mut source, &mut sink).status
}

#[cfg(test)]
mod tests;
