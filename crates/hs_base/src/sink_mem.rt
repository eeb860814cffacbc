//! Sinks in memory.

ghost use Rattle.std.specs.Prelude.{◌≡◌, ℕ, ◌+◌, ◌<◌, ◌≤◌, ◌++◌, ◌||◌, List, [], Some, Ok, length, take, min, nat_lt, is_err, IfOk};
ghost use Rattle.std.specs.Io.{WritesAtMost};
ghost use Rattle.std.specs.Io.KnownBytes.{WriteAppends};
ghost use Rattle.hs_base.specs.Faults.{faults_after};
ghost use Rattle.hs_base.specs.Memory.{no_calls, is_due, calls_after};

use crate::calls::Calls;
use crate::{Failed, Sink};
use hs_expr::List;
use std::alloc::{AllocError, Global};
use std::marker::Model;

/// A sink in memory, which reports what was written. It takes at most `piece` bytes at a write, and
/// fails where these would pass its room, and at the calls whose numbers it was given; the first
/// call has the number 1.
#[derive(Debug, Drop)]
pub struct SinkMem {
    bytes: Vec<u8>,
    room: usize,
    piece: usize,
    calls: Calls,
}

impl Model for SinkMem {
    ghost use Rattle.std.specs.Prelude.{◌≤◌, vec_capacity, vec_len};
    ghost use Rattle.hs_base.specs.Memory.{Store};

    ghost Value = { Store };

    ghost view = { λ s. record {
      written = s.bytes.items;
      room = s.room;
      piece = s.piece;
      calls = s.calls;
    } };

    ghost invariant = { λ s. (vec_len s.bytes ≤ s.room) × (s.room ≤ vec_capacity s.bytes)
        × (1 ≤ s.piece) };
}

impl SinkMem {
    /// An empty sink, with its room taken.
    pub fn new(
        alloc: Global,
        room: usize,
        piece: usize,
        fails: List<u32>,
    ) -> Result<SinkMem, AllocError>
        requires { 1 ≤ piece }
        ensures written { IfOk result (λ sink. sink.written ≡ []) }
        ensures room { IfOk result (λ sink. sink.room ≡ room) }
        ensures piece { IfOk result (λ sink. sink.piece ≡ piece) }
        ensures calls { IfOk result (λ sink. sink.calls ≡ no_calls fails) }
    {
        Ok(SinkMem {
            bytes: Vec::with_capacity(alloc, room)?,
            room,
            piece,
            calls: Calls::new(fails),
        })
    }

    /// What was written.
    pub fn written(&self) -> &[u8]
        ensures { result.now ≡ self.now.written }
    {
        self.bytes.as_slice()
    }
}

impl Sink for SinkMem {
    ghost faults = { λ s. s.calls.faults };

    ghost failed = { λ s. s.calls.failed };

    ghost written = { λ s. Some s.written };

    fn write(&mut self, piece: &[u8]) -> Result<usize, Failed>
        ensures bound { WritesAtMost result piece.now }
        ensures some { result ≡ Ok 0 → piece.now ≡ [] }
        ensures bytes { WriteAppends (Some self.old.written) (Some self.new.written) result
            piece.now }
        ensures counted { self.new.calls.faults ≡ faults_after result self.old.calls.faults }
        ensures noted { self.new.calls.failed ≡ is_err result }

        ensures due { is_err result ≡ (is_due self.old.calls.fails (self.old.calls.made + 1)
            || nat_lt self.old.room
            (length self.old.written + min self.old.piece (length piece.now))) }
        ensures amount { IfOk result (λ n. n ≡ min self.old.piece (length piece.now)) }
        ensures calls { self.new.calls ≡ calls_after (is_err result) self.old.calls }
        ensures settings { (self.new.piece ≡ self.old.piece) × (self.new.room ≡ self.old.room) }
    {
        let count = self.piece.min(piece.len());
        let is_full = count > self.room - self.bytes.len();
        let fails = self.calls.is_next_due() || is_full;
        self.calls.note(fails);
        if fails {
            return Err(Failed);
        }
        match self.bytes.extend_from_slice(&piece[..count]) {
            Ok(()) => Ok(count),
            Err(_) => unreachable!("the room was taken when the sink was made"),
        }
    }
}
