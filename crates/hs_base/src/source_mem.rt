//! Sources in memory.

ghost use Rattle.std.specs.Prelude.{◌≡◌, ℕ, ◌+◌, ◌≤◌, ◌++◌, ◌||◌, List, Some, Ok, length, take, drop, min, is_err, IfOk};
ghost use Rattle.std.specs.Io.{ReadsAtMost};
ghost use Rattle.std.specs.Io.KnownBytes.{ReadConsumes};
ghost use Rattle.hs_base.specs.Faults.{faults_after};
ghost use Rattle.hs_base.specs.Memory.{no_calls, is_due, calls_after};

use crate::calls::Calls;
use crate::{Failed, Source};
use hs_expr::List;
use std::marker::Model;

/// A source in memory, which reports its bytes. It moves at most `piece` bytes at a read, and fails
/// at the calls whose numbers it was given; the first call has the number 1.
#[derive(Debug, Drop)]
pub struct SourceMem {
    bytes: List<u8>,
    place: usize,
    piece: usize,
    calls: Calls,
}

impl Model for SourceMem {
    ghost use Rattle.std.specs.Prelude.{◌≤◌, drop, length};
    ghost use Rattle.hs_base.specs.Memory.{Supply};

    ghost Value = { Supply };

    ghost view = { λ s. record { left = drop s.place s.bytes; piece = s.piece; calls = s.calls } };

    ghost invariant = { λ s. (s.place ≤ length s.bytes) × (1 ≤ s.piece) };
}

impl SourceMem {
    /// A source of these bytes.
    pub fn new(bytes: List<u8>, piece: usize, fails: List<u32>) -> SourceMem
        requires { 1 ≤ piece }
        ensures left { result.left ≡ bytes }
        ensures piece { result.piece ≡ piece }
        ensures calls { result.calls ≡ no_calls fails }
    {
        SourceMem {
            bytes,
            place: 0,
            piece,
            calls: Calls::new(fails),
        }
    }
}

/// Copies the front of `from` to the front of `into`, `count` bytes.
fn copy_front(into: &mut [u8], from: &[u8], count: usize)
    requires room { count ≤ length into.old }
    requires there { count ≤ length from.now }
    ensures { into.new ≡ take count from.now ++ drop count into.old }
{
    into[..count].copy_from_slice(&from[..count]);
}

/// Moves the front of what is left to the front of `into`, as far as it fits and `piece` allows.
#[tactic(auto, using(crate::proofs::Bytes::handing))]
fn hand_out(left: &[u8], into: &mut [u8], piece: usize) -> usize
    requires { 1 ≤ piece }
    ensures amount { result ≡ min (min piece (length into.old)) (length left.now) }
    ensures bytes { ReadConsumes {E = Unit {0}} (Some left.now) (Some (drop result left.now))
        (Ok result) into.new }
{
    let count = piece.min(into.len()).min(left.len());
    copy_front(into, left, count);
    count
}

impl Source for SourceMem {
    ghost faults = { λ s. s.calls.faults };

    ghost failed = { λ s. s.calls.failed };

    ghost left = { λ s. Some s.left };

    #[tactic(auto, using(crate::proofs::Bytes::handing))]
    fn read(&mut self, into: &mut [u8]) -> Result<usize, Failed>
        ensures bound { ReadsAtMost result into.new }
        ensures bytes { ReadConsumes (Some self.old.left) (Some self.new.left) result into.new }
        ensures counted { self.new.calls.faults ≡ faults_after result self.old.calls.faults }
        ensures noted { self.new.calls.failed ≡ is_err result }

        ensures due { is_err result ≡ is_due self.old.calls.fails (self.old.calls.made + 1) }
        ensures amount { IfOk result
            (λ n. n ≡ min (min self.old.piece (length into.old)) (length self.old.left)) }
        ensures calls { self.new.calls ≡ calls_after (is_err result) self.old.calls }
        ensures piece { self.new.piece ≡ self.old.piece }
    {
        let due = self.calls.is_next_due();
        self.calls.note(due);
        if due {
            return Err(Failed);
        }
        let left = &self.bytes.as_slice()[self.place..];
        let count = hand_out(left, into, self.piece);
        self.place += count;
        Ok(count)
    }
}
