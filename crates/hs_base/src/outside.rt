//! What lies outside: the traits of sources and sinks.

ghost use Rattle.std.specs.Prelude.{◌≡◌, ℕ, Bool, List, [], Option, Ok, is_err};
ghost use Rattle.std.specs.Io.{ReadsAtMost, WritesAtMost};
ghost use Rattle.std.specs.Io.KnownBytes.{ReadConsumes, WriteAppends};
ghost use Rattle.hs_base.specs.Faults.{faults_after};

/// A call to something outside failed.
#[derive(Clone, Copy, PartialEq, Eq, Debug)]
pub struct Failed;

/// Something that bytes are read from.
pub trait Source {
    /// How many of its calls have failed. The count stays at 2^64 - 1.
    ghost faults: { Self → ℕ };

    /// Whether its last call failed.
    ghost failed: { Self → Bool };

    /// The bytes that it has left, where it reports them.
    ghost left: { Self → Option (List ℕ) };

    /// Moves some of the bytes that are left to the front of `into`, and says how many. For an
    /// `into` that isn't empty, 0 means that none are left. A call that fails moves nothing.
    fn read(&mut self, into: &mut [u8]) -> Result<usize, Failed>
        ensures bound { ReadsAtMost result into.new }
        ensures bytes { ReadConsumes (left self.old) (left self.new) result into.new }
        ensures counted { faults self.new ≡ faults_after result (faults self.old) }
        ensures noted { failed self.new ≡ is_err result };
}

/// Something that bytes are written to.
pub trait Sink {
    /// How many of its calls have failed. The count stays at 2^64 - 1.
    ghost faults: { Self → ℕ };

    /// Whether its last call failed.
    ghost failed: { Self → Bool };

    /// The bytes that have been written to it, where it reports them.
    ghost written: { Self → Option (List ℕ) };

    /// Appends the front of `piece`, and says how many of its bytes: at least one, where it has
    /// any. A call that fails appends nothing.
    fn write(&mut self, piece: &[u8]) -> Result<usize, Failed>
        ensures bound { WritesAtMost result piece.now }
        ensures some { result ≡ Ok 0 → piece.now ≡ [] }
        ensures bytes { WriteAppends (written self.old) (written self.new) result piece.now }
        ensures counted { faults self.new ≡ faults_after result (faults self.old) }
        ensures noted { failed self.new ≡ is_err result };
}
