//! Writing a text to a sink.

ghost use Rattle.std.specs.Prelude.{◌≡◌, ℕ, ◌++◌, List, true, OnOk, OnErr};
ghost use Rattle.std.specs.Io.KnownBytes.{Appends};
ghost use Rattle.hs_base.specs.Faults.{one_more};

use hs_base::{Failed, Sink};

/// Writes the text. Each write offers all that is left of it.
pub fn write_all<K: Sink>(sink: &mut K, text: &[u8]) -> Result<(), Failed>
    ensures whole { OnOk result (Appends (K.written sink.old) (K.written sink.new) text.now) }
    ensures well { OnOk result (K.faults sink.new ≡ K.faults sink.old) }
    ensures front { OnErr result ((front rest : List ℕ) × (text.now ≡ front ++ rest)
        × Appends (K.written sink.old) (K.written sink.new) front) }
    ensures failed { OnErr result
        ((K.failed sink.new ≡ true) × (K.faults sink.new ≡ one_more (K.faults sink.old))) }
{
    let mut rest = text;
    while !rest.is_empty() {
        let count = sink.write(rest)?;
        rest = &rest[count..];
    }
    Ok(())
}
