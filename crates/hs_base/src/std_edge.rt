//! Sources and sinks over the standard library.

ghost use Rattle.std.specs.Prelude.{◌≡◌, true, false};

use crate::{Failed, Sink, Source};
use std::io::{Read, Write};

/// A source over a reader of the standard library, such as standard input.
#[derive(Drop)]
pub struct SourceStd<R> {
    reader: R,
    faults: u64,
    failed: bool,
}

impl<R: Read> SourceStd<R> {
    pub fn new(reader: R) -> SourceStd<R>
        ensures { result ≡ record { reader = reader; faults = 0; failed = false } }
    {
        SourceStd {
            reader,
            faults: 0,
            failed: false,
        }
    }
}

impl<R: Read> Source for SourceStd<R> {
    ghost faults = { λ s. s.faults };

    ghost failed = { λ s. s.failed };

    ghost left = { λ s. R.remaining s.reader };

    fn read(&mut self, into: &mut [u8]) -> Result<usize, Failed> {
        match self.reader.read(into) {
            Ok(count) => {
                self.failed = false;
                Ok(count)
            }
            Err(_) => {
                self.failed = true;
                self.faults = self.faults.saturating_add(1);
                Err(Failed)
            }
        }
    }
}

/// A sink over a writer of the standard library, such as standard output.
#[derive(Drop)]
pub struct SinkStd<W> {
    writer: W,
    faults: u64,
    failed: bool,
}

impl<W: Write> SinkStd<W> {
    pub fn new(writer: W) -> SinkStd<W>
        ensures { result ≡ record { writer = writer; faults = 0; failed = false } }
    {
        SinkStd {
            writer,
            faults: 0,
            failed: false,
        }
    }
}

impl<W: Write> Sink for SinkStd<W> {
    ghost faults = { λ s. s.faults };

    ghost failed = { λ s. s.failed };

    ghost written = { λ s. W.contents s.writer };

    /// A write that takes nothing of a piece that has bytes is a fault too.
    fn write(&mut self, piece: &[u8]) -> Result<usize, Failed> {
        match self.writer.write(piece) {
            Ok(count) if count > 0 || piece.is_empty() => {
                self.failed = false;
                Ok(count)
            }
            _ => {
                self.failed = true;
                self.faults = self.faults.saturating_add(1);
                Err(Failed)
            }
        }
    }
}
