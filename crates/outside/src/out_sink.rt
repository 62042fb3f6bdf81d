//! A sink over a writer.

ghost use Rattle.std.specs.Prelude.{◌≡◌};

use crate::{Failed, Sink};
use std::io::Write;

/// A writer, as the standard output. It tells what the writer tells: of a buffer its bytes, of the standard output
/// nothing. It counts every error, and a piece that has bytes of which none was taken.
#[derive(Drop)]
pub struct OutSink<W> {
    writer: W,
    faults: u64,
}

impl<W> OutSink<W> {
    /// The sink over a writer, with a count of 0.
    pub fn new(writer: W) -> OutSink<W>
        ensures { result ≡ record { writer = writer; faults = 0 } }
    {
        OutSink { writer, faults: 0 }
    }
}

impl<W: Write + Drop> Sink for OutSink<W> {
    ghost use Rattle.std.specs.Prelude.{◌≡◌, ◌≤◌, ℕ, List, Some};
    ghost use Rattle.outside.specs.Machine.{CountsGiven};
    ghost use Rattle.outside.specs.Sink.{HasCause, Takes, Appends};

    ghost faults = { λ sink. sink.faults };

    ghost given = { λ sink. W.contents sink.writer };

    fn give(&mut self, bytes: &[u8]) -> Result<usize, Failed>
        ensures count { CountsGiven self.old.faults self.new.faults result }
        ensures kept { self.old.faults ≤ self.new.faults }
        ensures cause { HasCause self.old.faults self.new.faults result }
        ensures takes { Takes bytes.now result }
        ensures told { (b : List ℕ) → W.contents self.old.writer ≡ Some b → Appends b bytes.now result (W.contents self.new.writer) }
    {
        match self.writer.write(bytes) {
            Ok(taken) if taken > 0 || bytes.is_empty() => Ok(taken),
            _ => {
                self.faults = self.faults.saturating_add(1);
                Err(Failed)
            }
        }
    }
}
