ghost use Rattle.std.specs.Prelude.{◌≡◌, ◌≤◌, ℕ, Some, None, take, OnOk, OnErr};
ghost use Rattle.std.specs.Io.KnownBytes.{Appends};
ghost use Rattle.outside_io.specs.Counts.{raised};
ghost use Rattle.outside_io.specs.Writing.{Gains, GainsPrefix};

use crate::writing::{Sink, SinkFailed};
use std::io::Write;
use std::marker::Model;

/// A sink over a writer of the runtime, as its standard output. Its bytes are unknown to contracts.
///
/// An error of the writer is a failed write, and so is a turn that takes nothing of what is left. The count
/// of faults remains at 2^64 - 1.
#[derive(Drop)]
pub struct HostSink<W: Write + Drop> {
    writer: W,
    faults: u64,
}

impl<W: Write + Drop> Model for HostSink<W> {
    ghost use Rattle.outside_io.specs.HostState.{HostSinkState};

    ghost Value = { HostSinkState };

    ghost view = { λ s. record { contents = W.contents s.writer; faults = s.faults } };
}

impl<W: Write + Drop> HostSink<W> {
    /// A sink over this writer.
    pub fn new(writer: W) -> HostSink<W>
        ensures { result ≡ record { contents = W.contents writer; faults = 0 } }
    {
        HostSink { writer, faults: 0 }
    }
}

impl<W: Write + Drop> Sink for HostSink<W> {
    ghost held = { λ _. None };

    ghost faults = { λ s. s.faults };

    fn write(&mut self, piece: &[u8]) -> Result<(), SinkFailed>
        // What the writer itself is known to hold gains the piece, or a prefix of it.
        ensures whole { OnOk result (Appends self.old.contents self.new.contents piece.now) }
        ensures front { OnErr result ((n : ℕ) × Appends self.old.contents self.new.contents (take n piece.now)) }

        ensures ok { OnOk result (Gains None None piece.now) }
        ensures err { OnErr result (GainsPrefix None None piece.now) }
        ensures cause { OnErr result (self.new.faults ≡ raised self.old.faults) }
        ensures faults { OnOk result (self.new.faults ≡ self.old.faults) }
    {
        let mut at = 0;
        while at < piece.len() {
            match self.writer.write(&piece[at..]) {
                Ok(taken) if taken > 0 => at += taken,
                _ => {
                    self.faults = self.faults.saturating_add(1);
                    return Err(SinkFailed);
                }
            }
        }
        Ok(())
    }
}
