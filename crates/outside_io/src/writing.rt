ghost use Rattle.std.specs.Prelude.{◌≡◌, ℕ, ◌≤◌, List, Option, OnOk, OnErr};
ghost use Rattle.outside_io.specs.Counts.{raised};
ghost use Rattle.outside_io.specs.Writing.{Gains, GainsPrefix};

/// A sink did not take the whole piece.
#[derive(Clone, Copy, Debug, PartialEq, Eq)]
pub struct SinkFailed;

/// What is written to, piece by piece.
pub trait Sink {
    /// What it holds, where that is known.
    ghost held: { Self → Option (List ℕ) };

    /// How many writes have failed. The count remains at 2^64 - 1.
    ghost faults: { Self → ℕ };

    /// Writes a piece after what was written before. After a failure a prefix of the piece may have been
    /// taken. It takes no memory.
    fn write(&mut self, piece: &[u8]) -> Result<(), SinkFailed>
        ensures ok { OnOk result (Gains (held self.old) (held self.new) piece.now) }
        ensures err { OnErr result (GainsPrefix (held self.old) (held self.new) piece.now) }
        ensures cause { OnErr result (faults self.new ≡ raised (faults self.old)) }
        ensures faults { OnOk result (faults self.new ≡ faults self.old) };
}
