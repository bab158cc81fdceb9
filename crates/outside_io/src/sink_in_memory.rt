ghost use Rattle.std.specs.Prelude.{◌≡◌, ◌↔◌, ◌+◌, ◌≤◌, ◌++◌, [], Some, true, length, IfOk, IsOk, OnOk, OnErr};
ghost use Rattle.outside_io.specs.Counts.{raised};
ghost use Rattle.outside_io.specs.Writing.{Gains, GainsPrefix};
ghost use Rattle.outside_io.specs.SinkState.{listed as listed_of, takes_all, after_write};

use crate::writing::{Sink, SinkFailed};
use std::alloc::{AllocError, Global};
use std::marker::Model;

/// A sink that keeps what it takes, and whose bytes are known. It has its room from the start, so that no
/// write takes memory. A write that passes the room fails, and so do the writes that are listed. Each write
/// looks through that list.
#[derive(Drop)]
pub struct SinkInMemory {
    bytes: Vec<u8>,
    room: usize,
    fails: Vec<(u64, usize)>,
    writes: u64,
    faults: u64,
}

impl Model for SinkInMemory {
    ghost use Rattle.std.specs.Prelude.{◌≤◌, vec_len, vec_capacity};
    ghost use Rattle.outside_io.specs.SinkState.{SinkState};

    ghost Value = { SinkState };

    ghost view = { λ s. record {
      bytes = s.bytes.items;
      room = s.room;
      fails = s.fails.items;
      writes = s.writes;
      faults = s.faults;
    } };

    ghost invariant = { λ s. (vec_len s.bytes ≤ s.room) × (s.room ≤ vec_capacity s.bytes) };
}

impl SinkInMemory {
    /// An empty sink with room for `room` bytes. `fails` has the number of each write that will fail, counted
    /// from 0, and how many bytes of its piece that write still takes, as far as the piece has them and there
    /// is room. The first entry of a number counts.
    pub fn new(
        alloc: Global,
        room: usize,
        fails: &[(u64, usize)],
    ) -> Result<SinkInMemory, AllocError>
        ensures { IfOk result (λ made. made ≡
            record { bytes = []; room = room; fails = fails.now; writes = 0; faults = 0 }) }
    {
        let bytes = Vec::with_capacity(alloc, room)?;
        let fails = Vec::from_slice(alloc, fails)?;
        Ok(SinkInMemory {
            bytes,
            room,
            fails,
            writes: 0,
            faults: 0,
        })
    }

    pub fn bytes(&self) -> &[u8]
        ensures bytes { result.now ≡ self.now.bytes }
        ensures room { length result.now ≤ self.now.room }
    {
        self.bytes.as_slice()
    }
}

impl Sink for SinkInMemory {
    ghost held = { λ s. Some s.bytes };

    ghost faults = { λ s. s.faults };

    fn write(&mut self, piece: &[u8]) -> Result<(), SinkFailed>
        // When it fails and what it leaves is exact.
        ensures answer { IsOk result ↔ (takes_all self.old piece.now ≡ true) }
        ensures after { self.new ≡ after_write self.old piece.now }

        // The trait's clauses, on the known bytes.
        ensures ok { OnOk result (Gains (Some self.old.bytes) (Some self.new.bytes) piece.now) }
        ensures err { OnErr result
            (GainsPrefix (Some self.old.bytes) (Some self.new.bytes) piece.now) }
        ensures cause { OnErr result (self.new.faults ≡ raised self.old.faults) }
        ensures faults { OnOk result (self.new.faults ≡ self.old.faults) }
    {
        let left = self.room - self.bytes.len();
        let listing = listed(&self.fails, self.writes);
        self.writes = self.writes.saturating_add(1);
        if listing.is_none() && piece.len() <= left {
            self.keep(piece);
            return Ok(());
        }
        let still = listing.unwrap_or(0);
        self.keep(&piece[..still.min(left).min(piece.len())]);
        self.faults = self.faults.saturating_add(1);
        Err(SinkFailed)
    }
}

impl SinkInMemory {
    /// Keeps bytes for which there is room.
    fn keep(&mut self, bytes: &[u8])
        requires { length self.old.bytes + length bytes.now ≤ self.old.room }
        ensures { self.new ≡ record self.old { bytes = self.old.bytes ++ bytes.now } }
    {
        let _kept = self.bytes.extend_from_slice(bytes).is_ok();
    }
}

/// How many bytes the write of this number still takes, where it is listed as failing.
fn listed(fails: &[(u64, usize)], number: u64) -> Option<usize>
    ensures { result ≡ listed_of fails.now number }
{
    fails
        .iter()
        .find(|entry| entry.0 == number)
        .map(|entry| entry.1)
}
