ghost use Rattle.std.specs.Prelude.{◌≡◌, ℕ, ◌≤◌, List, [], Option, Some, length};
ghost use Rattle.outside_io.specs.Counts.{raised, raised_by};
ghost use Rattle.outside_io.specs.Reading.{IsContent};
ghost use Rattle.outside_io.specs.ReadAnswers.{OnDone, OnNotDone, OnTooLong, OnFailed, IsAsked, IsWithin, IsLonger};

use std::alloc::Global;

/// How a read ended.
#[derive(Clone, Copy, Debug, PartialEq, Eq)]
pub enum ReadAnswer {
    /// The whole file was read.
    Done,
    /// The file has more bytes than were asked for at most.
    TooLong,
    /// The file could not be read.
    Failed,
    /// An allocation failed.
    NoMemory,
}

/// Files that are read by name.
pub trait Files {
    /// The bytes of the file of each name, where they are known.
    ghost told: { Self → List ℕ → Option (List ℕ) };

    /// How many reads have failed. The count remains at 2^64 - 1.
    ghost faults: { Self → ℕ };

    /// How many bytes were taken from files. The count remains at 2^64 - 1.
    ghost taken: { Self → ℕ };

    /// The name of the last read that failed.
    ghost failed: { Self → Option (List ℕ) };

    /// The names of the reads so far, in their order.
    ghost asked: { Self → List (List ℕ) };

    /// Reads the whole file of this name into an empty vector, if it has at most `at_most` bytes. The vector
    /// stays empty after every answer but `Done`.
    fn read(&mut self, alloc: Global, name: &str, at_most: usize, into: &mut Vec<u8>) -> ReadAnswer
        requires { into.old.items ≡ [] }

        // No read changes what is known. No file gives bytes back, and one that is done was taken whole.
        ensures told { told self.new ≡ told self.old }
        ensures taken { taken self.old ≤ taken self.new }
        ensures counted { OnDone result
            (taken self.new ≡ raised_by (length into.new.items) (taken self.old)) }

        // Each read adds its name, once.
        ensures asked { IsAsked result name.now (asked self.old) (asked self.new) }

        ensures content { OnDone result (IsContent (told self.old name.now) into.new.items) }
        ensures length { length into.new.items ≤ at_most }
        ensures empty { OnNotDone result (into.new.items ≡ []) }

        // Too long is the length of the known bytes. For unknown ones the count of bytes taken shows it.
        ensures within { OnDone result (IsWithin (told self.old name.now) at_most) }
        ensures too_long { OnTooLong result
            (IsLonger (told self.old name.now) at_most (taken self.old) (taken self.new)) }

        // A failure raises the count by one and leaves the name. Every other answer leaves both as they were.
        ensures faults { OnFailed result
            (faults self.new ≡ raised (faults self.old))
            (faults self.new ≡ faults self.old) }
        ensures failed { OnFailed result
            (failed self.new ≡ Some name.now)
            (failed self.new ≡ failed self.old) };
}
