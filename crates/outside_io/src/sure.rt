ghost use Rattle.std.specs.Prelude.{◌≡◌, ◌≢◌, ℕ, ◌≤◌, List, [], None, length, OnOk, OnErr};
ghost use Rattle.outside_io.specs.Counts.{raised_by};
ghost use Rattle.outside_io.specs.Reading.{IsContent};
ghost use Rattle.outside_io.specs.ReadAnswers.{OnDone, OnNotDone, OnTooLong, IsAsked, IsWithin, IsLonger};
ghost use Rattle.outside_io.specs.Contents.{no_files, with_file};
ghost use Rattle.outside_io.specs.FilesState.{sure_bytes_of, told_of, sure_read_end, after_sure_read};

use crate::asked_names::AskedNames;
use crate::named_files::NamedFiles;
use crate::reading::{Files, ReadAnswer};
use crate::writing::{Sink, SinkFailed};
use std::alloc::{AllocError, Global};
use std::marker::Model;

/// Files that are held in memory, with known bytes, and never fail. A name that is not held has no bytes.
#[derive(Drop)]
pub struct SureFiles {
    files: NamedFiles,
    taken: u64,
    asked: AskedNames,
}

impl Model for SureFiles {
    ghost use Rattle.outside_io.specs.FilesState.{SureState, sure_state_code};

    ghost Value = { SureState };

    ghost coded = { sure_state_code };

    ghost view = { λ s. record { files = s.files; taken = s.taken; asked = s.asked } };
}

impl SureFiles {
    /// No files.
    pub fn new(alloc: Global) -> SureFiles
        ensures state { result ≡ record { files = no_files; taken = 0; asked = [] } }
        ensures told { (name : List ℕ) → sure_bytes_of result.files name ≡ [] }
    {
        SureFiles {
            files: NamedFiles::new(alloc),
            taken: 0,
            asked: AskedNames::new(alloc),
        }
    }

    /// Puts a file in place of the one of that name, if there is one.
    pub fn put(&mut self, alloc: Global, name: &str, bytes: &[u8]) -> Result<(), AllocError>
        ensures ok { OnOk result
            (self.new ≡ record self.old { files = with_file self.old.files name.now bytes.now }) }
        ensures told { OnOk result (sure_bytes_of self.new.files name.now ≡ bytes.now) }
        ensures others { OnOk result ((other : List ℕ) → other ≢ name.now →
            sure_bytes_of self.new.files other ≡ sure_bytes_of self.old.files other) }
        ensures err { OnErr result (self.new ≡ self.old) }
    {
        self.files.put(alloc, name, bytes)
    }
}

impl Files for SureFiles {
    ghost use Rattle.outside_io.specs.FilesState.{told_of};

    ghost told = { told_of };

    ghost faults = { λ _. 0 };

    ghost taken = { λ s. s.taken };

    ghost failed = { λ _. None };

    ghost asked = { λ s. s.asked };

    fn read(&mut self, alloc: Global, name: &str, at_most: usize, into: &mut Vec<u8>) -> ReadAnswer
        requires { into.old.items ≡ [] }

        // How it ends and what it leaves is exact. When allocation fails the files are as they were.
        ensures answer { result ≢ ReadAnswer.NoMemory → result ≡ sure_read_end self.old name.now at_most }
        ensures after { self.new ≡ after_sure_read self.old name.now result }

        // The trait's clauses, on the known bytes. No read fails.
        ensures told { told_of self.new ≡ told_of self.old }
        ensures taken { self.old.taken ≤ self.new.taken }
        ensures counted { OnDone result (self.new.taken ≡ raised_by (length into.new.items) self.old.taken) }

        ensures asked { IsAsked result name.now self.old.asked self.new.asked }

        ensures content { OnDone result (IsContent (told_of self.old name.now) into.new.items) }
        ensures length { length into.new.items ≤ at_most }
        ensures empty { OnNotDone result (into.new.items ≡ []) }

        ensures within { OnDone result (IsWithin (told_of self.old name.now) at_most) }
        ensures too_long { OnTooLong result
            (IsLonger (told_of self.old name.now) at_most self.old.taken self.new.taken) }
        ensures sure { result ≢ ReadAnswer.Failed }
    {
        let bytes = self.bytes(name);
        let length = bytes.len();
        if length <= at_most && into.extend_from_slice(bytes).is_err() {
            return ReadAnswer::NoMemory;
        }
        if self.asked.push(alloc, name).is_err() {
            into.clear();
            return ReadAnswer::NoMemory;
        }
        if length > at_most {
            return ReadAnswer::TooLong;
        }
        self.taken = self.taken.saturating_add(length as u64);
        ReadAnswer::Done
    }
}

impl SureFiles {
    fn bytes(&self, name: &str) -> &[u8]
        ensures { result.now ≡ sure_bytes_of self.now.files name.now }
    {
        match self.files.get(name) {
            Some(file) => file.as_slice(),
            None => &[],
        }
    }
}

/// A sink that takes every piece and never fails. It keeps no bytes, and they are unknown to contracts.
#[derive(Clone, Copy, Debug, PartialEq, Eq)]
pub struct SureSink;

impl SureSink {
    pub fn new() -> SureSink
        ensures held { ⟦<SureSink as Sink>⟧.held result ≡ None }
        ensures faults { ⟦<SureSink as Sink>⟧.faults result ≡ 0 }
    {
        SureSink
    }
}

impl Sink for SureSink {
    ghost held = { λ _. None };

    ghost faults = { λ _. 0 };

    fn write(&mut self, _piece: &[u8]) -> Result<(), SinkFailed> {
        Ok(())
    }
}
