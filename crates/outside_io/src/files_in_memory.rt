ghost use Rattle.std.specs.Prelude.{◌≡◌, ◌≢◌, ℕ, ◌≤◌, List, [], Some, None, length, IfOk, OnOk, OnErr};
ghost use Rattle.outside_io.specs.Counts.{raised, raised_by};
ghost use Rattle.outside_io.specs.Reading.{IsContent};
ghost use Rattle.outside_io.specs.ReadAnswers.{OnDone, OnNotDone, OnTooLong, OnFailed, IsAsked, IsWithin, IsLonger};
ghost use Rattle.outside_io.specs.Contents.{no_files, with_file, bytes_of};
ghost use Rattle.outside_io.specs.FilesState.{read_end, after_read};

use crate::asked_names::AskedNames;
use crate::named_files::NamedFiles;
use crate::reading::{Files, ReadAnswer};
use std::alloc::{AllocError, Global};
use std::marker::Model;

/// Files that are held in memory, with known bytes. A read of a name that is not held fails, and so do the
/// reads whose numbers are listed. Each read looks through that list.
#[derive(Drop)]
pub struct FilesInMemory {
    files: NamedFiles,
    fails: Vec<u64>,
    reads: u64,
    faults: u64,
    taken: u64,
    failed: Option<String>,
    asked: AskedNames,
}

impl Model for FilesInMemory {
    ghost use Rattle.std.specs.Prelude.{string_bytes};
    ghost use Rattle.std.specs.Option.{option_map};
    ghost use Rattle.outside_io.specs.FilesState.{FilesState, files_state_code};

    ghost Value = { FilesState };

    ghost coded = { files_state_code };

    ghost view = { λ s. record {
      files = s.files;
      fails = s.fails.items;
      reads = s.reads;
      faults = s.faults;
      taken = s.taken;
      failed = option_map string_bytes s.failed;
      asked = s.asked;
    } };
}

impl FilesInMemory {
    /// No files, of which the reads with these numbers will fail. Reads are counted from 0; one that fails to
    /// allocate is not counted.
    pub fn new(alloc: Global, fails: &[u64]) -> Result<FilesInMemory, AllocError>
        ensures state { IfOk result (λ made. made ≡
            record { files = no_files; fails = fails.now; reads = 0; faults = 0; taken = 0; failed = None; asked = [] }) }
        ensures told { IfOk result (λ made. (name : List ℕ) → bytes_of made.files name ≡ None) }
    {
        let fails = Vec::from_slice(alloc, fails)?;
        Ok(FilesInMemory {
            files: NamedFiles::new(alloc),
            fails,
            reads: 0,
            faults: 0,
            taken: 0,
            failed: None,
            asked: AskedNames::new(alloc),
        })
    }

    /// Puts a file in place of the one of that name, if there is one.
    pub fn put(&mut self, alloc: Global, name: &str, bytes: &[u8]) -> Result<(), AllocError>
        ensures ok { OnOk result
            (self.new ≡ record self.old { files = with_file self.old.files name.now bytes.now }) }
        ensures told { OnOk result (bytes_of self.new.files name.now ≡ Some bytes.now) }
        ensures others { OnOk result ((other : List ℕ) → other ≢ name.now →
            bytes_of self.new.files other ≡ bytes_of self.old.files other) }
        ensures err { OnErr result (self.new ≡ self.old) }
    {
        self.files.put(alloc, name, bytes)
    }
}

impl Files for FilesInMemory {
    ghost told = { λ s. bytes_of s.files };

    ghost faults = { λ s. s.faults };

    ghost taken = { λ s. s.taken };

    ghost failed = { λ s. s.failed };

    ghost asked = { λ s. s.asked };

    fn read(&mut self, alloc: Global, name: &str, at_most: usize, into: &mut Vec<u8>) -> ReadAnswer
        requires { into.old.items ≡ [] }

        // How it ends and what it leaves is exact. When allocation fails the files are as they were.
        ensures answer { result ≢ ReadAnswer.NoMemory → result ≡ read_end self.old name.now at_most }
        ensures after { self.new ≡ after_read self.old name.now result }

        // The trait's clauses, on the known bytes.
        ensures told { bytes_of self.new.files ≡ bytes_of self.old.files }
        ensures taken { self.old.taken ≤ self.new.taken }
        ensures counted { OnDone result (self.new.taken ≡ raised_by (length into.new.items) self.old.taken) }

        ensures asked { IsAsked result name.now self.old.asked self.new.asked }

        ensures content { OnDone result (IsContent (bytes_of self.old.files name.now) into.new.items) }
        ensures length { length into.new.items ≤ at_most }
        ensures empty { OnNotDone result (into.new.items ≡ []) }

        ensures within { OnDone result (IsWithin (bytes_of self.old.files name.now) at_most) }
        ensures too_long { OnTooLong result
            (IsLonger (bytes_of self.old.files name.now) at_most self.old.taken self.new.taken) }

        ensures faults { OnFailed result
            (self.new.faults ≡ raised self.old.faults)
            (self.new.faults ≡ self.old.faults) }
        ensures failed { OnFailed result
            (self.new.failed ≡ Some name.now)
            (self.new.failed ≡ self.old.failed) }
    {
        if self.fails.contains(&self.reads) {
            return self.fail(alloc, name);
        }
        let Some(bytes) = self.files.get(name) else {
            return self.fail(alloc, name);
        };
        let length = bytes.len();
        if length <= at_most && into.extend_from_slice(bytes.as_slice()).is_err() {
            return ReadAnswer::NoMemory;
        }
        if self.asked.push(alloc, name).is_err() {
            into.clear();
            return ReadAnswer::NoMemory;
        }
        self.reads = self.reads.saturating_add(1);
        if length > at_most {
            return ReadAnswer::TooLong;
        }
        self.taken = self.taken.saturating_add(length as u64);
        ReadAnswer::Done
    }
}

impl FilesInMemory {
    /// A read of this name fails. Its name is copied first, so that nothing changes when allocation fails.
    fn fail(&mut self, alloc: Global, name: &str) -> ReadAnswer
        ensures answer { result ≢ ReadAnswer.NoMemory → result ≡ ReadAnswer.Failed }
        ensures after { self.new ≡ after_read self.old name.now result }
        ensures not_done { result ≢ ReadAnswer.Done }
    {
        let Ok(name_kept) = String::from_str(alloc, name) else {
            return ReadAnswer::NoMemory;
        };
        if self.asked.push(alloc, name).is_err() {
            return ReadAnswer::NoMemory;
        }
        self.reads = self.reads.saturating_add(1);
        self.faults = self.faults.saturating_add(1);
        self.failed = Some(name_kept);
        ReadAnswer::Failed
    }
}
