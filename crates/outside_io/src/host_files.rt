ghost use Rattle.std.specs.Prelude.{◌≡◌, ◌⊎◌, ◌+◌, ◌<◌, ◌≤◌, [], Some, None, length, take, drop, vec_len, string_bytes};
ghost use Rattle.std.specs.Prelude.{OnOk, IfOk, IfErr};
ghost use Rattle.std.specs.Io.{StartsWith, appended_bytes};
ghost use Rattle.std.specs.Io.KnownBytes.{Consumes, IsAtEnd};
ghost use Rattle.outside_io.specs.Counts.{raised, raised_by};
ghost use Rattle.outside_io.specs.ReadAnswers.{RoseBy, OnDone, OnNotDone, OnTooLong};
ghost use Rattle.outside_io.specs.Reading.{IsContent, IsLongerIfTold};

use crate::asked_names::AskedNames;
use crate::reading::{Files, ReadAnswer};
use std::alloc::Global;
use std::io::{self, Read};
use std::marker::Model;
use std::{fs, rt};

/// The real files of a runtime, by their paths. Their bytes are unknown to contracts.
///
/// An error of the runtime, at the opening or in the middle, is a failed read; an interruption counts as an
/// error. A turn that gives nothing is the end of the file.
#[derive(Drop)]
pub struct HostFiles<'a, R: rt::Files> {
    rt: &'a R,
    faults: u64,
    taken: u64,
    failed: Option<String>,
    asked: AskedNames,
}

impl<'a, R: rt::Files> Model for HostFiles<'a, R> {
    ghost use Rattle.std.specs.Prelude.{string_bytes};
    ghost use Rattle.std.specs.Option.{option_map};
    ghost use Rattle.outside_io.specs.HostState.{HostFilesState};

    ghost Value = { HostFilesState };

    ghost view = { λ s. record {
      faults = s.faults;
      taken = s.taken;
      failed = option_map string_bytes s.failed;
      asked = s.asked;
    } };
}

impl<'a, R: rt::Files> HostFiles<'a, R> {
    /// The files that this runtime reaches.
    pub fn new(alloc: Global, rt: &'a R) -> HostFiles<'a, R>
        ensures { result ≡ record { faults = 0; taken = 0; failed = None; asked = [] } }
    {
        HostFiles {
            rt,
            faults: 0,
            taken: 0,
            failed: None,
            asked: AskedNames::new(alloc),
        }
    }
}

impl<R: rt::Files> Files for HostFiles<'_, R> {
    ghost told = { λ _ _. None };

    ghost faults = { λ s. s.faults };

    ghost taken = { λ s. s.taken };

    ghost failed = { λ s. s.failed };

    ghost asked = { λ s. s.asked };

    fn read(
        &mut self,
        alloc: Global,
        name: &str,
        at_most: usize,
        into: &mut Vec<u8>,
    ) -> ReadAnswer {
        let Ok(name_kept) = String::from_str(alloc, name) else {
            return ReadAnswer::NoMemory;
        };
        if self.asked.push(alloc, name).is_err() {
            return ReadAnswer::NoMemory;
        }
        let Ok(mut file) = fs::open(self.rt, name) else {
            return self.fail(name_kept);
        };
        match read_rest(&mut file, at_most, into, &mut self.taken) {
            ReadAnswer::Failed => self.fail(name_kept),
            answer => answer,
        }
    }
}

impl<R: rt::Files> HostFiles<'_, R> {
    /// The read of this name failed.
    fn fail(&mut self, name: String) -> ReadAnswer
        ensures answer { result ≡ ReadAnswer.Failed }
        ensures noted { self.new ≡
            record self.old { faults = raised self.old.faults; failed = Some (string_bytes name) } }
    {
        self.faults = self.faults.saturating_add(1);
        self.failed = Some(name);
        ReadAnswer::Failed
    }
}

/// How many bytes a turn of a read asks for.
const TURN: usize = 65_536;

/// The room of a turn before its read. It is copied as one block, where a fill would go byte by byte.
static ROOM: [u8; TURN] = [0; TURN];

/// Reads what a reader has left into an empty vector, if it is at most `at_most` bytes, and counts the bytes
/// that it gave.
#[tactic(auto, using(crate::proofs::KnownBytes::consumes_none, crate::proofs::KnownBytes::consumes_turn, crate::proofs::KnownBytes::content_at_end, crate::proofs::KnownBytes::longer_than))]
fn read_rest<F: Read>(
    file: &mut F,
    at_most: usize,
    into: &mut Vec<u8>,
    taken: &mut u64,
) -> ReadAnswer
    requires { into.old.items ≡ [] }
    ensures content { OnDone result (IsContent (F.remaining file.old) into.new.items) }
    ensures length { length into.new.items ≤ at_most }
    ensures empty { OnNotDone result (into.new.items ≡ []) }
    ensures counted { OnDone result (taken.new ≡ raised_by (length into.new.items) taken.old) }
    ensures longer { OnTooLong result (IsLongerIfTold (F.remaining file.old) at_most) }
    ensures too_long { OnTooLong result (RoseBy at_most taken.old taken.new) }
    ensures taken { taken.old ≤ taken.new }
{
    let before = *taken;
    loop {
        match read_turn(file, into) {
            Ok(0) => return ReadAnswer::Done,
            Ok(_) => *taken = before.saturating_add(into.len() as u64),
            Err(answer) => {
                into.clear();
                return answer;
            }
        }
        if into.len() > at_most {
            into.clear();
            return ReadAnswer::TooLong;
        }
    }
}

/// One turn of a read, straight into the room after what the vector has. It appends what the reader gave and
/// answers how many bytes these are: none only at the reader's end. Else the read or an allocation failed.
fn read_turn<F: Read>(file: &mut F, into: &mut Vec<u8>) -> Result<usize, ReadAnswer>
    ensures longer { IfOk result (λ count. vec_len into.new ≡ vec_len into.old + count) }
    ensures appends { OnOk result (StartsWith into.new.items into.old.items) }
    ensures bytes { OnOk result
        (Consumes (F.remaining file.old) (F.remaining file.new) (appended_bytes into.old.items into.new.items)) }
    ensures end { IfOk result (λ count. count ≡ 0 → IsAtEnd (F.remaining file.new)) }
    ensures stop { IfErr result (λ answer. (answer ≡ ReadAnswer.Failed) ⊎ (answer ≡ ReadAnswer.NoMemory)) }
{
    let start = into.len();
    if into.extend_from_slice(&ROOM).is_err() {
        return Err(ReadAnswer::NoMemory);
    }
    match read_after(file, into.as_mut_slice(), start) {
        Ok(count) => {
            into.truncate(start + count);
            Ok(count)
        }
        Err(_) => Err(ReadAnswer::Failed),
    }
}

/// Reads once into the bytes after the first `start`.
fn read_after<F: Read>(file: &mut F, buffer: &mut [u8], start: usize) -> io::Result<usize>
    requires { start < length buffer.old }
    ensures front { take start buffer.new ≡ take start buffer.old }
    ensures fits { IfOk result (λ count. start + count ≤ length buffer.new) }
    ensures bytes { IfOk result
        (λ count. Consumes (F.remaining file.old) (F.remaining file.new) (take count (drop start buffer.new))) }
    ensures end { IfOk result (λ count. count ≡ 0 → IsAtEnd (F.remaining file.new)) }
{
    file.read(&mut buffer[start..])
}
