//! Parts of runs that read something, and hand it on or halt the run.

ghost use Rattle.std.specs.Prelude.{◌≡◌, ℕ, List, Option, option_map, OnOk, IfOk, IfErr};
ghost use Rattle.decimal_json.specs.Parsed.{Parses};
ghost use Rattle.decimal_json.specs.View.{tree_of};
ghost use Rattle.program_runs.specs.Parts.{json_part};
ghost use Rattle.program_runs.specs.FailedReads.{NoneFailed};
ghost use Rattle.program_runs.specs.Refusals.{too_long};
ghost use Rattle.program_runs.specs.Progress.{GoesOn, Halts};
ghost use Rattle.program_runs.specs.Runs.{reads, may_read, parses};
ghost use Rattle.program_runs.specs.Subjects.{subject_text, subject_number};

use crate::halt::{RunHalt, RunStop};
use crate::refusals::{no_json, too_long};
use crate::subject::Subject;
use decimal_json::{Json, JsonFault, parse, parse_owned};
use outside_io::{Files, ReadAnswer};
use std::alloc::Global;

/// The bytes of a file, of which there may be at most so many.
pub fn read_file<'a, F: Files>(
    alloc: Global,
    what: &Subject<'_>,
    name: &'a str,
    at_most: usize,
    files: &mut F,
) -> Result<Vec<u8>, RunHalt<'a>>
    ensures told { F.told files.new ≡ F.told files.old }
    ensures failed { OnOk result
        (NoneFailed (F.faults files.old) (F.faults files.new) (F.failed files.old) (F.failed files.new)) }
    ensures on { IfOk result
        (λ bytes. GoesOn (F.told files.old)
        (reads (too_long (subject_text what.now) (subject_number what.now)) name.now at_most)
        (F.asked files.old) (F.asked files.new) bytes.items) }
    ensures halt { IfErr result
        (λ halt. Halts (F.told files.old)
        (reads (too_long (subject_text what.now) (subject_number what.now)) name.now at_most)
        (F.faults files.old) (F.faults files.new) (F.failed files.old) (F.failed files.new) (F.asked files.old)
        (F.asked files.new) halt) }
{
    let mut bytes = Vec::new(alloc);
    match files.read(alloc, name, at_most, &mut bytes) {
        ReadAnswer::Done => Ok(bytes),
        ReadAnswer::TooLong => Err(RunHalt::Refused(too_long(alloc, what)?)),
        ReadAnswer::Failed => Err(RunHalt::Stopped(RunStop::Unread(name))),
        ReadAnswer::NoMemory => Err(RunHalt::Stopped(RunStop::NoMemory)),
    }
}

/// The bytes of a file, or nothing where there are more than so many.
pub fn may_read_file<'a, F: Files>(
    alloc: Global,
    name: &'a str,
    at_most: usize,
    files: &mut F,
) -> Result<Option<Vec<u8>>, RunHalt<'a>>
    ensures told { F.told files.new ≡ F.told files.old }
    ensures failed { OnOk result
        (NoneFailed (F.faults files.old) (F.faults files.new) (F.failed files.old) (F.failed files.new)) }
    ensures on { IfOk result (λ bytes. GoesOn (F.told files.old) (may_read name.now at_most)
        (F.asked files.old) (F.asked files.new) (option_map (λ read. read.items) bytes)) }
    ensures halt { IfErr result (λ halt. Halts (F.told files.old) (may_read name.now at_most)
        (F.faults files.old) (F.faults files.new) (F.failed files.old) (F.failed files.new) (F.asked files.old)
        (F.asked files.new) halt) }
{
    let mut read = Vec::new(alloc);
    let stop = match files.read(alloc, name, at_most, &mut read) {
        ReadAnswer::Done => return Ok(Some(read)),
        ReadAnswer::TooLong => return Ok(None),
        ReadAnswer::Failed => RunStop::Unread(name),
        ReadAnswer::NoMemory => RunStop::NoMemory,
    };
    Err(RunHalt::Stopped(stop))
}

/// The JSON text that these bytes are.
pub fn parse_json<'a>(alloc: Global, what: &Subject<'_>, bytes: &[u8]) -> Result<Json, RunHalt<'a>>
    ensures on { (files : List ℕ → Option (List ℕ)) (asked : List (List ℕ)) →
        IfOk result (λ json. GoesOn files (parses (subject_text what.now) bytes.now) asked asked (tree_of json)) }
    ensures halt { (files : List ℕ → Option (List ℕ)) (count : ℕ) (failed : Option (List ℕ)) (asked : List (List ℕ)) →
        IfErr result (λ halt. Halts files (parses (subject_text what.now) bytes.now)
        count count failed failed asked asked halt) }
{
    json_or_refusal(alloc, what, parse(alloc, bytes)?)
}

/// The JSON text in a file of at most `limit` bytes.
pub fn read_json<'a, F: Files>(
    alloc: Global,
    what: &Subject<'_>,
    name: &'a str,
    at_most: usize,
    files: &mut F,
) -> Result<Json, RunHalt<'a>>
    ensures told { F.told files.new ≡ F.told files.old }
    ensures failed { OnOk result
        (NoneFailed (F.faults files.old) (F.faults files.new) (F.failed files.old) (F.failed files.new)) }
    ensures on { IfOk result
        (λ json. GoesOn (F.told files.old)
        (json_part (subject_text what.now) (subject_number what.now) name.now at_most)
        (F.asked files.old) (F.asked files.new) (tree_of json)) }
    ensures halt { IfErr result
        (λ halt. Halts (F.told files.old) (json_part (subject_text what.now) (subject_number what.now) name.now at_most)
        (F.faults files.old) (F.faults files.new) (F.failed files.old) (F.failed files.new) (F.asked files.old)
        (F.asked files.new) halt) }
{
    let bytes = read_file(alloc, what, name, at_most, files)?;
    json_or_refusal(alloc, what, parse_owned(alloc, bytes)?)
}

// The JSON text that bytes were parsed as, or its refusal.
fn json_or_refusal<'a>(
    alloc: Global,
    what: &Subject<'_>,
    parsed: Result<Json, JsonFault>,
) -> Result<Json, RunHalt<'a>>
    ensures on { (files : List ℕ → Option (List ℕ)) (bytes : List ℕ) (asked : List (List ℕ)) → Parses bytes parsed →
        IfOk result (λ json. GoesOn files (parses (subject_text what.now) bytes) asked asked (tree_of json)) }
    ensures halt { (files : List ℕ → Option (List ℕ)) (bytes : List ℕ) (count : ℕ) (failed : Option (List ℕ))
        (asked : List (List ℕ)) → Parses bytes parsed →
        IfErr result (λ halt. Halts files (parses (subject_text what.now) bytes)
        count count failed failed asked asked halt) }
{
    match parsed {
        Ok(json) => Ok(json),
        Err(fault) => Err(RunHalt::Refused(no_json(alloc, what, fault)?)),
    }
}
