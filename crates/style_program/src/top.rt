//! The call that does a whole run.

ghost use Rattle.std.specs.Prelude.{◌≡◌, false, map, string_bytes, OnErr, OnOk, IfOk, IfErr};
ghost use Rattle.program_runs.specs.FailedReads.{NoneFailed};
ghost use Rattle.program_runs.specs.Progress.{IsStop};
ghost use Rattle.program_runs.specs.Runs.{IsFileless};
ghost use Rattle.program_runs.specs.Written.{StepsAreDue};
ghost use Rattle.style_program.specs.Commands.{lists_cells, run_of};
ghost use Rattle.style_program.specs.ListedFaults.{ListsItsFault};
ghost use Rattle.style_program.specs.PreparedRun.{IsPrepared, MayList};
ghost use Rattle.style_program.specs.Promises.{KeepsPromises, outside};
ghost use Rattle.style_program.specs.Words.{asked};

use crate::opened_run::write_answers;
use crate::reply::{PreparedRun, prepare_run};
use crate::words::request_of;
use host_ops::HostOp;
use outside_io::{Files, Sink, Steps};
use program_runs::{RunStop, Status, WriteStop, write_answer, write_unread};
use std::alloc::Global;
use std::sync::ledger::Ledger;
use typing_laws::faults_are_listed;

/// Does what the words after the program's name ask for: reads from `files`, writes to `out` and `err`, counts the
/// steps of evaluations in `steps`, and answers how the run ended.
///
/// `images` and `scripts` are the tests that expressions ask. Nothing is written before all reading is done. The
/// listing of `eval` is written piece by piece while it is made, and the answer to each line of a script before the
/// next line is looked at. A failed allocation is the only free answer.
pub fn run_style<F: Files, O: Sink, E: Sink, L: Ledger>(
    alloc: Global,
    words: &[String],
    files: &mut F,
    out: &mut O,
    err: &mut E,
    images: Box<dyn HostOp>,
    scripts: Box<dyn HostOp>,
    steps: &mut Steps<L>,
) -> Status
    // What is read, written, counted and answered is what the run of the words says.
    ensures promises { KeepsPromises (F.told files.old)
        (run_of (test images) (test scripts) (changes images) (map string_bytes words.now)) result
        (outside (F.faults files.old) (F.failed files.old) (F.asked files.old) (O.held out.old) (O.faults out.old)
        (E.held err.old) (E.faults err.old) steps.old)
        (outside (F.faults files.new) (F.failed files.new) (F.asked files.new) (O.held out.new) (O.faults out.new)
        (E.held err.new) (E.faults err.new) steps.new)
        (files.new ≡ files.old) }

    // Where `value` ends in a fault, typing had listed it.
    ensures listed { result ≡ Status.Found
        → ListsItsFault (test images) (test scripts) (asked (map string_bytes words.now)) }

    // No read changes the known contents of files, and a command that lists nothing counts no step.
    ensures told { F.told files.new ≡ F.told files.old }
    ensures steps { lists_cells (asked (map string_bytes words.now)) ≡ false → steps.new ≡ steps.old }
{
    let mut images = images;
    let call = Call {
        alloc,
        words,
        scripts: &*scripts,
    };
    run_words(call, files, out, err, &mut *images, steps)
}

// The words of a call, where memory for their run is taken, and the test of scripts, of type `&dyn HostOp`.
#[derive(Clone, Copy)]
struct Call<'a, T> {
    alloc: Global,
    words: &'a [String],
    scripts: T,
}

fn run_words<F: Files, O: Sink, E: Sink, L: Ledger>(
    call: Call<'_, &dyn HostOp>,
    files: &mut F,
    out: &mut O,
    err: &mut E,
    images: &mut dyn HostOp,
    steps: &mut Steps<L>,
) -> Status
    ensures promises { KeepsPromises (F.told files.old)
        (run_of (test images.old) (test call.entry.scripts.now) (changes images.old)
        (map string_bytes call.entry.words.now)) result
        (outside (F.faults files.old) (F.failed files.old) (F.asked files.old) (O.held out.old) (O.faults out.old)
        (E.held err.old) (E.faults err.old) steps.old)
        (outside (F.faults files.new) (F.failed files.new) (F.asked files.new) (O.held out.new) (O.faults out.new)
        (E.held err.new) (E.faults err.new) steps.new)
        (files.new ≡ files.old) }
    ensures listed { result ≡ Status.Found
        → ListsItsFault (test images.old) (test call.entry.scripts.now)
        (asked (map string_bytes call.entry.words.now)) }
    ensures told { F.told files.new ≡ F.told files.old }
    ensures steps { lists_cells (asked (map string_bytes call.entry.words.now)) ≡ false → steps.new ≡ steps.old }
{
    faults_are_listed();
    let Call {
        alloc,
        words,
        scripts,
    } = call;
    match prepared(alloc, words, files, images, scripts, steps) {
        Ok(PreparedRun::Ended(answer)) => match write_answer(&answer, out, err) {
            Ok(()) => answer.ending.status(),
            Err(_) => Status::WriteFault,
        },
        Ok(PreparedRun::Opened(opened)) => {
            match write_answers(opened, images, scripts, out, steps) {
                Ok(ending) => ending.status(),
                Err(WriteStop::NoMemory) => Status::NoMemory,
                Err(WriteStop::Unwritten) => Status::WriteFault,
            }
        }
        Err(RunStop::NoMemory) => Status::NoMemory,
        Err(RunStop::Unread(name)) => write_unread(alloc, name, err),
    }
}

// The run of the words.
fn prepared<'a, F: Files, L: Ledger>(
    alloc: Global,
    words: &'a [String],
    files: &mut F,
    images: &mut dyn HostOp,
    scripts: &dyn HostOp,
    steps: &mut Steps<L>,
) -> Result<PreparedRun<'a>, RunStop<'a>>
    ensures told { F.told files.new ≡ F.told files.old }
    ensures failed { OnOk result
        (NoneFailed (F.faults files.old) (F.faults files.new) (F.failed files.old) (F.failed files.new)) }
    ensures fileless { IsFileless
        (run_of (test images.old) (test scripts.now) (changes images.old) (map string_bytes words.now))
        → files.new ≡ files.old }
    ensures run { IfOk result (IsPrepared (test images.new) (test scripts.now) (changes images.new) (F.told files.old)
        (run_of (test images.old) (test scripts.now) (changes images.old) (map string_bytes words.now))
        (F.asked files.old) (F.asked files.new) steps.old steps.new) }
    ensures script { IfOk result (MayList (asked (map string_bytes words.now))) }
    ensures stop { IfErr result (λ stop. IsStop (F.told files.old)
        (run_of (test images.old) (test scripts.now) (changes images.old) (map string_bytes words.now))
        (F.faults files.old) (F.faults files.new) (F.failed files.old) (F.failed files.new) (F.asked files.old)
        (F.asked files.new) stop) }
    ensures due { OnErr result (StepsAreDue (F.told files.old)
        (run_of (test images.old) (test scripts.now) (changes images.old) (map string_bytes words.now))
        (F.asked files.old) (F.asked files.new) steps.old steps.new) }
    ensures steps { lists_cells (asked (map string_bytes words.now)) ≡ false → steps.new ≡ steps.old }
{
    let Ok(request) = request_of(alloc, words) else {
        return Err(RunStop::NoMemory);
    };
    prepare_run(alloc, &request, files, images, scripts, steps)
}
