//! The run of a script.

ghost use Rattle.std.specs.Prelude.{◌≡◌, ◌⊎◌, ℕ, List, Option, true, OnErr, OnOk, IfOk, IfErr};
ghost use Rattle.edit_session.specs.View.{lacks_memory, session_state, tiles_of, IsSoundSession};
ghost use Rattle.host_ops.specs.Change.{IsSameTest};
ghost use Rattle.program_runs.specs.Progress.{IsCut, IsWritten};
ghost use Rattle.script_runs.specs.LineAnswers.{LineGives, StepsAreOfLine, line_seen};
ghost use Rattle.script_runs.specs.ImageReports.{GoesAlong, GoesPartway, ImageReportsOfLine, ImagesOfLine};
ghost use Rattle.script_runs.specs.ScriptLines.{script_lines};
ghost use Rattle.script_runs.specs.ScriptRun.{script_run, ending_by};

use crate::answers::{answer_of, fault_answer};
use crate::lines::next_line;
use edit_script::read_line;
use edit_session::Session;
use host_ops::HostOp;
use outside_io::{Sink, Steps};
use program_runs::{Ending, WriteStop, write_piece};
use std::alloc::AllocError;
use std::sync::ledger::Ledger;

/// A line of a script, with its number counted from 1.
#[derive(Clone, Copy)]
pub struct ScriptLine<'a> {
    pub number: usize,
    pub bytes: &'a [u8],
}

/// What a line is answered.
#[derive(Drop)]
pub struct LineAnswer {
    /// What is written of it.
    pub text: Vec<u8>,
    pub is_refused: bool,
}

/// Writes what each line of a script is answered, before the next line is looked at, over a session that was just
/// opened or is sound. The text of one answer is in memory at a time.
pub fn answer_script<O: Sink, L: Ledger>(
    session: Session<'_>,
    script: &[u8],
    images: &mut dyn HostOp,
    scripts: &dyn HostOp,
    out: &mut O,
    steps: &mut Steps<L>,
) -> Result<Ending, WriteStop>
    requires { IsSoundSession session (test images.old) (test scripts.now) }
    ensures written { (files : List ℕ → Option (List ℕ)) (asked : List (List ℕ)) → IfOk result (IsWritten files
        (script_run (tiles_of session.entry) (test scripts.now) (changes images.old)
        (session_state session.entry (test images.old)) script.now) asked
        (O.held out.old) (O.held out.new) steps.old steps.new) }
    ensures none_failed { OnOk result (O.faults out.new ≡ O.faults out.old) }
    ensures stop { (files : List ℕ → Option (List ℕ)) (asked : List (List ℕ)) → IfErr result (IsCut files
        (script_run (tiles_of session.entry) (test scripts.now) (changes images.old)
        (session_state session.entry (test images.old)) script.now) asked
        (O.held out.old) (O.held out.new) steps.old steps.new (O.faults out.old) (O.faults out.new)) }
    ensures changes { changes images.new ≡ changes images.old }
    ensures count { OnOk result (GoesAlong (ImageReportsOfLine (changes images.old)) (script_lines script.now)
        (tell_count images.old) (tell_count images.new)) }
    ensures count_failed { OnErr result (GoesPartway (ImageReportsOfLine (changes images.old)) (script_lines script.now)
        (tell_count images.old) (tell_count images.new)) }
    ensures images { OnOk result (GoesAlong (ImagesOfLine (changes images.old)) (script_lines script.now)
        (test images.old) (test images.new)) }
    ensures images_failed { OnErr result (GoesPartway (ImagesOfLine (changes images.old)) (script_lines script.now)
        (test images.old) (test images.new)) }
{
    let mut session = session;
    let mut any = false;
    let mut number: usize = 1;
    let mut rest = script;
    while let Some((line, behind)) = next_line(rest) {
        let line = ScriptLine {
            number,
            bytes: line,
        };
        let Ok(answer) = answer_line(&mut session, &line, images, scripts, steps) else {
            return Err(WriteStop::NoMemory);
        };
        match write_piece(answer.text.as_slice(), out) {
            Ok(()) => {}
            Err(_) => return Err(WriteStop::Unwritten),
        }
        any = any || answer.is_refused;
        number += 1;
        rest = behind;
    }
    Ok(ending_by(any))
}

/// How a script ends, by whether a line of it was refused.
pub fn ending_by(any: bool) -> Ending
    ensures { result ≡ ending_by any }
{
    if any { Ending::Found } else { Ending::Fine }
}

/// The answer to the line of this number.
pub fn answer_line<L: Ledger>(
    session: &mut Session<'_>,
    line: &ScriptLine<'_>,
    images: &mut dyn HostOp,
    scripts: &dyn HostOp,
    steps: &mut Steps<L>,
) -> Result<LineAnswer, AllocError>
    requires { IsSoundSession session.old (test images.old) (test scripts.now) }
    ensures sound { IsSoundSession session.new (test images.new) (test scripts.now) }
    ensures tiles { tiles_of session.new ≡ tiles_of session.old }
    ensures changes { changes images.new ≡ changes images.old }
    ensures gives { IfOk result
        (λ answer. LineGives (tiles_of session.old) (test scripts.now) steps.old steps.new (changes images.old)
        line.now.number (session_state session.old (test images.old)) line.now.bytes.now
        (line_seen (session_state session.new (test images.new)) answer)) }
    ensures most { OnErr result (StepsAreOfLine (tiles_of session.old) (test scripts.now) steps.old steps.new
        (session_state session.old (test images.old)) line.now.bytes.now) }
    ensures count { OnOk result
        (ImageReportsOfLine (changes images.old) line.now.bytes.now (tell_count images.old) (tell_count images.new)) }
    ensures count_failed { OnErr result ((tell_count images.new ≡ tell_count images.old)
        ⊎ ImageReportsOfLine (changes images.old) line.now.bytes.now (tell_count images.old) (tell_count images.new)) }
    ensures silent { lacks_memory session.old ≡ true → tell_count images.new ≡ tell_count images.old }
    ensures images_failed { OnErr result ((test images.new ≡ test images.old)
        ⊎ ImagesOfLine (changes images.old) line.now.bytes.now (test images.old) (test images.new)) }
    ensures lent { lacks_memory session.new ≡ true → IsSameTest (test images.old) (test images.new) }
{
    let alloc = session.alloc();
    match read_line(alloc, line.bytes)? {
        Ok(command) => {
            let answer = session.apply(&command, images, scripts, steps)?;
            answer_of(alloc, line.number, answer)
        }
        Err(fault) => fault_answer(alloc, line.number, fault),
    }
}
