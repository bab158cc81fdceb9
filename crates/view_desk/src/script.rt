//! The run of a script of a desk.

ghost use Rattle.std.specs.Prelude.{◌≡◌, ◌<◌, ◌⊎◌, ℕ, List, ◌++◌, length, Option, OnErr, OnOk, IfOk, IfErr};
ghost use Rattle.outside_io.specs.Counts.{raised};
ghost use Rattle.outside_io.specs.Writing.{Gains, GainsPrefix};
ghost use Rattle.program_runs.specs.Progress.{IsCut, IsWritten};
ghost use Rattle.script_runs.specs.ImageReports.{GoesAlong, GoesPartway};
ghost use Rattle.script_runs.specs.ScriptLines.{script_lines};
ghost use Rattle.view_desk.specs.DeskRun.{desk_script_run};
ghost use Rattle.view_desk.specs.View.{desk_line_seen, desk_state, desk_tiles, DeskLineGives, IsSoundDesk};
ghost use Rattle.view_desk.specs.View.{ImageReportsOfDeskLine, ImagesOfDeskLine, StepsAreOfDeskLine};

use crate::answers::line_answer;
use crate::desk::Desk;
use host_ops::HostOp;
use outside_io::{Sink, SinkFailed, Steps};
use program_runs::{Ending, WriteStop, write_piece};
use script_runs::{ScriptLine, ending_by, next_line};
use std::alloc::AllocError;
use std::sync::ledger::Ledger;

/// What a line of a desk is answered.
#[derive(Drop)]
pub struct DeskLineAnswer {
    /// The line that says of which view the answer is; empty where it is of none.
    pub view: Vec<u8>,
    /// What is written after it.
    pub text: Vec<u8>,
    pub is_refused: bool,
}

/// Writes what each line of a script is answered, before the next line is looked at, over a desk that was just opened
/// or is sound. The text of one answer is in memory at a time.
pub fn answer_desk<O: Sink, L: Ledger>(
    desk: Desk<'_>,
    script: &[u8],
    images: &mut dyn HostOp,
    scripts: &dyn HostOp,
    out: &mut O,
    steps: &mut Steps<L>,
) -> Result<Ending, WriteStop>
    requires { IsSoundDesk desk (test images.old) (test scripts.now) }
    ensures written { (files : List ℕ → Option (List ℕ)) (asked : List (List ℕ)) → IfOk result (IsWritten files
        (desk_script_run (desk_tiles desk.entry) (test scripts.now) (changes images.old)
        (desk_state desk.entry (test images.old)) script.now)
        asked (O.held out.old) (O.held out.new) steps.old steps.new) }
    ensures none_failed { OnOk result (O.faults out.new ≡ O.faults out.old) }
    ensures stop { (files : List ℕ → Option (List ℕ)) (asked : List (List ℕ)) → IfErr result (IsCut files
        (desk_script_run (desk_tiles desk.entry) (test scripts.now) (changes images.old)
        (desk_state desk.entry (test images.old)) script.now)
        asked (O.held out.old) (O.held out.new) steps.old steps.new (O.faults out.old) (O.faults out.new)) }
    ensures changes { changes images.new ≡ changes images.old }
    ensures count { OnOk result (GoesAlong (ImageReportsOfDeskLine (changes images.old)) (script_lines script.now)
        (tell_count images.old) (tell_count images.new)) }
    ensures count_failed { OnErr result
        (GoesPartway (ImageReportsOfDeskLine (changes images.old)) (script_lines script.now)
        (tell_count images.old) (tell_count images.new)) }
    ensures images { OnOk result (GoesAlong (ImagesOfDeskLine (changes images.old)) (script_lines script.now)
        (test images.old) (test images.new)) }
    ensures images_failed { OnErr result (GoesPartway (ImagesOfDeskLine (changes images.old)) (script_lines script.now)
        (test images.old) (test images.new)) }
{
    let mut desk = desk;
    let mut any = false;
    let mut number: usize = 1;
    let mut rest = script;
    while let Some((line, behind)) = next_line(rest) {
        let line = ScriptLine {
            number,
            bytes: line,
        };
        let Ok(answer) = answer_line(&mut desk, &line, images, scripts, steps) else {
            return Err(WriteStop::NoMemory);
        };
        match write_pieces(answer.view.as_slice(), answer.text.as_slice(), out) {
            Ok(()) => {}
            Err(_) => return Err(WriteStop::Unwritten),
        }
        any = any || answer.is_refused;
        number += 1;
        rest = behind;
    }
    Ok(ending_by(any))
}

// Writes a piece of what standard output is to hold, and another one after it.
fn write_pieces<O: Sink>(first: &[u8], second: &[u8], out: &mut O) -> Result<(), SinkFailed>
    ensures ok { OnOk result (Gains (O.held out.old) (O.held out.new) (first.now ++ second.now)) }
    ensures none_failed { OnOk result (O.faults out.new ≡ O.faults out.old) }
    ensures err { OnErr result (GainsPrefix (O.held out.old) (O.held out.new) (first.now ++ second.now)) }
    ensures one_failed { OnErr result
        ((0 < length (first.now ++ second.now)) × (O.faults out.new ≡ raised (O.faults out.old))) }
{
    write_piece(first, out)?;
    write_piece(second, out)
}

// The answer to the line of this number.
fn answer_line<L: Ledger>(
    desk: &mut Desk<'_>,
    line: &ScriptLine<'_>,
    images: &mut dyn HostOp,
    scripts: &dyn HostOp,
    steps: &mut Steps<L>,
) -> Result<DeskLineAnswer, AllocError>
    requires { IsSoundDesk desk.old (test images.old) (test scripts.now) }
    ensures sound { IsSoundDesk desk.new (test images.new) (test scripts.now) }
    ensures tiles { desk_tiles desk.new ≡ desk_tiles desk.old }
    ensures changes { changes images.new ≡ changes images.old }
    ensures gives { IfOk result
        (λ answer. DeskLineGives (desk_tiles desk.old) (test scripts.now) steps.old steps.new (changes images.old)
        line.now.number (desk_state desk.old (test images.old)) line.now.bytes.now
        (desk_line_seen (desk_state desk.new (test images.new)) answer)) }
    ensures most { OnErr result (StepsAreOfDeskLine (desk_tiles desk.old) (test scripts.now) steps.old steps.new
        (desk_state desk.old (test images.old)) line.now.bytes.now) }
    ensures count { OnOk result (ImageReportsOfDeskLine (changes images.old) line.now.bytes.now
        (tell_count images.old) (tell_count images.new)) }
    ensures count_failed { OnErr result ((tell_count images.new ≡ tell_count images.old)
        ⊎ ImageReportsOfDeskLine (changes images.old) line.now.bytes.now (tell_count images.old)
        (tell_count images.new)) }
    ensures images_failed { OnErr result ((test images.new ≡ test images.old)
        ⊎ ImagesOfDeskLine (changes images.old) line.now.bytes.now (test images.old) (test images.new)) }
{
    let answer = desk.line(line.bytes, images, scripts, steps)?;
    line_answer(desk.alloc(), line.number, answer)
}
