//! A run that was opened: all its reading is done, and it writes its answers piece by piece.

ghost use Rattle.std.specs.Prelude.{◌≡◌, ℕ, List, Option, OnOk, IfOk, IfErr};
ghost use Rattle.edit_session.specs.View.{session_state, tiles_of, IsSoundSession};
ghost use Rattle.program_runs.specs.Progress.{IsCut, IsWritten};
ghost use Rattle.style_program.specs.PreparedRun.{listing_run, opened_run, session_of};

use crate::replay_command::{OpenedScript, answer_lines};
use edit_session::Session;
use halts::Halt;
use host_ops::HostOp;
use outside_io::{Sink, Steps};
use program_runs::{Ending, WriteStop};
use std::sync::ledger::Ledger;

/// A style that was opened over tiles, and what is to be written of it.
#[derive(Drop)]
pub enum OpenedRun<'a> {
    /// Its listing, which ends the run.
    Listing(Session<'a>),
    /// The answers to the lines of a script.
    Script(OpenedScript<'a>),
}

/// Writes what the run answers: a listing while it is made, and the answer to each line of a script before the next
/// line is looked at. Where memory is not enough or a write fails, a prefix of it was written.
pub fn write_answers<O: Sink, L: Ledger>(
    opened: OpenedRun<'_>,
    images: &mut dyn HostOp,
    scripts: &dyn HostOp,
    out: &mut O,
    steps: &mut Steps<L>,
) -> Result<Ending, WriteStop>
    requires { IsSoundSession (session_of opened) (test images.old) (test scripts.now) }
    ensures written { (files : List ℕ → Option (List ℕ)) (asked : List (List ℕ)) → IfOk result (IsWritten files
        (opened_run (test images.old) (test scripts.now) (changes images.old) opened.entry) asked
        (O.held out.old) (O.held out.new) steps.old steps.new) }
    ensures none_failed { OnOk result (O.faults out.new ≡ O.faults out.old) }
    ensures stop { (files : List ℕ → Option (List ℕ)) (asked : List (List ℕ)) → IfErr result (IsCut files
        (opened_run (test images.old) (test scripts.now) (changes images.old) opened.entry) asked
        (O.held out.old) (O.held out.new) steps.old steps.new (O.faults out.old) (O.faults out.new)) }
{
    match opened {
        OpenedRun::Listing(session) => write_listing(session, images, scripts, out, steps),
        OpenedRun::Script(script) => answer_lines(script, images, scripts, out, steps),
    }
}

// Writes the listing of a session that ends with it.
fn write_listing<O: Sink, L: Ledger>(
    session: Session<'_>,
    images: &dyn HostOp,
    scripts: &dyn HostOp,
    out: &mut O,
    steps: &mut Steps<L>,
) -> Result<Ending, WriteStop>
    requires { IsSoundSession session (test images.now) (test scripts.now) }
    ensures written { (files : List ℕ → Option (List ℕ)) (asked : List (List ℕ)) → IfOk result (IsWritten files
        (listing_run (tiles_of session.entry) (test scripts.now) (session_state session.entry (test images.now))) asked
        (O.held out.old) (O.held out.new) steps.old steps.new) }
    ensures none_failed { OnOk result (O.faults out.new ≡ O.faults out.old) }
    ensures stop { (files : List ℕ → Option (List ℕ)) (asked : List (List ℕ)) → IfErr result (IsCut files
        (listing_run (tiles_of session.entry) (test scripts.now) (session_state session.entry (test images.now))) asked
        (O.held out.old) (O.held out.new) steps.old steps.new (O.faults out.old) (O.faults out.new)) }
{
    match session.write_listing(images, scripts, out, steps) {
        Ok(()) => Ok(Ending::Fine),
        Err(Halt::Fault(_)) => Err(WriteStop::Unwritten),
        Err(Halt::NoMemory) => Err(WriteStop::NoMemory),
    }
}
