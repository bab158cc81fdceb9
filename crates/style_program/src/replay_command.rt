//! `replay` and `desk`: what a style shows over tiles while a script edits it.

ghost use Rattle.std.specs.Prelude.{◌≡◌, ◌≤◌, ℕ, List, Bool, Option, OnOk, IfOk, IfErr};
ghost use Rattle.edit_session.specs.Opening.{cell_limit};
ghost use Rattle.edit_session.specs.View.{IsSoundSession};
ghost use Rattle.program_runs.specs.FailedReads.{NoneFailed};
ghost use Rattle.program_runs.specs.Progress.{ComesTo, HaltsAt, IsCut, IsWritten};
ghost use Rattle.style_program.specs.PreparedRun.{opened_script_run};
ghost use Rattle.style_program.specs.ReplayRun.{limit_of, script_kind_run};
ghost use Rattle.style_program.specs.WordsView.{script_words};

use crate::loading::{open_shown, read_shown};
use crate::words::{ScriptKind, ScriptRequest};
use edit_session::{CELL_LIMIT, Session};
use host_ops::HostOp;
use outside_io::{Files, Sink, Steps};
use program_runs::{Ending, RunHalt, Subject, WriteStop, read_file};
use script_runs::answer_script;
use std::alloc::Global;
use std::sync::ledger::Ledger;
use view_desk::{DESK_LIMIT, Desk, answer_desk};

/// The longest script, in bytes.
const SCRIPT_LIMIT: usize = 16_777_216;

/// A style that was opened over tiles, and the lines of a script that are to be answered.
#[derive(Drop)]
pub struct OpenedScript<'a> {
    pub kind: ScriptKind,
    pub session: Session<'a>,
    pub script: Vec<u8>,
}

/// The style and the script of `replay` or `desk`. The script is read after the tiles, and the style is opened after
/// that.
pub fn open_script<'a, F: Files>(
    alloc: Global,
    request: &ScriptRequest<'a>,
    files: &mut F,
) -> Result<OpenedScript<'a>, RunHalt<'a>>
    ensures told { F.told files.new ≡ F.told files.old }
    ensures failed { OnOk result
        (NoneFailed (F.faults files.old) (F.faults files.new) (F.failed files.old) (F.failed files.new)) }
    ensures sound { (images scripts : List ℕ → Bool)
        → IfOk result (λ opened. IsSoundSession opened.session images scripts) }
    ensures on { (images scripts : List ℕ → Bool) (can_change : Bool)
        → IfOk result (λ opened. ComesTo (F.told files.old)
        (script_kind_run request.now.kind (script_words request.now) images scripts can_change)
        (opened_script_run images scripts can_change opened)
        (F.asked files.old) (F.asked files.new)) }
    ensures halt { (images scripts : List ℕ → Bool) (can_change : Bool)
        → IfErr result (λ halt. HaltsAt (F.told files.old)
        (script_kind_run request.now.kind (script_words request.now) images scripts can_change)
        (F.faults files.old) (F.faults files.new) (F.failed files.old) (F.failed files.new) (F.asked files.old)
        (F.asked files.new) halt) }
{
    let kind = request.kind;
    let shown = read_shown(alloc, &request.shown, files)?;
    let script = read_file(alloc, &Subject::Script, request.script, SCRIPT_LIMIT, files)?;
    let session = open_shown(alloc, shown, request.shown.zoom, limit_of(kind))?;
    Ok(OpenedScript {
        kind,
        session,
        script,
    })
}

// The most cells that the style may have.
fn limit_of(kind: ScriptKind) -> u64
    ensures limit { result ≡ limit_of kind }
    ensures few { result ≤ cell_limit }
{
    match kind {
        ScriptKind::Replay => CELL_LIMIT,
        ScriptKind::Desk => DESK_LIMIT,
    }
}

/// Writes what each line of the script is answered, before the next line is looked at.
pub fn answer_lines<O: Sink, L: Ledger>(
    opened: OpenedScript<'_>,
    images: &mut dyn HostOp,
    scripts: &dyn HostOp,
    out: &mut O,
    steps: &mut Steps<L>,
) -> Result<Ending, WriteStop>
    requires { IsSoundSession opened.session (test images.old) (test scripts.now) }
    ensures written { (files : List ℕ → Option (List ℕ)) (asked : List (List ℕ)) → IfOk result (IsWritten files
        (opened_script_run (test images.old) (test scripts.now) (changes images.old) opened.entry) asked
        (O.held out.old) (O.held out.new) steps.old steps.new) }
    ensures none_failed { OnOk result (O.faults out.new ≡ O.faults out.old) }
    ensures stop { (files : List ℕ → Option (List ℕ)) (asked : List (List ℕ)) → IfErr result (IsCut files
        (opened_script_run (test images.old) (test scripts.now) (changes images.old) opened.entry) asked
        (O.held out.old) (O.held out.new) steps.old steps.new (O.faults out.old) (O.faults out.new)) }
{
    let OpenedScript {
        kind,
        session,
        script,
    } = opened;
    match kind {
        ScriptKind::Replay => {
            answer_script(session, script.as_slice(), images, scripts, out, steps)
        }
        ScriptKind::Desk => {
            let desk = Desk::new(session);
            answer_desk(desk, script.as_slice(), images, scripts, out, steps)
        }
    }
}
