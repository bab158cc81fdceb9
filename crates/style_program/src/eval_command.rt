//! `eval`: what a style shows over tiles.

ghost use Rattle.std.specs.Prelude.{◌≡◌, ℕ, List, Bool, OnOk, IfOk, IfErr};
ghost use Rattle.edit_session.specs.View.{IsSoundSession};
ghost use Rattle.program_runs.specs.FailedReads.{NoneFailed};
ghost use Rattle.program_runs.specs.Progress.{ComesTo, HaltsAt};
ghost use Rattle.style_program.specs.EvalRun.{eval_run};
ghost use Rattle.style_program.specs.PreparedRun.{session_run};
ghost use Rattle.style_program.specs.WordsView.{eval_words};

use crate::loading::{open_shown, read_shown};
use crate::words::EvalRequest;
use edit_session::{CELL_LIMIT, Session};
use outside_io::Files;
use program_runs::RunHalt;
use std::alloc::Global;

/// The style of `eval`, opened over its tiles, or why it is refused. Files are read in the order of the words, and the
/// style is opened after that.
pub fn open_eval<'a, F: Files>(
    alloc: Global,
    request: &EvalRequest<'a>,
    files: &mut F,
) -> Result<Session<'a>, RunHalt<'a>>
    ensures told { F.told files.new ≡ F.told files.old }
    ensures failed { OnOk result
        (NoneFailed (F.faults files.old) (F.faults files.new) (F.failed files.old) (F.failed files.new)) }
    ensures sound { (images scripts : List ℕ → Bool) → IfOk result (λ session. IsSoundSession session images scripts) }
    ensures on { (images scripts : List ℕ → Bool) → IfOk result (λ session. ComesTo (F.told files.old)
        (eval_run (eval_words request.now) images scripts) (session_run images scripts session)
        (F.asked files.old) (F.asked files.new)) }
    ensures halt { (images scripts : List ℕ → Bool) → IfErr result (λ halt. HaltsAt (F.told files.old)
        (eval_run (eval_words request.now) images scripts)
        (F.faults files.old) (F.faults files.new) (F.failed files.old) (F.failed files.new)
        (F.asked files.old) (F.asked files.new) halt) }
{
    let shown = read_shown(alloc, request, files)?;
    open_shown(alloc, shown, request.zoom, CELL_LIMIT)
}
