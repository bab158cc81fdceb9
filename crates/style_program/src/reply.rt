//! The run that is asked for, up to the texts that are to be written or the style that was opened.

ghost use Rattle.std.specs.Prelude.{◌≡◌, ℕ, List, Bool, false, Option, OnErr, OnOk, IfOk, IfErr};
ghost use Rattle.program_runs.specs.FailedReads.{NoneFailed};
ghost use Rattle.program_runs.specs.Progress.{outcome_of, HaltsAt, IsStop};
ghost use Rattle.program_runs.specs.Runs.{HasOutcome, IsFileless};
ghost use Rattle.program_runs.specs.Written.{StepsAreDue};
ghost use Rattle.style_program.specs.Commands.{asked_run, lists_cells};
ghost use Rattle.style_program.specs.EvalRun.{eval_run};
ghost use Rattle.style_program.specs.GenerateRun.{generate_run};
ghost use Rattle.style_program.specs.PreparedRun.{IsPrepared, MayList};
ghost use Rattle.style_program.specs.ReplayRun.{script_kind_run};
ghost use Rattle.style_program.specs.Words.{Eval, Generate, Script};
ghost use Rattle.style_program.specs.WordsView.{answer_asked, asked_by, eval_words, listing_asked, script_words};

use crate::eval_command::open_eval;
use crate::generate_command::answer_generate;
use crate::migrate_command::answer_migrate;
use crate::opened_run::OpenedRun;
use crate::replay_command::open_script;
use crate::simplify_command::answer_simplify;
use crate::tile_command::answer_tile;
use crate::validate_command::answer_validate;
use crate::value_command::answer_value;
use crate::words::{AnswerRequest, EvalRequest, ListingRequest, Request, ScriptRequest};
use host_ops::HostOp;
use lint_runs::answer_lint;
use outside_io::{Files, Steps};
use program_runs::{RunHalt, RunOutput, RunStop, answer_said, answer_usage};
use std::alloc::Global;
use std::sync::ledger::Ledger;

const HELP: &[u8] =
    b"pirgesh checks, upgrades and evaluates MapLibre styles. Every answer is proved.

usage: pirgesh value EXPR
       pirgesh validate STYLE
       pirgesh lint [--github] STYLE ..
       pirgesh migrate STYLE
       pirgesh simplify STYLE
       pirgesh eval STYLE ZOOM [SOURCE=TILE ..]
       pirgesh replay STYLE SCRIPT ZOOM [SOURCE=TILE ..]
       pirgesh desk STYLE SCRIPT [SOURCE=TILE ..]
       pirgesh tile TILE
       pirgesh generate N
       pirgesh --help
       pirgesh --version

  value     the value of an expression as JSON, or error and the fault's name
  validate  the rules that a style breaks and invalid, or what may fail and valid
  lint      what validate reports of 1 to 64 styles, with file, line and column; --github writes annotations
  migrate   a style with its legacy forms as expressions, or the rules that it breaks and invalid
  simplify  a style with the same meaning and less in it, and the filters that no feature passes
  eval      what a style shows at a zoom over tiles of its sources
  replay    the answer to each line of a script, which edits the style and asks for listings
  desk      as replay, for several views of one style, each with a zoom and states of its own
  tile      the layers of a vector tile, their features, and the properties of each feature
  generate  how many lines and bytes replay writes of a style over N features that are made; no file is read

STYLE, SCRIPT and TILE are files, and /dev/stdin is standard input. ZOOM is a number from 0 to 24.
SOURCE names a source of the style. TILE is an uncompressed vector tile. N is from 1 to 100000.
EXPR is one word, so quote it:

  pirgesh value '[\"+\",0.1,0.2]'
  pirgesh validate style.json
  pirgesh eval style.json 14.5 town=tile.mvt
  gzip -dc tile.mvt.gz | pirgesh eval style.json 14.5 town=/dev/stdin

Exit status, and the line on standard error:
  0  everything was written
  1  value gave a fault, the style is invalid, lint found an error, or a line of the script was refused
  2  usage: unknown command or wrong arguments
  3  refused ..: the expression, style, tile or script is not accepted, and why
  4  read NAME: this file could not be read
  5  standard output or standard error could not be written
  6  memory was not enough
  7  an argument is not UTF-8

docs/MESSAGES.md explains each message, and docs/REFERENCE.md is the manual.
";

const VERSION: &[u8] = b"pirgesh 0.1.0\n";

/// A run once all its reading is done. Nothing was written so far.
#[derive(Drop)]
pub enum PreparedRun<'a> {
    /// It has come to its end, and this is to be written.
    Ended(RunOutput),
    /// It has opened a style, whose listing or whose answers to a script are to be written.
    Opened(OpenedRun<'a>),
}

/// The run that is asked for, be it refused, once all its reading is done. Only `generate` counts steps here; of a
/// style that was opened they are counted when its answers are written.
pub fn prepare_run<'a, F: Files, L: Ledger>(
    alloc: Global,
    request: &Request<'a>,
    files: &mut F,
    images: &mut dyn HostOp,
    scripts: &dyn HostOp,
    steps: &mut Steps<L>,
) -> Result<PreparedRun<'a>, RunStop<'a>>
    ensures told { F.told files.new ≡ F.told files.old }
    ensures failed { OnOk result
        (NoneFailed (F.faults files.old) (F.faults files.new) (F.failed files.old) (F.failed files.new)) }
    ensures fileless { IsFileless
        (asked_run (test images.old) (test scripts.now) (changes images.old) (asked_by request.now))
        → files.new ≡ files.old }
    ensures run { IfOk result (IsPrepared (test images.new) (test scripts.now) (changes images.new) (F.told files.old)
        (asked_run (test images.old) (test scripts.now) (changes images.old) (asked_by request.now))
        (F.asked files.old) (F.asked files.new) steps.old steps.new) }
    ensures script { IfOk result (MayList (asked_by request.now)) }
    ensures stop { IfErr result (λ stop. IsStop (F.told files.old)
        (asked_run (test images.old) (test scripts.now) (changes images.old) (asked_by request.now))
        (F.faults files.old) (F.faults files.new) (F.failed files.old) (F.failed files.new) (F.asked files.old)
        (F.asked files.new) stop) }
    ensures due { OnErr result (StepsAreDue (F.told files.old)
        (asked_run (test images.old) (test scripts.now) (changes images.old) (asked_by request.now))
        (F.asked files.old) (F.asked files.new) steps.old steps.new) }
    ensures steps { lists_cells (asked_by request.now) ≡ false → steps.new ≡ steps.old }
{
    match request {
        Request::Answer(answer) => prepare_answer(alloc, answer, files, images, scripts),
        Request::Listing(listing) => {
            prepare_listing(alloc, listing, files, images, scripts, steps)
        }
        Request::Script(script) => prepare_script(alloc, script, files),
    }
}

fn prepare_answer<'a, F: Files>(
    alloc: Global,
    request: &AnswerRequest<'a>,
    files: &mut F,
    images: &mut dyn HostOp,
    scripts: &dyn HostOp,
) -> Result<PreparedRun<'a>, RunStop<'a>>
    ensures told { F.told files.new ≡ F.told files.old }
    ensures failed { OnOk result
        (NoneFailed (F.faults files.old) (F.faults files.new) (F.failed files.old) (F.failed files.new)) }
    ensures fileless { IsFileless
        (asked_run (test images.old) (test scripts.now) (changes images.old) (answer_asked request.now))
        → files.new ≡ files.old }
    ensures run { (then_images : List ℕ → Bool) (then_changes : Bool) (steps : ℕ)
        → IfOk result (IsPrepared then_images (test scripts.now) then_changes
        (F.told files.old)
        (asked_run (test images.old) (test scripts.now) (changes images.old) (answer_asked request.now))
        (F.asked files.old) (F.asked files.new) steps steps) }
    ensures script { IfOk result (MayList (answer_asked request.now)) }
    ensures stop { IfErr result (λ stop. IsStop (F.told files.old)
        (asked_run (test images.old) (test scripts.now) (changes images.old) (answer_asked request.now))
        (F.faults files.old) (F.faults files.new) (F.failed files.old) (F.failed files.new) (F.asked files.old)
        (F.asked files.new) stop) }
{
    match answer_to(alloc, request, files, images, scripts) {
        Ok(answer) => Ok(PreparedRun::Ended(answer)),
        Err(RunHalt::Refused(answer)) => Ok(PreparedRun::Ended(answer)),
        Err(RunHalt::Stopped(stop)) => Err(stop),
    }
}

#[tactic(auto, using(program_runs::proofs::Asked::none_asked))]
fn answer_to<'a, F: Files>(
    alloc: Global,
    request: &AnswerRequest<'a>,
    files: &mut F,
    images: &mut dyn HostOp,
    scripts: &dyn HostOp,
) -> Result<RunOutput, RunHalt<'a>>
    ensures told { F.told files.new ≡ F.told files.old }
    ensures failed { OnOk result
        (NoneFailed (F.faults files.old) (F.faults files.new) (F.failed files.old) (F.failed files.new)) }
    ensures fileless { IsFileless
        (asked_run (test images.old) (test scripts.now) (changes images.old) (answer_asked request.now))
        → files.new ≡ files.old }
    ensures answer { IfOk result (λ answer.
        HasOutcome (F.told files.old)
        (asked_run (test images.old) (test scripts.now) (changes images.old) (answer_asked request.now))
        (F.asked files.old) (F.asked files.new) (outcome_of answer)) }
    ensures halt { IfErr result (λ halt.
        HaltsAt (F.told files.old)
        (asked_run (test images.old) (test scripts.now) (changes images.old) (answer_asked request.now))
        (F.faults files.old) (F.faults files.new) (F.failed files.old) (F.failed files.new) (F.asked files.old)
        (F.asked files.new) halt) }
{
    match request {
        AnswerRequest::Value(expression) => answer_value(alloc, expression, images, scripts),
        AnswerRequest::Validate(style) => answer_validate(alloc, style, files),
        AnswerRequest::Lint(form, styles) => answer_lint(alloc, *form, styles, files),
        AnswerRequest::Migrate(style) => answer_migrate(alloc, style, files),
        AnswerRequest::Simplify(style) => answer_simplify(alloc, style, files),
        AnswerRequest::Tile(tile) => answer_tile(alloc, tile, files),
        AnswerRequest::Help => Ok(answer_said(alloc, HELP)?),
        AnswerRequest::Version => Ok(answer_said(alloc, VERSION)?),
        AnswerRequest::Wrong => Ok(answer_usage(alloc)?),
    }
}

fn prepare_listing<'a, F: Files, L: Ledger>(
    alloc: Global,
    request: &ListingRequest<'a>,
    files: &mut F,
    images: &mut dyn HostOp,
    scripts: &dyn HostOp,
    steps: &mut Steps<L>,
) -> Result<PreparedRun<'a>, RunStop<'a>>
    ensures told { F.told files.new ≡ F.told files.old }
    ensures failed { OnOk result
        (NoneFailed (F.faults files.old) (F.faults files.new) (F.failed files.old) (F.failed files.new)) }
    ensures fileless { IsFileless
        (asked_run (test images.old) (test scripts.now) (changes images.old) (listing_asked request.now))
        → files.new ≡ files.old }
    ensures run { IfOk result (IsPrepared (test images.new) (test scripts.now) (changes images.new) (F.told files.old)
        (asked_run (test images.old) (test scripts.now) (changes images.old) (listing_asked request.now))
        (F.asked files.old) (F.asked files.new) steps.old steps.new) }
    ensures script { IfOk result (MayList (listing_asked request.now)) }
    ensures stop { IfErr result (λ stop. IsStop (F.told files.old)
        (asked_run (test images.old) (test scripts.now) (changes images.old) (listing_asked request.now))
        (F.faults files.old) (F.faults files.new) (F.failed files.old) (F.failed files.new) (F.asked files.old)
        (F.asked files.new) stop) }
    ensures due { OnErr result (StepsAreDue (F.told files.old)
        (asked_run (test images.old) (test scripts.now) (changes images.old) (listing_asked request.now))
        (F.asked files.old) (F.asked files.new) steps.old steps.new) }
{
    match request {
        ListingRequest::Eval(request) => prepare_eval(alloc, request, files),
        ListingRequest::Generate(features) => {
            prepare_generate(alloc, *features, images, scripts, steps)
        }
    }
}

fn prepare_eval<'a, F: Files>(
    alloc: Global,
    request: &EvalRequest<'a>,
    files: &mut F,
) -> Result<PreparedRun<'a>, RunStop<'a>>
    ensures told { F.told files.new ≡ F.told files.old }
    ensures failed { OnOk result
        (NoneFailed (F.faults files.old) (F.faults files.new) (F.failed files.old) (F.failed files.new)) }
    ensures run { (images scripts : List ℕ → Bool) (can_change : Bool) (steps : ℕ)
        → IfOk result (IsPrepared images scripts can_change (F.told files.old)
        (eval_run (eval_words request.now) images scripts)
        (F.asked files.old) (F.asked files.new) steps steps) }
    ensures script { IfOk result (MayList (Eval (eval_words request.now))) }
    ensures stop { (images scripts : List ℕ → Bool) → IfErr result (λ stop. IsStop (F.told files.old)
        (eval_run (eval_words request.now) images scripts)
        (F.faults files.old) (F.faults files.new) (F.failed files.old) (F.failed files.new)
        (F.asked files.old) (F.asked files.new) stop) }
{
    match open_eval(alloc, request, files) {
        Ok(session) => Ok(PreparedRun::Opened(OpenedRun::Listing(session))),
        Err(RunHalt::Refused(answer)) => Ok(PreparedRun::Ended(answer)),
        Err(RunHalt::Stopped(stop)) => Err(stop),
    }
}

fn prepare_generate<'a, L: Ledger>(
    alloc: Global,
    features: u32,
    images: &mut dyn HostOp,
    scripts: &dyn HostOp,
    steps: &mut Steps<L>,
) -> Result<PreparedRun<'a>, RunStop<'a>>
    ensures run { (files : List ℕ → Option (List ℕ)) (asked : List (List ℕ))
        (then_images : List ℕ → Bool) (then_changes : Bool)
        → IfOk result (IsPrepared then_images (test scripts.now) then_changes files
        (generate_run features (test images.old) (test scripts.now) (changes images.old))
        asked asked steps.old steps.new) }
    ensures script { IfOk result (MayList (Generate features)) }
    ensures stop { (files : List ℕ → Option (List ℕ)) (count : ℕ) (failed : Option (List ℕ)) (asked : List (List ℕ))
        → IfErr result (λ stop. IsStop files
        (generate_run features (test images.old) (test scripts.now) (changes images.old))
        count count failed failed asked asked stop) }
    ensures due { (files : List ℕ → Option (List ℕ)) (asked : List (List ℕ)) → OnErr result (StepsAreDue files
        (generate_run features (test images.old) (test scripts.now) (changes images.old))
        asked asked steps.old steps.new) }
{
    match answer_generate(alloc, features, images, scripts, steps) {
        Ok(answer) => Ok(PreparedRun::Ended(answer)),
        Err(RunHalt::Refused(answer)) => Ok(PreparedRun::Ended(answer)),
        Err(RunHalt::Stopped(stop)) => Err(stop),
    }
}

fn prepare_script<'a, F: Files>(
    alloc: Global,
    request: &ScriptRequest<'a>,
    files: &mut F,
) -> Result<PreparedRun<'a>, RunStop<'a>>
    ensures told { F.told files.new ≡ F.told files.old }
    ensures failed { OnOk result
        (NoneFailed (F.faults files.old) (F.faults files.new) (F.failed files.old) (F.failed files.new)) }
    ensures run { (images scripts : List ℕ → Bool) (can_change : Bool) (steps : ℕ)
        → IfOk result (IsPrepared images scripts can_change (F.told files.old)
        (script_kind_run request.now.kind (script_words request.now) images scripts can_change)
        (F.asked files.old) (F.asked files.new) steps steps) }
    ensures script { IfOk result (MayList (Script request.now.kind (script_words request.now))) }
    ensures stop { (images scripts : List ℕ → Bool) (can_change : Bool)
        → IfErr result (λ stop. IsStop (F.told files.old)
        (script_kind_run request.now.kind (script_words request.now) images scripts can_change)
        (F.faults files.old) (F.faults files.new) (F.failed files.old) (F.failed files.new) (F.asked files.old)
        (F.asked files.new) stop) }
{
    match open_script(alloc, request, files) {
        Ok(script) => Ok(PreparedRun::Opened(OpenedRun::Script(script))),
        Err(RunHalt::Refused(answer)) => Ok(PreparedRun::Ended(answer)),
        Err(RunHalt::Stopped(stop)) => Err(stop),
    }
}
