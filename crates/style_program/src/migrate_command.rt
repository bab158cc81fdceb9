//! `migrate`: a style with its legacy forms as expressions.

ghost use Rattle.std.specs.Prelude.{◌≡◌, map, OnOk, IfOk, IfErr};
ghost use Rattle.decimal_json.specs.JsonText.{json_text};
ghost use Rattle.decimal_json.specs.View.{tree_of};
ghost use Rattle.program_runs.specs.FailedReads.{NoneFailed};
ghost use Rattle.program_runs.specs.Outcome.{line, said};
ghost use Rattle.program_runs.specs.Progress.{outcome_of, HaltsAt};
ghost use Rattle.program_runs.specs.Runs.{HasOutcome};
ghost use Rattle.style_migrate.specs.Migrated.{migrated};
ghost use Rattle.style_rules.specs.CodeView.{finding_seen};
ghost use Rattle.style_program.specs.MigrateRun.{migrate_run, migrate_outcome, migrated_or_broken};

use crate::style_file::STYLE_LIMIT;
use crate::validate_command::answer_broken;
use decimal_json::{Json, write};
use outside_io::Files;
use program_runs::{Ending, RunHalt, RunOutput, Subject, answer_out, read_json};
use std::alloc::{AllocError, Global};
use style_migrate::migrate;
use style_rules::{Finding, findings};

/// A style with each legacy form as its expression, or the rules that it breaks. The style is of `STYLE_LIMIT` bytes at
/// most.
pub fn answer_migrate<'a, F: Files>(
    alloc: Global,
    name: &'a str,
    files: &mut F,
) -> Result<RunOutput, RunHalt<'a>>
    ensures told { F.told files.new ≡ F.told files.old }
    ensures failed { OnOk result
        (NoneFailed (F.faults files.old) (F.faults files.new) (F.failed files.old) (F.failed files.new)) }
    ensures answer { IfOk result (λ answer. HasOutcome (F.told files.old) (migrate_run name.now)
        (F.asked files.old) (F.asked files.new) (outcome_of answer)) }
    ensures halt { IfErr result (λ halt. HaltsAt (F.told files.old) (migrate_run name.now)
        (F.faults files.old) (F.faults files.new) (F.failed files.old) (F.failed files.new) (F.asked files.old)
        (F.asked files.new) halt) }
{
    let style = read_json(alloc, &Subject::Style, name, STYLE_LIMIT, files)?;
    Ok(answer_style(alloc, &style)?)
}

fn answer_style(alloc: Global, style: &Json) -> Result<RunOutput, AllocError>
    ensures { IfOk result (λ answer. outcome_of answer ≡ migrate_outcome (tree_of style.now)) }
{
    let found = findings(alloc, style)?;
    answer_found(alloc, style, found.as_slice())
}

fn answer_found(alloc: Global, style: &Json, found: &[Finding]) -> Result<RunOutput, AllocError>
    ensures { IfOk result
        (λ answer. outcome_of answer ≡ migrated_or_broken (map finding_seen found.now) (tree_of style.now)) }
{
    match found {
        [] => answer_migrated(alloc, style),
        _ => answer_broken(alloc, found),
    }
}

fn answer_migrated(alloc: Global, style: &Json) -> Result<RunOutput, AllocError>
    ensures { IfOk result
        (λ answer. outcome_of answer ≡ said (line (json_text (migrated (tree_of style.now)))) Ending.Fine) }
{
    let migrated = migrate(alloc, style)?;
    let mut out = Vec::new(alloc);
    write(&migrated, &mut out)?;
    out.extend_from_slice(b"\n")?;
    Ok(answer_out(alloc, out, Ending::Fine))
}
