//! The answer to `lint`.

ghost use Rattle.std.specs.Prelude.{◌≡◌, ◌++◌, length, map, string_bytes, OnOk, IfOk, IfErr};
ghost use Rattle.lint_texts.specs.LintedStyle.{linted_seen};
ghost use Rattle.lint_runs.specs.LintRun.{counts_line, lint_ending, lint_outcome, lint_run};
ghost use Rattle.program_runs.specs.FailedReads.{NoneFailed};
ghost use Rattle.program_runs.specs.Progress.{outcome_of, HaltsAt};
ghost use Rattle.program_runs.specs.Runs.{HasOutcome, IsFileless};

use crate::styles::lint_styles;
use itoa::Buffer;
use lint_texts::{LintForm, Linted};
use outside_io::Files;
use program_runs::{Ending, RunHalt, RunOutput, answer_out};
use std::alloc::{AllocError, Global};

/// The lines of the styles in these files, in their order, and then a line with their counts. It ends in `Found` where
/// there is an error. Source: own.
pub fn answer_lint<'a, F: Files>(
    alloc: Global,
    form: LintForm,
    names: &'a [String],
    files: &mut F,
) -> Result<RunOutput, RunHalt<'a>>
    ensures told { F.told files.new ≡ F.told files.old }
    ensures fileless { IsFileless (lint_run form (map string_bytes names.now)) → files.new ≡ files.old }
    ensures failed { OnOk result
        (NoneFailed (F.faults files.old) (F.faults files.new) (F.failed files.old) (F.failed files.new)) }
    ensures answer { IfOk result (λ answer. HasOutcome (F.told files.old) (lint_run form (map string_bytes names.now))
        (F.asked files.old) (F.asked files.new) (outcome_of answer)) }
    ensures halt { IfErr result (λ halt. HaltsAt (F.told files.old) (lint_run form (map string_bytes names.now))
        (F.faults files.old) (F.faults files.new) (F.failed files.old) (F.failed files.new) (F.asked files.old)
        (F.asked files.new) halt) }
{
    let styles = lint_styles(alloc, form, names, files)?;
    Ok(answer_linted(alloc, styles.linted, names.len())?)
}

// What is written of so many styles.
fn answer_linted(alloc: Global, linted: Linted, styles: usize) -> Result<RunOutput, AllocError>
    ensures { IfOk result (λ answer. outcome_of answer ≡ lint_outcome styles (linted_seen linted)) }
{
    let ending = lint_ending(linted.errors);
    let mut out = linted.text;
    write_counts(linted.errors, linted.warnings, styles, &mut out)?;
    Ok(answer_out(alloc, out, ending))
}

fn lint_ending(errors: u64) -> Ending
    ensures { result ≡ lint_ending errors }
{
    if errors == 0 {
        Ending::Fine
    } else {
        Ending::Found
    }
}

fn write_counts(
    errors: u64,
    warnings: u64,
    styles: usize,
    out: &mut Vec<u8>,
) -> Result<(), AllocError>
    ensures { OnOk result (out.new.items ≡ out.old.items ++ counts_line errors warnings styles) }
{
    let mut digits = Buffer::new();
    out.extend_from_slice(digits.format(errors).as_bytes())?;
    out.extend_from_slice(b" errors, ")?;
    out.extend_from_slice(digits.format(warnings).as_bytes())?;
    out.extend_from_slice(b" warnings in ")?;
    out.extend_from_slice(digits.format(styles).as_bytes())?;
    out.extend_from_slice(b" styles\n")?;
    Ok(())
}
