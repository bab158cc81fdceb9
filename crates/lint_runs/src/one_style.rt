//! The lines of one style.

ghost use Rattle.std.specs.Prelude.{◌≡◌, ℕ, List, Option, option_map, OnOk, IfOk, IfErr};
ghost use Rattle.lint_texts.specs.LintedStyle.{linted_seen};
ghost use Rattle.lint_runs.specs.Counting.{HasLines, IsLintedFile};
ghost use Rattle.lint_runs.specs.LintRun.{bytes_part, lint_part, linted_too_long, most_bytes};
ghost use Rattle.lint_runs.specs.Views.{styles_seen};
ghost use Rattle.program_runs.specs.FailedReads.{NoneFailed};
ghost use Rattle.program_runs.specs.Progress.{GoesOn, Halts};
ghost use Rattle.program_runs.specs.Runs.{may_read};

use decimal_json::parse;
use lint_texts::{
    LintForm, Linted, STYLE_LIMIT, lint_broken_text, lint_document, lint_file_error, lint_long_file,
};
use outside_io::Files;
use program_runs::{RunHalt, may_read_file};
use std::alloc::{AllocError, Global};

/// What is written of styles, and how many bytes those that come may have together.
#[derive(Drop)]
pub(crate) struct LintedStyles {
    pub(crate) linted: Linted,
    pub(crate) left: usize,
}

/// What is written of the style in a file. `left` is how many bytes it may have at most, as far as the styles before it
/// go.
pub(crate) fn lint_one<'a, F: Files>(
    alloc: Global,
    form: LintForm,
    left: usize,
    name: &'a str,
    files: &mut F,
) -> Result<LintedStyles, RunHalt<'a>>
    ensures told { F.told files.new ≡ F.told files.old }
    ensures failed { OnOk result
        (NoneFailed (F.faults files.old) (F.faults files.new) (F.failed files.old) (F.failed files.new)) }
    ensures lines { IfOk result (λ one. HasLines (linted_seen one.linted)) }
    ensures on { IfOk result (λ one. GoesOn (F.told files.old) (lint_part form left name.now)
        (F.asked files.old) (F.asked files.new) (styles_seen one)) }
    ensures halt { IfErr result (λ halt. Halts (F.told files.old) (lint_part form left name.now)
        (F.faults files.old) (F.faults files.new) (F.failed files.old) (F.failed files.new) (F.asked files.old)
        (F.asked files.new) halt) }
{
    let bytes = read_style(alloc, left, name, files)?;
    Ok(lint_read(alloc, form, left, name, bytes)?)
}

// The bytes of a style, or nothing where there are more than a style may have, or than are left for it.
fn read_style<'a, F: Files>(
    alloc: Global,
    left: usize,
    name: &'a str,
    files: &mut F,
) -> Result<Option<Vec<u8>>, RunHalt<'a>>
    ensures told { F.told files.new ≡ F.told files.old }
    ensures failed { OnOk result
        (NoneFailed (F.faults files.old) (F.faults files.new) (F.failed files.old) (F.failed files.new)) }
    ensures on { IfOk result (λ bytes. GoesOn (F.told files.old) (may_read name.now (most_bytes left))
        (F.asked files.old) (F.asked files.new) (option_map (λ read. read.items) bytes)) }
    ensures halt { IfErr result (λ halt. Halts (F.told files.old) (may_read name.now (most_bytes left))
        (F.faults files.old) (F.faults files.new) (F.failed files.old) (F.failed files.new) (F.asked files.old)
        (F.asked files.new) halt) }
{
    may_read_file(alloc, name, most_bytes(left), files)
}

fn most_bytes(left: usize) -> usize
    ensures { result ≡ most_bytes left }
{
    STYLE_LIMIT.min(left)
}

// What is written of a file by its bytes, or of which there are too many.
fn lint_read(
    alloc: Global,
    form: LintForm,
    left: usize,
    file: &str,
    bytes: Option<Vec<u8>>,
) -> Result<LintedStyles, AllocError>
    ensures lines { IfOk result (λ one. HasLines (linted_seen one.linted)) }
    ensures on { (files : List ℕ → Option (List ℕ)) (asked : List (List ℕ)) → IfOk result (λ one. GoesOn files
        (bytes_part form left file.now (option_map (λ read. read.items) bytes)) asked asked (styles_seen one)) }
{
    let Some(bytes) = bytes else {
        let linted = lint_too_long(alloc, form, left, file)?;
        return Ok(LintedStyles { linted, left });
    };
    let linted = lint_bytes(alloc, form, file, bytes.as_slice())?;
    let left = left.saturating_sub(bytes.len());
    Ok(LintedStyles { linted, left })
}

// The line of a file that is longer than a style may be, or than what is left for it.
fn lint_too_long(
    alloc: Global,
    form: LintForm,
    left: usize,
    file: &str,
) -> Result<Linted, AllocError>
    ensures { IfOk result (λ linted. linted_seen linted ≡ linted_too_long form left file.now) }
{
    if left < STYLE_LIMIT {
        lint_file_error(
            alloc,
            form,
            file,
            b"styles: must have at most 33554432 bytes together [TooLong]",
        )
    } else {
        lint_long_file(alloc, form, file)
    }
}

fn lint_bytes(alloc: Global, form: LintForm, file: &str, bytes: &[u8]) -> Result<Linted, AllocError>
    ensures { IfOk result (λ linted. IsLintedFile form file.now bytes.now (linted_seen linted)) }
{
    match parse(alloc, bytes)? {
        Ok(document) => lint_document(alloc, form, file, bytes, &document),
        Err(fault) => lint_broken_text(alloc, form, file, bytes, fault),
    }
}
