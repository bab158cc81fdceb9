//! `simplify`: a style with the same meaning and less in it.

ghost use Rattle.std.specs.Prelude.{◌≡◌, ◌++◌, flat_map, map, OnOk, IfOk, IfErr};
ghost use Rattle.decimal_json.specs.View.{tree_of};
ghost use Rattle.program_runs.specs.FailedReads.{NoneFailed};
ghost use Rattle.program_runs.specs.Outcome.{said};
ghost use Rattle.program_runs.specs.Progress.{outcome_of, HaltsAt};
ghost use Rattle.program_runs.specs.Runs.{HasOutcome};
ghost use Rattle.style_simplify.specs.SimplifiedStyle.{never_passed, simplified};
ghost use Rattle.style_rules.specs.CodeView.{finding_seen};
ghost use Rattle.style_program.specs.SimplifyRun.{never_line, simplified_or_broken, simplified_text, simplify_outcome};
ghost use Rattle.style_program.specs.SimplifyRun.{simplify_run};

use crate::style_file::STYLE_LIMIT;
use crate::validate_command::answer_broken;
use decimal_json::{Json, Path, write, write_path};
use outside_io::Files;
use program_runs::{Ending, RunHalt, RunOutput, Subject, answer_out, read_json};
use std::alloc::{AllocError, Global};
use style_rules::{Finding, findings};
use style_simplify::simplify;

/// A simplified style and the filters that no feature passes, or the rules that it breaks. The style is of
/// `STYLE_LIMIT` bytes at most.
pub fn answer_simplify<'a, F: Files>(
    alloc: Global,
    name: &'a str,
    files: &mut F,
) -> Result<RunOutput, RunHalt<'a>>
    ensures told { F.told files.new ≡ F.told files.old }
    ensures failed { OnOk result
        (NoneFailed (F.faults files.old) (F.faults files.new) (F.failed files.old) (F.failed files.new)) }
    ensures answer { IfOk result (λ answer. HasOutcome (F.told files.old) (simplify_run name.now)
        (F.asked files.old) (F.asked files.new) (outcome_of answer)) }
    ensures halt { IfErr result (λ halt. HaltsAt (F.told files.old) (simplify_run name.now)
        (F.faults files.old) (F.faults files.new) (F.failed files.old) (F.failed files.new) (F.asked files.old)
        (F.asked files.new) halt) }
{
    let style = read_json(alloc, &Subject::Style, name, STYLE_LIMIT, files)?;
    Ok(answer_style(alloc, &style)?)
}

fn answer_style(alloc: Global, style: &Json) -> Result<RunOutput, AllocError>
    ensures { IfOk result (λ answer. outcome_of answer ≡ simplify_outcome (tree_of style.now)) }
{
    let found = findings(alloc, style)?;
    answer_found(alloc, style, found.as_slice())
}

fn answer_found(alloc: Global, style: &Json, found: &[Finding]) -> Result<RunOutput, AllocError>
    ensures { IfOk result
        (λ answer. outcome_of answer ≡ simplified_or_broken (map finding_seen found.now) (tree_of style.now)) }
{
    match found {
        [] => answer_simplified(alloc, style),
        _ => answer_broken(alloc, found),
    }
}

fn answer_simplified(alloc: Global, style: &Json) -> Result<RunOutput, AllocError>
    ensures { IfOk result (λ answer. outcome_of answer
        ≡ said (simplified_text (simplified (tree_of style.now))
        (never_passed (tree_of style.now) (simplified (tree_of style.now)))) Ending.Fine) }
{
    let simplified = simplify(alloc, style)?;
    let mut out = Vec::new(alloc);
    write(&simplified.document, &mut out)?;
    out.extend_from_slice(b"\n")?;
    write_never(simplified.never.as_slice(), &mut out)?;
    Ok(answer_out(alloc, out, Ending::Fine))
}

fn write_never(paths: &[Path], out: &mut Vec<u8>) -> Result<(), AllocError>
    ensures { OnOk result (out.new.items ≡ out.old.items ++ flat_map never_line paths.now) }
{
    for path in paths {
        write_filter(path, out)?;
    }
    Ok(())
}

fn write_filter(path: &Path, out: &mut Vec<u8>) -> Result<(), AllocError>
    ensures { OnOk result (out.new.items ≡ out.old.items ++ never_line path.now) }
{
    out.extend_from_slice(b"never ")?;
    write_path(path, out)?;
    out.extend_from_slice(b"\n")?;
    Ok(())
}
