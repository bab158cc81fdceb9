//! `validate`: what a style breaks, or what may still go wrong.

ghost use Rattle.std.specs.Prelude.{◌≡◌, ◌++◌, map, flat_map, OnOk, IfOk, IfErr};
ghost use Rattle.decimal_json.specs.View.{tree_of};
ghost use Rattle.program_runs.specs.FailedReads.{NoneFailed};
ghost use Rattle.program_runs.specs.Outcome.{said};
ghost use Rattle.program_runs.specs.Progress.{outcome_of, HaltsAt};
ghost use Rattle.program_runs.specs.Runs.{HasOutcome};
ghost use Rattle.style_rules.specs.CodeView.{finding_seen, may_seen};
ghost use Rattle.style_program.specs.ValidateRun.{validate_run, validate_outcome, outcome_by, broken_text, sound_text};
ghost use Rattle.style_program.specs.ValidateRun.{finding_line, note_line, may_line, fault_word};

use crate::style_file::STYLE_LIMIT;
use decimal_json::{Json, Path, write_path};
use itoa::Buffer;
use outside_io::Files;
use program_runs::{Ending, RunHalt, RunOutput, Subject, answer_out, read_json};
use prop_values::{EvalFault, FaultSet};
use std::alloc::{AllocError, Global};
use style_rules::{Finding, MayLine, Report, examined};

/// The rules that a style breaks; or, where it breaks none, what is not evaluated and what may fail. The style is of
/// `STYLE_LIMIT` bytes at most.
pub fn answer_validate<'a, F: Files>(
    alloc: Global,
    name: &'a str,
    files: &mut F,
) -> Result<RunOutput, RunHalt<'a>>
    ensures told { F.told files.new ≡ F.told files.old }
    ensures failed { OnOk result
        (NoneFailed (F.faults files.old) (F.faults files.new) (F.failed files.old) (F.failed files.new)) }
    ensures answer { IfOk result (λ answer. HasOutcome (F.told files.old) (validate_run name.now)
        (F.asked files.old) (F.asked files.new) (outcome_of answer)) }
    ensures halt { IfErr result (λ halt. HaltsAt (F.told files.old) (validate_run name.now)
        (F.faults files.old) (F.faults files.new) (F.failed files.old) (F.failed files.new) (F.asked files.old)
        (F.asked files.new) halt) }
{
    let style = read_json(alloc, &Subject::Style, name, STYLE_LIMIT, files)?;
    Ok(answer_style(alloc, &style)?)
}

fn answer_style(alloc: Global, style: &Json) -> Result<RunOutput, AllocError>
    ensures { IfOk result (λ answer. outcome_of answer ≡ validate_outcome (tree_of style.now)) }
{
    let report = examined(alloc, style)?;
    answer_report(alloc, &report)
}

fn answer_report(alloc: Global, report: &Report) -> Result<RunOutput, AllocError>
    ensures { IfOk result (λ answer. outcome_of answer
        ≡ outcome_by (map finding_seen report.now.findings) report.now.notes (map may_seen report.now.may_lines)) }
{
    match report.findings.as_slice() {
        [] => answer_sound(alloc, report.notes.as_slice(), report.may_lines.as_slice()),
        findings => answer_broken(alloc, findings),
    }
}

/// The lines of findings, and `invalid`.
pub(crate) fn answer_broken(alloc: Global, findings: &[Finding]) -> Result<RunOutput, AllocError>
    ensures { IfOk result
        (λ answer. outcome_of answer ≡ said (broken_text (map finding_seen findings.now)) Ending.Found) }
{
    let mut out = Vec::new(alloc);
    write_findings(findings, &mut out)?;
    out.extend_from_slice(b"invalid\n")?;
    Ok(answer_out(alloc, out, Ending::Found))
}

fn answer_sound(
    alloc: Global,
    outside: &[Path],
    may_lines: &[MayLine],
) -> Result<RunOutput, AllocError>
    ensures { IfOk result
        (λ answer. outcome_of answer ≡ said (sound_text outside.now (map may_seen may_lines.now)) Ending.Fine) }
{
    let mut out = Vec::new(alloc);
    write_notes(outside, &mut out)?;
    write_may_lines(may_lines, &mut out)?;
    out.extend_from_slice(b"valid\n")?;
    Ok(answer_out(alloc, out, Ending::Fine))
}

fn write_findings(findings: &[Finding], out: &mut Vec<u8>) -> Result<(), AllocError>
    ensures { OnOk result (out.new.items ≡ out.old.items ++ flat_map finding_line (map finding_seen findings.now)) }
{
    for finding in findings {
        write_finding(finding, out)?;
    }
    Ok(())
}

fn write_finding(finding: &Finding, out: &mut Vec<u8>) -> Result<(), AllocError>
    ensures { OnOk result (out.new.items ≡ out.old.items ++ finding_line (finding_seen finding.now)) }
{
    let mut rule = Buffer::new();
    out.extend_from_slice(b"finding ")?;
    write_path(&finding.path, out)?;
    out.extend_from_slice(b" V")?;
    out.extend_from_slice(rule.format(finding.rule).as_bytes())?;
    out.extend_from_slice(b"\n")?;
    Ok(())
}

fn write_notes(paths: &[Path], out: &mut Vec<u8>) -> Result<(), AllocError>
    ensures { OnOk result (out.new.items ≡ out.old.items ++ flat_map note_line paths.now) }
{
    for path in paths {
        write_note(path, out)?;
    }
    Ok(())
}

fn write_note(path: &Path, out: &mut Vec<u8>) -> Result<(), AllocError>
    ensures { OnOk result (out.new.items ≡ out.old.items ++ note_line path.now) }
{
    out.extend_from_slice(b"note ")?;
    write_path(path, out)?;
    out.extend_from_slice(b" outside\n")?;
    Ok(())
}

fn write_may_lines(lines: &[MayLine], out: &mut Vec<u8>) -> Result<(), AllocError>
    ensures { OnOk result (out.new.items ≡ out.old.items ++ flat_map may_line (map may_seen lines.now)) }
{
    for line in lines {
        write_may(line, out)?;
    }
    Ok(())
}

fn write_may(line: &MayLine, out: &mut Vec<u8>) -> Result<(), AllocError>
    ensures { OnOk result (out.new.items ≡ out.old.items ++ may_line (may_seen line.now)) }
{
    let every_fault = [
        EvalFault::WrongType,
        EvalFault::NotColor,
        EvalFault::NotNumberText,
        EvalFault::IndexOutside,
        EvalFault::IndexNotWhole,
        EvalFault::DivideByZero,
        EvalFault::Overflow,
        EvalFault::ColorRange,
        EvalFault::NotOrdered,
        EvalFault::NotInEnum,
    ];
    out.extend_from_slice(b"may ")?;
    write_path(&line.path, out)?;
    write_faults(line.faults, &every_fault, out)?;
    out.extend_from_slice(b"\n")?;
    Ok(())
}

fn write_faults(faults: FaultSet, among: &[EvalFault], out: &mut Vec<u8>) -> Result<(), AllocError>
    ensures { OnOk result (out.new.items ≡ out.old.items ++ flat_map (fault_word faults) among.now) }
{
    for fault in among {
        write_fault(faults, *fault, out)?;
    }
    Ok(())
}

fn write_fault(faults: FaultSet, fault: EvalFault, out: &mut Vec<u8>) -> Result<(), AllocError>
    ensures { OnOk result (out.new.items ≡ out.old.items ++ fault_word faults fault) }
{
    if faults.holds(fault) {
        out.extend_from_slice(b" ")?;
        out.extend_from_slice(fault.name().as_bytes())?;
    }
    Ok(())
}
