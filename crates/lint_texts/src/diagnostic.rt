//! What is reported of a style, in the order of the lines of `validate`.

ghost use Rattle.std.specs.Prelude.{◌≡◌, ◌++◌, map, IfOk, OnOk};
ghost use Rattle.style_rules.specs.CodeView.{finding_seen, may_seen};
ghost use Rattle.text_places.specs.Starts.{paths_seen};
ghost use Rattle.lint_texts.specs.DiagnosticLine.{diagnostic_path, diagnostic_severity};
ghost use Rattle.lint_texts.specs.Diagnostics.{diagnostics_by, finding_diagnostic, may_diagnostic, note};
ghost use Rattle.lint_texts.specs.Views.{diagnostic_seen};

use crate::line::Severity;
use decimal_json::Path;
use prop_values::FaultSet;
use std::alloc::{AllocError, Global};
use style_rules::{Finding, MayLine, Report};

/// What is reported of a place.
#[derive(Clone, Copy)]
pub(crate) enum BorrowedDiagnostic<'a> {
    /// It breaks this rule.
    Finding(&'a Path, u8),
    /// It is outside of what is evaluated.
    Note(&'a Path),
    /// Its evaluation may have these faults.
    May(&'a Path, FaultSet),
}

impl<'a> BorrowedDiagnostic<'a> {
    pub(crate) fn path(&self) -> &'a Path
        ensures { result.now ≡ diagnostic_path (diagnostic_seen self.now) }
    {
        match self {
            BorrowedDiagnostic::Finding(path, _) => path,
            BorrowedDiagnostic::Note(path) => path,
            BorrowedDiagnostic::May(path, _) => path,
        }
    }

    pub(crate) fn severity(&self) -> Severity
        ensures { result ≡ diagnostic_severity (diagnostic_seen self.now) }
    {
        match self {
            BorrowedDiagnostic::Finding(_, _) => Severity::Error,
            BorrowedDiagnostic::Note(_) => Severity::Note,
            BorrowedDiagnostic::May(_, _) => Severity::Warning,
        }
    }
}

/// What has a line: the findings; where there are none, the notes and then the may lines.
pub(crate) fn diagnostics_of<'a>(
    alloc: Global,
    report: &'a Report,
) -> Result<Vec<BorrowedDiagnostic<'a>>, AllocError>
    ensures { IfOk result (λ all. map diagnostic_seen all.items
        ≡ diagnostics_by (map finding_seen report.now.findings) report.now.notes
        (map may_seen report.now.may_lines)) }
{
    let mut all = Vec::new(alloc);
    match report.findings.as_slice() {
        [] => {
            add_notes(report.notes.as_slice(), &mut all)?;
            add_may_lines(report.may_lines.as_slice(), &mut all)?;
        }
        findings => add_findings(findings, &mut all)?,
    }
    Ok(all)
}

fn add_findings<'a>(
    findings: &'a [Finding],
    all: &mut Vec<BorrowedDiagnostic<'a>>,
) -> Result<(), AllocError>
    ensures { OnOk result (map diagnostic_seen all.new.items
        ≡ map diagnostic_seen all.old.items ++ map finding_diagnostic (map finding_seen findings.now)) }
{
    for finding in findings {
        all.push(BorrowedDiagnostic::Finding(&finding.path, finding.rule))?;
    }
    Ok(())
}

fn add_notes<'a>(paths: &'a [Path], all: &mut Vec<BorrowedDiagnostic<'a>>) -> Result<(), AllocError>
    ensures { OnOk result (map diagnostic_seen all.new.items
        ≡ map diagnostic_seen all.old.items ++ map note paths.now) }
{
    for path in paths {
        all.push(BorrowedDiagnostic::Note(path))?;
    }
    Ok(())
}

fn add_may_lines<'a>(
    lines: &'a [MayLine],
    all: &mut Vec<BorrowedDiagnostic<'a>>,
) -> Result<(), AllocError>
    ensures { OnOk result (map diagnostic_seen all.new.items
        ≡ map diagnostic_seen all.old.items ++ map may_diagnostic (map may_seen lines.now)) }
{
    for line in lines {
        all.push(BorrowedDiagnostic::May(&line.path, line.faults))?;
    }
    Ok(())
}

/// The path of each.
pub(crate) fn paths_of<'a>(
    alloc: Global,
    all: &[BorrowedDiagnostic<'a>],
) -> Result<Vec<&'a Path>, AllocError>
    ensures { IfOk result (λ paths. paths_seen paths.items ≡ map diagnostic_path (map diagnostic_seen all.now)) }
{
    let mut paths = Vec::with_capacity(alloc, all.len())?;
    for diagnostic in all {
        paths.push(diagnostic.path())?;
    }
    Ok(paths)
}
