//! What is reported of a document, in its three lists.

ghost use Rattle.std.specs.Prelude.{◌≡◌, [], ◌∷◌, ◌++◌, map, not, OnOk, IfOk};
ghost use Rattle.decimal_json.specs.View.{tree_of};
ghost use Rattle.style_rules.specs.CodeView.{finding_seen};
ghost use Rattle.style_rules.specs.Findings.{findings, findings_in, has_faults};
ghost use Rattle.style_rules.specs.Reports.{IsReport, IsReportOf, AddsReport};

use crate::diagnostics::{Diagnostic, Diagnostics};
use crate::document::examine;
use crate::lists::{Finding, Findings, MayLine, MayLines, Paths, Report};
use decimal_json::Json;
use prop_values::{EvalFault, FaultSet};
use std::alloc::{AllocError, Global};

/// All that is reported of a document, found in one walk.
pub fn examined(alloc: Global, document: &Json) -> Result<Report, AllocError>
    ensures { IfOk result (λ report. IsReport (tree_of document.now) report) }
{
    let reports = examine(alloc, document, true)?;
    report_of(alloc, reports)
}

/// The three lists of what is reported.
fn report_of(alloc: Global, reports: Diagnostics) -> Result<Report, AllocError>
    ensures { IfOk result (λ report. IsReportOf reports report) }
{
    let mut report = Report {
        findings: Findings::new(alloc),
        notes: Paths::new(alloc),
        may_lines: MayLines::new(alloc),
    };
    for one in reports.all {
        note(alloc, &mut report, one)?;
    }
    Ok(report)
}

fn note(alloc: Global, report: &mut Report, diagnostic: Diagnostic) -> Result<(), AllocError>
    ensures { OnOk result (AddsReport diagnostic report.old report.new) }
{
    match diagnostic {
        Diagnostic::Finding(path, rule) => report.findings.push(Finding { path, rule }),
        Diagnostic::Note(path) => report.notes.push(path),
        Diagnostic::May(path, faults) => {
            let faults = faults.found(alloc)?;
            if is_empty(faults) {
                return Ok(());
            }
            let path = path.made(alloc)?;
            report.may_lines.push(MayLine { path, faults })
        }
    }
}

fn is_empty(faults: FaultSet) -> bool
    ensures { result ≡ not (has_faults faults) }
{
    !(faults.holds(EvalFault::WrongType)
        || faults.holds(EvalFault::NotColor)
        || faults.holds(EvalFault::NotNumberText)
        || faults.holds(EvalFault::IndexOutside)
        || faults.holds(EvalFault::IndexNotWhole)
        || faults.holds(EvalFault::DivideByZero)
        || faults.holds(EvalFault::Overflow)
        || faults.holds(EvalFault::ColorRange)
        || faults.holds(EvalFault::NotOrdered)
        || faults.holds(EvalFault::NotInEnum))
}

/// The findings of a document: each place that breaks a rule, with the least rule that it breaks, in the
/// order of the text and none below another.
pub fn findings(alloc: Global, document: &Json) -> Result<Findings, AllocError>
    ensures { IfOk result (λ found. map finding_seen found ≡ findings (tree_of document.now)) }
{
    let reports = examine(alloc, document, false)?;
    findings_of(alloc, reports)
}

/// The findings among what is reported. What else is reported is freed, and no faults of functions are looked for.
pub(crate) fn findings_of(alloc: Global, reports: Diagnostics) -> Result<Findings, AllocError>
    ensures { IfOk result (λ found. map finding_seen found ≡ findings_in reports) }
{
    let mut found = Findings::new(alloc);
    for one in reports.all {
        note_finding(&mut found, one)?;
    }
    Ok(found)
}

fn note_finding(found: &mut Findings, diagnostic: Diagnostic) -> Result<(), AllocError>
    ensures { OnOk result (map finding_seen found.new ≡ map finding_seen found.old ++ findings_in (diagnostic ∷ [])) }
{
    match diagnostic {
        Diagnostic::Finding(path, rule) => found.push(Finding { path, rule }),
        Diagnostic::Note(_) => Ok(()),
        Diagnostic::May(_, _) => Ok(()),
    }
}
