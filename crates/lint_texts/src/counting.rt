//! How many lines are errors, and how many are warnings.

ghost use Rattle.std.specs.Prelude.{◌≡◌, count_by, map};
ghost use Rattle.lint_texts.specs.LintLine.{is_error, is_warning};
ghost use Rattle.lint_texts.specs.DiagnosticLine.{diagnostic_severity};
ghost use Rattle.lint_texts.specs.Diagnostics.{StyleDiagnostic};
ghost use Rattle.lint_texts.specs.Views.{diagnostic_seen};

use crate::diagnostic::BorrowedDiagnostic;
use crate::line::Severity;

pub(crate) fn count_errors(all: &[BorrowedDiagnostic<'_>]) -> u64
    ensures { result ≡ count_by (λ (d : StyleDiagnostic). is_error (diagnostic_severity d))
        (map diagnostic_seen all.now) }
{
    let mut count = 0;
    for diagnostic in all {
        if is_error(diagnostic.severity()) {
            count += 1;
        }
    }
    count
}

fn is_error(severity: Severity) -> bool
    ensures { result ≡ is_error severity }
{
    match severity {
        Severity::Error => true,
        Severity::Warning => false,
        Severity::Note => false,
    }
}

pub(crate) fn count_warnings(all: &[BorrowedDiagnostic<'_>]) -> u64
    ensures { result ≡ count_by (λ (d : StyleDiagnostic). is_warning (diagnostic_severity d))
        (map diagnostic_seen all.now) }
{
    let mut count = 0;
    for diagnostic in all {
        if is_warning(diagnostic.severity()) {
            count += 1;
        }
    }
    count
}

fn is_warning(severity: Severity) -> bool
    ensures { result ≡ is_warning severity }
{
    match severity {
        Severity::Error => false,
        Severity::Warning => true,
        Severity::Note => false,
    }
}
