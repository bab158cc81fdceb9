//! What a line says.

ghost use Rattle.std.specs.Prelude.{◌≡◌, ◌++◌, codes, OnOk};
ghost use Rattle.decimal_json.specs.View.{tree_of};
ghost use Rattle.style_rules.specs.Findings.{every_fault};
ghost use Rattle.prop_values.specs.Faults.{fault_name};
ghost use Rattle.lint_texts.specs.DiagnosticLine.{diagnostic_sentence, fault_names, message};
ghost use Rattle.lint_texts.specs.Diagnostics.{may};
ghost use Rattle.lint_texts.specs.Views.{diagnostic_seen};

use crate::diagnostic::BorrowedDiagnostic;
use decimal_json::{Json, Path};
use finding_sentences::{write_may, write_sentence, write_subject};
use prop_values::{EvalFault, FaultSet};
use std::alloc::AllocError;

/// Appends what the line of a diagnostic says: what it is about, and its sentence.
pub(crate) fn write_message(
    document: &Json,
    diagnostic: &BorrowedDiagnostic<'_>,
    out: &mut Vec<u8>,
) -> Result<(), AllocError>
    ensures { OnOk result (out.new.items ≡ out.old.items
        ++ message (tree_of document.now) (diagnostic_seen diagnostic.now)) }
{
    write_subject(document, diagnostic.path(), out)?;
    out.extend_from_slice(b": ")?;
    write_diagnostic(document, diagnostic, out)?;
    Ok(())
}

fn write_diagnostic(
    document: &Json,
    diagnostic: &BorrowedDiagnostic<'_>,
    out: &mut Vec<u8>,
) -> Result<(), AllocError>
    ensures { OnOk result (out.new.items ≡ out.old.items
        ++ diagnostic_sentence (tree_of document.now) (diagnostic_seen diagnostic.now)) }
{
    match diagnostic {
        BorrowedDiagnostic::Finding(path, rule) => write_sentence(document, path, *rule, out),
        BorrowedDiagnostic::Note(_) => out.extend_from_slice(b"not evaluated here [outside]"),
        BorrowedDiagnostic::May(path, faults) => write_warning(document, path, *faults, out),
    }
}

fn write_warning(
    document: &Json,
    path: &Path,
    faults: FaultSet,
    out: &mut Vec<u8>,
) -> Result<(), AllocError>
    ensures { OnOk result (out.new.items ≡ out.old.items
        ++ diagnostic_sentence (tree_of document.now) (may path.now faults)) }
{
    write_may(document, path, faults, out)?;
    write_every_name(faults, out)?;
    out.extend_from_slice(b"]")?;
    Ok(())
}

fn write_every_name(faults: FaultSet, out: &mut Vec<u8>) -> Result<(), AllocError>
    ensures { OnOk result (out.new.items ≡ out.old.items ++ fault_names faults (codes " [") every_fault) }
{
    let every_fault = [
        EvalFault::WrongType,
        EvalFault::NotColor,
        EvalFault::NotNumberText,
        EvalFault::IndexOutside,
        EvalFault::IndexNotWhole,
        EvalFault::DivideByZero,
        EvalFault::Overflow,
        EvalFault::ColorRange,
        EvalFault::NotOrdered,
        EvalFault::NotInEnum,
    ];
    write_names(faults, &every_fault, out)
}

// The names of those that the set has: a bracket before the first, a space before each other.
fn write_names(faults: FaultSet, among: &[EvalFault], out: &mut Vec<u8>) -> Result<(), AllocError>
    ensures { OnOk result (out.new.items ≡ out.old.items ++ fault_names faults (codes " [") among.now) }
{
    let mut before: &[u8] = b" [";
    for fault in among {
        if faults.holds(*fault) {
            write_name(before, *fault, out)?;
            before = b" ";
        }
    }
    Ok(())
}

fn write_name(before: &[u8], fault: EvalFault, out: &mut Vec<u8>) -> Result<(), AllocError>
    ensures { OnOk result (out.new.items ≡ out.old.items ++ before.now ++ fault_name fault) }
{
    out.extend_from_slice(before)?;
    out.extend_from_slice(fault.name().as_bytes())
}
