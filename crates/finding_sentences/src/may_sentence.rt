ghost use Rattle.std.specs.Prelude.{◌≡◌, ◌++◌, flat_map, OnOk, ◌||◌};
ghost use Rattle.finding_sentences.specs.MaySentence.{fault_sentence, may_sentence, fault_part, opening_of};
ghost use Rattle.style_rules.specs.Findings.{every_fault};
ghost use Rattle.prop_values.specs.Faults.{holds};
ghost use Rattle.decimal_json.specs.View.{tree_of};
ghost use Rattle.prop_values.specs.declared.fault.EvalFault.{EvalFault};

use crate::misspelled::{misspelled_at, write_misspelled};
use decimal_json::{Json, Path};
use prop_values::{EvalFault, FaultSet};
use std::alloc::AllocError;

/// Appends what may go wrong in an evaluation, and what is to be written so that it cannot.
pub fn write_may(
    document: &Json,
    path: &Path,
    faults: FaultSet,
    out: &mut Vec<u8>,
) -> Result<(), AllocError>
    ensures { OnOk result (out.new.items ≡ out.old.items ++ may_sentence (tree_of document.now) path.now faults) }
{
    write_opening(document, path, faults, out)?;
    write_every_fault(faults, out)
}

// First a text that is misspelled, where one may be the cause.
fn write_opening(
    document: &Json,
    path: &Path,
    faults: FaultSet,
    out: &mut Vec<u8>,
) -> Result<(), AllocError>
    ensures { OnOk result (out.new.items
        ≡ out.old.items ++ opening_of (holds faults EvalFault.NotColor || holds faults EvalFault.NotInEnum)
        (tree_of document.now) path.now) }
{
    if faults.holds(EvalFault::NotColor) || faults.holds(EvalFault::NotInEnum) {
        if let Some(misspelled) = misspelled_at(document, path.as_slice()) {
            return write_misspelled(&misspelled, out);
        }
    }
    out.extend_from_slice(b"the evaluation may fail")
}

fn write_every_fault(faults: FaultSet, out: &mut Vec<u8>) -> Result<(), AllocError>
    ensures { OnOk result (out.new.items ≡ out.old.items ++ flat_map (fault_part faults) every_fault) }
{
    let every_fault = [
        EvalFault::WrongType,
        EvalFault::NotColor,
        EvalFault::NotNumberText,
        EvalFault::IndexOutside,
        EvalFault::IndexNotWhole,
        EvalFault::DivideByZero,
        EvalFault::Overflow,
        EvalFault::ColorRange,
        EvalFault::NotOrdered,
        EvalFault::NotInEnum,
    ];
    write_faults(faults, &every_fault, out)
}

fn write_faults(faults: FaultSet, among: &[EvalFault], out: &mut Vec<u8>) -> Result<(), AllocError>
    ensures { OnOk result (out.new.items ≡ out.old.items ++ flat_map (fault_part faults) among.now) }
{
    for fault in among {
        write_fault(faults, *fault, out)?;
    }
    Ok(())
}

fn write_fault(faults: FaultSet, fault: EvalFault, out: &mut Vec<u8>) -> Result<(), AllocError>
    ensures { OnOk result (out.new.items ≡ out.old.items ++ fault_part faults fault) }
{
    if faults.holds(fault) {
        out.extend_from_slice(b"; ")?;
        out.extend_from_slice(fault_sentence(fault).as_bytes())?;
    }
    Ok(())
}

fn fault_sentence(fault: EvalFault) -> &'static str
    ensures { result.now ≡ fault_sentence fault }
{
    match fault {
        EvalFault::WrongType => {
            "a value may have another type, or be missing: [\"number\", X, 0], [\"string\", X, \"\"], [\"boolean\", X, false] or [\"to-color\", X, \"red\"] has a value for that"
        }
        EvalFault::NotColor => {
            "a text may be no color: [\"to-color\", X, \"red\"] has a color for that"
        }
        EvalFault::NotNumberText => {
            "a text may be no number: [\"to-number\", X, 0] has a number for that"
        }
        EvalFault::IndexOutside => "an index may be outside of the list",
        EvalFault::IndexNotWhole => "an index may have a fraction: [\"floor\", X] has none",
        EvalFault::DivideByZero => "a divisor may be 0",
        EvalFault::Overflow => "a number may be past 100000000000000000000",
        EvalFault::ColorRange => "a part of a color may be out of its range",
        EvalFault::NotOrdered => {
            "values that have no order may be compared: [\"number\", X, 0] or [\"string\", X, \"\"] has one"
        }
        EvalFault::NotInEnum => {
            "a text may be none that the property takes: the outputs of a \"match\" are known"
        }
    }
}
