//! The answers that refuse what was read.

ghost use Rattle.std.specs.Prelude.{◌≡◌, IfOk};
ghost use Rattle.program_runs.specs.Progress.{outcome_of};
ghost use Rattle.program_runs.specs.Refusals.{json_kind_name, no_json, too_long};
ghost use Rattle.program_runs.specs.Subjects.{subject_text, subject_number};

use crate::answer::{RunOutput, answer_refused, begin_refusal};
use crate::subject::{Subject, write_number, write_subject};
use decimal_json::{JsonFault, JsonKind};
use itoa::Buffer;
use std::alloc::{AllocError, Global};

/// A file that is longer than it may be.
pub fn too_long(alloc: Global, what: &Subject<'_>) -> Result<RunOutput, AllocError>
    ensures { IfOk result (λ answer. outcome_of answer ≡ too_long (subject_text what.now) (subject_number what.now)) }
{
    let mut line = begin_refusal(alloc)?;
    write_subject(what, &mut line)?;
    line.extend_from_slice(b" TooLong")?;
    write_number(what, &mut line)?;
    answer_refused(alloc, line)
}

/// No JSON text.
pub fn no_json(alloc: Global, what: &Subject<'_>, fault: JsonFault) -> Result<RunOutput, AllocError>
    ensures { IfOk result (λ answer. outcome_of answer ≡ no_json (subject_text what.now) fault.kind fault.at) }
{
    let mut at = Buffer::new();
    let mut line = begin_refusal(alloc)?;
    write_subject(what, &mut line)?;
    line.extend_from_slice(b" json ")?;
    line.extend_from_slice(json_kind_name(fault.kind))?;
    line.extend_from_slice(b" ")?;
    line.extend_from_slice(at.format(fault.at).as_bytes())?;
    answer_refused(alloc, line)
}

fn json_kind_name(kind: JsonKind) -> &'static [u8]
    ensures { result.now ≡ json_kind_name kind }
{
    match kind {
        JsonKind::Syntax => b"Syntax",
        JsonKind::Utf8 => b"Utf8",
        JsonKind::DuplicateKey => b"DuplicateKey",
        JsonKind::Depth => b"Depth",
        JsonKind::NumberLength => b"NumberLength",
        JsonKind::LoneSurrogate => b"LoneSurrogate",
    }
}
