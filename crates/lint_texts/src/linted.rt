//! The lines of a file that is no style.

ghost use Rattle.std.specs.Prelude.{◌≡◌, ◌++◌, ◌≤◌, [], ◌∷◌, codes, length, IfOk, OnOk};
ghost use Rattle.text_places.specs.LineColumn.{first_place};
ghost use Rattle.lint_texts.specs.BrokenText.{broken_line, broken_message, kind_name};
ghost use Rattle.lint_texts.specs.LintedStyle.{linted_broken_text, linted_file_error, linted_lines, linted_long_file};
ghost use Rattle.lint_texts.specs.LintedStyle.{linted_seen};
ghost use Rattle.lint_texts.specs.Views.{line_seen};

use crate::form::LintForm;
use crate::line::{LintLine, Severity};
use crate::writing::write_line;
use decimal_json::{JsonFault, JsonKind};
use finding_sentences::text_sentence;
use std::alloc::{AllocError, Global};
use text_places::{TextPlace, byte_place};

/// The text of the lines of a file, and how many of them are errors and warnings.
#[derive(Drop)]
pub struct Linted {
    pub text: Vec<u8>,
    pub errors: u64,
    pub warnings: u64,
}

/// The line of a file that is no JSON text, by the fault. Source: own.
pub fn lint_broken_text(
    alloc: Global,
    form: LintForm,
    file: &str,
    bytes: &[u8],
    fault: JsonFault,
) -> Result<Linted, AllocError>
    requires { fault.at ≤ length bytes.now }
    ensures { IfOk result (λ linted. linted_seen linted
        ≡ linted_broken_text form file.now bytes.now fault.kind fault.at) }
{
    let mut message = Vec::new(alloc);
    let (_, rest) = bytes.split_at(fault.at);
    write_broken_message(fault.kind, rest, &mut message)?;
    lint_error(
        alloc,
        form,
        file,
        byte_place(bytes, fault.at),
        message.as_slice(),
    )
}

fn write_broken_message(kind: JsonKind, rest: &[u8], out: &mut Vec<u8>) -> Result<(), AllocError>
    ensures { OnOk result (out.new.items ≡ out.old.items ++ broken_message kind rest.now) }
{
    out.extend_from_slice(b"no JSON text: ")?;
    out.extend_from_slice(text_sentence(kind, rest).as_bytes())?;
    out.extend_from_slice(b" [")?;
    out.extend_from_slice(kind_name(kind).as_bytes())?;
    out.extend_from_slice(b"]")?;
    Ok(())
}

fn kind_name(kind: JsonKind) -> &'static str
    ensures { result.now ≡ kind_name kind }
{
    match kind {
        JsonKind::Syntax => "Syntax",
        JsonKind::Utf8 => "Utf8",
        JsonKind::DuplicateKey => "DuplicateKey",
        JsonKind::Depth => "Depth",
        JsonKind::NumberLength => "NumberLength",
        JsonKind::LoneSurrogate => "LoneSurrogate",
    }
}

/// The line of a file that is longer than a style may be. Source: own.
pub fn lint_long_file(alloc: Global, form: LintForm, file: &str) -> Result<Linted, AllocError>
    ensures { IfOk result (λ linted. linted_seen linted ≡ linted_long_file form file.now) }
{
    lint_file_error(
        alloc,
        form,
        file,
        b"style: must have at most 4194304 bytes [TooLong]",
    )
}

/// The line of a file of which there is nothing but an error to say. Source: own.
pub fn lint_file_error(
    alloc: Global,
    form: LintForm,
    file: &str,
    message: &[u8],
) -> Result<Linted, AllocError>
    ensures { IfOk result (λ linted. linted_seen linted ≡ linted_file_error form file.now message.now) }
{
    let place = TextPlace { line: 1, column: 1 };
    lint_error(alloc, form, file, place, message)
}

// One line, which is an error.
fn lint_error(
    alloc: Global,
    form: LintForm,
    file: &str,
    place: TextPlace,
    message: &[u8],
) -> Result<Linted, AllocError>
    ensures { IfOk result (λ linted. linted_seen linted
        ≡ linted_lines form file.now
        (record { severity = Severity.Error; place = place; message = message.now } ∷ [])) }
{
    let mut text = Vec::new(alloc);
    let line = LintLine {
        severity: Severity::Error,
        place,
        message,
    };
    write_line(form, file, &line, &mut text)?;
    Ok(Linted {
        text,
        errors: 1,
        warnings: 0,
    })
}
