//! Lines in their forms.

ghost use Rattle.std.specs.Prelude.{◌≡◌, ◌++◌, decimal, flat_map, OnOk};
ghost use Rattle.lint_texts.specs.LineText.{annotation_place, annotation_severity, annotation_text, line_text};
ghost use Rattle.lint_texts.specs.LineText.{message_byte, plain_place, plain_severity, plain_text, property_byte};
ghost use Rattle.lint_texts.specs.Views.{line_seen};

use crate::form::LintForm;
use crate::line::{LintLine, Severity};
use itoa::Buffer;
use std::alloc::AllocError;
use text_places::TextPlace;

/// Appends a line of a file.
pub(crate) fn write_line(
    form: LintForm,
    file: &str,
    line: &LintLine<'_>,
    out: &mut Vec<u8>,
) -> Result<(), AllocError>
    ensures { OnOk result (out.new.items ≡ out.old.items ++ line_text form file.now (line_seen line.now)) }
{
    match form {
        LintForm::Plain => write_plain(file, line, out),
        LintForm::Annotations => write_annotation(file, line, out),
    }
}

fn write_plain(file: &str, line: &LintLine<'_>, out: &mut Vec<u8>) -> Result<(), AllocError>
    ensures { OnOk result (out.new.items ≡ out.old.items ++ plain_text file.now (line_seen line.now)) }
{
    write_plain_place(file, line.place, out)?;
    out.extend_from_slice(plain_severity(line.severity).as_bytes())?;
    out.extend_from_slice(b": ")?;
    out.extend_from_slice(line.message)?;
    out.extend_from_slice(b"\n")?;
    Ok(())
}

fn write_plain_place(file: &str, place: TextPlace, out: &mut Vec<u8>) -> Result<(), AllocError>
    ensures { OnOk result (out.new.items ≡ out.old.items ++ plain_place file.now place) }
{
    out.extend_from_slice(file.as_bytes())?;
    out.extend_from_slice(b":")?;
    write_count(place.line, out)?;
    out.extend_from_slice(b":")?;
    write_count(place.column, out)?;
    out.extend_from_slice(b": ")?;
    Ok(())
}

fn write_count(count: usize, out: &mut Vec<u8>) -> Result<(), AllocError>
    ensures { OnOk result (out.new.items ≡ out.old.items ++ decimal count) }
{
    let mut digits = Buffer::new();
    out.extend_from_slice(digits.format(count).as_bytes())
}

fn plain_severity(severity: Severity) -> &'static str
    ensures { result.now ≡ plain_severity severity }
{
    match severity {
        Severity::Error => "error",
        Severity::Warning => "warning",
        Severity::Note => "note",
    }
}

fn write_annotation(file: &str, line: &LintLine<'_>, out: &mut Vec<u8>) -> Result<(), AllocError>
    ensures { OnOk result (out.new.items ≡ out.old.items ++ annotation_text file.now (line_seen line.now)) }
{
    out.extend_from_slice(annotation_severity(line.severity).as_bytes())?;
    write_annotation_place(file, line.place, out)?;
    write_message(line.message, out)?;
    out.extend_from_slice(b"\n")?;
    Ok(())
}

fn annotation_severity(severity: Severity) -> &'static str
    ensures { result.now ≡ annotation_severity severity }
{
    match severity {
        Severity::Error => "::error",
        Severity::Warning => "::warning",
        Severity::Note => "::notice",
    }
}

fn write_annotation_place(file: &str, place: TextPlace, out: &mut Vec<u8>) -> Result<(), AllocError>
    ensures { OnOk result (out.new.items ≡ out.old.items ++ annotation_place file.now place) }
{
    out.extend_from_slice(b" file=")?;
    write_property(file.as_bytes(), out)?;
    out.extend_from_slice(b",line=")?;
    write_count(place.line, out)?;
    out.extend_from_slice(b",col=")?;
    write_count(place.column, out)?;
    out.extend_from_slice(b"::")?;
    Ok(())
}

fn write_property(text: &[u8], out: &mut Vec<u8>) -> Result<(), AllocError>
    ensures { OnOk result (out.new.items ≡ out.old.items ++ flat_map property_byte text.now) }
{
    for byte in text {
        write_property_byte(*byte, out)?;
    }
    Ok(())
}

fn write_property_byte(byte: u8, out: &mut Vec<u8>) -> Result<(), AllocError>
    ensures { OnOk result (out.new.items ≡ out.old.items ++ property_byte byte) }
{
    match byte {
        b':' => out.extend_from_slice(b"%3A"),
        b',' => out.extend_from_slice(b"%2C"),
        _ => write_message_byte(byte, out),
    }
}

fn write_message(text: &[u8], out: &mut Vec<u8>) -> Result<(), AllocError>
    ensures { OnOk result (out.new.items ≡ out.old.items ++ flat_map message_byte text.now) }
{
    for byte in text {
        write_message_byte(*byte, out)?;
    }
    Ok(())
}

fn write_message_byte(byte: u8, out: &mut Vec<u8>) -> Result<(), AllocError>
    ensures { OnOk result (out.new.items ≡ out.old.items ++ message_byte byte) }
{
    match byte {
        b'%' => out.extend_from_slice(b"%25"),
        b'\r' => out.extend_from_slice(b"%0D"),
        b'\n' => out.extend_from_slice(b"%0A"),
        _ => {
            out.push(byte)?;
            Ok(())
        }
    }
}
