//! The lines of a style.

ghost use Rattle.std.specs.Prelude.{◌≡◌, ◌++◌, length, map, IfOk, OnOk};
ghost use Rattle.decimal_json.specs.View.{tree_of};
ghost use Rattle.text_places.specs.TextPlace.{text_place};
ghost use Rattle.lint_texts.specs.DiagnosticLine.{diagnostic_path, placed_line};
ghost use Rattle.lint_texts.specs.LineText.{line_text};
ghost use Rattle.lint_texts.specs.LintedStyle.{IsLinted, linted_diagnostics, linted_document, linted_seen};
ghost use Rattle.lint_texts.specs.Views.{diagnostic_seen, placed_text};

use crate::counting::{count_errors, count_warnings};
use crate::diagnostic::{BorrowedDiagnostic, diagnostics_of, paths_of};
use crate::form::LintForm;
use crate::line::LintLine;
use crate::linted::{Linted, lint_broken_text, lint_long_file};
use crate::message::write_message;
use crate::writing::write_line;
use decimal_json::{Json, parse};
use std::alloc::{AllocError, Global};
use style_rules::examined;
use text_places::{TextPlace, text_places};

/// The longest style, in bytes.
pub const STYLE_LIMIT: usize = 4_194_304;

/// The lines of a file of these bytes: of a style all that `validate` reports of it; of bytes that are too many or no
/// JSON text one line. Source: own.
pub fn lint_style(
    alloc: Global,
    form: LintForm,
    file: &str,
    bytes: &[u8],
) -> Result<Linted, AllocError>
    ensures { IfOk result (λ linted. IsLinted form file.now bytes.now (linted_seen linted)) }
{
    if bytes.len() > STYLE_LIMIT {
        return lint_long_file(alloc, form, file);
    }
    match parse(alloc, bytes)? {
        Ok(document) => lint_document(alloc, form, file, bytes, &document),
        Err(fault) => lint_broken_text(alloc, form, file, bytes, fault),
    }
}

/// The lines of a style that the text of a file spells. Source: own.
pub fn lint_document(
    alloc: Global,
    form: LintForm,
    file: &str,
    text: &[u8],
    document: &Json,
) -> Result<Linted, AllocError>
    ensures { IfOk result (λ linted. linted_seen linted
        ≡ linted_document form file.now text.now (tree_of document.now)) }
{
    let report = examined(alloc, document)?;
    let diagnostics = diagnostics_of(alloc, &report)?;
    let source = Source {
        form,
        file,
        document,
    };
    lint_diagnostics(alloc, &source, text, diagnostics.as_slice())
}

// A style and its file, and the form of its lines.
#[derive(Clone, Copy)]
struct Source<'a> {
    form: LintForm,
    file: &'a str,
    document: &'a Json,
}

fn lint_diagnostics(
    alloc: Global,
    source: &Source<'_>,
    text: &[u8],
    diagnostics: &[BorrowedDiagnostic<'_>],
) -> Result<Linted, AllocError>
    ensures { IfOk result (λ linted. linted_seen linted ≡ linted_diagnostics source.now.form source.now.file.now
        text.now (tree_of source.now.document.now) (map diagnostic_seen diagnostics.now)) }
{
    let places = places_of(alloc, text, source.document, diagnostics)?;
    let mut lines = Vec::new(alloc);
    write_diagnostics(source, places.as_slice(), diagnostics, &mut lines)?;
    Ok(Linted {
        text: lines,
        errors: count_errors(diagnostics),
        warnings: count_warnings(diagnostics),
    })
}

// The place of each.
fn places_of(
    alloc: Global,
    text: &[u8],
    document: &Json,
    diagnostics: &[BorrowedDiagnostic<'_>],
) -> Result<Vec<TextPlace>, AllocError>
    ensures { IfOk result (λ places. places.items
        ≡ map (text_place text.now (tree_of document.now))
        (map diagnostic_path (map diagnostic_seen diagnostics.now))) }
{
    let paths = paths_of(alloc, diagnostics)?;
    text_places(alloc, text, document, paths.as_slice())
}

// The line of each at its place.
fn write_diagnostics(
    source: &Source<'_>,
    places: &[TextPlace],
    diagnostics: &[BorrowedDiagnostic<'_>],
    out: &mut Vec<u8>,
) -> Result<(), AllocError>
    requires { length places.now ≡ length diagnostics.now }
    ensures { OnOk result (out.new.items ≡ out.old.items
        ++ placed_text source.now.form source.now.file.now (tree_of source.now.document.now)
        places.now (map diagnostic_seen diagnostics.now)) }
{
    let mut at = 0;
    for place in places {
        write_diagnostic(source, *place, &diagnostics[at], out)?;
        at += 1;
    }
    Ok(())
}

fn write_diagnostic(
    source: &Source<'_>,
    place: TextPlace,
    diagnostic: &BorrowedDiagnostic<'_>,
    out: &mut Vec<u8>,
) -> Result<(), AllocError>
    ensures { OnOk result (out.new.items ≡ out.old.items
        ++ line_text source.now.form source.now.file.now
        (placed_line (tree_of source.now.document.now) place (diagnostic_seen diagnostic.now))) }
{
    let mut message = Vec::new(*out.allocator());
    write_message(source.document, diagnostic, &mut message)?;
    let line = LintLine {
        severity: diagnostic.severity(),
        place,
        message: message.as_slice(),
    };
    write_line(source.form, source.file, &line, out)
}
