//! Texts with a number each, in an ordered map.

ghost use Rattle.std.specs.Prelude.{◌≡◌, OnOk};
ghost use Rattle.expr_syntax.specs.TextNumbers.{number_of_text, NotesText};

use std::alloc::{AllocError, Global};
use std::boxed::BoxedStr;
use std::collections::BTreeMap;

pub(crate) type TextNumbers = BTreeMap<BoxedStr, usize>;

pub(crate) fn number_of_text(texts: &TextNumbers, text: &str) -> Option<usize>
    ensures { result ≡ number_of_text texts.now text.now }
{
    texts.get(text).copied()
}

/// Gives a text its number, in place of the one that it had.
pub(crate) fn note_text(
    alloc: Global,
    texts: &mut TextNumbers,
    text: &str,
    number: usize,
) -> Result<(), AllocError>
    ensures { OnOk result (NotesText text.now number texts.old texts.new) }
{
    let name = BoxedStr::from_str(alloc, text)?;
    let Ok(_) = texts.insert(name, number) else {
        return Err(AllocError);
    };
    Ok(())
}
