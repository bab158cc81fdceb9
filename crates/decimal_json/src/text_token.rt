ghost use Rattle.std.specs.Prelude.{◌≡◌, ◌≤◌, length, Some, string_bytes, IsUtf8};
ghost use Rattle.json_tokens.specs.RunLengths.{first_of};
ghost use Rattle.json_tokens.specs.TextReaders.{GivesText};
ghost use Rattle.decimal_json.specs.Follows.{Closes};

use crate::piece::read_piece;
use crate::plain_text::plain_length;
use halts::Halt;
use json_tokens::{Cursor, JsonKind};
use shared_text::Text;
use std::alloc::Global;

/// Reads what follows the quotation mark that opens a JSON string, its closing mark included.
/// Source: RFC 8259 §7 and §8.
///
/// An escape becomes its character, and a pair of surrogates becomes one. A fault is of the kind
/// `Syntax`, `Utf8` or `LoneSurrogate`; the cursor then is at the first byte with which no text goes
/// on, or at the end of the bytes. When allocation fails, no clause says where it is.
#[inline(always)]
pub fn read_text(alloc: Global, cursor: &mut Cursor<'_>) -> Result<Text, Halt<JsonKind>>
    ensures gives { GivesText (λ t. t) cursor.old result cursor.new }
    ensures shorter { length cursor.new ≤ length cursor.old }
{
    match plain_length(cursor) {
        Some(count) => {
            let text = cursor.text(count)?;
            cursor.take_front(count + 1);
            Ok(text)
        }
        None => Ok(Text::of(read_escaped(alloc, cursor)?)?),
    }
}

// The same, of any text.
#[inline(never)]
fn read_escaped(alloc: Global, cursor: &mut Cursor<'_>) -> Result<String, Halt<JsonKind>>
    ensures gives { GivesText string_bytes cursor.old result cursor.new }
    ensures shorter { length cursor.new ≤ length cursor.old }
{
    let mut text: Vec<u8> = Vec::new(alloc);
    let mut due = None;
    loop {
        let Some(byte) = cursor.peek() else {
            return Err(Halt::Fault(JsonKind::Syntax));
        };
        if byte == b'"' {
            return close(cursor, text, due);
        }
        match read_piece(cursor, &mut text, due, byte) {
            Ok(next_due) => due = next_due,
            Err(halt) => return Err(halt),
        }
    }
}

// Takes the closing mark.
fn close(cursor: &mut Cursor<'_>, text: Vec<u8>, due: Option<u32>) -> Result<String, Halt<JsonKind>>
    requires first { first_of cursor.old ≡ Some 34 }
    requires utf8 { IsUtf8 text.items }
    ensures closes { Closes due text.items cursor.old string_bytes result cursor.new }
    ensures shorter { length cursor.new ≤ length cursor.old }
{
    if due.is_some() {
        return Err(Halt::Fault(JsonKind::LoneSurrogate));
    }
    cursor.take_front(1);
    match String::from_utf8(text) {
        Ok(text) => Ok(text),
        Err(_) => unreachable!(),
    }
}
