ghost use Rattle.std.specs.Prelude.{◌≡◌, ◌≢◌, ◌≤◌, ◌<◌, length, slice_index, Some, None, OnOk};
ghost use Rattle.json_tokens.specs.RunLengths.{first_of};
ghost use Rattle.decimal_json.specs.Follows.{IsDueHigh, MovesOrStops};
ghost use Rattle.decimal_json.specs.Chars.{is_plain_ascii};
ghost use Rattle.decimal_json.specs.TextParts.{cut_kind, due_kind};

use crate::chars::{CharFront, find_char};
use crate::escape::read_escape;
use crate::unit::push_unit;
use halts::Halt;
use json_tokens::{ByteClass, Cursor, JsonKind, run_length};
use std::simd::prelude::*;

// The kind of a fault at a byte that breaks the rule of UTF-8 unless the grammar refuses it anyway.
fn cut_kind(next: Option<u8>) -> JsonKind
    ensures { result ≡ cut_kind next }
{
    match next {
        Some(byte) if byte >= 0x20 => JsonKind::Utf8,
        _ => JsonKind::Syntax,
    }
}

// Takes the next character, of more bytes than one.
fn read_char(cursor: &mut Cursor<'_>, text: &mut Vec<u8>) -> Result<(), Halt<JsonKind>>
    requires some { 0 < length cursor.old }
    requires beyond { 128 ≤ slice_index cursor.old 0 }
    ensures gives { MovesOrStops None cursor.old text.old.items (λ _. None) result cursor.new text.new.items }
    ensures shorter { length cursor.new ≤ length cursor.old }
    ensures moves { OnOk result (length cursor.new < length cursor.old) }
{
    match find_char(cursor.rest()) {
        CharFront::Whole(count) => {
            let bytes = cursor.take_front(count);
            text.extend_from_slice(bytes)?;
            Ok(())
        }
        CharFront::Cut(count) => {
            cursor.take_front(count);
            Err(Halt::Fault(cut_kind(cursor.peek())))
        }
    }
}

// The kind of a fault at a byte that is no escape, where a second surrogate is due.
fn due_kind(byte: u8) -> JsonKind
    ensures { result ≡ due_kind byte }
{
    if byte >= 0x20 && (byte < 0x80 || byte >= 0xC2) && byte <= 0xF4 {
        JsonKind::LoneSurrogate
    } else {
        JsonKind::Syntax
    }
}

// The unescaped bytes of ASCII.
pub(crate) struct PlainAscii;

impl ByteClass for PlainAscii {
    ghost has = { is_plain_ascii };

    fn has(byte: u8) -> bool {
        byte >= 0x20 && byte < 0x80 && byte != b'"' && byte != b'\\'
    }

    #[inline(always)]
    fn others(lanes: u8x16) -> u64 {
        (lanes.simd_lt(u8x16::splat(0x20))
            | lanes.simd_ge(u8x16::splat(0x80))
            | lanes.simd_eq(u8x16::splat(b'"'))
            | lanes.simd_eq(u8x16::splat(b'\\'))).to_bitmask()
    }
}

// Takes the run of bytes of ASCII or the character that is next.
fn read_plain(cursor: &mut Cursor<'_>, text: &mut Vec<u8>, byte: u8) -> Result<(), Halt<JsonKind>>
    requires first { first_of cursor.old ≡ Some byte }
    requires other { byte ≢ 34 }
    requires plain { byte ≢ 92 }
    ensures gives { MovesOrStops None cursor.old text.old.items (λ _. None) result cursor.new text.new.items }
    ensures shorter { length cursor.new ≤ length cursor.old }
    ensures moves { OnOk result (length cursor.new < length cursor.old) }
{
    if byte < 0x20 {
        return Err(Halt::Fault(JsonKind::Syntax));
    }
    if byte >= 0x80 {
        return read_char(cursor, text);
    }
    let count = run_length::<PlainAscii>(cursor.rest());
    let run = cursor.take_front(count);
    text.extend_from_slice(run)?;
    Ok(())
}

// Takes the piece that is next, and writes what it means after the text.
pub fn read_piece(
    cursor: &mut Cursor<'_>,
    text: &mut Vec<u8>,
    due: Option<u32>,
    byte: u8,
) -> Result<Option<u32>, Halt<JsonKind>>
    requires first { first_of cursor.old ≡ Some byte }
    requires other { byte ≢ 34 }
    requires high { IsDueHigh due }
    ensures gives { MovesOrStops due cursor.old text.old.items (λ d. d) result cursor.new text.new.items }
    ensures shorter { length cursor.new ≤ length cursor.old }
    ensures moves { OnOk result (length cursor.new < length cursor.old) }
{
    if byte == b'\\' {
        let unit = read_escape(cursor, due)?;
        return Ok(push_unit(text, due, unit)?);
    }
    if due.is_some() {
        return Err(Halt::Fault(due_kind(byte)));
    }
    read_plain(cursor, text, byte)?;
    Ok(None)
}
