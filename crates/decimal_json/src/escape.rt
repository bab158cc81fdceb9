ghost use Rattle.std.specs.Prelude.{◌≡◌, ◌≤◌, ◌<◌, ℕ, List, [], ◌∷◌, ◌==◌, length, Some, IfOk, IfSome};
ghost use Rattle.json_tokens.specs.RunLengths.{first_of};
ghost use Rattle.json_tokens.specs.TextToken.{hex_value, letter_unit};
ghost use Rattle.decimal_json.specs.TextParts.{TakesDigit, TakesEscape, least_digit, most_digit};

use json_tokens::{Cursor, JsonKind};

// The value of a hexadecimal digit.
fn digit_value(byte: u8) -> Option<u32>
    ensures value { result ≡ hex_value byte }
    ensures small { IfSome result (λ digit. digit < 16) }
{
    match byte {
        b'0'..=b'9' => Some(byte as u32 - 48),
        b'A'..=b'F' => Some(byte as u32 - 55),
        b'a'..=b'f' => Some(byte as u32 - 87),
        _ => None,
    }
}

// The code unit of the letter after a reverse solidus.
fn letter_value(byte: u8) -> Option<u32>
    ensures { result ≡ letter_unit byte }
{
    match byte {
        b'"' | b'\\' | b'/' => Some(byte as u32),
        b'b' => Some(8),
        b'f' => Some(12),
        b'n' => Some(10),
        b'r' => Some(13),
        b't' => Some(9),
        _ => None,
    }
}

// Takes the next byte, a digit from `least` to `most`; the rule of surrogates refuses another digit.
fn take_digit(cursor: &mut Cursor<'_>, least: u32, most: u32) -> Result<u32, JsonKind>
    ensures takes { TakesDigit least most cursor.old result cursor.new }
    ensures small { IfOk result (λ digit. digit < 16) }
    ensures shorter { length cursor.new ≤ length cursor.old }
{
    let Some(byte) = cursor.peek() else {
        return Err(JsonKind::Syntax);
    };
    match digit_value(byte) {
        None => Err(JsonKind::Syntax),
        Some(digit) => {
            if digit < least || most < digit {
                return Err(JsonKind::LoneSurrogate);
            }
            cursor.take_front(1);
            Ok(digit)
        }
    }
}

// The least and the greatest digit that may be at this place of a code unit, after digits of this value.
fn digits_at(due: bool, place: u32, front: u32) -> (u32, u32)
    ensures least { result.0 ≡ least_digit due place }
    ensures most { result.1 ≡ most_digit due place front }
{
    match (due, place) {
        (true, 0) => (13, 13),
        (true, 1) => (12, 15),
        (false, 1) if front == 13 => (0, 11),
        _ => (0, 15),
    }
}

// Takes the four digits of a code unit: of a second surrogate where one is due, and else of none.
fn read_unit(cursor: &mut Cursor<'_>, due: Option<u32>) -> Result<u32, JsonKind>
    ensures takes { TakesEscape due (92 ∷ 117 ∷ []) cursor.old result cursor.new }
    ensures small { IfOk result (λ unit. unit < 65536) }
    ensures shorter { length cursor.new ≤ length cursor.old }
{
    let mut unit = 0;
    for place in 0..4 {
        let (least, most) = digits_at(due.is_some(), place, unit);
        match take_digit(cursor, least, most) {
            Ok(digit) => unit = unit * 16 + digit,
            Err(kind) => return Err(kind),
        }
    }
    Ok(unit)
}

// Takes the next escape.
pub fn read_escape(cursor: &mut Cursor<'_>, due: Option<u32>) -> Result<u32, JsonKind>
    requires { first_of cursor.old ≡ Some 92 }
    ensures takes { TakesEscape due [] cursor.old result cursor.new }
    ensures small { IfOk result (λ unit. unit < 65536) }
    ensures shorter { length cursor.new < length cursor.old }
{
    cursor.take_front(1);
    let Some(byte) = cursor.peek() else {
        return Err(JsonKind::Syntax);
    };
    if byte == b'u' {
        cursor.take_front(1);
        return read_unit(cursor, due);
    }
    match letter_value(byte) {
        None => Err(JsonKind::Syntax),
        Some(unit) => {
            if due.is_some() {
                return Err(JsonKind::LoneSurrogate);
            }
            cursor.take_front(1);
            Ok(unit)
        }
    }
}
