ghost use Rattle.std.specs.Prelude.{◌≡◌, ◌≤◌, length, IsTrue, IfOk};
ghost use Rattle.std.specs.Str.{IsAscii};
ghost use Rattle.json_tokens.specs.Number.{is_number};
ghost use Rattle.json_tokens.specs.NumberToken.{SpellsNumber};
ghost use Rattle.json_tokens.specs.Readers.{GivesSurely};

use crate::walk::walk_over;
use json_tokens::{Cursor, JsonKind};

/// Takes the longest number at the cursor, and gives its bytes as they are, at most 64. What follows it is
/// left to the caller. Source: RFC 8259 §6; own for the limit.
///
/// Where no number ends, the cursor is left after the longest front that can still become one, and the
/// answer is `NumberLength` where with the next byte only a longer number could end, and else `Syntax`:
/// also at the end of the bytes, and where the first byte begins no number.
#[inline(always)]
pub fn read_number<'a>(cursor: &mut Cursor<'a>) -> Result<&'a str, JsonKind>
    ensures gives { GivesSurely SpellsNumber (λ t. t.now) cursor.old result cursor.new }
    ensures number { IfOk result (λ t. IsTrue (is_number t.now)) }
    ensures shorter { length cursor.new ≤ length cursor.old }
{
    let walk = walk_over(cursor.rest());
    let taken = cursor.take_front(walk.count);
    match walk.fault {
        None => Ok(ascii_text(taken)),
        Some(kind) => Err(kind),
    }
}

fn ascii_text(bytes: &[u8]) -> &str
    requires { IsAscii bytes.now }
    ensures { result.now ≡ bytes.now }
{
    // ASCII is UTF-8.
    unsafe { std::str::from_utf8_unchecked(bytes) }
}
