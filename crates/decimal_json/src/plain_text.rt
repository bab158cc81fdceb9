ghost use Rattle.std.specs.Prelude.{◌≤◌, length, take, IfSome, IsTrue, IsUtf8};
ghost use Rattle.std.specs.List.{list_all};
ghost use Rattle.json_tokens.specs.TextToken.{is_unescaped};
ghost use Rattle.decimal_json.specs.PlainTexts.{IsPlainText};

use crate::chars::{CharFront, find_char};
use crate::piece::PlainAscii;
use json_tokens::{Cursor, run_length};

/// The length of the text that follows an opening mark, where its bytes are unescaped.
#[inline(always)]
pub(crate) fn plain_length(cursor: &Cursor<'_>) -> Option<usize>
    ensures { IfSome result (IsPlainText cursor.now) }
{
    let all = cursor.rest();
    let mut ahead = cursor.fork();
    loop {
        let Some(byte) = ahead.peek() else {
            return None;
        };
        if byte == b'"' {
            return Some(all.len() - ahead.rest().len());
        }
        let count = plain_step(ahead.rest());
        if count == 0 {
            return None;
        }
        ahead.take_front(count);
    }
}

// How many bytes at the front are unescaped: a run of ASCII, or a character.
#[inline(always)]
fn plain_step(bytes: &[u8]) -> usize
    ensures within { result ≤ length bytes.now }
    ensures plain { IsTrue (list_all is_unescaped (take result bytes.now)) }
    ensures utf8 { IsUtf8 (take result bytes.now) }
{
    if bytes.is_empty() || bytes[0] < 0x80 {
        return run_length::<PlainAscii>(bytes);
    }
    match find_char(bytes) {
        CharFront::Whole(count) => count,
        CharFront::Cut(_) => 0,
    }
}
