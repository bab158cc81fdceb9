ghost use Rattle.std.specs.Prelude.{◌≡◌, ◌≤◌, ◌<◌, ◌&&◌, nat_lt, length, slice_index};
ghost use Rattle.decimal_json.specs.Chars.{begins_char, goes_on, may_follow, IsFound};

// What is at the front of some bytes.
#[derive(Clone, Copy)]
pub enum CharFront {
    // A character of `count` bytes.
    Whole(usize),
    // `count` bytes that begin a character, and with the next byte begin none.
    Cut(usize),
}

// Whether the byte goes on a character after its second byte.
fn goes_on(byte: u8) -> bool
    ensures { result ≡ goes_on byte }
{
    byte >= 0x80 && byte <= 0xBF
}

// Whether the byte may be second after this first one. Source: RFC 3629 §4.
fn may_follow(first: u8, byte: u8) -> bool
    ensures { result ≡ may_follow first byte }
{
    match first {
        0xE0 => byte >= 0xA0 && byte <= 0xBF,
        0xED => byte >= 0x80 && byte <= 0x9F,
        0xF0 => byte >= 0x90 && byte <= 0xBF,
        0xF4 => byte >= 0x80 && byte <= 0x8F,
        _ => goes_on(byte),
    }
}

// Whether the byte begins a character of more bytes than one.
fn begins_char(byte: u8) -> bool
    ensures { result ≡ begins_char byte }
{
    byte >= 0xC2 && byte <= 0xF4
}

// Whether the second byte may follow the first.
fn has_second(bytes: &[u8], first: u8) -> bool
    ensures { result ≡ (nat_lt 1 (length bytes.now) && may_follow first (slice_index bytes.now 1)) }
{
    bytes.len() > 1 && may_follow(first, bytes[1])
}

// Whether a byte at this place goes on a character.
fn has_tail(bytes: &[u8], at: usize) -> bool
    ensures { result ≡ (nat_lt at (length bytes.now) && goes_on (slice_index bytes.now at)) }
{
    at < bytes.len() && goes_on(bytes[at])
}

// The character at the front, of more bytes than one, or the place where it stops.
pub fn find_char(bytes: &[u8]) -> CharFront
    requires some { 0 < length bytes.now }
    requires beyond { 128 ≤ slice_index bytes.now 0 }
    ensures { IsFound bytes.now result }
{
    let first = bytes[0];
    if !begins_char(first) {
        return CharFront::Cut(0);
    }
    if !has_second(bytes, first) {
        return CharFront::Cut(1);
    }
    if first < 0xE0 {
        return CharFront::Whole(2);
    }
    if !has_tail(bytes, 2) {
        return CharFront::Cut(2);
    }
    if first < 0xF0 {
        return CharFront::Whole(3);
    }
    if !has_tail(bytes, 3) {
        return CharFront::Cut(3);
    }
    CharFront::Whole(4)
}
