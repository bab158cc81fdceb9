ghost use Rattle.std.specs.Prelude.{◌≡◌, ◌≤◌, IsTrue, length, take};
ghost use Rattle.std.specs.List.{list_all};
ghost use Rattle.json_tokens.specs.TextToken.{is_unescaped};

/// How many bytes are tested at once.
pub(crate) const BLOCK: usize = 16;

/// Whether the first bytes of a block are unescaped. There is no branch between their tests, so that they are
/// tested at once.
#[inline(always)]
pub(crate) fn is_front_unescaped(block: &[u8], count: u8) -> bool
    requires whole { length block.now ≡ 16 }
    requires within { count ≤ 16 }
    ensures { result ≡ list_all is_unescaped (take count block.now) }
{
    let mut plain = true;
    for index in 0..BLOCK as u8 {
        plain = plain & ((index >= count) | is_unescaped(block[index as usize]));
    }
    plain
}

// Whether all of the bytes are unescaped. There is no branch between their tests, so that blocks are tested
// at once.
fn are_unescaped(block: &[u8]) -> bool
    ensures { result ≡ list_all is_unescaped block.now }
{
    let mut plain = true;
    for byte in block {
        plain = plain & is_unescaped(*byte);
    }
    plain
}

/// Whether all of the bytes are unescaped. The last block overlaps the one before it, so that no byte is
/// tested alone.
pub(crate) fn is_plain(bytes: &[u8]) -> bool
    ensures { IsTrue result → IsTrue (list_all is_unescaped bytes.now) }
{
    let count = bytes.len();
    if count >= BLOCK {
        count - unescaped_blocks(bytes) < BLOCK && are_unescaped(&bytes[count - BLOCK..])
    } else if count >= 8 {
        are_unescaped(&bytes[..8]) && are_unescaped(&bytes[count - 8..])
    } else if count >= 4 {
        are_unescaped(&bytes[..4]) && are_unescaped(&bytes[count - 4..])
    } else {
        are_unescaped(bytes)
    }
}

// How many bytes at the front are unescaped in whole blocks.
fn unescaped_blocks(bytes: &[u8]) -> usize
    ensures within { result ≤ length bytes.now }
    ensures plain { IsTrue (list_all is_unescaped (take result bytes.now)) }
{
    let mut at = 0;
    while bytes.len() - at >= BLOCK && are_unescaped(&bytes[at..at + BLOCK]) {
        at += BLOCK;
    }
    at
}

/// How many bytes at the front are unescaped.
pub(crate) fn unescaped_length(bytes: &[u8]) -> usize
    ensures within { result ≤ length bytes.now }
    ensures plain { IsTrue (list_all is_unescaped (take result bytes.now)) }
{
    let mut at = unescaped_blocks(bytes);
    while at < bytes.len() && is_unescaped(bytes[at]) {
        at += 1;
    }
    at
}

fn is_unescaped(byte: u8) -> bool
    ensures { result ≡ is_unescaped byte }
{
    byte >= 0x20 && byte != b'"' && byte != b'\\'
}
