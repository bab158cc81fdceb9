ghost use Rattle.std.specs.Prelude.{◌≡◌, ◌≤◌, ◌+◌, ℕ, Bool, IsTrue, length, take, drop, map, not};
ghost use Rattle.std.specs.List.{list_all, prefix_len};
ghost use Rattle.std.specs.Simd.Lanes.{mask_l};
ghost use Rattle.json_tokens.specs.Runs.{Stops};
ghost use Rattle.json_tokens.specs.Sequence.{is_space};

use std::simd::prelude::*;

/// How many bytes are tested at once.
const LANES: usize = 16;

pub trait ByteClass {
    /// Whether a byte is of the class.
    ghost has: { ℕ → Bool };

    fn has(byte: u8) -> bool
        ensures { result ≡ has byte };

    /// Which of sixteen bytes are not of the class: a bit each, the first byte's lowest.
    fn others(lanes: u8x16) -> u64
        ensures { result ≡ mask_l (map (λ byte. not (has byte)) lanes) };
}

/// How many bytes of the class are at the front: as many as there are.
#[inline(always)]
pub fn run_length<C: ByteClass>(bytes: &[u8]) -> usize
    ensures within { result ≤ length bytes.now }
    ensures front { IsTrue (list_all C.has (take result bytes.now)) }
    ensures stops { Stops C.has (drop result bytes.now) }
{
    pass_blocks::<C>(bytes)
}

// The same, a block at a time. Most runs end within the first.
#[inline(always)]
fn pass_blocks<C: ByteClass>(bytes: &[u8]) -> usize
    ensures { result ≡ prefix_len C.has bytes.now }
{
    let mut at = 0;
    while bytes.len() - at >= LANES {
        let others = C::others(u8x16::from_slice(&bytes[at..]));
        if others != 0 {
            return at + others.trailing_zeros() as usize;
        }
        at += LANES;
    }
    pass_singly::<C>(bytes, at)
}

// The same after the blocks.
fn pass_singly<C: ByteClass>(bytes: &[u8], from: usize) -> usize
    requires { from ≤ length bytes.now }
    ensures { result ≡ from + prefix_len C.has (drop from bytes.now) }
{
    let mut at = from;
    while at < bytes.len() && C::has(bytes[at]) {
        at += 1;
    }
    at
}

pub(crate) struct Spaces;

impl ByteClass for Spaces {
    ghost has = { is_space };

    fn has(byte: u8) -> bool {
        matches!(byte, b' ' | b'\t' | b'\n' | b'\r')
    }

    #[inline(always)]
    fn others(lanes: u8x16) -> u64 {
        (lanes.simd_ne(u8x16::splat(b' '))
            & lanes.simd_ne(u8x16::splat(b'\t'))
            & lanes.simd_ne(u8x16::splat(b'\n'))
            & lanes.simd_ne(u8x16::splat(b'\r'))).to_bitmask()
    }
}
