ghost use Rattle.std.specs.Prelude.{◌≡◌, ◌≤◌, ℕ, None, length, take, drop, true};
ghost use Rattle.std.specs.Bool.{OnTrue};
ghost use Rattle.std.specs.Char.{is_ascii_digit};
ghost use Rattle.decimal_json.specs.Automaton.{next};
ghost use Rattle.decimal_json.specs.declared.phase.Phase.{Phase};
ghost use Rattle.decimal_json.specs.Walk.{IsWalk, LeadsTo, begins_integer, begins_fraction, fault_of};

use crate::phase::Phase;
use json_tokens::{ByteClass, JsonKind, run_length};
use std::simd::prelude::*;

/// How many bytes a number may have.
const MAX_LENGTH: usize = 64;

/// How far a number goes at the front of some bytes, and what is at fault there, if anything is.
#[derive(Clone, Copy)]
pub(crate) struct NumberWalk {
    pub(crate) count: usize,
    pub(crate) fault: Option<JsonKind>,
}

/// Bytes at the front that begin a number, and what they end with.
#[derive(Clone, Copy)]
struct Front {
    count: usize,
    phase: Phase,
}

/// Walks over the bytes for as long as they go on a number that can still end in time.
#[inline(always)]
pub(crate) fn walk_over(bytes: &[u8]) -> NumberWalk
    ensures within { result.count ≤ length bytes.now }
    ensures walks { IsWalk (take result.count bytes.now) (drop result.count bytes.now) result.fault }
{
    walk_on(bytes, plain_front(bytes))
}

// Passes a minus, an integer and its fraction, which most numbers are, without asking the automaton.
#[inline(always)]
fn plain_front(bytes: &[u8]) -> Front
    ensures within { result.count ≤ length bytes.now }
    ensures leads { LeadsTo (take result.count bytes.now) result.phase }
{
    match bytes {
        [b'-', ..] => integer_front(bytes, 1, Phase::Minus),
        _ => integer_front(bytes, 0, Phase::Start),
    }
}

// Passes an integer and its fraction, if there is an integer.
#[inline(always)]
fn integer_front(bytes: &[u8], from: usize, phase: Phase) -> Front
    requires start { from ≤ length bytes.now }
    requires early { from ≤ 1 }
    requires leads { LeadsTo (take from bytes.now) phase }
    requires opens { begins_integer phase ≡ true }
    ensures within { result.count ≤ length bytes.now }
    ensures leads { LeadsTo (take result.count bytes.now) result.phase }
{
    if from == bytes.len() {
        return Front { count: from, phase };
    }
    match bytes[from] {
        b'0' => fraction_front(bytes, from + 1, Phase::Zero),
        b'1'..=b'9' => {
            let count = pass_digits(bytes, from + 1, Phase::Digits);
            fraction_front(bytes, count, Phase::Digits)
        }
        _ => Front { count: from, phase },
    }
}

// Passes a fraction, if there is one.
#[inline(always)]
fn fraction_front(bytes: &[u8], from: usize, phase: Phase) -> Front
    requires start { from ≤ length bytes.now }
    requires leads { LeadsTo (take from bytes.now) phase }
    requires opens { begins_fraction phase ≡ true }
    ensures within { result.count ≤ length bytes.now }
    ensures leads { LeadsTo (take result.count bytes.now) result.phase }
{
    if from < MAX_LENGTH - 1
        && from + 1 < bytes.len()
        && bytes[from] == b'.'
        && bytes[from + 1].is_ascii_digit()
    {
        let count = pass_digits(bytes, from + 2, Phase::Fraction);
        return Front {
            count,
            phase: Phase::Fraction,
        };
    }
    Front { count: from, phase }
}

// Walks on from there, a step of the automaton at a time.
#[inline(always)]
fn walk_on(bytes: &[u8], front: Front) -> NumberWalk
    requires start { front.count ≤ length bytes.now }
    requires leads { LeadsTo (take front.count bytes.now) front.phase }
    ensures within { result.count ≤ length bytes.now }
    ensures walks { IsWalk (take result.count bytes.now) (drop result.count bytes.now) result.fault }
{
    let mut phase = front.phase;
    let mut count = front.count;
    while count < bytes.len() && !ends_number(bytes[count]) {
        let Some(next) = phase.next(bytes[count]) else {
            return stopped(phase, count);
        };
        if count + 1 + next.needed() > MAX_LENGTH {
            return NumberWalk {
                count,
                fault: Some(JsonKind::NumberLength),
            };
        }
        phase = next;
        count = pass_digits(bytes, count + 1, phase);
    }
    stopped(phase, count)
}

// Whether the byte most often ends a number, so that the automaton need not be asked.
#[inline(always)]
fn ends_number(byte: u8) -> bool
    ensures { OnTrue result ((p : Phase) → next p byte ≡ None) }
{
    matches!(byte, b',' | b']' | b'}' | b'\n' | b' ')
}

// Passes the digits from a place on that lead from the phase to itself, as far as a number may go.
#[inline(always)]
fn pass_digits(bytes: &[u8], from: usize, phase: Phase) -> usize
    requires start { from ≤ length bytes.now }
    requires leads { LeadsTo (take from bytes.now) phase }
    ensures order { from ≤ result }
    ensures within { result ≤ length bytes.now }
    ensures leads { LeadsTo (take result bytes.now) phase }
{
    if !phase.repeats() {
        return from;
    }
    from + run_length::<AsciiDigits>(&bytes[from..furthest(bytes)])
}

// How far a number may go in these bytes.
fn furthest(bytes: &[u8]) -> usize
    ensures within { result ≤ length bytes.now }
    ensures short { result ≤ 64 }
    ensures greatest { (n : ℕ) → n ≤ length bytes.now → n ≤ 64 → n ≤ result }
{
    if bytes.len() < MAX_LENGTH {
        bytes.len()
    } else {
        MAX_LENGTH
    }
}

struct AsciiDigits;

impl ByteClass for AsciiDigits {
    ghost has = { is_ascii_digit };

    fn has(byte: u8) -> bool {
        byte.is_ascii_digit()
    }

    #[inline(always)]
    fn others(lanes: u8x16) -> u64 {
        (lanes - u8x16::splat(b'0'))
            .simd_ge(u8x16::splat(10))
            .to_bitmask()
    }
}

// The walk that ends in the phase, since no number goes on from there.
fn stopped(phase: Phase, count: usize) -> NumberWalk
    ensures counted { result.count ≡ count }
    ensures fault { result.fault ≡ fault_of phase }
{
    let fault = if phase.is_whole() {
        None
    } else {
        Some(JsonKind::Syntax)
    };
    NumberWalk { count, fault }
}
