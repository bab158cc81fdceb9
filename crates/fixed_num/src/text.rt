ghost use Rattle.std.specs.Prelude.{◌≡◌, ◌≤◌, ◌<◌, ◌+◌, ◌^◌, ◌++◌, ◌∷◌, if◌then◌else◌, length, take};
ghost use Rattle.fixed_num.specs.NumberText.{last_digits, without_end_zeros, fraction_text, magnitude_text};

use crate::fixed::ONE;
use crate::rounding::divided;
use itoa::Buffer;

/// Puts the text of a number at the front, and answers where it ends.
pub(crate) fn put_number(out: &mut [u8; 48], negative: bool, magnitude: u128) -> usize
    ensures within { result ≤ 48 }
    ensures text { take result out.new ≡
        (if negative then 45 ∷ magnitude_text magnitude else magnitude_text magnitude) }
{
    if negative {
        out[0] = b'-';
        return put_magnitude(out, 1, magnitude);
    }
    put_magnitude(out, 0, magnitude)
}

// Puts the text of a magnitude in millionths at a place, and answers where it ends.
#[tactic(auto, unfolding(crate::specs::NumberText::magnitude_text))]
fn put_magnitude(out: &mut [u8; 48], at: usize, magnitude: u128) -> usize
    requires { at ≤ 1 }
    ensures within { result ≤ 48 }
    ensures text { take result out.new ≡ take at out.old ++ magnitude_text magnitude }
{
    let (whole, fraction) = divided(magnitude, ONE);
    let mut buffer = Buffer::new();
    let digits = buffer.format(whole).as_bytes();
    put(out, at, digits);
    put_fraction(out, at + digits.len(), fraction as u32)
}

// Puts bytes at a place.
fn put(out: &mut [u8; 48], at: usize, bytes: &[u8])
    requires { at + length bytes.now ≤ 48 }
    ensures { take (at + length bytes.now) out.new ≡ take at out.old ++ bytes.now }
{
    out[at..at + bytes.len()].copy_from_slice(bytes);
}

// Puts the point and the digits of a fraction at a place, or nothing where it is zero.
fn put_fraction(out: &mut [u8; 48], at: usize, millionths: u32) -> usize
    requires room { at + 7 ≤ 48 }
    requires fraction { millionths < 10 ^ 6 }
    ensures within { result ≤ at + 7 }
    ensures text { take result out.new ≡ take at out.old ++ fraction_text millionths }
{
    if millionths == 0 {
        return at;
    }
    out[at] = b'.';
    put_fraction_digits(out, at + 1, millionths)
}

// Puts the six digits of a fraction at a place, without the zeros at the end.
fn put_fraction_digits(out: &mut [u8; 48], from: usize, millionths: u32) -> usize
    requires room { from + 6 ≤ 48 }
    requires fraction { millionths < 10 ^ 6 }
    ensures within { result ≤ from + 6 }
    ensures text { take result out.new ≡
        take from out.old ++ without_end_zeros (last_digits 6 millionths) }
{
    let mut left = millionths;
    let mut unit = 1_000_000u32;
    let mut at = from;
    for i in 0..6u32 {
        if left == 0 {
            break;
        }
        unit /= 10;
        out[at] = b'0' + (left / unit) as u8;
        at += 1;
        left %= unit;
    }
    at
}
