ghost use Rattle.std.specs.Prelude.{◌≡◌, ◌≤◌, ◌++◌, IsTrue};
ghost use Rattle.std.specs.Char.{is_ascii_digit};
ghost use Rattle.std.specs.List.{list_all};
ghost use Rattle.fixed_num.specs.Decimal.{value_of, in_range, read_exponent_digits, read_exponent_sign, read_exponent};
ghost use Rattle.fixed_num.specs.Decimal.{read_fraction_digits, read_fraction, read_whole, read_text};

use crate::digits::{are_digits, begins_with, magnitude, split_digits};
use crate::fixed::{Fixed, signed};

/// Why bytes are no number.
#[derive(Clone, Copy, Debug, PartialEq, Eq)]
pub enum NumFault {
    /// The bytes are no JSON number.
    NotNumber,
    /// The number, rounded, is past the bound.
    Range,
}

/// Reads a whole text by the JSON number grammar and rounds its value once to the nearest millionth, halves
/// away from zero. Texts and exponents may have any length. Source: RFC 8259 §6.
#[tactic(auto, unfolding(crate::specs::Decimal::read_text))]
pub fn read_decimal(bytes: &[u8]) -> Result<Fixed, NumFault>
    ensures { result ≡ read_text bytes.now }
{
    if begins_with(bytes, b'-') {
        return whole_from(true, &bytes[1..]);
    }
    whole_from(false, bytes)
}

// The number whose whole part begins the bytes.
#[tactic(auto, unfolding(crate::specs::Decimal::read_whole))]
fn whole_from(negative: bool, bytes: &[u8]) -> Result<Fixed, NumFault>
    ensures { result ≡ read_whole negative bytes.now }
{
    let (whole, rest) = split_digits(bytes);
    if whole.len() == 1 || (whole.len() > 1 && whole[0] != b'0') {
        return fraction_from(negative, whole, rest);
    }
    Err(NumFault::NotNumber)
}

// The number that goes on with a point and a fraction, or without.
#[tactic(auto, unfolding(crate::specs::Decimal::read_fraction))]
fn fraction_from(negative: bool, whole: &[u8], bytes: &[u8]) -> Result<Fixed, NumFault>
    requires { IsTrue (list_all is_ascii_digit whole.now) }
    ensures { result ≡ read_fraction negative whole.now bytes.now }
{
    if begins_with(bytes, b'.') {
        return fraction_digits_from(negative, whole, &bytes[1..]);
    }
    exponent_from(negative, whole, &[], bytes)
}

// The number that goes on with the digits of its fraction.
#[tactic(auto, using(crate::proofs::Decimals::list_all_both), unfolding(crate::specs::Decimal::read_fraction_digits))]
fn fraction_digits_from(negative: bool, whole: &[u8], bytes: &[u8]) -> Result<Fixed, NumFault>
    requires { IsTrue (list_all is_ascii_digit whole.now) }
    ensures { result ≡ read_fraction_digits negative whole.now bytes.now }
{
    let (fraction, rest) = split_digits(bytes);
    if fraction.is_empty() {
        return Err(NumFault::NotNumber);
    }
    exponent_from(negative, whole, fraction, rest)
}

// The number that goes on with an exponent, or ends.
#[tactic(auto, unfolding(crate::specs::Decimal::read_exponent))]
fn exponent_from(
    negative: bool,
    whole: &[u8],
    fraction: &[u8],
    bytes: &[u8],
) -> Result<Fixed, NumFault>
    requires { IsTrue (list_all is_ascii_digit (whole.now ++ fraction.now)) }
    ensures { result ≡ read_exponent negative whole.now fraction.now bytes.now }
{
    if bytes.is_empty() {
        return number(negative, whole, fraction, false, &[]);
    }
    if begins_with(bytes, b'e') || begins_with(bytes, b'E') {
        return exponent_sign_from(negative, whole, fraction, &bytes[1..]);
    }
    Err(NumFault::NotNumber)
}

// The number that goes on after the mark of its exponent.
#[tactic(auto, unfolding(crate::specs::Decimal::read_exponent_sign))]
fn exponent_sign_from(
    negative: bool,
    whole: &[u8],
    fraction: &[u8],
    bytes: &[u8],
) -> Result<Fixed, NumFault>
    requires { IsTrue (list_all is_ascii_digit (whole.now ++ fraction.now)) }
    ensures { result ≡ read_exponent_sign negative whole.now fraction.now bytes.now }
{
    if begins_with(bytes, b'-') {
        return exponent_digits_from(negative, whole, fraction, true, &bytes[1..]);
    }
    if begins_with(bytes, b'+') {
        return exponent_digits_from(negative, whole, fraction, false, &bytes[1..]);
    }
    exponent_digits_from(negative, whole, fraction, false, bytes)
}

// The number that ends with the digits of its exponent.
#[tactic(auto, unfolding(crate::specs::Decimal::read_exponent_digits))]
fn exponent_digits_from(
    negative: bool,
    whole: &[u8],
    fraction: &[u8],
    is_down: bool,
    bytes: &[u8],
) -> Result<Fixed, NumFault>
    requires { IsTrue (list_all is_ascii_digit (whole.now ++ fraction.now)) }
    ensures { result ≡ read_exponent_digits negative whole.now fraction.now is_down bytes.now }
{
    if are_digits(bytes) {
        return number(negative, whole, fraction, is_down, bytes);
    }
    Err(NumFault::NotNumber)
}

// The number of these parts.
#[tactic(auto, unfolding(crate::specs::Decimal::value_of))]
fn number(
    negative: bool,
    whole: &[u8],
    fraction: &[u8],
    is_down: bool,
    exponent: &[u8],
) -> Result<Fixed, NumFault>
    requires { IsTrue (list_all is_ascii_digit (whole.now ++ fraction.now)) }
    ensures { result ≡ value_of negative whole.now fraction.now is_down exponent.now }
{
    in_range(negative, magnitude(whole, fraction, is_down, exponent))
}

// The number of this sign and magnitude, which has to be within the bound.
fn in_range(negative: bool, magnitude: u128) -> Result<Fixed, NumFault>
    ensures { result ≡ in_range negative magnitude }
{
    match signed(negative, magnitude) {
        Ok(number) => Ok(number),
        Err(_) => Err(NumFault::Range),
    }
}
