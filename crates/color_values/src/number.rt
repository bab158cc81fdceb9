ghost use Rattle.std.specs.Prelude.{◌≡◌, ◌<◌, ◌*◌, ◌^◌, ◌++◌, length, nat_le, IsTrue, IfSome, option_map};
ghost use Rattle.std.specs.Char.{is_ascii_digit};
ghost use Rattle.std.specs.List.{list_all};
ghost use Rattle.fixed_num.specs.Decimal.{number_of};
ghost use Rattle.color_values.specs.ColorNumber.{most_units, number_with, unsigned_at, number_at, percent_at};
ghost use Rattle.color_values.specs.ColorNumber.{is_percent};
ghost use Rattle.color_values.specs.Views.{number_view, HasDigits, IsWithin};

use fixed_num::{are_digits, begins_with, saturated_number, split_digits};

/// A number of a color text: its sign, and its digits before and after the point, any number of them.
#[derive(Clone, Copy)]
pub(crate) struct Number<'a> {
    pub(crate) negative: bool,
    pub(crate) whole: &'a [u8],
    pub(crate) fraction: &'a [u8],
}

/// The number that a text is: an optional sign, and digits, digits `.` digits or `.` digits, at most
/// 10^20. Else `None`.
#[tactic(auto, unfolding(crate::specs::ColorNumber::number_at))]
pub(crate) fn number_at(bytes: &[u8]) -> Option<Number<'_>>
    ensures value { option_map number_view result ≡ number_at bytes.now }
    ensures within { IfSome result (λ n. IsWithin (number_view n)) }
    ensures digits { IfSome result (λ n. HasDigits n) }
{
    if begins_with(bytes, b'-') {
        return unsigned_at(true, &bytes[1..]);
    }
    if begins_with(bytes, b'+') {
        return unsigned_at(false, &bytes[1..]);
    }
    unsigned_at(false, bytes)
}

/// The number of a percentage, a number and `%` at once after it. Else `None`.
#[tactic(auto, unfolding(crate::specs::ColorNumber::percent_at))]
pub(crate) fn percent_at(bytes: &[u8]) -> Option<Number<'_>>
    ensures value { option_map number_view result ≡ percent_at bytes.now }
    ensures digits { IfSome result (λ n. HasDigits n) }
{
    if is_percent(bytes) {
        return number_at(&bytes[..bytes.len() - 1]);
    }
    None
}

/// Whether the text ends with `%`.
pub(crate) fn is_percent(bytes: &[u8]) -> bool
    ensures value { result ≡ is_percent bytes.now }
    ensures some { IsTrue result → 0 < length bytes.now }
{
    bytes.last() == Some(&b'%')
}

// The number of this sign that the text is.
#[tactic(auto, unfolding(crate::specs::ColorNumber::unsigned_at))]
fn unsigned_at(negative: bool, bytes: &[u8]) -> Option<Number<'_>>
    ensures value { option_map number_view result ≡ unsigned_at negative bytes.now }
    ensures within { IfSome result (λ n. IsWithin (number_view n)) }
    ensures digits { IfSome result (λ n. HasDigits n) }
{
    if are_digits(bytes) {
        return number_with(negative, bytes, &[]);
    }
    let (whole, rest) = split_digits(bytes);
    if begins_with(rest, b'.') && are_digits(&rest[1..]) {
        return number_with(negative, whole, &rest[1..]);
    }
    None
}

// The number of this sign and these digits, where it is within the bound.
#[tactic(auto, unfolding(crate::specs::ColorNumber::number_with))]
fn number_with<'a>(negative: bool, whole: &'a [u8], fraction: &'a [u8]) -> Option<Number<'a>>
    requires { IsTrue (list_all is_ascii_digit fraction.now) }
    ensures value { option_map number_view result ≡ number_with negative whole.now fraction.now }
    ensures within { IfSome result (λ n. IsWithin (number_view n)) }
    ensures digits { IfSome result (λ n. HasDigits n) }
{
    if is_within(whole, fraction) {
        return Some(Number {
            negative,
            whole,
            fraction,
        });
    }
    None
}

// The greatest magnitude.
const MOST_UNITS: u128 = 100_000_000_000_000_000_000;

// Whether the exact number of these digits is at most 10^20.
fn is_within(whole: &[u8], fraction: &[u8]) -> bool
    requires { IsTrue (list_all is_ascii_digit fraction.now) }
    ensures { result ≡ nat_le (number_of (whole.now ++ fraction.now)) (most_units * 10 ^ length fraction.now) }
{
    let units = saturated_number(whole);
    units < MOST_UNITS || (units == MOST_UNITS && saturated_number(fraction) == 0)
}
