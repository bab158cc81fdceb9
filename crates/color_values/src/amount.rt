ghost use Rattle.std.specs.Prelude.{◌≡◌, ◌≤◌, ◌<◌, ◌*◌, ◌/◌, ◌^◌, length, min, IfSome};
ghost use Rattle.fixed_num.specs.Decimal.{number_of};
ghost use Rattle.fixed_num.specs.Saturation.{past};
ghost use Rattle.color_values.specs.ColorNumber.{amount, opacity_at, opacity_of};
ghost use Rattle.color_values.specs.Views.{number_view, bytes_of};

use crate::number::{Number, is_percent, number_at, percent_at};
use fixed_num::saturated_number;

/// The magnitude of a number, clamped to at most `most`, times the factor, with the fraction of the exact
/// product dropped. Numbers may have any length.
pub(crate) fn times(number: &Number, most: u128, factor: u128) -> u128
    requires most_is_small { most ≤ past }
    requires factor_is_small { factor < 10 ^ 36 }
    requires fits { factor * most < 10 ^ 38 }
    ensures value { let n = number_view number.now in
        result ≡ factor * min n.digits (most * 10 ^ n.places) / 10 ^ n.places }
    ensures within { result ≤ factor * most }
{
    let whole = saturated_number(number.whole).min(most);
    (factor * whole + fraction_times(number.fraction, factor)).min(factor * most)
}

// The number 0.DIGITS times the factor, with the fraction of the product dropped: the product by hand,
// from the last digit on, of which only the carry is kept.
fn fraction_times(digits: &[u8], factor: u128) -> u128
    requires { factor < 10 ^ 36 }
    ensures value { result ≡ factor * number_of digits.now / 10 ^ length digits.now }
    ensures small { result ≤ 23 * factor }
{
    let mut carry = 0;
    let mut at = digits.len();
    while at > 0 {
        at -= 1;
        carry = (factor * u128::from(digits[at].saturating_sub(b'0')) + carry) / 10;
    }
    carry
}

/// A number clamped to 0 to `most`, in counts of one `unit`-th, rounded to the nearest, a half up.
pub(crate) fn amount(number: &Number, most: u128, unit: u128) -> u128
    requires most_is_small { most ≤ past }
    requires unit_is_small { unit < 10 ^ 30 }
    requires fits { unit * most < 10 ^ 37 }
    ensures value { result ≡ amount most unit (number_view number.now) }
    ensures within { result ≤ unit * most }
{
    if number.negative {
        return 0;
    }
    (times(number, most, 2 * unit) + 1) / 2
}

/// The opacity that a part is, in millionths: a number clamped to 0 to 1, or a percentage clamped to 0 to
/// 100.
#[tactic(auto, unfolding(crate::specs::ColorNumber::opacity_at))]
fn opacity_at(bytes: &[u8]) -> Option<u128>
    ensures value { result ≡ opacity_at bytes.now }
    ensures within { IfSome result (λ a. a ≤ 1000000) }
{
    if is_percent(bytes) {
        return Some(amount(&percent_at(bytes)?, 100, 10_000));
    }
    Some(amount(&number_at(bytes)?, 1, 1_000_000))
}

/// The opacity of the fourth part, in millionths: 1 where there is none.
pub(crate) fn opacity_of(part: Option<&[u8]>) -> Option<u128>
    ensures value { result ≡ opacity_of (bytes_of part.entry) }
    ensures within { IfSome result (λ a. a ≤ 1000000) }
{
    match part {
        None => Some(1_000_000),
        Some(bytes) => opacity_at(bytes),
    }
}
