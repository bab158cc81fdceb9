ghost use Rattle.std.specs.Prelude.{◌≡◌, ◌+◌, ◌<◌, ◌≤◌, length, slice_index, IsTrue, IfSome};
ghost use Rattle.std.specs.Char.{is_ascii_hexdigit};
ghost use Rattle.std.specs.List.{list_all};
ghost use Rattle.color_values.specs.HexColor.{digit_value, doubled, two_digits, color_of_digits, hexadecimal_color};
ghost use Rattle.fixed_num.specs.ColorRange.{IsInRange};

use crate::color::color_of_bytes;
use fixed_num::Color;

/// The color of the hexadecimal digits after a `#`: 3, 4, 6 or 8 of them, else `None`.
#[tactic(auto, unfolding(crate::specs::HexColor::hexadecimal_color))]
pub(crate) fn hexadecimal_color(digits: &[u8]) -> Option<Color>
    ensures value { result ≡ hexadecimal_color digits.now }
    ensures range { IfSome result (λ c. IsInRange c) }
{
    if are_hexadecimal(digits) {
        return color_of_digits(digits);
    }
    None
}

fn are_hexadecimal(bytes: &[u8]) -> bool
    ensures { result ≡ list_all is_ascii_hexdigit bytes.now }
{
    bytes.iter().all(|byte| byte.is_ascii_hexdigit())
}

fn color_of_digits(digits: &[u8]) -> Option<Color>
    requires { IsTrue (list_all is_ascii_hexdigit digits.now) }
    ensures value { result ≡ color_of_digits digits.now }
    ensures range { IfSome result (λ c. IsInRange c) }
{
    match digits.len() {
        3 => Some(color_of_bytes(
            doubled(digits, 0),
            doubled(digits, 1),
            doubled(digits, 2),
            255,
        )),
        4 => Some(color_of_bytes(
            doubled(digits, 0),
            doubled(digits, 1),
            doubled(digits, 2),
            doubled(digits, 3),
        )),
        6 => Some(color_of_bytes(
            two_digits(digits, 0),
            two_digits(digits, 2),
            two_digits(digits, 4),
            255,
        )),
        8 => Some(color_of_bytes(
            two_digits(digits, 0),
            two_digits(digits, 2),
            two_digits(digits, 4),
            two_digits(digits, 6),
        )),
        _ => None,
    }
}

// The byte of the digit at a place, doubled.
fn doubled(digits: &[u8], at: usize) -> u8
    requires digits { IsTrue (list_all is_ascii_hexdigit digits.now) }
    requires within { at < length digits.now }
    ensures { result ≡ doubled digits.now at }
{
    17 * digit_value(digits, at)
}

// The byte of the two digits from a place on.
fn two_digits(digits: &[u8], at: usize) -> u8
    requires digits { IsTrue (list_all is_ascii_hexdigit digits.now) }
    requires within { at + 1 < length digits.now }
    ensures { result ≡ two_digits digits.now at }
{
    16 * digit_value(digits, at) + digit_value(digits, at + 1)
}

// The value of the digit at a place.
fn digit_value(digits: &[u8], at: usize) -> u8
    requires digits { IsTrue (list_all is_ascii_hexdigit digits.now) }
    requires within { at < length digits.now }
    ensures value { result ≡ digit_value (slice_index digits.now at) }
    ensures small { result < 16 }
{
    let digit = digits[at];
    if digit < b':' {
        digit - b'0'
    } else {
        digit.to_ascii_lowercase() - (b'a' - 10)
    }
}
