ghost use Rattle.std.specs.Prelude.{◌≡◌, ◌≢◌, ◌≤◌, ◌<◌, ◌+◌, ◌*◌, ◌^◌, ◌++◌, length, take, slice_index, nat_eq, IsTrue};
ghost use Rattle.std.specs.Char.{is_ascii_digit};
ghost use Rattle.std.specs.List.{list_all, prefix_len};
ghost use Rattle.fixed_num.specs.Decimal.{number_of, scaled, is_digits, leading_digits, after_digits};
ghost use Rattle.fixed_num.specs.Rounding.{nearest};
ghost use Rattle.fixed_num.specs.Saturation.{past, saturated};

// A number past every bound: a count that reaches it stays there. It is above the length of each
// slice too, and so above each exponent that matters.
const PAST: u128 = 1_000_000_000_000_000_000_000_000_000;

/// Whether the first byte is this one, which is not zero.
pub fn begins_with(bytes: &[u8], byte: u8) -> bool
    requires { byte ≢ 0 }
    ensures value { result ≡ nat_eq (slice_index bytes.now 0) byte }
    ensures some { IsTrue result → 0 < length bytes.now }
{
    bytes.first() == Some(&byte)
}

/// The digits that the bytes begin with, and what follows them.
pub fn split_digits(bytes: &[u8]) -> (&[u8], &[u8])
    ensures digits { result.0.now ≡ leading_digits bytes.now }
    ensures rest { result.1.now ≡ after_digits bytes.now }
    ensures all { IsTrue (list_all is_ascii_digit result.0.now) }
{
    bytes.split_at(count_digits(bytes))
}

// How many digits the bytes begin with.
fn count_digits(bytes: &[u8]) -> usize
    ensures { result ≡ prefix_len is_ascii_digit bytes.now }
{
    bytes
        .iter()
        .take_while(|byte| byte.is_ascii_digit())
        .count()
}

/// Whether there are bytes, and all are digits.
pub fn are_digits(bytes: &[u8]) -> bool
    ensures { result ≡ is_digits bytes.now }
{
    !bytes.is_empty() && count_digits(bytes) == bytes.len()
}

/// The number that digits write, or 10^27 where it is greater.
pub fn saturated_number(digits: &[u8]) -> u128
    ensures { result ≡ saturated (number_of digits.now) }
{
    extended(0, digits)
}

/// The millionths, rounded, of the digits of `whole` and `fraction` with the point between them and
/// a power of ten, which is a negative one where the exponent is down. They are saturated.
pub(crate) fn magnitude(whole: &[u8], fraction: &[u8], is_down: bool, exponent: &[u8]) -> u128
    requires { IsTrue (list_all is_ascii_digit (whole.now ++ fraction.now)) }
    ensures { result ≡ saturated (
        scaled (number_of (whole.now ++ fraction.now)) (length fraction.now)
        is_down (number_of exponent.now)) }
{
    let size = saturated_number(exponent);
    let before_point = whole.len() as u128 + 6;
    if !is_down {
        return moved(whole, fraction, before_point + size);
    }
    if size > before_point {
        return 0;
    }
    moved(whole, fraction, before_point - size)
}

// The digits with the point after the first `kept` of them, rounded. What is dropped counts by its
// first digit alone.
fn moved(whole: &[u8], fraction: &[u8], kept: u128) -> u128
    requires { IsTrue (list_all is_ascii_digit (whole.now ++ fraction.now)) }
    ensures { result ≡ saturated (
        nearest (number_of (whole.now ++ fraction.now) * 10 ^ kept)
        (10 ^ length (whole.now ++ fraction.now))) }
{
    let front = first_digits(whole, fraction, kept);
    let length = whole.len() as u128 + fraction.len() as u128;
    if kept >= length {
        return with_zeros(front, kept - length);
    }
    if digit_at(whole, fraction, kept as usize) >= b'5' {
        (front + 1).min(PAST)
    } else {
        front
    }
}

// The number that the first `kept` digits write, saturated.
fn first_digits(whole: &[u8], fraction: &[u8], kept: u128) -> u128
    ensures { result ≡ saturated (number_of (take kept (whole.now ++ fraction.now))) }
{
    let in_whole = kept.min(whole.len() as u128) as usize;
    let in_fraction = (kept - in_whole as u128).min(fraction.len() as u128) as usize;
    extended(
        saturated_number(&whole[..in_whole]),
        &fraction[..in_fraction],
    )
}

// The number that the digits write after those of `front`, saturated.
fn extended(front: u128, digits: &[u8]) -> u128
    requires { front ≤ past }
    ensures { result ≡ saturated (front * 10 ^ length digits.now + number_of digits.now) }
{
    let mut number = front;
    for digit in digits {
        number = (number * 10 + u128::from(digit.saturating_sub(b'0'))).min(PAST);
    }
    number
}

// The number with zeros after its digits, saturated.
fn with_zeros(front: u128, zeros: u128) -> u128
    requires { front ≤ past }
    ensures { result ≡ saturated (front * 10 ^ zeros) }
{
    let mut number = front;
    for _count in 0..zeros.min(27) {
        number = (number * 10).min(PAST);
    }
    number
}

// The digit at a place, counted from 0 over both slices.
fn digit_at(whole: &[u8], fraction: &[u8], at: usize) -> u8
    requires { at < length whole.now + length fraction.now }
    ensures { result ≡ slice_index (whole.now ++ fraction.now) at }
{
    if at < whole.len() {
        whole[at]
    } else {
        fraction[at - whole.len()]
    }
}
