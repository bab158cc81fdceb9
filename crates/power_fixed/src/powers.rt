ghost use Rattle.std.specs.Prelude.{◌≡◌, ◌<◌, ◌/◌, ◌^◌, pos, ◌≤ℤ◌, ◌<ℤ◌};
ghost use Rattle.power_fixed.specs.Power.{one, times, whole_of, part_of, power_of};

use crate::roots::root;
use fixed_num::{Arith, Fixed};

const UNIT: u128 = 1_000_000;

// How many binary digits of the exponent's fraction count.
const FRACTION_DIGITS: u32 = 20;

/// The base, which is above 0, to the power of the exponent, which is not negative. It is Overflow exactly
/// where a product of the definition is.
#[tactic(auto, unfolding(crate::specs::Power::power_of))]
pub fn power(base: Fixed, exponent: Fixed) -> Result<Fixed, Arith>
    requires base { pos 0 <ℤ base }
    requires exponent { pos 0 ≤ℤ exponent }
    ensures { result ≡ power_of base exponent }
{
    let millionths = exponent.millionths().unsigned_abs();
    let whole = whole_power(base, millionths / UNIT);
    let part = part_power(base, (millionths % UNIT) as u32);
    product(whole, part)
}

/// The number 1.
pub fn unit() -> Fixed
    ensures { result ≡ one }
{
    Fixed::from_millionths(1_000_000).unwrap()
}

// The product of two answers.
fn product(left: Result<Fixed, Arith>, right: Result<Fixed, Arith>) -> Result<Fixed, Arith>
    ensures { result ≡ times left right }
{
    left?.mul(right?)
}

fn square(root: Result<Fixed, Arith>) -> Result<Fixed, Arith>
    ensures { result ≡ times root root }
{
    let factor = root?;
    factor.mul(factor)
}

// The base to a whole power, from its highest binary digit on.
fn whole_power(base: Fixed, exponent: u128) -> Result<Fixed, Arith>
    ensures { result ≡ whole_of base exponent }
{
    let mut power = Ok(unit());
    if exponent == 0 {
        return power;
    }
    let highest = exponent.ilog2();
    for taken in 0..highest + 1 {
        power = doubled_power(base, power, exponent >> (highest - taken));
    }
    power
}

// The base to a whole power, from that to half of it.
#[tactic(auto, using(crate::proofs::WholePowers::doubled_even, crate::proofs::WholePowers::doubled_odd))]
fn doubled_power(base: Fixed, half: Result<Fixed, Arith>, exponent: u128) -> Result<Fixed, Arith>
    requires { half ≡ whole_of base (exponent / 2) }
    ensures { result ≡ whole_of base exponent }
{
    let even = square(half);
    if exponent % 2 == 1 {
        product(Ok(base), even)
    } else {
        even
    }
}

// The base to the power of a fraction in millionths, digit by digit, until nothing is left of it.
#[tactic(auto, unfolding(crate::specs::Power::part_of, crate::specs::Power::part_after, crate::specs::Power::rest_after, crate::specs::Power::root_after))]
fn part_power(base: Fixed, fraction: u32) -> Result<Fixed, Arith>
    requires base { pos 0 <ℤ base }
    requires fraction { fraction < 10 ^ 6 }
    ensures { result ≡ part_of base fraction }
{
    let mut power = Ok(unit());
    let mut factor = base;
    let mut rest = fraction;
    for _place in 0..FRACTION_DIGITS {
        if rest == 0 {
            return power;
        }
        factor = root(factor);
        rest *= 2;
        if rest >= 1_000_000 {
            rest -= 1_000_000;
            power = product(power, Ok(factor));
        }
    }
    power
}
