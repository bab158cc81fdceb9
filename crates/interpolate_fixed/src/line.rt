ghost use Rattle.std.specs.Prelude.{◌≡◌, ◌<◌, ◌≤◌, ◌≤ℤ◌, ◌<ℤ◌, ◌+ℤ◌, ◌-ℤ◌, unsigned_abs};
ghost use Rattle.fixed_num.specs.Number.{bound};
ghost use Rattle.interpolate_fixed.specs.Linear.{linear_of};
ghost use Rattle.interpolate_fixed.specs.Share.{share_of};

use fixed_num::{Arith, Fixed, nearest};

// The greatest magnitude of a product of two differences.
const FARTHEST: u128 = 100_000_000_000_000_000_000_000_000_000_000_000_000;

/// The number at `x` on the line from `a` at `x0` to `b` at `x1`. It is Overflow exactly where the product
/// `(b - a) * (x - x0)` is past 10^38 millionths of millionths.
pub fn linear(x: Fixed, x0: Fixed, a: Fixed, x1: Fixed, b: Fixed) -> Result<Fixed, Arith>
    requires from { x0 ≤ℤ x }
    requires to { x ≤ℤ x1 }
    requires apart { x0 <ℤ x1 }
    ensures { result ≡ linear_of x x0 a x1 b }
{
    match share(way(a, b), span(x0, x), span(x0, x1)) {
        Ok(step) => Ok(moved_on(a, step)),
        Err(fault) => Err(fault),
    }
}

// The way from one number to another, in millionths.
fn way(from: Fixed, to: Fixed) -> i128
    ensures way { result ≡ to -ℤ from }
    ensures from { unsigned_abs from ≤ bound }
    ensures to { unsigned_abs to ≤ bound }
{
    to.millionths() - from.millionths()
}

// The length of a way up, in millionths.
fn span(from: Fixed, to: Fixed) -> u128
    requires { from ≤ℤ to }
    ensures { result ≡ unsigned_abs (to -ℤ from) }
{
    way(from, to).unsigned_abs()
}

// The number a step further, which is within the bound.
fn moved_on(start: Fixed, step: i128) -> Fixed
    requires { unsigned_abs (start +ℤ step) ≤ bound }
    ensures { result ≡ start +ℤ step }
{
    Fixed::from_millionths(start.millionths() + step).unwrap()
}

// A part of a way, rounded to the nearest whole number, halves away from zero.
#[tactic(auto, unfolding(crate::specs::Share::share_of))]
fn share(way: i128, part: u128, whole: u128) -> Result<i128, Arith>
    requires { 0 < whole }
    ensures { result ≡ share_of way part whole }
{
    let Some(product) = way.unsigned_abs().checked_mul(part) else {
        return Err(Arith::Overflow);
    };
    if product > FARTHEST {
        return Err(Arith::Overflow);
    }
    let step = nearest(product, whole) as i128;
    Ok(if way < 0 { -step } else { step })
}
