ghost use Rattle.std.specs.Prelude.{◌≡◌, ◌*◌, ◌+◌, ◌^◌, ◌<◌, ◌≤◌, pos, ◌≤ℤ◌};
ghost use Rattle.power_fixed.specs.Root.{root_of};

use fixed_num::Fixed;

const UNIT: u128 = 1_000_000;

// The greatest excess of a square, in millionths of millionths, that rounding takes away.
const ROUNDED_AWAY: u128 = 499_999;

/// The greatest number whose square, rounded as a product, is at most this one, which is not negative. The
/// root of 0 is 0.000707, since its square rounds to 0.
pub fn root(number: Fixed) -> Fixed
    requires { pos 0 ≤ℤ number }
    ensures root { result ≡ root_of number }
    ensures not_negative { pos 0 ≤ℤ result }
{
    let squared = number.millionths().unsigned_abs() * UNIT + ROUNDED_AWAY;
    Fixed::from_millionths(whole_root(squared) as i128).unwrap()
}

// The greatest whole number whose square is at most n.
fn whole_root(n: u128) -> u128
    requires { 0 < n }
    ensures not_above { result * result ≤ n }
    ensures greatest { n < (result + 1) * (result + 1) }
    ensures short { result < 2 ^ 64 }
{
    if n < 1 << 64 {
        u128::from(short_root(n as u64))
    } else {
        n.isqrt()
    }
}

// The same in 64 bits, by Newton's steps from above: a step that does not go down ends at the root.
fn short_root(n: u64) -> u64
    requires { 0 < n }
    ensures not_above { result * result ≤ n }
    ensures greatest { n < (result + 1) * (result + 1) }
{
    let mut root = 2u64.pow(n.ilog2() / 2 + 1);
    loop {
        let next = (root + n / root) / 2;
        if next >= root {
            return root;
        }
        root = next;
    }
}
