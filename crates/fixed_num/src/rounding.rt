ghost use Rattle.std.specs.Prelude.{◌≡◌, ℕ, ◌/◌, ◌%◌, ◌<◌, ◌≤◌};
ghost use Rattle.fixed_num.specs.Rounding.{nearest, IsNearest};

// The greatest number of 64 bits, in which a division takes a fraction of the time.
const SHORT: u128 = 0xffff_ffff_ffff_ffff;

/// The whole number nearest to `n / d`, the greater of two.
pub fn nearest(n: u128, d: u128) -> u128
    requires { 0 < d }
    ensures value { result ≡ nearest n d }
    ensures not_more { result ≤ n }
{
    let (quotient, left) = divided(n, d);
    if left >= d - left {
        quotient + 1
    } else {
        quotient
    }
}

/// The quotient, and what it leaves.
#[inline]
pub(crate) fn divided(n: u128, d: u128) -> (u128, u128)
    requires { 0 < d }
    ensures quotient { result.0 ≡ n / d }
    ensures left { result.1 ≡ n % d }
{
    if n <= SHORT && d <= SHORT {
        let (short_n, short_d) = (n as u64, d as u64);
        return (u128::from(short_n / short_d), u128::from(short_n % short_d));
    }
    (n / d, n % d)
}

/// The law of rounding: `nearest` is nearest, and no other number is.
pub fn nearest_is_nearest()
    ensures is { (n d : ℕ) → 0 < d → IsNearest n d (nearest n d) }
    ensures only { (n d r : ℕ) → 0 < d → IsNearest n d r → r ≡ nearest n d }
{}
