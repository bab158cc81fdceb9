ghost use Rattle.std.specs.Prelude.{IsAscii, ◌≡◌, ◌≤◌, ℤ, pos, neg_ℤ, if◌then◌else◌, unsigned_abs, IfSome, IsSome};
ghost use Rattle.std.specs.Prelude.{IsTrue, ◌↔◌, take, length};
ghost use Rattle.fixed_num.specs.Number.{bound, bounded};

use crate::rounding::{divided, nearest};
use crate::text::put_number;
use std::marker::Model;

/// Why an operation has no number.
#[derive(Clone, Copy, Debug, PartialEq, Eq)]
pub enum Arith {
    /// The result is past the bound.
    Overflow,
    DivideByZero,
}

/// A whole count of millionths, of a magnitude of at most 10^26 (10^20 units). Contracts see it as
/// that count.
#[derive(Clone, Copy, Debug, PartialEq, Eq, PartialOrd, Ord)]
pub struct Fixed {
    value: i128,
}

impl Model for Fixed {
    ghost Value = { ℤ };

    ghost view = { λ f. f.value };

    ghost invariant = { λ f. unsigned_abs f.value ≤ bound };

    ghost inverse = { λ z. record { value = z } };
}

// The greatest magnitude, in millionths.
pub(crate) const BOUND: u128 = 100_000_000_000_000_000_000_000_000;

// A unit, in millionths.
pub(crate) const ONE: u128 = 1_000_000;

// The same, signed.
const UNIT: i128 = 1_000_000;

/// The number of this sign and magnitude, which has to be within the bound.
pub(crate) fn signed(negative: bool, magnitude: u128) -> Result<Fixed, Arith>
    ensures { result ≡ bounded (if negative then neg_ℤ (pos magnitude) else pos magnitude) }
{
    if magnitude > BOUND {
        return Err(Arith::Overflow);
    }
    let value = magnitude as i128;
    Ok(Fixed {
        value: if negative { -value } else { value },
    })
}

impl Fixed {
    ghost use Rattle.fixed_num.specs.Number.{sum, difference, product, quotient, remainder, absolute, floor_of};
    ghost use Rattle.fixed_num.specs.Number.{ceil_of, round_of};
    ghost use Rattle.fixed_num.specs.NumberText.{number_text};
    ghost use Rattle.json_tokens.specs.Number.{is_number};

    /// The number of this many millionths, or `None` exactly where they are past the bound.
    pub fn from_millionths(millionths: i128) -> Option<Fixed>
        ensures within { IsSome result ↔ (unsigned_abs millionths ≤ bound) }
        ensures value { IfSome result (λ f. f ≡ millionths) }
    {
        if millionths.unsigned_abs() > BOUND {
            return None;
        }
        Some(Fixed { value: millionths })
    }

    pub fn millionths(self) -> i128
        ensures value { result ≡ self }
        ensures within { unsigned_abs self ≤ bound }
    {
        self.value
    }

    /// The sum, or `Overflow` exactly past the bound.
    pub fn add(self, other: Fixed) -> Result<Fixed, Arith>
        ensures { result ≡ sum self other }
    {
        Fixed::from_millionths(self.value + other.value).ok_or(Arith::Overflow)
    }

    /// The difference, or `Overflow` exactly past the bound.
    pub fn sub(self, other: Fixed) -> Result<Fixed, Arith>
        ensures { result ≡ difference self other }
    {
        Fixed::from_millionths(self.value - other.value).ok_or(Arith::Overflow)
    }

    /// The exact product rounded once to the nearest millionth, halves away from zero, or `Overflow`
    /// exactly where that is past the bound.
    pub fn mul(self, other: Fixed) -> Result<Fixed, Arith>
        ensures { result ≡ product self other }
    {
        let negative = (self.value < 0) != (other.value < 0);
        let magnitude = self.value.unsigned_abs();
        match magnitude.checked_mul(other.value.unsigned_abs()) {
            Some(exact) => signed(negative, nearest(exact, ONE)),
            None => Err(Arith::Overflow),
        }
    }

    /// The exact quotient rounded once as the product is: `DivideByZero` exactly at a zero divisor,
    /// `Overflow` exactly past the bound.
    pub fn div(self, other: Fixed) -> Result<Fixed, Arith>
        ensures { result ≡ quotient self other }
    {
        if other.value == 0 {
            return Err(Arith::DivideByZero);
        }
        let negative = (self.value < 0) != (other.value < 0);
        let magnitude = self.value.unsigned_abs() * ONE;
        signed(negative, nearest(magnitude, other.value.unsigned_abs()))
    }

    /// What the exact quotient leaves when its fraction is dropped, which is zero or of the sign of
    /// `self`: `DivideByZero` exactly at a zero divisor, never `Overflow`.
    pub fn rem(self, other: Fixed) -> Result<Fixed, Arith>
        ensures { result ≡ remainder self other }
    {
        if other.value == 0 {
            return Err(Arith::DivideByZero);
        }
        let (_, left) = divided(self.value.unsigned_abs(), other.value.unsigned_abs());
        signed(self.value < 0, left)
    }

    /// The number on the other side of zero.
    pub fn neg(self) -> Fixed
        ensures { result ≡ neg_ℤ self }
    {
        Fixed { value: -self.value }
    }

    pub fn abs(self) -> Fixed
        ensures { result ≡ absolute self }
    {
        Fixed {
            value: self.value.abs(),
        }
    }

    /// The greatest whole number that is not above `self`.
    pub fn floor(self) -> Fixed
        ensures { result ≡ floor_of self }
    {
        let magnitude = self.value.unsigned_abs();
        if self.value < 0 {
            let (units_above, _) = divided(magnitude - 1, ONE);
            return Fixed {
                value: -((units_above + 1) as i128 * UNIT),
            };
        }
        let (units, _) = divided(magnitude, ONE);
        Fixed {
            value: units as i128 * UNIT,
        }
    }

    /// The least whole number that is not below `self`.
    pub fn ceil(self) -> Fixed
        ensures { result ≡ ceil_of self }
    {
        self.neg().floor().neg()
    }

    /// The nearest whole number, halves away from zero.
    pub fn round(self) -> Fixed
        ensures { result ≡ round_of self }
    {
        let magnitude = nearest(self.value.unsigned_abs(), ONE) * ONE;
        let value = magnitude as i128;
        Fixed {
            value: if self.value < 0 { -value } else { value },
        }
    }

    /// Writes the number's text, a JSON number, at the front of `out` and answers its length in bytes, at
    /// most 48. The bytes of `out` after the text may be anything.
    pub fn write(self, out: &mut [u8; 48]) -> usize
        ensures text { take result out.new ≡ number_text self }
        ensures length { result ≡ length (number_text self) }
        ensures within { result ≤ 48 }
        ensures ascii { IsAscii (number_text self) }
        ensures number { IsTrue (is_number (number_text self)) }
    {
        put_number(out, self.value < 0, self.value.unsigned_abs())
    }
}
