//! Calls of `power_fixed`.

use fixed_num::{Arith, Fixed};
use power_fixed::{power, root};

/// The greatest number, in millionths.
const BOUND: i128 = 100_000_000_000_000_000_000_000_000;

const ROOTS: [(i128, i128); 6] = [
    (0, 707),
    (1, 1_224),
    (1_400_000, 1_183_216),
    (18_446_744_073_709, 4_294_967_295),
    (18_446_744_073_710, 4_294_967_296),
    (BOUND, 10_000_000_000_000_000),
];

// The root in millionths, where the number has one.
fn root_of(count: i128) -> Option<i128> {
    let number = Fixed::from_millionths(count)?;
    if number.millionths() < 0 {
        return None;
    }
    Some(root(number).millionths())
}

#[test]
fn roots(rt: HostRuntime) {
    for (of, want) in ROOTS {
        assert!(rt; root_of(of) == Some(want), "at {of}");
    }
}

const POWERS: [(i128, i128, Result<i128, Arith>); 9] = [
    (4_000_000, 0, Ok(1_000_000)),
    (4_000_000, 500_000, Ok(2_000_000)),
    (4_000_000, 2_500_000, Ok(32_000_000)),
    (100_000, 6_000_000, Ok(1)),
    (100_000, 7_000_000, Ok(0)),
    (1_000_000, BOUND, Ok(1_000_000)),
    (10_000_000, 20_000_000, Ok(BOUND)),
    (10_000_000, 20_500_000, Err(Arith::Overflow)),
    (2_000_000, BOUND, Err(Arith::Overflow)),
];

// The power in millionths, where both numbers are in its domain.
fn power_of(base: i128, exponent: i128) -> Option<Result<i128, Arith>> {
    let base = Fixed::from_millionths(base)?;
    let exponent = Fixed::from_millionths(exponent)?;
    if base.millionths() <= 0 || exponent.millionths() < 0 {
        return None;
    }
    match power(base, exponent) {
        Ok(found) => Some(Ok(found.millionths())),
        Err(fault) => Some(Err(fault)),
    }
}

#[test]
fn powers(rt: HostRuntime) {
    for (base, exponent, want) in POWERS {
        assert!(rt;
            power_of(base, exponent) == Some(want),
            "at {base} and {exponent}"
        );
    }
}
