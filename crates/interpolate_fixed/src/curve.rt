ghost use Rattle.std.specs.Prelude.{◌≡◌, ◌<◌, pos, ◌≤ℤ◌, ◌<ℤ◌, length};
ghost use Rattle.interpolate_fixed.specs.Places.{place_of};
ghost use Rattle.interpolate_fixed.specs.PlaceFacts.{IsAscending, HasPositiveBase};
ghost use Rattle.interpolate_fixed.specs.Warp.{growth_of, moved_by, moved_between, held, moved_at, warp_of};

use crate::place::{StopPlace, stop_place};
use fixed_num::{Arith, Fixed};
use power_fixed::{power, unit};
use prop_values::Curve;

/// The input at which a line through the stops has the value of the curve at `x`: `x` itself for a line, and
/// for an exponential curve of a base above 0 a number from the input before `x` to the one after. It is
/// Overflow exactly where a step of that arithmetic is.
pub fn warp(curve: &Curve, inputs: &[Fixed], x: Fixed) -> Result<Fixed, Arith>
    requires some { 0 < length inputs.now }
    requires ascending { IsAscending inputs.now }
    requires base { HasPositiveBase curve.now }
    ensures { result ≡ warp_of curve.now inputs.now x }
{
    match *curve {
        Curve::Linear => Ok(x),
        Curve::Exponential(base) => exponential(base, inputs, x),
    }
}

// The moved input of an exponential curve.
fn exponential(base: Fixed, inputs: &[Fixed], x: Fixed) -> Result<Fixed, Arith>
    requires some { 0 < length inputs.now }
    requires ascending { IsAscending inputs.now }
    requires base { pos 0 <ℤ base }
    ensures { result ≡ moved_at base inputs.now x (place_of inputs.now x) }
{
    match stop_place(inputs, x) {
        StopPlace::First | StopPlace::Last => Ok(x),
        StopPlace::Between(i) => between(base, inputs[i], inputs[i + 1], x),
    }
}

// The moved input between two inputs.
#[tactic(auto, unfolding(crate::specs::Warp::moved_between))]
fn between(base: Fixed, x0: Fixed, x1: Fixed, x: Fixed) -> Result<Fixed, Arith>
    requires base { pos 0 <ℤ base }
    requires from { x0 ≤ℤ x }
    requires apart { x0 <ℤ x1 }
    ensures { result ≡ moved_between base x0 x1 x }
{
    if x.millionths() == x0.millionths() {
        return Ok(x);
    }
    let grown = match growth(base, x0, x) {
        Ok(grown) => grown,
        Err(fault) => return Err(fault),
    };
    let whole = match growth(base, x0, x1) {
        Ok(whole) => whole,
        Err(fault) => return Err(fault),
    };
    if whole.millionths() == 0 {
        return Ok(x);
    }
    moved(x0, x1, grown, whole)
}

// The base to the power of the way from `x0` to `x`, less 1.
fn growth(base: Fixed, x0: Fixed, x: Fixed) -> Result<Fixed, Arith>
    requires base { pos 0 <ℤ base }
    requires from { x0 ≤ℤ x }
    ensures { result ≡ growth_of base x0 x }
{
    power(base, x.sub(x0)?)?.sub(unit())
}

// That share of the way from `x0` to `x1`, clamped to its ends.
fn moved(x0: Fixed, x1: Fixed, grown: Fixed, whole: Fixed) -> Result<Fixed, Arith>
    ensures { result ≡ moved_by x0 x1 grown whole }
{
    let share = grown.div(whole)?;
    let step = x1.sub(x0)?.mul(share)?;
    Ok(hold(x0, x1, x0.add(step)?))
}

// The number clamped to those from `low` to `high`.
fn hold(low: Fixed, high: Fixed, number: Fixed) -> Fixed
    ensures { result ≡ held low high number }
{
    let capped = if high.millionths() < number.millionths() {
        high
    } else {
        number
    };
    if low.millionths() < capped.millionths() {
        capped
    } else {
        low
    }
}
