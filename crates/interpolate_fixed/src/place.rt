ghost use Rattle.std.specs.Prelude.{◌≡◌, ◌+◌, ◌<◌, ◌<ℤ◌, length};
ghost use Rattle.interpolate_fixed.specs.Places.{first_of, last_of, count_not_above, place_of};
ghost use Rattle.interpolate_fixed.specs.PlaceFacts.{IsAscending, IsBetween, IfBetween};

use fixed_num::Fixed;

/// The place of a value among the inputs of stops.
#[derive(Clone, Copy, Debug, PartialEq, Eq)]
pub enum StopPlace {
    /// At or below the first input.
    First,
    /// Not there, and at or above the last input.
    Last,
    /// From the input at this place, counted from 0, to below the next.
    Between(usize),
}

/// The place of the value among inputs of which each is below the next. Takes time by the logarithm of their
/// number.
pub fn stop_place(inputs: &[Fixed], value: Fixed) -> StopPlace
    requires some { 0 < length inputs.now }
    requires ascending { IsAscending inputs.now }
    ensures place { result ≡ place_of inputs.now value }
    ensures neighbours { IfBetween result (IsBetween inputs.now value) }
{
    if value.millionths() <= inputs[0].millionths() {
        return StopPlace::First;
    }
    if inputs[inputs.len() - 1].millionths() <= value.millionths() {
        return StopPlace::Last;
    }
    StopPlace::Between(greatest_not_above(inputs, value))
}

// The place of the greatest input that is not above a value between the ends.
fn greatest_not_above(inputs: &[Fixed], value: Fixed) -> usize
    requires some { 0 < length inputs.now }
    requires ascending { IsAscending inputs.now }
    requires first { first_of inputs.now <ℤ value }
    requires last { value <ℤ last_of inputs.now }
    ensures count { result + 1 ≡ count_not_above value inputs.now }
    ensures between { IsBetween inputs.now value result }
{
    step_place(inputs, value) - 1
}

/// How many inputs are not above the value, where each is below the next. Takes time by the logarithm of
/// their number.
pub fn step_place(inputs: &[Fixed], value: Fixed) -> usize
    requires ascending { IsAscending inputs.now }
    ensures { result ≡ count_not_above value inputs.now }
{
    inputs.partition_point(|input| input.millionths() <= value.millionths())
}
