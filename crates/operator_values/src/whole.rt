//! Whole numbers of units: counts, indexes and places.

ghost use Rattle.std.specs.Prelude.{◌≡◌, ◌≤◌, ◌*◌, pos, min, IfOk};
ghost use Rattle.prop_values.specs.View.{data_of};
ghost use Rattle.operator_values.specs.Whole.{is_whole, units, count, index_in, place_in};

use fixed_num::Fixed;
use prop_values::{EvalFault, Value};

/// So many units.
pub(crate) fn whole(units: u64) -> Fixed
    ensures { result ≡ pos (units * 1000000) }
{
    match Fixed::from_millionths(i128::from(units) * 1_000_000) {
        Some(number) => number,
        None => unreachable!(),
    }
}

pub(crate) fn count(items: usize) -> Value
    ensures { data_of result ≡ count items }
{
    Value::Num(whole(items as u64))
}

/// The index that a number is, or the fault that it is: `IndexNotWhole`, or `IndexOutside` below 0.
pub(crate) fn index_in(number: Fixed) -> Result<u128, EvalFault>
    ensures { result ≡ index_in number }
{
    if !is_whole(number) {
        return Err(EvalFault::IndexNotWhole);
    }
    if number.millionths() < 0 {
        return Err(EvalFault::IndexOutside);
    }
    Ok(units(number))
}

/// The place that an index is in a sequence of `length` items, where a negative one counts from the end.
pub(crate) fn place_in(length: usize, number: Fixed) -> Result<usize, EvalFault>
    ensures place { result ≡ place_in length number }
    ensures within { IfOk result (λ place. place ≤ length) }
{
    if !is_whole(number) {
        return Err(EvalFault::IndexNotWhole);
    }
    let distance = held(units(number), length);
    if number.millionths() < 0 {
        Ok(length - distance)
    } else {
        Ok(distance)
    }
}

// The lesser of a number and a length.
fn held(number: u128, length: usize) -> usize
    ensures value { result ≡ min number length }
    ensures within { result ≤ length }
{
    match usize::try_from(number) {
        Ok(number) if number < length => number,
        _ => length,
    }
}

fn is_whole(number: Fixed) -> bool
    ensures { result ≡ is_whole number }
{
    number.millionths().unsigned_abs() % 1_000_000 == 0
}

// How many whole units the magnitude has.
fn units(number: Fixed) -> u128
    ensures { result ≡ units number }
{
    number.millionths().unsigned_abs() / 1_000_000
}
