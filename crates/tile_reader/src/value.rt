ghost use Rattle.std.specs.Prelude.{◌≡◌, ℕ, ◌+◌, ◌^◌, ◌<◌, length, option_map};
ghost use Rattle.proto_wire.specs.View.{field_seen};
ghost use Rattle.tile_reader.specs.Value.{value_member, value_field, value_step, value_at, first_field, from_int};
ghost use Rattle.tile_reader.specs.Value.{from_zigzag};
ghost use Rattle.tile_reader.specs.View.{GivesRead, value_seen};

use crate::fault::{TileFault, TileKind};
use crate::wire_parts::{bits32_in, bits64_in, bytes_in, next_field, number_in, text_of};
use proto_wire::{Field, Fields};

/// A value of a layer: a whole number of units, a truth value, or a text that is part of the tile's bytes.
#[derive(Clone, Copy)]
pub(crate) enum Held<'a> {
    Signed(i64),
    Unsigned(u64),
    Text(&'a str),
    Flag(bool),
}

/// The fields of a value. Source: Vector Tile 2.1 §4.1.
#[derive(Clone, Copy)]
enum ValueMember {
    String,
    Float,
    Double,
    Int,
    Uint,
    Sint,
    Flag,
    Unknown,
}

/// The value whose tag is at `at` and whose content begins at `start`.
pub(crate) fn read_value(content: &[u8], start: usize, at: usize) -> Result<Held<'_>, TileFault>
    requires { start + length content.now < 2 ^ 64 }
    ensures { GivesRead value_seen result (value_at at start content.now) }
{
    let mut held = None;
    let mut fields = Fields::new(content, start);
    while let Some(field) = next_field(&mut fields)? {
        held = add_field(held, field)?;
    }
    match held {
        Some(value) => Ok(value),
        None => Err(TileFault {
            kind: TileKind::ValueKind,
            at,
        }),
    }
}

// The value so far, with what a field adds to it.
fn add_field<'a>(held: Option<Held<'a>>, field: Field<'a>) -> Result<Option<Held<'a>>, TileFault>
    ensures { (end : ℕ) → GivesRead (option_map value_seen) result
        (value_step (option_map value_seen held.entry) (field_seen field.entry end)) }
{
    let Field { number, at, wire } = field;
    match value_member(number) {
        ValueMember::String => {
            let bytes = bytes_in(at, wire)?;
            first_field(at, held)?;
            let text = text_of(at, bytes)?;
            Ok(Some(Held::Text(text)))
        }
        ValueMember::Float => {
            bits32_in(at, wire)?;
            Err(float(at))
        }
        ValueMember::Double => {
            bits64_in(at, wire)?;
            Err(float(at))
        }
        ValueMember::Int => {
            let number = number_in(at, wire)?;
            first_field(at, held)?;
            Ok(Some(Held::Signed(int(number))))
        }
        ValueMember::Uint => {
            let number = number_in(at, wire)?;
            first_field(at, held)?;
            Ok(Some(Held::Unsigned(number)))
        }
        ValueMember::Sint => {
            let number = number_in(at, wire)?;
            first_field(at, held)?;
            Ok(Some(Held::Signed(zigzag(number))))
        }
        ValueMember::Flag => {
            let number = number_in(at, wire)?;
            first_field(at, held)?;
            Ok(Some(Held::Flag(number != 0)))
        }
        ValueMember::Unknown => Ok(held),
    }
}

fn value_member(number: u32) -> ValueMember
    ensures { result ≡ value_member number }
{
    match number {
        1 => ValueMember::String,
        2 => ValueMember::Float,
        3 => ValueMember::Double,
        4 => ValueMember::Int,
        5 => ValueMember::Uint,
        6 => ValueMember::Sint,
        7 => ValueMember::Flag,
        _ => ValueMember::Unknown,
    }
}

// The value had no field before.
fn first_field(at: usize, held: Option<Held<'_>>) -> Result<(), TileFault>
    ensures { GivesRead (λ _. tt) result (first_field at (option_map value_seen held.entry)) }
{
    match held {
        None => Ok(()),
        Some(_) => Err(TileFault {
            kind: TileKind::ValueKind,
            at,
        }),
    }
}

fn float(at: usize) -> TileFault
    ensures { result ≡ record { kind = TileKind.FloatValue; at = at } }
{
    TileFault {
        kind: TileKind::FloatValue,
        at,
    }
}

// The two's complement of `number` in 64 bits.
fn int(number: u64) -> i64
    ensures { result ≡ from_int number }
{
    if number < 1 << 63 {
        number as i64
    } else {
        -((u64::MAX - number) as i64) - 1
    }
}

// 0, -1, 1, -2, 2 and so on.
fn zigzag(number: u64) -> i64
    ensures { result ≡ from_zigzag number }
{
    let half = (number / 2) as i64;
    if number % 2 == 0 { half } else { -half - 1 }
}
