//! Operators that look something up.

ghost use Rattle.std.specs.Prelude.{◌≡◌, IfOk, is_some};
ghost use Rattle.prop_values.specs.Data.{map, pairs_of};
ghost use Rattle.prop_values.specs.Equality.{at_key};
ghost use Rattle.prop_values.specs.View.{data_of};
ghost use Rattle.prop_values.specs.ViewParts.{values_view, evaluated_of};
ghost use Rattle.operator_values.specs.Evaluated.{GivesValue};
ghost use Rattle.eval_face.specs.World.{state_of};
ghost use Rattle.eval_face.specs.Lookups.{entry_at, get_of, has_of, state_at, id_value, image_of, script_of};

use crate::world_view::WorldView;
use decimal_json::Text;
use fixed_num::Fixed;
use operator_values::Halt;
use prop_values::{Entries, EvalFault, SharedEntries, Value, copy};
use std::alloc::{AllocError, Global};
use tile_reader::FeatureProperties;

/// `get`: of the properties, or of the object that is the second value.
pub(crate) fn property(
    alloc: Global,
    properties: Option<&FeatureProperties>,
    values: &[Value],
) -> Result<Value, Halt>
    ensures { GivesValue result (get_of (state_of properties.entry) (values_view values.now)) }
{
    match values {
        [Value::Text(key)] => Ok(property_or_null(properties, key)?),
        [Value::Text(key), Value::Map(entries)] => Ok(entry_or_null(
            alloc,
            Some(entries.as_entries()),
            key,
        )?),
        _ => Err(Halt::Fault(EvalFault::WrongType)),
    }
}

/// `has`.
pub(crate) fn has_property(
    properties: Option<&FeatureProperties>,
    values: &[Value],
) -> Result<Value, EvalFault>
    ensures { evaluated_of result ≡ has_of (state_of properties.entry) (values_view values.now) }
{
    match values {
        [Value::Text(key)] => Ok(Value::Bool(is_property(properties, key))),
        [Value::Text(key), Value::Map(entries)] => Ok(Value::Bool(has_entry(
            Some(entries.as_entries()),
            key,
        ))),
        _ => Err(EvalFault::WrongType),
    }
}

/// `feature-state`.
pub(crate) fn state_member(
    alloc: Global,
    state: Option<&Entries>,
    values: &[Value],
) -> Result<Value, Halt>
    ensures { GivesValue result (state_at (state_of state.entry) (values_view values.now)) }
{
    match values {
        [Value::Text(key)] => Ok(entry_or_null(alloc, state, key)?),
        _ => Err(Halt::Fault(EvalFault::WrongType)),
    }
}

// The value of a property, and null where there is none.
fn property_or_null(properties: Option<&FeatureProperties>, key: &Text) -> Result<Value, AllocError>
    ensures { IfOk result (λ value. data_of value ≡ entry_at key.now (pairs_of (state_of properties.entry))) }
{
    let Some(properties) = properties else {
        return Ok(Value::Null);
    };
    match properties.get(key.as_str()) {
        Some(value) => copy(value),
        None => Ok(Value::Null),
    }
}

fn is_property(properties: Option<&FeatureProperties>, key: &Text) -> bool
    ensures { result ≡ is_some (at_key key.now (pairs_of (state_of properties.entry))) }
{
    match properties {
        Some(properties) => properties.get(key.as_str()).is_some(),
        None => false,
    }
}

// The value at a key, and null where there is none.
fn entry_or_null(alloc: Global, entries: Option<&Entries>, key: &Text) -> Result<Value, AllocError>
    ensures { IfOk result (λ value. data_of value ≡ entry_at key.now (pairs_of (state_of entries.entry))) }
{
    let Some(entries) = entries else {
        return Ok(Value::Null);
    };
    match entries.get(key.as_str()) {
        Some(value) => copy(value),
        None => Ok(Value::Null),
    }
}

fn has_entry(entries: Option<&Entries>, key: &Text) -> bool
    ensures { result ≡ is_some (at_key key.now (pairs_of (state_of entries.entry))) }
{
    match entries {
        Some(entries) => entries.get(key.as_str()).is_some(),
        None => false,
    }
}

/// `properties`.
pub(crate) fn all_properties(
    alloc: Global,
    properties: Option<&FeatureProperties>,
) -> Result<Value, AllocError>
    ensures { IfOk result (λ value. data_of value ≡ map (pairs_of (state_of properties.entry))) }
{
    let entries = match properties {
        Some(properties) => properties.to_entries(alloc)?,
        None => Entries::new(alloc),
    };
    Ok(Value::Map(SharedEntries::of(alloc, entries)?))
}

/// `id`.
pub(crate) fn id_value(id: Option<u64>) -> Value
    ensures { data_of result ≡ id_value id }
{
    match id {
        Some(id) => match Fixed::from_millionths(i128::from(id) * 1_000_000) {
            Some(number) => Value::Num(number),
            None => unreachable!(),
        },
        None => Value::Null,
    }
}

/// `image`: the name itself, or null where there is no such image.
pub(crate) fn image<W: WorldView>(world: &W, values: &[Value]) -> Result<Value, Halt>
    ensures { GivesValue result (image_of (W.world world.now).has_image (values_view values.now)) }
{
    match values {
        [Value::Text(name)] if world.has_image(name.as_str()) => Ok(Value::Text(name.share()?)),
        [Value::Text(_)] => Ok(Value::Null),
        _ => Err(Halt::Fault(EvalFault::WrongType)),
    }
}

/// `is-supported-script`.
pub(crate) fn supported_script<W: WorldView>(
    world: &W,
    values: &[Value],
) -> Result<Value, EvalFault>
    ensures { evaluated_of result ≡ script_of (W.world world.now).is_supported (values_view values.now) }
{
    match values {
        [Value::Text(text)] => Ok(Value::Bool(world.is_supported(text.as_str()))),
        _ => Err(EvalFault::WrongType),
    }
}
