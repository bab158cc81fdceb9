//! The numbers of a line, which are read once its form is known.

ghost use Rattle.std.specs.Prelude.{◌≡◌, IfOk, option_map};
ghost use Rattle.fixed_num.specs.Decimal.{read_text};
ghost use Rattle.decimal_json.specs.Tree as trees;
ghost use Rattle.decimal_json.specs.Tree.{Fields};
ghost use Rattle.decimal_json.specs.View.{tree_of};
ghost use Rattle.prop_values.specs.Data.{pairs_of};
ghost use Rattle.prop_values.specs.JsonData.{json_data, fields_data};
ghost use Rattle.prop_values.specs.View.{data_of};
ghost use Rattle.edit_script.specs.Command.{in_bound, limit_of, id_of, whole_id};
ghost use Rattle.edit_script.specs.View.{seen_by};

use crate::command::LineFault;
use decimal_json::{Json, NumText};
use fixed_num::{Fixed, read_decimal};
use prop_values::{Entries, Value, from_json};
use std::alloc::{AllocError, Global};

// A unit, in millionths.
const UNIT: u128 = 1_000_000;

/// The number of a text.
pub(crate) fn number_of(number: &NumText) -> Result<Fixed, LineFault>
    ensures { result ≡ in_bound (read_text number.now) }
{
    match read_decimal(number.as_str().as_bytes()) {
        Ok(number) => Ok(number),
        Err(_) => Err(LineFault::Number),
    }
}

/// The limit of a range, where there is one.
pub(crate) fn limit_of(limit: Option<&NumText>) -> Result<Option<Fixed>, LineFault>
    ensures { result ≡ limit_of (option_map (λ n. n.now) limit.entry) }
{
    match limit {
        None => Ok(None),
        Some(number) => Ok(Some(number_of(number)?)),
    }
}

/// The id of a feature.
pub(crate) fn id_of(number: &NumText) -> Result<u64, LineFault>
    ensures { result ≡ id_of (read_text number.now) }
{
    whole_id(number_of(number)?)
}

fn whole_id(number: Fixed) -> Result<u64, LineFault>
    ensures { result ≡ whole_id number }
{
    let millionths = number.millionths();
    if millionths < 0 {
        return Err(LineFault::Number);
    }
    let millionths = millionths.unsigned_abs();
    if millionths % UNIT != 0 {
        return Err(LineFault::Number);
    }
    u64::try_from(millionths / UNIT).map_err(|_| LineFault::Number)
}

/// The value of a tree.
pub(crate) fn value_of(alloc: Global, json: &Json) -> Result<Result<Value, LineFault>, AllocError>
    ensures { IfOk result (λ read. seen_by data_of read ≡ in_bound (json_data (tree_of json.now))) }
{
    match from_json(alloc, json)? {
        Ok(value) => Ok(Ok(value)),
        Err(_) => Ok(Err(LineFault::Number)),
    }
}

/// The members of an object.
pub(crate) fn members_of(
    alloc: Global,
    object: &Json,
) -> Result<Result<Entries, LineFault>, AllocError>
    requires { (members : Fields) × (tree_of object.now ≡ trees.object members) }
    ensures { IfOk result
        (λ read. (members : Fields) → tree_of object.now ≡ trees.object members
        → seen_by pairs_of read ≡ in_bound (fields_data members)) }
{
    match value_of(alloc, object)? {
        Ok(Value::Map(entries)) => Ok(Ok(entries.into_entries(alloc)?)),
        Ok(_) => unreachable!(),
        Err(fault) => Ok(Err(fault)),
    }
}
