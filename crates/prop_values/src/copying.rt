ghost use Rattle.std.specs.Prelude.{◌≡◌, IfOk, IfErr};
ghost use Rattle.fixed_num.specs.Decimal.{read_text};
ghost use Rattle.fixed_num.specs.declared.decimal.NumFault.TheVariants.{Range};
ghost use Rattle.decimal_json.specs.View.{tree_of};
ghost use Rattle.decimal_json.specs.Tree.{trees_of, fields_of};
ghost use Rattle.prop_values.specs.Data.{items_of, pairs_of};
ghost use Rattle.prop_values.specs.JsonData.{read_by, json_data, trees_data, fields_data};
ghost use Rattle.prop_values.specs.View.{data_of};
ghost use Rattle.prop_values.specs.ViewParts.{values_view};

use crate::value::{Entries, SharedEntries, Value, Values};
use decimal_json::{Items, Json, Members, NumText};
use fixed_num::{Fixed, NumFault, json_numbers_are_read, read_decimal};
use std::alloc::{AllocError, Global};

/// The same value, in constant time: texts, lists and maps are shared with it, and nothing is copied.
pub fn copy(value: &Value) -> Result<Value, AllocError>
    ensures { IfOk result (λ copy. copy ≡ value.now) }
{
    match value {
        Value::Null => Ok(Value::Null),
        Value::Bool(flag) => Ok(Value::Bool(*flag)),
        Value::Num(number) => Ok(Value::Num(*number)),
        Value::Text(text) => Ok(Value::Text(text.share()?)),
        Value::Color(color) => Ok(Value::Color(color.copy())),
        Value::List(values) => Ok(Value::List(values.share()?)),
        Value::Map(entries) => Ok(Value::Map(entries.share()?)),
    }
}

/// The same values in a vector of their own, which has room for one more.
pub(crate) fn copy_values(alloc: Global, values: &[Value]) -> Result<Vec<Value>, AllocError>
    ensures { IfOk result (λ copies. values_view copies.items ≡ values_view values.now) }
{
    let mut copies = Vec::with_capacity(alloc, values.len())?;
    for value in values {
        copies.push(copy(value)?)?;
    }
    Ok(copies)
}

/// The same entries in a map of their own, in time linear in the entries: each value is shared and not
/// copied.
#[tactic(auto, using(crate::proofs::Keys::lacks_before))]
pub fn copy_entries(alloc: Global, entries: &Entries) -> Result<Entries, AllocError>
    ensures { IfOk result (λ copies. copies ≡ entries.now) }
{
    let given = entries.as_slice();
    let mut copies = Entries::with_capacity(alloc, given.len())?;
    for entry in given {
        let key = entry.key.share()?;
        copies.push(key, copy(&entry.value)?)?;
    }
    Ok(copies)
}

/// The value that a JSON tree says. The fault is `Range`, for the first number past the bound in the
/// order of the document. Texts are shared with the tree.
#[tactic(auto, using(decimal_json::specs::Falls::item_falls, decimal_json::specs::Falls::member_falls))]
#[cycle(from_json)]
pub fn from_json(alloc: Global, json: &Json) -> Result<Result<Value, NumFault>, AllocError>
    ensures data { IfOk result (λ read. read_by data_of read ≡ json_data (tree_of json.now)) }
    ensures range { IfOk result (λ read. IfErr read (λ fault. fault ≡ Range)) }
{
    match json {
        Json::Null => Ok(Ok(Value::Null)),
        Json::Bool(flag) => Ok(Ok(Value::Bool(*flag))),
        Json::Num(number) => match number_from(number) {
            Ok(number) => Ok(Ok(Value::Num(number))),
            Err(past) => Ok(Err(past)),
        },
        Json::Text(text) => Ok(Ok(Value::Text(text.share()?))),
        Json::List(items) => match values_from(alloc, items)? {
            Ok(values) => Ok(Ok(Value::List(values))),
            Err(fault) => Ok(Err(fault)),
        },
        Json::Object(members) => match entries_from(alloc, members)? {
            Ok(entries) => Ok(Ok(Value::Map(SharedEntries::of(alloc, entries)?))),
            Err(fault) => Ok(Err(fault)),
        },
    }
}

#[tactic(auto, using(decimal_json::specs::Falls::item_falls, crate::proofs::JsonSteps::items_begin))]
#[cycle(from_json)]
fn values_from(alloc: Global, items: &Items) -> Result<Result<Values, NumFault>, AllocError>
    ensures data { IfOk result (λ read. read_by items_of read ≡ trees_data (trees_of items.now)) }
    ensures range { IfOk result (λ read. IfErr read (λ fault. fault ≡ Range)) }
{
    let mut values = Values::with_capacity(alloc, items.as_slice().len())?;
    for item in items.as_slice() {
        match from_json(alloc, item)? {
            Ok(value) => values.push(value)?,
            Err(fault) => return Ok(Err(fault)),
        }
    }
    Ok(Ok(values))
}

#[tactic(auto, using(decimal_json::specs::Falls::member_falls, crate::proofs::JsonSteps::pairs_begin, crate::proofs::JsonKeys::lacks_read))]
#[cycle(from_json)]
fn entries_from(alloc: Global, members: &Members) -> Result<Result<Entries, NumFault>, AllocError>
    ensures data { IfOk result (λ read. read_by pairs_of read ≡ fields_data (fields_of members.now)) }
    ensures range { IfOk result (λ read. IfErr read (λ fault. fault ≡ Range)) }
{
    let mut entries = Entries::with_capacity(alloc, members.as_slice().len())?;
    for member in members.as_slice() {
        match from_json(alloc, &member.value)? {
            Ok(value) => {
                let key = member.key.share()?;
                entries.push(key, value)?;
            }
            Err(fault) => return Ok(Err(fault)),
        }
    }
    Ok(Ok(entries))
}

// The number of a JSON number, which is a number text: it can only be past the bound.
fn number_from(number: &NumText) -> Result<Fixed, NumFault>
    ensures number { result ≡ read_text number.now }
    ensures range { IfErr result (λ fault. fault ≡ Range) }
{
    json_numbers_are_read();
    read_decimal(number.as_str().as_bytes())
}
