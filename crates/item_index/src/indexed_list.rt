//! A list and the index of its items.

ghost use Rattle.std.specs.Prelude.{◌≡◌, IfOk};
ghost use Rattle.std.specs.List.{list_any};
ghost use Rattle.prop_values.specs.Data.{list, items_of};
ghost use Rattle.prop_values.specs.Equality.{equal};
ghost use Rattle.prop_values.specs.View.{data_of};
ghost use Rattle.prop_values.specs.ViewParts.{values_view};
ghost use Rattle.item_index.specs.Indexed.{IsItemIndex, items_in};

use crate::index::{ItemIndex, index_has, index_of, is_among};
use prop_values::{Value, Values};
use std::alloc::{AllocError, Global};
use std::marker::Model;

/// A list of at most so many items is looked through one by one.
const FEW: usize = 16;

/// A list, which clauses see as a list of data. Whether a value is one of its items is found by their index, where
/// they are more than sixteen.
#[derive(Drop)]
pub struct IndexedList {
    list: Value,
    index: Option<Box<ItemIndex>>,
}

impl Model for IndexedList {
    ghost use Rattle.std.specs.Prelude.{List};
    ghost use Rattle.prop_values.specs.Data.{Data};
    ghost use Rattle.prop_values.specs.DataCode.{items_code};

    ghost Value = { List Data };

    ghost coded = { items_code };

    ghost use Rattle.item_index.specs.Indexed.{HasItemIndex, items_in};

    ghost view = { λ a. items_in a.list };

    ghost invariant = { λ a. HasItemIndex a.index a.list };
}

impl IndexedList {
    /// The list of some items, with their index where they are more than sixteen.
    pub fn of(alloc: Global, items: Values) -> Result<IndexedList, AllocError>
        ensures { IfOk result (λ made. made ≡ items) }
    {
        let index = index_of_many(alloc, items.as_slice())?;
        Ok(IndexedList {
            list: Value::List(items),
            index,
        })
    }

    /// The list.
    pub fn value(&self) -> &Value
        ensures { data_of result.now ≡ list (items_of self.now) }
    {
        &self.list
    }

    /// Whether one of the items is equal to a value.
    pub fn has(&self, value: &Value) -> bool
        ensures { result ≡ list_any (equal (data_of value.now)) self.now }
    {
        match &self.index {
            Some(index) => index_has(index, value),
            None => is_among(value, items_of(&self.list)),
        }
    }
}

fn index_of_many(alloc: Global, items: &[Value]) -> Result<Option<Box<ItemIndex>>, AllocError>
    ensures { IfOk result (λ index. IsItemIndex index (values_view items.now)) }
{
    if items.len() <= FEW {
        return Ok(None);
    }
    let index = index_of(alloc, items)?;
    Ok(Some(Box::new(alloc, index)?))
}

// The items of a value that is a list.
fn items_of(value: &Value) -> &[Value]
    ensures { values_view result.now ≡ items_in value.now }
{
    match value {
        Value::List(items) => items.as_slice(),
        _ => &[],
    }
}
