//! Literals, as nodes have them.

ghost use Rattle.std.specs.Prelude.{◌≡◌, IfOk, IfSome};
ghost use Rattle.prop_values.specs.Data.{items_of, list};
ghost use Rattle.prop_values.specs.View.{data_of};
ghost use Rattle.expr_nodes.specs.Searched.{IsSearched};

use item_index::IndexedList;
use prop_values::Value;
use std::alloc::{AllocError, Global};
use std::marker::Model;

/// A literal that is fitted already, which clauses see as its data. A list in which values are looked for has an
/// index of its items beside it, where they are many.
#[derive(Drop)]
pub struct Literal {
    value: Value,
    searched: Option<Box<IndexedList>>,
}

impl Model for Literal {
    ghost use Rattle.prop_values.specs.Data.{Data};
    ghost use Rattle.prop_values.specs.DataCode.{data_code};
    ghost use Rattle.prop_values.specs.View.{data_of};
    ghost use Rattle.expr_nodes.specs.Searched.{IsSearched};

    ghost Value = { Data };

    ghost coded = { data_code };

    ghost view = { λ a. data_of a.value };

    ghost invariant = { λ a. IsSearched a.searched a.value };
}

impl Literal {
    /// The literal of a value, which is not searched.
    pub fn of(value: Value) -> Literal
        ensures { result ≡ data_of value }
    {
        Literal {
            value,
            searched: None,
        }
    }

    /// The same literal. A list is kept with its index too.
    pub fn searched(self, alloc: Global) -> Result<Literal, AllocError>
        ensures { IfOk result (λ made. made ≡ self) }
    {
        let Literal { value, searched: _ } = self;
        let searched = searched_list(alloc, &value)?;
        Ok(Literal { value, searched })
    }

    /// The value.
    pub fn value(&self) -> &Value
        ensures { data_of result.now ≡ self.now }
    {
        &self.value
    }

    /// The list that the literal is, where it is kept to be searched.
    pub fn indexed(&self) -> Option<&IndexedList>
        ensures { IfSome result (λ items. self.now ≡ list (items_of items.now)) }
    {
        match &self.searched {
            Some(items) => Some(items),
            None => None,
        }
    }
}

fn searched_list(alloc: Global, value: &Value) -> Result<Option<Box<IndexedList>>, AllocError>
    ensures { IfOk result (λ searched. IsSearched searched value.now) }
{
    match value {
        Value::List(items) => {
            let list = IndexedList::of(alloc, items.share()?)?;
            Ok(Some(Box::new(alloc, list)?))
        }
        _ => Ok(None),
    }
}
