//! The names that a `let` binds, and the name that a `var` asks.

ghost use Rattle.std.specs.Prelude.{◌≡◌, ◌<◌, ◌^◌, IfOk, IfSome, length};
ghost use Rattle.expr_syntax.specs.NameIndex.{last_place, ArePlacesOf, IsIndexOf};

use crate::text_numbers::{TextNumbers, note_text, number_of_text};
use decimal_json::Text;
use std::alloc::{AllocError, Global};
use std::collections::BTreeMap;
use std::marker::Model;

// How many names are compared one by one, and are in no index.
const FIRST: usize = 8;

/// The names that a `let` binds, in order. Up to eight are looked through one by one; of more an index has
/// the last place of each.
#[derive(Drop)]
pub struct Names {
    table: Box<NameTable>,
}

// On the heap, as the parts of other operators.
#[derive(Drop)]
struct NameTable {
    names: Vec<Text>,
    places: TextNumbers,
}

impl Model for Names {
    ghost use Rattle.std.specs.Prelude.{ℕ, List};
    ghost use Rattle.expr_syntax.specs.NameIndex.{IsIndexOf};

    ghost Value = { List (List ℕ) };

    ghost view = { λ a. a.table.value.names.items };

    ghost invariant = { λ a. IsIndexOf a.table.value.places a.table.value.names.items };
}

/// The name that a `var` asks. It is on the heap too.
#[derive(Drop)]
pub struct AskedName {
    name: Box<Text>,
}

impl Model for AskedName {
    ghost use Rattle.std.specs.Prelude.{ℕ, List};

    ghost Value = { List ℕ };

    ghost view = { λ a. a.name.value };
}

impl AskedName {
    pub(crate) fn of(alloc: Global, name: Text) -> Result<AskedName, AllocError>
        ensures { IfOk result (λ made. made ≡ name) }
    {
        Ok(AskedName {
            name: Box::new(alloc, name)?,
        })
    }

    pub fn as_text(&self) -> &Text
        ensures { result.now ≡ self.now }
    {
        &*self.name
    }

    pub fn into_text(self) -> Text
        ensures { result ≡ self }
    {
        Box::into_inner(self.name)
    }
}

impl Names {
    pub(crate) fn of(alloc: Global, names: Vec<Text>) -> Result<Names, AllocError>
        ensures { IfOk result (λ made. made ≡ names.items) }
    {
        let places = index_of(alloc, names.as_slice())?;
        let table = Box::new(alloc, NameTable { names, places })?;
        Ok(Names { table })
    }

    /// How many names there are.
    pub fn len(&self) -> usize
        ensures count { result ≡ length self.now }
        ensures short { result < 2 ^ 60 }
    {
        self.table.names.as_slice().len()
    }

    pub fn as_slice(&self) -> &[Text]
        ensures { result.now ≡ self.now }
    {
        self.table.names.as_slice()
    }

    /// The place of the last of the names that is this one, in logarithmic time. It takes no memory.
    pub fn last_place(&self, name: &str) -> Option<usize>
        ensures value { result ≡ last_place 0 self.now name.now }
        ensures within { IfSome result (λ place. place < length self.now) }
    {
        if self.table.names.len() <= FIRST {
            walked_place(self.table.names.as_slice(), name)
        } else {
            number_of_text(&self.table.places, name)
        }
    }
}

fn index_of(alloc: Global, names: &[Text]) -> Result<TextNumbers, AllocError>
    ensures { IfOk result (λ places. IsIndexOf places names.now) }
{
    if names.len() <= FIRST {
        return Ok(BTreeMap::new(alloc));
    }
    places_of(alloc, names)
}

fn places_of(alloc: Global, names: &[Text]) -> Result<TextNumbers, AllocError>
    ensures { IfOk result (λ places. ArePlacesOf places names.now) }
{
    let mut places = BTreeMap::new(alloc);
    for (place, name) in names.iter().enumerate() {
        note_text(alloc, &mut places, name.as_str(), place)?;
    }
    Ok(places)
}

// The place of the last of the names that is this one, looked for in one after the other.
fn walked_place(names: &[Text], name: &str) -> Option<usize>
    ensures { result ≡ last_place 0 names.now name.now }
{
    let mut found = None;
    for (place, bound) in names.iter().enumerate() {
        if bound.as_str() == name {
            found = Some(place);
        }
    }
    found
}
