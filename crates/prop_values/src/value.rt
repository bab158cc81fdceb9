ghost use Rattle.std.specs.Prelude.{◌≡◌, ◌↔◌, ◌<◌, ℕ, List, [], ◌∷◌, ◌++◌, length, take, slice_set, slice_index_or};
ghost use Rattle.std.specs.Prelude.{OnOk, OnErr, IfOk, Some, None, IsNone, option_map, if◌then◌else◌};
ghost use Rattle.std.specs.Option.{option_or};
ghost use Rattle.key_index.specs.Keys.{place_from, taken_out};
ghost use Rattle.prop_values.specs.Changes.{with_member, merged, without_key};
ghost use Rattle.prop_values.specs.Data.{pairs_of};
ghost use Rattle.prop_values.specs.Keys.{HasDistinctKeys, LacksKey, keys};
ghost use Rattle.prop_values.specs.Equality.{same_text, at_key};
ghost use Rattle.prop_values.specs.MergeSteps.{with_key, with_keys, replaced, all_replaced};
ghost use Rattle.prop_values.specs.View.{data_of};
ghost use Rattle.prop_values.specs.ViewParts.{values_view, entries_view};
ghost use Rattle.prop_values.specs.declared.value.Entry.{Entry};

use crate::copying::{copy_entries, copy_values};
use crate::packed_color::PackedColor;
use decimal_json::Text;
use fixed_num::Fixed;
use key_index::{KeyIndex, Keyed};
use std::alloc::{AllocError, Global};
use std::marker::Model;
use std::rc::Rc;

/// A value of a property, an expression or a feature. `data_of` says which data it is to a clause.
#[derive(Drop)]
#[cycle(value)]
pub enum Value {
    Null,
    Bool(bool),
    Num(Fixed),
    Text(Text),
    Color(PackedColor),
    List(Values),
    Map(SharedEntries),
}

#[derive(Drop)]
#[cycle(value)]
pub struct Entry {
    pub key: Text,
    pub value: Value,
}

/// The items of a list in order, which clauses see as a list of data. Copies of a list have its items in
/// common.
#[derive(Drop)]
#[cycle(value)]
pub struct Values {
    values: Option<Rc<Vec<Value>>>,
    alloc: Global,
}

/// The entries of a map that is a value, which clauses see as those entries. Copies of the value have them in
/// common: `into_entries` gives them to change.
#[derive(Drop)]
#[cycle(value)]
pub struct SharedEntries {
    entries: Rc<Entries>,
}

/// The entries of a map in the order in which they came, which clauses see as a list of pairs of a key
/// and data. No key occurs twice. A map of at most sixteen entries is a vector of them and nothing else.
#[derive(Drop)]
#[cycle(value)]
pub struct Entries {
    entries: Vec<Entry>,
    index: KeyIndex,
}

impl Keyed for Entry {
    ghost key = { λ entry. entry.key };

    fn key(&self) -> &str {
        self.key.as_str()
    }
}

impl Model for Values {
    ghost use Rattle.std.specs.Prelude.{List};
    ghost use Rattle.prop_values.specs.Data.{Data};
    ghost use Rattle.prop_values.specs.DataCode.{items_code};

    ghost Value = { List Data };

    ghost coded = { items_code };

    ghost use Rattle.prop_values.specs.ViewParts.{values_view, values_size, kept};

    ghost view = { λ a. values_view (kept a.values) };

    ghost size = { values_size };

    ghost use Rattle.std.proofs.Common.{arith};
    ghost use Rattle.prop_values.specs.Falls.{kept_fall};

    ghost size_decreases = { λ a h. Prim.omega (arith, kept_fall a.values) };
}

impl Model for Entries {
    ghost use Rattle.std.specs.Prelude.{List, ℕ};
    ghost use Rattle.prop_values.specs.Data.{Data};
    ghost use Rattle.prop_values.specs.Keys.{HasDistinctKeys};
    ghost use Rattle.prop_values.specs.DataCode.{pairs_code};

    ghost Value = { List (List ℕ × Data) };

    ghost coded = { pairs_code };

    ghost use Rattle.key_index.specs.Index.{IsIndexed};
    ghost use Rattle.prop_values.specs.ViewParts.{entries_view, entry_keys, entries_size};

    ghost view = { λ a. entries_view a.entries.items };

    ghost invariant = { λ a. HasDistinctKeys (entries_view a.entries.items)
        × IsIndexed a.index (entry_keys a.entries.items) };

    ghost size = { entries_size };

    ghost use Rattle.std.proofs.Common.{arith};
    ghost use Rattle.prop_values.specs.Falls.{entries_fall};

    ghost size_decreases = { λ a h. Prim.omega (arith, entries_fall a.entries.items) };
}

impl Model for SharedEntries {
    ghost use Rattle.std.specs.Prelude.{List, ℕ};
    ghost use Rattle.prop_values.specs.Data.{Data};
    ghost use Rattle.prop_values.specs.DataCode.{pairs_code};

    ghost Value = { List (List ℕ × Data) };

    ghost coded = { pairs_code };

    ghost use Rattle.prop_values.specs.ViewParts.{shared_size};

    ghost view = { λ a. a.entries.value };

    ghost size = { shared_size };

    ghost use Rattle.std.proofs.Common.{arith};

    ghost size_decreases = { λ a h. Prim.omega arith };
}

impl Values {
    pub fn new(alloc: Global) -> Values
        ensures { result ≡ [] }
    {
        Values {
            values: None,
            alloc,
        }
    }

    /// No items, with room for `count` of them.
    pub fn with_capacity(alloc: Global, count: usize) -> Result<Values, AllocError>
        ensures { IfOk result (λ made. made ≡ []) }
    {
        let values = Vec::with_capacity(alloc, count)?;
        Ok(Values {
            values: Some(Rc::new(alloc, values)?),
            alloc,
        })
    }

    /// Adds an item at the end. Where the items are shared they are first taken apart from the others', each
    /// item in constant time.
    pub fn push(&mut self, item: Value) -> Result<(), AllocError>
        ensures ok { OnOk result (self.new ≡ self.old ++ data_of item ∷ []) }
        ensures err { OnErr result (self.new ≡ self.old) }
    {
        if let Some(values) = &mut self.values {
            if let Some(own) = Rc::get_mut(values) {
                own.push(item)?;
                return Ok(());
            }
        }
        let mut own = copy_values(self.alloc, self.as_slice())?;
        own.push(item)?;
        self.values = Some(Rc::new(self.alloc, own)?);
        Ok(())
    }

    /// The same items, in constant time: nothing is copied.
    pub fn share(&self) -> Result<Values, AllocError>
        ensures { IfOk result (λ same. same ≡ self.now) }
    {
        let values = match &self.values {
            None => None,
            Some(values) => Some(values.clone()?),
        };
        Ok(Values {
            values,
            alloc: self.alloc,
        })
    }

    pub fn as_slice(&self) -> &[Value]
        ensures { values_view result.now ≡ self.now }
    {
        match &self.values {
            None => &[],
            Some(values) => values.as_ref().as_slice(),
        }
    }
}

impl SharedEntries {
    /// The entries, which may be shared from now on.
    pub fn of(alloc: Global, entries: Entries) -> Result<SharedEntries, AllocError>
        ensures { IfOk result (λ shared. shared ≡ entries) }
    {
        Ok(SharedEntries {
            entries: Rc::new(alloc, entries)?,
        })
    }

    /// The same entries, in constant time: nothing is copied.
    pub fn share(&self) -> Result<SharedEntries, AllocError>
        ensures { IfOk result (λ same. same ≡ self.now) }
    {
        Ok(SharedEntries {
            entries: self.entries.clone()?,
        })
    }

    pub fn as_entries(&self) -> &Entries
        ensures { result.now ≡ self.now }
    {
        self.entries.as_ref()
    }

    /// The entries to change: where others share them, in a map of their own, each entry in constant time.
    pub fn into_entries(self, alloc: Global) -> Result<Entries, AllocError>
        ensures { IfOk result (λ entries. entries ≡ self) }
    {
        let SharedEntries { entries } = self;
        match Rc::try_unwrap(entries) {
            Ok(own) => Ok(own),
            Err(shared) => copy_entries(alloc, shared.as_ref()),
        }
    }
}

impl Entries {
    pub fn new(alloc: Global) -> Entries
        ensures { result ≡ [] }
    {
        Entries {
            entries: Vec::new(alloc),
            index: KeyIndex::new(),
        }
    }

    /// No entries, with room for `count` of them.
    pub fn with_capacity(alloc: Global, count: usize) -> Result<Entries, AllocError>
        ensures { IfOk result (λ made. made ≡ []) }
    {
        Ok(Entries {
            entries: Vec::with_capacity(alloc, count)?,
            index: KeyIndex::new(),
        })
    }

    /// Adds an entry at the end, whose key may not be there. Nothing is looked for, and up to the sixteenth
    /// entry nothing but the entry is kept.
    pub fn push(&mut self, key: Text, value: Value) -> Result<(), AllocError>
        requires { LacksKey key self.old }
        ensures ok { OnOk result (self.new ≡ self.old ++ (key, data_of value) ∷ []) }
        ensures err { OnErr result (self.new ≡ self.old) }
    {
        // With room for the entry nothing can fail once its key is noted.
        self.entries.reserve(1)?;
        let alloc = *self.entries.allocator();
        self.index
            .note_next(alloc, self.entries.as_slice(), key.as_str())?;
        self.entries.push(Entry { key, value })?;
        Ok(())
    }

    pub fn as_slice(&self) -> &[Entry]
        ensures entries { entries_view result.now ≡ self.now }
        ensures distinct { HasDistinctKeys self.now }
    {
        self.entries.as_slice()
    }

    /// The value at a key, or `None` exactly where no entry has the key.
    #[tactic(auto, using(crate::proofs::KeyLaws::none_at_lacking, crate::proofs::KeyLaws::lacking_from_none, crate::proofs::IndexSteps::place_none))]
    pub fn get(&self, key: &str) -> Option<&Value>
        ensures value { option_map (λ v. data_of v.now) result ≡ at_key key.now (pairs_of self.now) }
        ensures none { IsNone result ↔ LacksKey key.now self.now }
    {
        match self.place_of(key) {
            None => None,
            Some(place) => Some(&self.entries[place].value),
        }
    }

    /// Sets the value at a key: in place of the one that is there, or in a new entry at the end.
    pub fn set(&mut self, key: Text, value: Value) -> Result<(), AllocError>
        ensures ok { OnOk result (self.new ≡ with_member key (data_of value) self.old) }
        ensures at { OnOk result ((q : List ℕ)
            → at_key q (pairs_of self.new)
            ≡ (if same_text key q then Some (data_of value) else at_key q (pairs_of self.old))) }
        ensures err { OnErr result (self.new ≡ self.old) }
    {
        match self.get(key.as_str()) {
            None => self.push(key, value),
            Some(_) => {
                self.replace(key.as_str(), value);
                Ok(())
            }
        }
    }

    /// Sets each of the members in their order, or none when allocation fails.
    pub fn merge(&mut self, members: Entries) -> Result<(), AllocError>
        ensures ok { OnOk result (self.new ≡ merged self.old members) }
        ensures at { OnOk result ((q : List ℕ)
            → at_key q (pairs_of self.new) ≡ option_or (at_key q (pairs_of members)) (at_key q (pairs_of self.old))) }
        ensures err { OnErr result (self.new ≡ self.old) }
    {
        let given = members.as_slice();
        if self.entries.is_empty() {
            *self = members;
            return Ok(());
        }
        // Only new keys need memory: once they are all there, the values take their places.
        let count = self.entries.len();
        match self.add_keys(given) {
            Err(error) => {
                self.truncate(count);
                Err(error)
            }
            Ok(()) => {
                self.replace_all(members);
                Ok(())
            }
        }
    }

    /// Removes the entry of a key, and the last entry takes its place. Where no entry has the key, nothing
    /// changes. It takes time logarithmic in the entries, but for the first time that an entry of more than
    /// sixteen is removed. It can't fail: when allocation fails, keys are looked for one by one until the
    /// next entry is added.
    pub fn remove(&mut self, key: &str)
        ensures left { self.new ≡ without_key key.now self.old }
        ensures at { (q : List ℕ) → at_key q (pairs_of self.new)
            ≡ (if same_text key.now q then None else at_key q (pairs_of self.old)) }
    {
        let Some(place) = self.place_of(key) else {
            return;
        };
        let alloc = *self.entries.allocator();
        self.index.note_taken(alloc, self.entries.as_slice(), place);
        take_out(&mut self.entries, place);
    }

    // The place of the entry of a key.
    fn place_of(&self, key: &str) -> Option<usize>
        ensures { result ≡ place_from 0 key.now (keys self.now) }
    {
        self.index.find(self.entries.as_slice(), key)
    }

    // Replaces the value at a key that is there.
    fn replace(&mut self, key: &str, value: Value)
        ensures { self.new ≡ replaced key.now (data_of value) self.old }
    {
        if let Some(place) = self.place_of(key) {
            put_value(&mut self.entries, place, value);
        }
    }

    fn replace_all(&mut self, members: Entries)
        ensures { self.new ≡ all_replaced self.old members }
    {
        let Entries { entries, index: _ } = members;
        for entry in entries {
            let Entry { key, value } = entry;
            self.replace(key.as_str(), value);
        }
    }

    // Adds each key that is not there, with null.
    #[tactic(auto, using(crate::proofs::Merging::first_added))]
    fn add_keys(&mut self, members: &[Entry]) -> Result<(), AllocError>
        ensures ok { OnOk result (self.new ≡ with_keys self.old (entries_view members.now)) }
        ensures first { take (length self.old) self.new ≡ self.old }
    {
        for entry in members {
            self.add_key(entry.key.as_str())?;
        }
        Ok(())
    }

    fn add_key(&mut self, key: &str) -> Result<(), AllocError>
        ensures ok { OnOk result (self.new ≡ with_key key.now self.old) }
        ensures err { OnErr result (self.new ≡ self.old) }
    {
        if self.get(key).is_none() {
            let key = Text::copy_of(*self.entries.allocator(), key)?;
            self.push(key, Value::Null)?;
        }
        Ok(())
    }

    // Keeps the first entries alone.
    fn truncate(&mut self, count: usize)
        ensures { self.new ≡ take count self.old }
    {
        self.entries.truncate(count);
        let alloc = *self.entries.allocator();
        self.index.renew(alloc, self.entries.as_slice());
    }
}

// Sets the value of an entry.
fn put_value(entries: &mut Vec<Entry>, place: usize, value: Value)
    requires { place < length entries.old.items }
    ensures { (e : Entry) → entries.new.items
        ≡ slice_set entries.old.items place (record (slice_index_or entries.old.items place e) { value = value }) }
{
    entries[place].value = value;
}

fn take_out(entries: &mut Vec<Entry>, place: usize)
    requires { place < length entries.old.items }
    ensures { entries.new.items ≡ taken_out place entries.old.items }
{
    let _ = entries.swap_remove(place);
}
