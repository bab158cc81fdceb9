ghost use Rattle.std.specs.Prelude.{◌≡◌, ◌↔◌, ◌+◌, ◌≤◌, ◌<◌, ℕ, [], ◌∷◌, ◌++◌, length, map, IfOk, OnOk, IsNone};
ghost use Rattle.std.specs.Prelude.{option_map, slice_index_or};
ghost use Rattle.key_index.specs.Index.{IsIndexed};
ghost use Rattle.key_index.specs.Keys.{place_from};
ghost use Rattle.prop_values.specs.Data.{pairs_of};
ghost use Rattle.prop_values.specs.Equality.{at_key};
ghost use Rattle.prop_values.specs.Keys.{HasDistinctKeys, LacksKey};
ghost use Rattle.prop_values.specs.View.{data_of};
ghost use Rattle.tile_reader.specs.Lookup.{IndicesWithin, pairs_seen};
ghost use Rattle.key_index.specs.Keys as index;
ghost use Rattle.tile_reader.specs.Ranges.{IsRange, range, pair_keys, key_texts, HasKeys, IsKeyIndex};
ghost use Rattle.tile_reader.specs.Ranges.{AreShared, properties_seen};

use decimal_json::Text;
use key_index::{KeyIndex, Keyed};
use prop_values::{Entries, Value, copy};
use std::alloc::{AllocError, Global};
use std::marker::Model;
use std::rc::Rc;

/// The keys and values of a layer, and the pairs of their indices that the properties of its features are, those
/// of one feature after those of the other.
#[derive(Drop)]
pub(crate) struct LayerTable {
    pub(crate) keys: Vec<Text>,
    pub(crate) values: Vec<Value>,
    pub(crate) pairs: Vec<(u32, u32)>,
}

/// The properties of a feature in the order in which they came, which clauses see as a list of pairs of a key and
/// data. No key occurs twice. The features of a layer have its keys and values in common; what is a feature's own
/// are the numbers of these, and an index of its keys where they are more than sixteen.
#[derive(Drop)]
pub struct FeatureProperties {
    table: SharedTable,
    first: u32,
    count: u32,
}

/// The table of a feature's layer. There are many features, so the index of some of them is in a box with the table.
#[derive(Drop)]
enum SharedTable {
    Empty,
    Plain(Rc<LayerTable>),
    Indexed(Box<IndexedTable>),
}

/// A table, and the keys of a feature with their index.
#[derive(Drop)]
struct IndexedTable {
    table: Rc<LayerTable>,
    keys: IndexedKeys,
}

/// Keys with their index.
#[derive(Drop)]
struct IndexedKeys {
    keys: Vec<IndexedKey>,
    index: KeyIndex,
}

#[derive(Drop)]
struct IndexedKey {
    text: Text,
}

impl Keyed for IndexedKey {
    ghost key = { λ key. key.text };

    fn key(&self) -> &str {
        self.text.as_str()
    }
}

impl IndexedKeys {
    // The place of a key.
    fn find(&self, key: &str) -> Option<usize>
        requires { IsIndexed self.now.index (key_texts self.now.keys.items) }
        ensures { result ≡ place_from 0 key.now (key_texts self.now.keys.items) }
    {
        self.index.find(self.keys.as_slice(), key)
    }

    // Adds a key, which may not be there.
    fn push(&mut self, alloc: Global, text: Text) -> Result<(), AllocError>
        requires indexed { IsIndexed self.old.index (key_texts self.old.keys.items) }
        requires distinct { index.HasDistinctKeys (key_texts self.old.keys.items) }
        requires lacks { index.LacksKey text (key_texts self.old.keys.items) }
        ensures keys { OnOk result (key_texts self.new.keys.items ≡ key_texts self.old.keys.items ++ text ∷ []) }
        ensures indexed { OnOk result (IsIndexed self.new.index (key_texts self.old.keys.items ++ text ∷ [])) }
    {
        self.index
            .note_next(alloc, self.keys.as_slice(), text.as_str())?;
        self.keys.push(IndexedKey { text })?;
        Ok(())
    }
}

impl Model for FeatureProperties {
    ghost use Rattle.std.specs.Prelude.{List, ℕ};
    ghost use Rattle.prop_values.specs.Data.{Data};
    ghost use Rattle.prop_values.specs.DataCode.{pairs_code};

    ghost Value = { List (List ℕ × Data) };

    ghost coded = { pairs_code };

    ghost use Rattle.tile_reader.specs.Ranges.{AreShared, properties_seen};

    ghost view = { λ a. properties_seen a.table a.first a.count };

    ghost invariant = { λ a. AreShared a.table a.first a.count };
}

impl FeatureProperties {
    /// No properties.
    pub fn none() -> FeatureProperties
        ensures { result ≡ [] }
    {
        FeatureProperties {
            table: SharedTable::Empty,
            first: 0,
            count: 0,
        }
    }

    /// One property.
    pub fn one(alloc: Global, key: Text, value: Value) -> Result<FeatureProperties, AllocError>
        ensures { IfOk result (λ made. made ≡ (key, data_of value) ∷ []) }
    {
        let mut keys = Vec::with_capacity(alloc, 1)?;
        let mut values = Vec::with_capacity(alloc, 1)?;
        let mut pairs = Vec::with_capacity(alloc, 1)?;
        keys.push(key)?;
        values.push(value)?;
        pairs.push((0, 0))?;
        let table = LayerTable {
            keys,
            values,
            pairs,
        };
        Ok(FeatureProperties {
            table: SharedTable::Plain(Rc::new(alloc, table)?),
            first: 0,
            count: 1,
        })
    }

    /// The properties that so many pairs of a layer are, from the first one on.
    #[inline(always)]
    pub(crate) fn of_range(
        alloc: Global,
        table: &Rc<LayerTable>,
        first: u32,
        count: u32,
    ) -> Result<FeatureProperties, AllocError>
        requires { IsRange table.now.value.keys.items (map data_of table.now.value.values.items)
            table.now.value.pairs.items first count }
        ensures { IfOk result
            (λ made. made ≡ pairs_seen table.now.value.keys.items (map data_of table.now.value.values.items)
            (range table.now.value.pairs.items first count)) }
    {
        let table = shared_table(alloc, table, first, count)?;
        Ok(FeatureProperties {
            table,
            first,
            count,
        })
    }

    /// The value at a key, or `None` exactly where no property has the key.
    pub fn get(&self, key: &str) -> Option<&Value>
        ensures value { option_map (λ v. data_of v.now) result ≡ at_key key.now (pairs_of self.now) }
        ensures none { IsNone result ↔ LacksKey key.now self.now }
    {
        match &self.table {
            SharedTable::Empty => None,
            SharedTable::Plain(table) => {
                value_in(table.as_ref(), self.first, self.count, None, key)
            }
            SharedTable::Indexed(indexed) => {
                let IndexedTable { table, keys } = indexed.as_ref();
                value_in(table.as_ref(), self.first, self.count, Some(keys), key)
            }
        }
    }

    /// The properties as entries of their own.
    pub fn to_entries(&self, alloc: Global) -> Result<Entries, AllocError>
        ensures { IfOk result (λ entries. entries ≡ self.now) }
    {
        match &self.table {
            SharedTable::Empty => Ok(Entries::new(alloc)),
            SharedTable::Plain(table) => {
                entries_in(alloc, table.as_ref(), self.first, self.count)
            }
            SharedTable::Indexed(indexed) => {
                entries_in(alloc, indexed.table.as_ref(), self.first, self.count)
            }
        }
    }
}

// So many pairs of a layer, from the first one on.
fn pairs_in(table: &LayerTable, first: u32, count: u32) -> &[(u32, u32)]
    requires { first + count ≤ length table.now.pairs.items }
    ensures { result.now ≡ range table.now.pairs.items first count }
{
    let (_, later) = table.pairs.as_slice().split_at(first as usize);
    let (own, _) = later.split_at(count as usize);
    own
}

// The table for so many pairs of it, from the first one on, with an index of their keys where they are more than
// sixteen.
#[inline(always)]
fn shared_table(
    alloc: Global,
    table: &Rc<LayerTable>,
    first: u32,
    count: u32,
) -> Result<SharedTable, AllocError>
    requires { IsRange table.now.value.keys.items (map data_of table.now.value.values.items)
        table.now.value.pairs.items first count }
    ensures shared { IfOk result (λ shared. AreShared shared first count) }
    ensures same { IfOk result (λ shared. properties_seen shared first count ≡ pairs_seen table.now.value.keys.items
        (map data_of table.now.value.values.items) (range table.now.value.pairs.items first count)) }
{
    if count <= 16 {
        return Ok(SharedTable::Plain(table.clone()?));
    }
    let keys = keys_of(alloc, table.as_ref(), first, count)?;
    let indexed = IndexedTable {
        table: table.clone()?,
        keys,
    };
    Ok(SharedTable::Indexed(Box::new(alloc, indexed)?))
}

// The keys of so many pairs of a layer, with their index.
#[inline(never)]
fn keys_of(
    alloc: Global,
    table: &LayerTable,
    first: u32,
    count: u32,
) -> Result<IndexedKeys, AllocError>
    requires { IsRange table.now.keys.items (map data_of table.now.values.items) table.now.pairs.items first count }
    ensures { IfOk result (λ made. IsKeyIndex made
        (pair_keys table.now.keys.items (range table.now.pairs.items first count))) }
{
    let pairs = pairs_in(table, first, count);
    indexed_keys(alloc, table.keys.as_slice(), pairs)
}

// The value at a key among so many pairs of a layer.
fn value_in<'a>(
    table: &'a LayerTable,
    first: u32,
    count: u32,
    index: Option<&IndexedKeys>,
    key: &str,
) -> Option<&'a Value>
    requires range { IsRange table.now.keys.items (map data_of table.now.values.items)
        table.now.pairs.items first count }
    requires index { HasKeys index (pair_keys table.now.keys.items (range table.now.pairs.items first count)) }
    ensures value { option_map (λ v. data_of v.now) result ≡ at_key key.now (pairs_of
        (pairs_seen table.now.keys.items (map data_of table.now.values.items)
        (range table.now.pairs.items first count))) }
    ensures none { IsNone result ↔ LacksKey key.now
        (pairs_seen table.now.keys.items (map data_of table.now.values.items)
        (range table.now.pairs.items first count)) }
{
    let pairs = pairs_in(table, first, count);
    value_at(
        table.keys.as_slice(),
        table.values.as_slice(),
        pairs,
        index,
        key,
    )
}

// The properties that so many pairs of a layer are.
fn entries_in(
    alloc: Global,
    table: &LayerTable,
    first: u32,
    count: u32,
) -> Result<Entries, AllocError>
    requires { IsRange table.now.keys.items (map data_of table.now.values.items) table.now.pairs.items first count }
    ensures { IfOk result (λ all. all ≡ pairs_seen table.now.keys.items (map data_of table.now.values.items)
        (range table.now.pairs.items first count)) }
{
    let pairs = pairs_in(table, first, count);
    entries(alloc, table.keys.as_slice(), table.values.as_slice(), pairs)
}

// The value at a key, by the place of its pair.
#[tactic(auto, using(crate::proofs::PairKeys::place_within, crate::proofs::PairKeys::lacks_without_place))]
fn value_at<'a>(
    keys: &[Text],
    values: &'a [Value],
    pairs: &[(u32, u32)],
    index: Option<&IndexedKeys>,
    key: &str,
) -> Option<&'a Value>
    requires inside { (i : ℕ) → i < length pairs.now
        → IndicesWithin (length keys.now) (length values.now) (slice_index_or pairs.now i (0, 0)) }
    requires index { HasKeys index (pair_keys keys.now pairs.now) }
    ensures value { option_map (λ v. data_of v.now) result
        ≡ at_key key.now (pairs_of (pairs_seen keys.now (map data_of values.now) pairs.now)) }
    ensures none { IsNone result ↔ LacksKey key.now (pairs_seen keys.now (map data_of values.now) pairs.now) }
{
    match place_of(keys, pairs, index, key) {
        None => None,
        Some(place) => {
            let pair = pairs[place];
            Some(&values[pair.1 as usize])
        }
    }
}

// The place of the pair of a key.
fn place_of(
    keys: &[Text],
    pairs: &[(u32, u32)],
    index: Option<&IndexedKeys>,
    key: &str,
) -> Option<usize>
    requires inside { (i : ℕ) → i < length pairs.now → (slice_index_or pairs.now i (0, 0)).0 < length keys.now }
    requires index { HasKeys index (pair_keys keys.now pairs.now) }
    ensures { result ≡ place_from 0 key.now (pair_keys keys.now pairs.now) }
{
    match index {
        Some(indexed) => indexed.find(key),
        None => first_place(keys, pairs, key),
    }
}

// The place of the first pair with a key, looked for in one pair after the other.
fn first_place(keys: &[Text], pairs: &[(u32, u32)], key: &str) -> Option<usize>
    requires { (i : ℕ) → i < length pairs.now → (slice_index_or pairs.now i (0, 0)).0 < length keys.now }
    ensures { result ≡ place_from 0 key.now (pair_keys keys.now pairs.now) }
{
    for (place, pair) in pairs.iter().enumerate() {
        if keys[pair.0 as usize].as_str() == key {
            return Some(place);
        }
    }
    None
}

// The keys of these pairs, with their index.
fn indexed_keys(
    alloc: Global,
    keys: &[Text],
    pairs: &[(u32, u32)],
) -> Result<IndexedKeys, AllocError>
    requires inside { (i : ℕ) → i < length pairs.now → (slice_index_or pairs.now i (0, 0)).0 < length keys.now }
    requires distinct { index.HasDistinctKeys (pair_keys keys.now pairs.now) }
    ensures { IfOk result (λ made. IsKeyIndex made (pair_keys keys.now pairs.now)) }
{
    let mut made = IndexedKeys {
        keys: Vec::with_capacity(alloc, pairs.len())?,
        index: KeyIndex::new(),
    };
    for (key, _) in pairs {
        let text = keys[*key as usize].share()?;
        made.push(alloc, text)?;
    }
    Ok(made)
}

// The properties of these pairs of indices.
fn entries(
    alloc: Global,
    keys: &[Text],
    values: &[Value],
    pairs: &[(u32, u32)],
) -> Result<Entries, AllocError>
    requires inside { (i : ℕ) → i < length pairs.now
        → IndicesWithin (length keys.now) (length values.now) (slice_index_or pairs.now i (0, 0)) }
    requires distinct { HasDistinctKeys (pairs_seen keys.now (map data_of values.now) pairs.now) }
    ensures { IfOk result (λ all. all ≡ pairs_seen keys.now (map data_of values.now) pairs.now) }
{
    let mut entries = Entries::with_capacity(alloc, pairs.len())?;
    for (key, value) in pairs {
        let text = keys[*key as usize].share()?;
        let value = copy(&values[*value as usize])?;
        entries.push(text, value)?;
    }
    Ok(entries)
}
