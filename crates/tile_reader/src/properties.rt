ghost use Rattle.std.specs.Prelude.{◌≡◌, ◌⊎◌, ℕ, ◌+◌, ◌^◌, ◌<◌, ◌≤◌, ◌*ℤ◌, pos, ◌↔◌, List, [], ◌∷◌, ◌++◌, length, take};
ghost use Rattle.std.specs.Prelude.{map, IfOk, OnOk, Some, None, IfSome, IfNone, MatchOption, option_map};
ghost use Rattle.std.specs.Prelude.{if◌then◌else◌, unsigned_abs, slice_index_or};
ghost use Rattle.prop_values.specs.View.{data_of};
ghost use Rattle.tile_reader.specs.View.{GivesOrLacks, HasAllTags, tagged_seen, tagged_all, texts_seen, value_seen};
ghost use Rattle.tile_reader.specs.Ids.{front_id, after_id, own_ids};
ghost use Rattle.tile_reader.specs.Properties.{put_all, named, feature_of, features_of};
ghost use Rattle.tile_reader.specs.Lookup.{AreFirsts, AreInside, ArePlaces, pair_place, put_pair, pairs_seen};
ghost use Rattle.tile_reader.specs.Lookup.{NotesFirst};
ghost use Rattle.tile_reader.specs.Ranges.{IsRange, AreRanges, feature_in, features_in};

use crate::fault::{TileFault, TileKind};
use crate::feature::TaggedFeature;
use crate::feature_id::FeatureId;
use crate::feature_properties::{FeatureProperties, LayerTable};
use crate::tile::{Feature, Features, Shape};
use crate::value::Held;
use decimal_json::Text;
use fixed_num::Fixed;
use halts::Halt;
use prop_values::Value;
use std::alloc::{AllocError, Global};
use std::collections::BTreeMap;
use std::rc::Rc;

/// The keys and values of a layer, which its tags name, and for each key the place of the first that equals it.
#[derive(Clone, Copy)]
struct TagTable<'a> {
    keys: &'a [Text],
    values: &'a [Value],
    firsts: &'a [usize],
}

/// The pairs of indices that a feature's properties are, and for each key of the layer the place of its pair.
/// A place counts only where a pair of that key is there, so nothing is cleared between features.
#[derive(Drop)]
struct ChosenPairs {
    pairs: Vec<(usize, usize)>,
    places: Vec<usize>,
}

/// A feature whose properties are so many pairs of its layer, after those of the features before it, and whose
/// id, where it has one, is after theirs.
#[derive(Clone, Copy)]
struct ChosenFeature {
    count: u32,
    has_id: bool,
    shape: Shape,
}

/// The features of a layer with these keys and values, whose tags are these. Each text is copied once, and
/// all features share it.
pub(crate) fn features(
    alloc: Global,
    keys: &[&str],
    values: &[Held<'_>],
    tagged: Vec<TaggedFeature>,
    tags: Vec<u64>,
) -> Result<Features, Halt<TileFault>>
    requires { HasAllTags tagged.items tags.items }
    ensures { GivesOrLacks (λ all. all) result
        (features_of (texts_seen keys.now) (map value_seen values.now) [] (tagged_all tagged.items tags.items)) }
{
    let firsts = first_places(alloc, keys)?;
    let texts = texts_of(alloc, keys)?;
    let made = values_of(alloc, values)?;
    let table = TagTable {
        keys: texts.as_slice(),
        values: made.as_slice(),
        firsts: firsts.as_slice(),
    };
    let mut pairs = Vec::with_capacity(alloc, tags.len() / 2)?;
    let mut ids = Vec::new(alloc);
    let chosen = taken_features(alloc, &table, tagged, tags, &mut pairs, &mut ids)?;
    let layer = LayerTable {
        keys: texts,
        values: made,
        pairs,
    };
    let shared = Rc::new(alloc, layer)?;
    Ok(shared_features(alloc, &shared, chosen.as_slice(), ids.as_slice())?)
}

// The keys as texts of their own.
fn texts_of(alloc: Global, keys: &[&str]) -> Result<Vec<Text>, AllocError>
    ensures { IfOk result (λ texts. texts.items ≡ texts_seen keys.now) }
{
    let mut texts = Vec::new(alloc);
    for key in keys {
        texts.push(Text::copy_of(alloc, key)?)?;
    }
    Ok(texts)
}

// The values with texts of their own.
fn values_of(alloc: Global, held: &[Held<'_>]) -> Result<Vec<Value>, AllocError>
    ensures { IfOk result (λ made. map data_of made.items ≡ map value_seen held.now) }
{
    let mut made = Vec::new(alloc);
    for value in held {
        made.push(value_of(alloc, *value)?)?;
    }
    Ok(made)
}

// The features of a layer with these tags, which are given back to memory once their pairs are chosen.
fn taken_features(
    alloc: Global,
    table: &TagTable<'_>,
    tagged: Vec<TaggedFeature>,
    tags: Vec<u64>,
    pairs: &mut Vec<(u32, u32)>,
    ids: &mut Vec<u64>,
) -> Result<Vec<ChosenFeature>, Halt<TileFault>>
    requires firsts { AreFirsts table.now.firsts.now table.now.keys.now }
    requires tags { HasAllTags tagged.items tags.items }
    requires none { pairs.old.items ≡ [] }
    requires no_ids { ids.old.items ≡ [] }
    ensures features { GivesOrLacks
        (λ chosen. features_in table.now.keys.now (map data_of table.now.values.now)
        pairs.new.items ids.new.items 0 chosen.items)
        result (features_of table.now.keys.now (map data_of table.now.values.now) []
        (tagged_all tagged.items tags.items)) }
    ensures ranges { IfOk result (λ chosen.
        AreRanges table.now.keys.now (map data_of table.now.values.now) pairs.new.items 0 chosen.items) }
{
    chosen_features(alloc, table, tagged.as_slice(), tags.as_slice(), pairs, ids)
}

// The features of a layer with these tags, with their pairs and ids.
fn chosen_features(
    alloc: Global,
    table: &TagTable<'_>,
    tagged: &[TaggedFeature],
    tags: &[u64],
    pairs: &mut Vec<(u32, u32)>,
    ids: &mut Vec<u64>,
) -> Result<Vec<ChosenFeature>, Halt<TileFault>>
    requires firsts { AreFirsts table.now.firsts.now table.now.keys.now }
    requires tags { HasAllTags tagged.now tags.now }
    requires none { pairs.old.items ≡ [] }
    requires no_ids { ids.old.items ≡ [] }
    ensures features { GivesOrLacks
        (λ chosen. features_in table.now.keys.now (map data_of table.now.values.now)
        pairs.new.items ids.new.items 0 chosen.items)
        result (features_of table.now.keys.now (map data_of table.now.values.now) [] (tagged_all tagged.now tags.now)) }
    ensures ranges { IfOk result (λ chosen.
        AreRanges table.now.keys.now (map data_of table.now.values.now) pairs.new.items 0 chosen.items) }
{
    let mut chosen = Vec::with_capacity(alloc, tagged.len())?;
    let mut choice = ChosenPairs {
        pairs: Vec::new(alloc),
        places: vec![in alloc; 0; table.keys.len()]?,
    };
    let mut rest = tags;
    for feature in tagged {
        let (own, others) = rest.split_at(feature.count as usize);
        chosen.push(chosen_feature(table, feature, own, &mut choice, pairs, ids)?)?;
        rest = others;
    }
    Ok(chosen)
}

// For each key the index of the first key with its text, so that later steps compare numbers. All texts are
// compared here once for each layer.
fn first_places(alloc: Global, keys: &[&str]) -> Result<Vec<usize>, AllocError>
    ensures { IfOk result (λ firsts. AreFirsts firsts.items (texts_seen keys.now)) }
{
    let mut places: BTreeMap<&str, usize> = BTreeMap::new(alloc);
    let mut firsts = Vec::new(alloc);
    for (index, key) in keys.iter().enumerate() {
        let first = first_place(&mut places, key, index)?;
        firsts.push(first)?;
    }
    Ok(firsts)
}

// The place of the first text that equals this one, which is at `index`.
fn first_place<'a>(
    places: &mut BTreeMap<&'a str, usize>,
    key: &'a str,
    index: usize,
) -> Result<usize, AllocError>
    ensures { IfOk result (λ first. NotesFirst places.old places.new key.now index first) }
{
    match places.get(key).copied() {
        Some(first) => Ok(first),
        None => {
            places.insert(key, index)?;
            Ok(index)
        }
    }
}

// A feature with the properties that its tags name. Its pairs and its id are added to those of the features before it.
#[inline(always)]
fn chosen_feature(
    table: &TagTable<'_>,
    tagged: &TaggedFeature,
    tags: &[u64],
    choice: &mut ChosenPairs,
    pairs: &mut Vec<(u32, u32)>,
    ids: &mut Vec<u64>,
) -> Result<ChosenFeature, Halt<TileFault>>
    requires firsts { AreFirsts table.now.firsts.now table.now.keys.now }
    requires places { length choice.old.places.items ≡ length table.now.keys.now }
    ensures feature { GivesOrLacks
        (feature_in table.now.keys.now (map data_of table.now.values.now) pairs.new.items
        (own_ids tagged.now.id tagged.now.has_id) (length pairs.old.items))
        result (feature_of table.now.keys.now (map data_of table.now.values.now) (tagged_seen tagged.now tags.now)) }
    ensures range { IfOk result (λ chosen.
        IsRange table.now.keys.now (map data_of table.now.values.now)
        pairs.new.items (length pairs.old.items) chosen.count) }
    ensures long { IfOk result (λ chosen. length pairs.old.items + chosen.count ≡ length pairs.new.items) }
    ensures ids { OnOk result (ids.new.items ≡ ids.old.items ++ own_ids tagged.now.id tagged.now.has_id) }
    ensures kept { IfOk result (λ chosen. chosen.has_id ≡ tagged.now.has_id) }
    ensures before { OnOk result (take (length pairs.old.items) pairs.new.items ≡ pairs.old.items) }
    ensures places { OnOk result (length choice.new.places.items ≡ length table.now.keys.now) }
{
    if tags.len() % 2 == 1 {
        return Err(Halt::Fault(TileFault {
            kind: TileKind::OddTags,
            at: tagged.at,
        }));
    }
    if !choose(table.keys, table.values, table.firsts, tags, choice)? {
        return Err(Halt::Fault(TileFault {
            kind: TileKind::TagIndex,
            at: tagged.at,
        }));
    }
    let count = narrow(choice.pairs.len())?;
    add_pairs(pairs, choice.pairs.as_slice())?;
    add_id(ids, tagged.id, tagged.has_id)?;
    Ok(ChosenFeature {
        count,
        has_id: tagged.has_id,
        shape: tagged.shape,
    })
}

// Adds an id at the end, where there is one.
#[tactic(auto, using(crate::proofs::Ranges::added_one, crate::proofs::Ranges::added_none))]
#[inline(always)]
fn add_id(ids: &mut Vec<u64>, id: u64, has_id: bool) -> Result<(), AllocError>
    ensures { OnOk result (ids.new.items ≡ ids.old.items ++ own_ids id has_id) }
{
    if !has_id {
        return Ok(());
    }
    ids.push(id)?;
    Ok(())
}

// An index in 32 bits. So many pairs fill 8 GiB of a tile at least.
#[inline(always)]
fn narrow(index: usize) -> Result<u32, AllocError>
    ensures { IfOk result (λ same. same ≡ index) }
{
    match u32::try_from(index) {
        Ok(index) => Ok(index),
        Err(_) => Err(AllocError),
    }
}

// Adds pairs at the end.
#[inline(always)]
fn add_pairs(pairs: &mut Vec<(u32, u32)>, more: &[(usize, usize)]) -> Result<(), AllocError>
    ensures { OnOk result (pairs.new.items ≡ pairs.old.items ++ more.now) }
{
    for (key, value) in more {
        pairs.push((narrow(*key)?, narrow(*value)?))?;
    }
    Ok(())
}

// Chooses the indices of the key and the value of each property, in order. The answer is whether each tag has
// its key or value. A repeated key keeps its first place and takes its last value, so that only what stays is
// taken later.
#[inline(always)]
fn choose(
    keys: &[Text],
    values: &[Value],
    firsts: &[usize],
    tags: &[u64],
    choice: &mut ChosenPairs,
) -> Result<bool, AllocError>
    requires firsts { AreFirsts firsts.now keys.now }
    requires places { length choice.old.places.items ≡ length keys.now }
    ensures pairs { IfOk result (λ known. option_map (put_all []) (named keys.now (map data_of values.now) tags.now)
        ≡ (if known then Some (pairs_seen keys.now (map data_of values.now) choice.new.pairs.items) else None)) }
    ensures inside { OnOk result (AreInside firsts.now (length values.now) choice.new.pairs.items) }
    ensures places { OnOk result (length choice.new.places.items ≡ length keys.now) }
{
    choice.pairs.clear();
    let mut rest = tags;
    while let Some(((key, value), others)) = first_pair(rest) {
        match indices(keys.len(), values.len(), key, value) {
            None => return Ok(false),
            Some((key, value)) => put(&mut choice.places, &mut choice.pairs, (firsts[key], value))?,
        }
        rest = others;
    }
    Ok(true)
}

// The first two tags, and those after them.
#[inline(always)]
fn first_pair(tags: &[u64]) -> Option<((u64, u64), &[u64])>
    ensures pair { MatchOption result (length tags.now < 2) (λ read. tags.now ≡ read.0.0 ∷ (read.0.1 ∷ read.1.now)) }
    ensures taken { IfSome result (λ read. length read.1.now < length tags.now) }
{
    match tags.split_first() {
        None => None,
        Some((key, rest)) => match rest.split_first() {
            None => None,
            Some((value, others)) => Some(((*key, *value), others)),
        },
    }
}

// Two tags as indices, where there are so many keys and values.
#[inline(always)]
fn indices(keys: usize, values: usize, key: u64, value: u64) -> Option<(usize, usize)>
    ensures found { IfSome result (λ pair. (pair.0 ≡ key) × (pair.1 ≡ value) × (key < keys) × (value < values)) }
    ensures past { IfNone result ((keys ≤ key) ⊎ (values ≤ value)) }
{
    if key >= keys as u64 {
        return None;
    }
    if value >= values as u64 {
        return None;
    }
    Some((key as usize, value as usize))
}

// Puts a pair in the place of its key, or at the end.
#[inline(always)]
fn put(
    places: &mut Vec<usize>,
    chosen: &mut Vec<(usize, usize)>,
    pair: (usize, usize),
) -> Result<(), AllocError>
    requires key { pair.0 < length places.old.items }
    requires places { ArePlaces places.old.items chosen.old.items }
    ensures pairs { OnOk result (chosen.new.items ≡ put_pair pair chosen.old.items) }
    ensures places { OnOk result (ArePlaces places.new.items chosen.new.items) }
    ensures long { OnOk result (length places.new.items ≡ length places.old.items) }
{
    match place_of(places.as_slice(), chosen.as_slice(), pair.0) {
        Some(place) => chosen[place] = pair,
        None => {
            let place = chosen.len();
            chosen.push(pair)?;
            places[pair.0] = place;
        }
    }
    Ok(())
}

// The place of the pair of a key.
#[inline(always)]
fn place_of(places: &[usize], chosen: &[(usize, usize)], key: usize) -> Option<usize>
    requires key { key < length places.now }
    requires places { ArePlaces places.now chosen.now }
    ensures { result ≡ pair_place key chosen.now }
{
    let place = places[key];
    if place < chosen.len() && chosen[place].0 == key {
        Some(place)
    } else {
        None
    }
}

// The features with these ids, whose properties are ranges of the pairs of their layer.
fn shared_features(
    alloc: Global,
    table: &Rc<LayerTable>,
    chosen: &[ChosenFeature],
    ids: &[u64],
) -> Result<Features, AllocError>
    requires { AreRanges table.now.value.keys.items (map data_of table.now.value.values.items)
        table.now.value.pairs.items 0 chosen.now }
    ensures { IfOk result (λ features. features ≡ features_in table.now.value.keys.items
        (map data_of table.now.value.values.items) table.now.value.pairs.items ids.now 0 chosen.now) }
{
    let mut features = Features::with_capacity(alloc, chosen.len())?;
    let mut first = 0;
    let mut rest = ids;
    for feature in chosen {
        let from = narrow(first)?;
        let properties = FeatureProperties::of_range(alloc, table, from, feature.count)?;
        first += feature.count as usize;
        let (id, others) = front_id(feature.has_id, rest);
        rest = others;
        features.push(Feature {
            id: FeatureId::of(id),
            shape: feature.shape,
            properties,
        })?;
    }
    Ok(features)
}

// The id of a feature that has one, which is at the front, and those of the features after it.
#[inline(always)]
fn front_id(has_id: bool, ids: &[u64]) -> (Option<u64>, &[u64])
    ensures id { result.0 ≡ front_id has_id ids.now }
    ensures others { result.1.now ≡ after_id has_id ids.now }
{
    if !has_id {
        return (None, ids);
    }
    match ids.split_first() {
        None => (None, ids),
        Some((id, others)) => (Some(*id), others),
    }
}

// A value with a text of its own.
fn value_of(alloc: Global, held: Held<'_>) -> Result<Value, AllocError>
    ensures { IfOk result (λ value. data_of value ≡ value_seen held.entry) }
{
    match held {
        Held::Signed(number) => Ok(Value::Num(units(i128::from(number)))),
        Held::Unsigned(number) => Ok(Value::Num(units(i128::from(number)))),
        Held::Text(text) => Ok(Value::Text(Text::copy_of(alloc, text)?)),
        Held::Flag(flag) => Ok(Value::Bool(flag)),
    }
}

// A whole number of units. All numbers of 64 bits are far within the bound.
fn units(units: i128) -> Fixed
    requires { unsigned_abs units ≤ 2 ^ 64 }
    ensures { result ≡ units *ℤ pos 1000000 }
{
    Fixed::from_millionths(units * 1_000_000).unwrap()
}
