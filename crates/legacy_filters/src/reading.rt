//! How a legacy filter is read.

ghost use Rattle.std.specs.Prelude.{◌≡◌, Ok, Err, IfOk, option_map};
ghost use Rattle.decimal_json.specs.View.{path_of, tree_of, trees};
ghost use Rattle.legacy_filters.specs.declared.filter.Test.TheVariants as tests;
ghost use Rattle.legacy_filters.specs.Form.{key_named, shape_scalar, plain_scalar, number_scalar, scalar_form};
ghost use Rattle.legacy_filters.specs.Form.{one_scalar, ordered_scalar, scalars_form, alone, test_form, keyed_form};
ghost use Rattle.legacy_filters.specs.Form.{or_ill_formed, group_named, group_form, named_form, array_form, form};
ghost use Rattle.legacy_filters.specs.Form.{forms, ill_formed, reading};
ghost use Rattle.legacy_filters.specs.View.{part_filter, part_read, read_of};

use crate::filter::{FilterFault, Group, Key, LegacyFilter, Order, Part, Test};
use crate::scalars::{Scalar, Scalars};
use decimal_json::{Here, Json, NumText, Text, path_to};
use fixed_num::{Fixed, NumFault, read_decimal};
use std::alloc::{AllocError, Global};

// How many groups may be open at a place.
const MOST_OPEN: u32 = 24;

/// The legacy filter that a tree is, or the fault of its innermost ill-formed part, the first in order. Texts
/// are shared with the tree.
pub fn read(alloc: Global, filter: &Json) -> Result<Result<LegacyFilter, FilterFault>, AllocError>
    ensures { IfOk result (λ read. read_of read ≡ reading (tree_of filter.now)) }
{
    match read_part(alloc, filter, 0, &Here::Root)? {
        Ok(whole) => Ok(Ok(LegacyFilter { whole })),
        Err(fault) => Ok(Err(fault)),
    }
}

#[tactic(auto, using(decimal_json::specs::Falls::item_weight))]
#[cycle(reading)]
fn read_part(
    alloc: Global,
    part: &Json,
    count: u32,
    here: &Here<'_>,
) -> Result<Result<Part, FilterFault>, AllocError>
    ensures { IfOk result (λ read. part_read read ≡ form (tree_of part.now) count (path_of here.now)) }
{
    match part {
        Json::Bool(truth) => Ok(Ok(Part::Flag(*truth))),
        Json::List(items) => read_array(alloc, items.as_slice(), count, here),
        _ => refused(alloc, here),
    }
}

#[tactic(auto, using(decimal_json::specs::Falls::item_weight))]
#[cycle(reading)]
fn read_array(
    alloc: Global,
    items: &[Json],
    count: u32,
    here: &Here<'_>,
) -> Result<Result<Part, FilterFault>, AllocError>
    ensures { IfOk result (λ read. part_read read ≡ array_form (trees items.now) count (path_of here.now)) }
{
    match items {
        [Json::Text(name), elements @ ..] => {
            read_named(alloc, name.as_str(), elements, count, here)
        }
        _ => refused(alloc, here),
    }
}

// An array that begins with a name, by the elements after it.
#[tactic(auto, using(decimal_json::specs::Falls::item_weight))]
#[cycle(reading)]
fn read_named(
    alloc: Global,
    name: &str,
    elements: &[Json],
    count: u32,
    here: &Here<'_>,
) -> Result<Result<Part, FilterFault>, AllocError>
    ensures { IfOk result
        (λ read. part_read read ≡ named_form name.now (trees elements.now) (forms (trees elements.now)) count
        (path_of here.now)) }
{
    match group_named(name) {
        Some(group) => read_group(alloc, group, elements, count, here),
        None => {
            let part = keyed_form(alloc, name, elements)?;
            or_refused(alloc, part, here)
        }
    }
}

#[tactic(auto, using(decimal_json::specs::Falls::item_weight))]
#[cycle(reading)]
fn read_group(
    alloc: Global,
    group: Group,
    elements: &[Json],
    count: u32,
    here: &Here<'_>,
) -> Result<Result<Part, FilterFault>, AllocError>
    ensures { IfOk result
        (λ read. part_read read ≡ group_form group (forms (trees elements.now)) count (path_of here.now)) }
{
    if count >= MOST_OPEN {
        return refused(alloc, here);
    }
    let mut parts = Vec::new(alloc);
    for (i, element) in elements.iter().enumerate() {
        let there = Here::Index(i + 1, &*here);
        match read_part(alloc, element, count + 1, &there)? {
            Ok(part) => parts.push(part)?,
            Err(fault) => return Ok(Err(fault)),
        }
    }
    Ok(Ok(Part::Group(group, parts)))
}

fn refused(alloc: Global, here: &Here<'_>) -> Result<Result<Part, FilterFault>, AllocError>
    ensures { IfOk result (λ read. part_read read ≡ ill_formed (path_of here.now)) }
{
    Ok(Err(FilterFault {
        path: path_to(alloc, here)?,
    }))
}

fn or_refused(
    alloc: Global,
    part: Option<Part>,
    here: &Here<'_>,
) -> Result<Result<Part, FilterFault>, AllocError>
    ensures { IfOk result (λ read. part_read read ≡ or_ill_formed (option_map part_filter part) (path_of here.now)) }
{
    match part {
        Some(part) => Ok(Ok(part)),
        None => refused(alloc, here),
    }
}

fn group_named(name: &str) -> Option<Group>
    ensures { result ≡ group_named name.now }
{
    match name {
        "all" => Some(Group::All),
        "any" => Some(Group::Any),
        "none" => Some(Group::None),
        _ => None,
    }
}

// A key, and what follows it.
fn keyed_form(alloc: Global, name: &str, elements: &[Json]) -> Result<Option<Part>, AllocError>
    ensures { IfOk result (λ part. option_map part_filter part ≡ keyed_form name.now (trees elements.now)) }
{
    match elements {
        [Json::Text(key), others @ ..] => {
            let key = key_named(key)?;
            match test_form(alloc, name, &key, others)? {
                Some(test) => Ok(Some(Part::Test(key, test))),
                None => Ok(None),
            }
        }
        _ => Ok(None),
    }
}

fn key_named(name: &Text) -> Result<Key, AllocError>
    ensures { IfOk result (λ key. key ≡ key_named name.now) }
{
    match name.as_str() {
        "$type" => Ok(Key::Shape),
        "$id" => Ok(Key::Id),
        _ => Ok(Key::Property(name.share()?)),
    }
}

// The test of a name, by what follows the key.
fn test_form(
    alloc: Global,
    name: &str,
    key: &Key,
    elements: &[Json],
) -> Result<Option<Test>, AllocError>
    ensures { IfOk result (λ test. test ≡ test_form name.now key.now (trees elements.now)) }
{
    match name {
        "has" => Ok(has_form(elements)),
        "!has" => Ok(has_not_form(elements)),
        "==" => Ok(one_scalar(key, elements)?.map(Test::Equal)),
        "!=" => Ok(one_scalar(key, elements)?.map(Test::NotEqual)),
        "<" => ordered_form(Order::Below, key, elements),
        "<=" => ordered_form(Order::AtMost, key, elements),
        ">" => ordered_form(Order::Above, key, elements),
        ">=" => ordered_form(Order::AtLeast, key, elements),
        "in" => Ok(scalars_form(alloc, key, elements)?.map(Test::Among)),
        "!in" => Ok(scalars_form(alloc, key, elements)?.map(Test::NotAmong)),
        _ => Ok(None),
    }
}

#[tactic(auto, using(crate::proofs::Lengths::alone_of_some))]
fn has_form(elements: &[Json]) -> Option<Test>
    ensures { result ≡ alone tests.Has (trees elements.now) }
{
    match elements {
        [] => Some(Test::Has),
        _ => None,
    }
}

#[tactic(auto, using(crate::proofs::Lengths::alone_of_some))]
fn has_not_form(elements: &[Json]) -> Option<Test>
    ensures { result ≡ alone tests.HasNot (trees elements.now) }
{
    match elements {
        [] => Some(Test::HasNot),
        _ => None,
    }
}

fn ordered_form(order: Order, key: &Key, elements: &[Json]) -> Result<Option<Test>, AllocError>
    ensures { IfOk result
        (λ test. test ≡ option_map (tests.Ordered order) (ordered_scalar key.now (trees elements.now))) }
{
    if matches!(key, Key::Shape) {
        return Ok(None);
    }
    match one_scalar(key, elements)? {
        Some(scalar) => Ok(Some(Test::Ordered(order, scalar))),
        None => Ok(None),
    }
}

#[tactic(auto, using(crate::proofs::Lengths::one_of_none, crate::proofs::Lengths::one_of_many))]
fn one_scalar(key: &Key, elements: &[Json]) -> Result<Option<Scalar>, AllocError>
    ensures { IfOk result (λ scalar. scalar ≡ one_scalar key.now (trees elements.now)) }
{
    match elements {
        [element] => scalar_form(key, element),
        _ => Ok(None),
    }
}

fn scalars_form(alloc: Global, key: &Key, elements: &[Json]) -> Result<Option<Scalars>, AllocError>
    ensures { IfOk result (λ scalars. scalars ≡ scalars_form key.now (trees elements.now)) }
{
    match read_scalars(alloc, key, elements)? {
        Some(scalars) => Ok(Some(Scalars::of(alloc, scalars)?)),
        None => Ok(None),
    }
}

fn read_scalars(
    alloc: Global,
    key: &Key,
    elements: &[Json],
) -> Result<Option<Vec<Scalar>>, AllocError>
    ensures { IfOk result (λ scalars. option_map (λ v. v.items) scalars ≡ scalars_form key.now (trees elements.now)) }
{
    let mut scalars = Vec::new(alloc);
    for element in elements {
        match scalar_form(key, element)? {
            Some(scalar) => scalars.push(scalar)?,
            None => return Ok(None),
        }
    }
    Ok(Some(scalars))
}

fn scalar_form(key: &Key, element: &Json) -> Result<Option<Scalar>, AllocError>
    ensures { IfOk result (λ scalar. scalar ≡ scalar_form key.now (tree_of element.now)) }
{
    match key {
        Key::Shape => shape_scalar(element),
        _ => plain_scalar(element),
    }
}

fn shape_scalar(element: &Json) -> Result<Option<Scalar>, AllocError>
    ensures { IfOk result (λ scalar. scalar ≡ shape_scalar (tree_of element.now)) }
{
    match element {
        Json::Text(text) => match text.as_str() {
            "Point" | "LineString" | "Polygon" => Ok(Some(Scalar::Text(text.share()?))),
            _ => Ok(None),
        },
        _ => Ok(None),
    }
}

fn plain_scalar(element: &Json) -> Result<Option<Scalar>, AllocError>
    ensures { IfOk result (λ scalar. scalar ≡ plain_scalar (tree_of element.now)) }
{
    match element {
        Json::Bool(truth) => Ok(Some(Scalar::Flag(*truth))),
        Json::Num(number) => number_scalar(number, read_decimal(number.as_str().as_bytes())),
        Json::Text(text) => Ok(Some(Scalar::Text(text.share()?))),
        _ => Ok(None),
    }
}

fn number_scalar(
    spelled: &NumText,
    number: Result<Fixed, NumFault>,
) -> Result<Option<Scalar>, AllocError>
    ensures { IfOk result (λ scalar. scalar ≡ number_scalar spelled.now number) }
{
    match number {
        Ok(number) => Ok(Some(Scalar::Number(spelled.share()?, number))),
        Err(_) => Ok(None),
    }
}
