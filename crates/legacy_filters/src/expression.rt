//! The expression that means what a legacy filter means.

ghost use Rattle.std.specs.Prelude.{◌≡◌, [], ◌∷◌, map, IfOk};
ghost use Rattle.decimal_json.specs.Tree.{text, list, trees_of, null};
ghost use Rattle.decimal_json.specs.View.{tree_of, items_view};
ghost use Rattle.legacy_filters.specs.ToExpression.{call, negation, value_expression, scalar_tree, has_expression};
ghost use Rattle.legacy_filters.specs.ToExpression.{order_name, kind_and_order, order_expression, among_expression};
ghost use Rattle.legacy_filters.specs.ToExpression.{test_expression, group_expression, expression, expressions};
ghost use Rattle.legacy_filters.specs.View.{filter_of, part_filter, part_filters};

use crate::filter::{Group, Key, LegacyFilter, Order, Part, Test};
use crate::scalars::Scalar;
use decimal_json::{Items, Json, Text};
use std::alloc::{AllocError, Global};

impl LegacyFilter {
    /// The expression that means the same, in which texts and numbers are as they were.
    pub fn to_expr(&self, alloc: Global) -> Result<Json, AllocError>
        ensures { IfOk result (λ made. tree_of made ≡ expression (filter_of self.now)) }
    {
        part_expression(alloc, &self.whole)
    }
}

#[cycle(expression)]
fn part_expression(alloc: Global, part: &Part) -> Result<Json, AllocError>
    ensures { IfOk result (λ made. tree_of made ≡ expression (part_filter part.now)) }
{
    match part {
        Part::Flag(truth) => Ok(Json::Bool(*truth)),
        Part::Test(key, test) => test_expression(alloc, key, test),
        Part::Group(group, parts) => group_expression(alloc, *group, parts.as_slice()),
    }
}

#[cycle(expression)]
fn group_expression(alloc: Global, group: Group, parts: &[Part]) -> Result<Json, AllocError>
    ensures { IfOk result (λ made. tree_of made ≡ group_expression group (expressions (part_filters parts.now))) }
{
    match group {
        Group::All => call_of_parts(alloc, "all", parts),
        Group::Any => call_of_parts(alloc, "any", parts),
        Group::None => {
            let any = call_of_parts(alloc, "any", parts)?;
            call_one(alloc, "!", any)
        }
    }
}

#[cycle(expression)]
fn call_of_parts(alloc: Global, name: &str, parts: &[Part]) -> Result<Json, AllocError>
    ensures { IfOk result (λ made. tree_of made ≡ call name.now (expressions (part_filters parts.now))) }
{
    let mut items = call_none(alloc, name)?;
    for part in parts {
        items.push(part_expression(alloc, part)?)?;
    }
    Ok(Json::List(items))
}

// An array that begins with a name.
fn call_none(alloc: Global, name: &str) -> Result<Items, AllocError>
    ensures { IfOk result (λ items. items ≡ text name.now ∷ []) }
{
    let mut items = Items::new(alloc);
    items.push(Json::Text(Text::copy_of(alloc, name)?))?;
    Ok(items)
}

fn call_one(alloc: Global, name: &str, element: Json) -> Result<Json, AllocError>
    ensures { IfOk result (λ made. tree_of made ≡ call name.now (tree_of element ∷ [])) }
{
    let mut items = call_none(alloc, name)?;
    items.push(element)?;
    Ok(Json::List(items))
}

fn call_two(alloc: Global, name: &str, first: Json, second: Json) -> Result<Json, AllocError>
    ensures { IfOk result (λ made. tree_of made ≡ call name.now (tree_of first ∷ tree_of second ∷ [])) }
{
    let mut items = call_none(alloc, name)?;
    items.push(first)?;
    items.push(second)?;
    Ok(Json::List(items))
}

fn text_json(alloc: Global, value: &str) -> Result<Json, AllocError>
    ensures { IfOk result (λ made. tree_of made ≡ text value.now) }
{
    Ok(Json::Text(Text::copy_of(alloc, value)?))
}

fn test_expression(alloc: Global, key: &Key, test: &Test) -> Result<Json, AllocError>
    ensures { IfOk result (λ made. tree_of made ≡ test_expression key.now test.now) }
{
    match test {
        Test::Has => has_expression(alloc, key),
        Test::HasNot => {
            let has = has_expression(alloc, key)?;
            call_one(alloc, "!", has)
        }
        Test::Equal(scalar) => comparison(alloc, "==", key, scalar),
        Test::NotEqual(scalar) => comparison(alloc, "!=", key, scalar),
        Test::Ordered(order, scalar) => order_expression(alloc, *order, key, scalar),
        Test::Among(scalars) => among_expression(alloc, key, scalars.as_slice()),
        Test::NotAmong(scalars) => {
            let among = among_expression(alloc, key, scalars.as_slice())?;
            call_one(alloc, "!", among)
        }
    }
}

fn has_expression(alloc: Global, key: &Key) -> Result<Json, AllocError>
    ensures { IfOk result (λ made. tree_of made ≡ has_expression key.now) }
{
    match key {
        Key::Shape => Ok(Json::Bool(true)),
        Key::Id => {
            let id = value_expression(alloc, key)?;
            call_two(alloc, "!=", id, Json::Null)
        }
        Key::Property(name) => call_one(alloc, "has", Json::Text(name.share()?)),
    }
}

// What gives the value of a key.
fn value_expression(alloc: Global, key: &Key) -> Result<Json, AllocError>
    ensures { IfOk result (λ made. tree_of made ≡ value_expression key.now) }
{
    match key {
        Key::Shape => Ok(Json::List(call_none(alloc, "geometry-type")?)),
        Key::Id => Ok(Json::List(call_none(alloc, "id")?)),
        Key::Property(name) => call_one(alloc, "get", Json::Text(name.share()?)),
    }
}

fn scalar_json(scalar: &Scalar) -> Result<Json, AllocError>
    ensures { IfOk result (λ made. tree_of made ≡ scalar_tree scalar.now) }
{
    match scalar {
        Scalar::Flag(truth) => Ok(Json::Bool(*truth)),
        Scalar::Number(spelled, _) => Ok(Json::Num(spelled.share()?)),
        Scalar::Text(text) => Ok(Json::Text(text.share()?)),
    }
}

fn comparison(alloc: Global, name: &str, key: &Key, scalar: &Scalar) -> Result<Json, AllocError>
    ensures { IfOk result
        (λ made. tree_of made ≡ call name.now (value_expression key.now ∷ scalar_tree scalar.now ∷ [])) }
{
    let value = value_expression(alloc, key)?;
    let scalar = scalar_json(scalar)?;
    call_two(alloc, name, value, scalar)
}

fn order_expression(
    alloc: Global,
    order: Order,
    key: &Key,
    scalar: &Scalar,
) -> Result<Json, AllocError>
    ensures { IfOk result (λ made. tree_of made ≡ order_expression order key.now scalar.now) }
{
    match scalar {
        Scalar::Flag(_) => Ok(Json::Bool(false)),
        Scalar::Number(_, _) => kind_and_order(alloc, order, "number", key, scalar),
        Scalar::Text(_) => kind_and_order(alloc, order, "string", key, scalar),
    }
}

fn kind_and_order(
    alloc: Global,
    order: Order,
    kind: &str,
    key: &Key,
    scalar: &Scalar,
) -> Result<Json, AllocError>
    ensures { IfOk result
        (λ made. tree_of made ≡ kind_and_order order kind.now (value_expression key.now) (scalar_tree scalar.now)) }
{
    let value = value_expression(alloc, key)?;
    let found = call_one(alloc, "typeof", value)?;
    let wanted = text_json(alloc, kind)?;
    let is_of_kind = call_two(alloc, "==", found, wanted)?;
    let is_ordered = comparison(alloc, order_name(order), key, scalar)?;
    call_two(alloc, "all", is_of_kind, is_ordered)
}

fn order_name(order: Order) -> &'static str
    ensures { result.now ≡ order_name order }
{
    match order {
        Order::Below => "<",
        Order::AtMost => "<=",
        Order::Above => ">",
        Order::AtLeast => ">=",
    }
}

fn among_expression(alloc: Global, key: &Key, scalars: &[Scalar]) -> Result<Json, AllocError>
    ensures { IfOk result (λ made. tree_of made ≡ among_expression key.now scalars.now) }
{
    let value = value_expression(alloc, key)?;
    let list = Json::List(scalar_items(alloc, scalars)?);
    let literal = call_one(alloc, "literal", list)?;
    call_two(alloc, "in", value, literal)
}

fn scalar_items(alloc: Global, scalars: &[Scalar]) -> Result<Items, AllocError>
    ensures { IfOk result (λ items. items ≡ map scalar_tree scalars.now) }
{
    let mut items = Items::new(alloc);
    for scalar in scalars {
        items.push(scalar_json(scalar)?)?;
    }
    Ok(items)
}
