//! The parts of operators other than labels, as they are read from JSON.

ghost use Rattle.std.specs.Str.{bytes_eq};
ghost use Rattle.std.specs.Prelude.{◌≡◌, ◌<◌, IfOk, IfSome, length, ℤ, List, Option, Some, None, if◌then◌else◌, codes};
ghost use Rattle.std.specs.List.{list_all};
ghost use Rattle.decimal_json.specs.Tree.{Tree};
ghost use Rattle.decimal_json.specs.View.{tree_of, trees};
ghost use Rattle.interpolate_fixed.specs.PlaceFacts.{HasPositiveBase};
ghost use Rattle.expr_syntax.specs.declared.rows.ElementLayout.TheVariants as layouts;
ghost use Rattle.expr_syntax.specs.Elements.{after_head, second, second_text, option_named};
ghost use Rattle.expr_syntax.specs.ReadView.{scope_of};
ghost use Rattle.expr_syntax.specs.Parts.{operator_of, or_unknown, array_operator, with_item, with_length, item_named};
ghost use Rattle.expr_syntax.specs.Parts.{item_of};
ghost use Rattle.expr_syntax.specs.Parts.{whole_units, length_in, length_of, step_operator, interpolate_operator};
ghost use Rattle.expr_syntax.specs.Parts.{inputs_among};
ghost use Rattle.expr_syntax.specs.Parts.{value_in, steps_up, base_of, curve_of, curve_from, linear, exponential};
ghost use Rattle.expr_syntax.specs.Parts.{curve_in};
ghost use Rattle.expr_syntax.specs.Parts.{is_name_byte, is_binding_name, names_among, let_operator, var_operator};

use crate::bound_names::{AskedName, Names};
use crate::elements::{after_head, second, second_text, text_in};
use crate::expression::{Operator, plain_operator};
use crate::fault::SynCode;
use crate::labels::read_match;
use crate::names::Name;
use crate::parts::{InputList, Inputs, Ramp, Role};
use crate::rows::{ElementLayout, is_binder, is_input};
use crate::scope::{Scope, knows};
use decimal_json::Json;
use fixed_num::{Fixed, NumFault, read_decimal};
use prop_values::{Curve, Item};
use std::alloc::{AllocError, Global};

/// The operator of a node with its parts, or the least fault at the node. The elements are as many as its row
/// allows.
pub(crate) fn read_operator(
    alloc: Global,
    layout: ElementLayout,
    name: Name,
    items: &[Json],
    scope: &Scope<'_>,
) -> Result<Result<Operator, SynCode>, AllocError>
    requires { layout ≡ layouts.Ramp → 3 < length items.now }
    ensures { IfOk result (λ r. r ≡ operator_of layout name (scope_of scope.now) (length items.now) (trees items.now)) }
{
    match layout {
        ElementLayout::Items => Ok(read_array(after_head(items))),
        ElementLayout::Labels => read_match(alloc, items),
        ElementLayout::Stops => read_step(alloc, items),
        ElementLayout::Ramp => read_interpolate(alloc, items),
        ElementLayout::Bindings => read_let(alloc, items),
        ElementLayout::Variable => read_var(alloc, items, scope),
        _ => Ok(plain_operator(name).ok_or(SynCode::UnknownOperator)),
    }
}

// `array`, by the elements after its name.
#[tactic(auto, using(crate::proofs::PartLaws::array_rules))]
fn read_array(elements: &[Json]) -> Result<Operator, SynCode>
    ensures { result ≡ array_operator (trees elements.now) }
{
    match elements {
        [] => Err(SynCode::Part),
        [_] => Ok(Operator::Array(None, None)),
        [item, _] => with_item(item_of(item)),
        [item, length, _, ..] => with_length(item_of(item), length_of(length)),
    }
}

fn with_item(item: Option<Item>) -> Result<Operator, SynCode>
    ensures { result ≡ with_item item }
{
    match item {
        Some(item) => Ok(Operator::Array(Some(item), None)),
        None => Err(SynCode::Part),
    }
}

fn with_length(item: Option<Item>, length: Option<u32>) -> Result<Operator, SynCode>
    ensures { result ≡ with_length item length }
{
    match (item, length) {
        (Some(item), Some(length)) => Ok(Operator::Array(Some(item), Some(length))),
        (Some(_), None) => Err(SynCode::Part),
        (None, _) => Err(SynCode::Part),
    }
}

fn item_of(part: &Json) -> Option<Item>
    ensures { result ≡ item_of (tree_of part.now) }
{
    match part {
        Json::Text(name) => item_named(name.as_str()),
        _ => None,
    }
}

fn item_named(name: &str) -> Option<Item>
    ensures { result ≡ item_named name.now }
{
    match name {
        "boolean" => Some(Item::Boolean),
        "number" => Some(Item::Number),
        "string" => Some(Item::Text),
        _ => None,
    }
}

fn length_of(part: &Json) -> Option<u32>
    ensures { result ≡ length_of (tree_of part.now) }
{
    match part {
        Json::Num(number) => length_in(read_decimal(number.as_str().as_bytes())),
        _ => None,
    }
}

fn length_in(number: Result<Fixed, NumFault>) -> Option<u32>
    ensures { result ≡ length_in number }
{
    match number {
        Ok(number) if number.millionths() < 0 => None,
        Ok(number) => whole_units(number.millionths().unsigned_abs()),
        Err(_) => None,
    }
}

fn whole_units(millionths: u128) -> Option<u32>
    ensures { result ≡ whole_units millionths }
{
    let units = millionths / 1_000_000;
    if millionths % 1_000_000 == 0 && units <= 4_294_967_295 {
        Some(units as u32)
    } else {
        None
    }
}

fn read_step(alloc: Global, items: &[Json]) -> Result<Result<Operator, SynCode>, AllocError>
    ensures { IfOk result (λ read. read ≡ step_operator (length items.now) (trees items.now)) }
{
    match read_inputs(alloc, items)? {
        Ok(inputs) => Ok(Ok(Operator::Step(Inputs::of(alloc, inputs)?))),
        Err(code) => Ok(Err(code)),
    }
}

#[tactic(auto, using(crate::proofs::StopLaws::ramp_inputs))]
fn read_interpolate(alloc: Global, items: &[Json]) -> Result<Result<Operator, SynCode>, AllocError>
    requires { 3 < length items.now }
    ensures { IfOk result (λ read. read ≡ interpolate_operator (length items.now) (trees items.now)) }
{
    let Some(curve) = curve_in(items) else {
        return Ok(Err(SynCode::Part));
    };
    match read_inputs(alloc, items)? {
        Ok(inputs) => Ok(Ok(Operator::Interpolate(Ramp::of(alloc, curve, inputs)?))),
        Err(code) => Ok(Err(code)),
    }
}

// The inputs of stops among the elements of a node.
#[tactic(auto, using(crate::proofs::StopLaws::input_rules))]
fn read_inputs(alloc: Global, items: &[Json]) -> Result<Result<InputList, SynCode>, AllocError>
    ensures { IfOk result (λ read. read ≡ inputs_among (length items.now) (trees items.now)) }
{
    let mut inputs = InputList::new(alloc);
    let mut before: Option<Fixed> = None;
    let mut past = false;
    for (i, item) in items.iter().enumerate() {
        if is_input(i) {
            let Json::Num(number) = item else {
                return Ok(Err(SynCode::Part));
            };
            let input = value_in(read_decimal(number.as_str().as_bytes()));
            if !steps_up(&before, &input) {
                return Ok(Err(SynCode::Part));
            }
            match &input {
                Some(input) if !past => inputs.push(*input)?,
                Some(_) => {}
                None => past = true,
            }
            before = input;
        }
    }
    if past {
        return Ok(Err(SynCode::NumberRange));
    }
    Ok(Ok(inputs))
}

fn value_in(number: Result<Fixed, NumFault>) -> Option<Fixed>
    ensures { result ≡ value_in number }
{
    match number {
        Ok(number) => Some(number),
        Err(_) => None,
    }
}

fn steps_up(before: &Option<Fixed>, input: &Option<Fixed>) -> bool
    ensures { result ≡ steps_up before.now input.now }
{
    match (before, input) {
        (Some(before), Some(input)) => before.millionths() < input.millionths(),
        _ => true,
    }
}

// The interpolation of a node, which follows its name.
fn curve_in(items: &[Json]) -> Option<Curve>
    ensures curve { result ≡ curve_in (second (trees items.now)) }
    ensures base { IfSome result HasPositiveBase }
{
    match second(items) {
        Some(part) => curve_of(part),
        None => None,
    }
}

/// The interpolation that a part is.
pub(crate) fn curve_of(part: &Json) -> Option<Curve>
    ensures curve { result ≡ curve_of (tree_of part.now) }
    ensures base { IfSome result HasPositiveBase }
{
    match part {
        Json::List(items) => curve_from(items.as_slice()),
        _ => None,
    }
}

#[tactic(auto, using(crate::proofs::PartLaws::curve_from_many))]
fn curve_from(items: &[Json]) -> Option<Curve>
    ensures curve { result ≡ curve_from (trees items.now) }
    ensures base { IfSome result HasPositiveBase }
{
    match items {
        [] => None,
        [name] => linear(text_in(name)?.as_str()),
        [name, base] => exponential(text_in(name)?.as_str(), base),
        [_, _, _, ..] => None,
    }
}

fn linear(name: &str) -> Option<Curve>
    ensures curve { result ≡ linear (Some name.now) }
    ensures base { IfSome result HasPositiveBase }
{
    if name == "linear" {
        Some(Curve::Linear)
    } else {
        None
    }
}

fn exponential(name: &str, base: &Json) -> Option<Curve>
    ensures curve { result ≡ exponential (Some name.now) (tree_of base.now) }
    ensures base { IfSome result HasPositiveBase }
{
    if name != "exponential" {
        return None;
    }
    match base {
        Json::Num(base) => base_of(read_decimal(base.as_str().as_bytes())),
        _ => None,
    }
}

fn base_of(base: Result<Fixed, NumFault>) -> Option<Curve>
    ensures curve { result ≡ base_of base }
    ensures base { IfSome result HasPositiveBase }
{
    match base {
        Ok(base) if base.millionths() > 0 => Some(Curve::Exponential(base)),
        Ok(_) => None,
        Err(_) => None,
    }
}

fn read_let(alloc: Global, items: &[Json]) -> Result<Result<Operator, SynCode>, AllocError>
    ensures { IfOk result (λ read. read ≡ let_operator (names_among (length items.now) (trees items.now))) }
{
    match binding_names(alloc, items)? {
        Some(names) => Ok(Ok(Operator::Let(names))),
        None => Ok(Err(SynCode::Part)),
    }
}

fn binding_names(alloc: Global, items: &[Json]) -> Result<Option<Names>, AllocError>
    ensures { IfOk result (λ names. names ≡ names_among (length items.now) (trees items.now)) }
{
    let mut names = Vec::new(alloc);
    for (i, item) in items.iter().enumerate() {
        if is_binder(items.len(), i) {
            match item {
                Json::Text(name) if is_binding_name(name.as_str().as_bytes()) => {
                    names.push(name.share()?)?;
                }
                _ => return Ok(None),
            }
        }
    }
    Ok(Some(Names::of(alloc, names)?))
}

fn is_binding_name(name: &[u8]) -> bool
    ensures { result ≡ is_binding_name name.now }
{
    !name.is_empty() && are_name_bytes(name)
}

fn are_name_bytes(name: &[u8]) -> bool
    ensures { result ≡ list_all is_name_byte name.now }
{
    for byte in name {
        if !byte.is_ascii_alphanumeric() && *byte != b'_' {
            return false;
        }
    }
    true
}

fn read_var(
    alloc: Global,
    items: &[Json],
    scope: &Scope<'_>,
) -> Result<Result<Operator, SynCode>, AllocError>
    ensures { IfOk result (λ read. read ≡ var_operator (scope_of scope.now) (second_text (trees items.now))) }
{
    let Some(name) = second_text(items) else {
        return Ok(Err(SynCode::Part));
    };
    if knows(scope, name.as_str()) {
        Ok(Ok(Operator::Var(AskedName::of(alloc, name.share()?)?)))
    } else {
        Ok(Err(SynCode::UnknownVar))
    }
}

/// The option of `format` that a key names.
pub(crate) fn option_named(key: &str) -> Option<Role>
    ensures { result ≡ option_named key.now }
{
    match key {
        "font-scale" => Some(Role::Scale),
        "text-font" => Some(Role::Font),
        "text-color" => Some(Role::Color),
        _ => None,
    }
}
