//! Conversions of values.

ghost use Rattle.std.specs.Prelude.{◌≡◌, ◌≤◌, length, IfSome};
ghost use Rattle.fixed_num.specs.ColorRange.{IsInRange};
ghost use Rattle.std.specs.List.{prefix_len, suffix_len};
ghost use Rattle.prop_values.specs.View.{data_of};
ghost use Rattle.prop_values.specs.ViewParts.{values_view, evaluated_of};
ghost use Rattle.operator_values.specs.Evaluated.{GivesValue};
ghost use Rattle.operator_values.specs.Conversions.{number_in, number_in_text, number_in_trimmed, signed_number};
ghost use Rattle.operator_values.specs.Conversions.{value_of, without_blanks, without_blanks_before};
ghost use Rattle.operator_values.specs.Conversions.{without_blanks_behind, is_blank, color_in, color_of_list};
ghost use Rattle.operator_values.specs.Conversions.{color_of_parts, are_parts, is_within, truth_of, text_of, kind_of};
ghost use Rattle.operator_values.specs.Conversions.{negation_of};

use crate::whole::whole;
use color_values::read_color;
use decimal_json::Text;
use fixed_num::{Color, Fixed, NumFault, begins_with, read_decimal};
use halts::Halt;
use prop_values::{EvalFault, Value, kind_text, to_text, truth};
use std::alloc::Global;

/// `to-boolean`: false for null, false, 0 and the empty text.
pub fn truth_of(values: &[Value]) -> Result<Value, EvalFault>
    ensures { evaluated_of result ≡ truth_of (values_view values.now) }
{
    match values {
        [value] => Ok(Value::Bool(truth(value))),
        _ => Err(EvalFault::WrongType),
    }
}

/// `to-string`.
pub fn text_of(alloc: Global, values: &[Value]) -> Result<Value, Halt<EvalFault>>
    ensures { GivesValue result (text_of (values_view values.now)) }
{
    match values {
        [value] => Ok(Value::Text(to_text(alloc, value)?)),
        _ => Err(Halt::Fault(EvalFault::WrongType)),
    }
}

/// `typeof`: `null`, `boolean`, `number`, `string`, `color`, `array` or `object`.
pub fn kind_of(alloc: Global, values: &[Value]) -> Result<Value, Halt<EvalFault>>
    ensures { GivesValue result (kind_of (values_view values.now)) }
{
    match values {
        [value] => Ok(Value::Text(Text::copy_of(alloc, kind_text(value))?)),
        _ => Err(Halt::Fault(EvalFault::WrongType)),
    }
}

/// `!`.
pub fn negation(values: &[Value]) -> Result<Value, EvalFault>
    ensures { evaluated_of result ≡ negation_of (values_view values.now) }
{
    match values {
        [Value::Bool(flag)] => Ok(Value::Bool(!*flag)),
        _ => Err(EvalFault::WrongType),
    }
}

/// The number that a value is read as, or `None` where it is read as none (`to-number`). Null and false are
/// 0, and true is 1. A text is read without the blanks around it (space, tab, line feed, carriage return): an
/// empty one is 0, and any other an optional sign and a JSON number without a sign, within the bound.
pub fn number_in(value: &Value) -> Option<Fixed>
    ensures { result ≡ number_in (data_of value.now) }
{
    match value {
        Value::Null => Some(whole(0)),
        Value::Bool(false) => Some(whole(0)),
        Value::Bool(true) => Some(whole(1)),
        Value::Num(number) => Some(*number),
        Value::Text(text) => number_in_text(text.as_str()),
        _ => None,
    }
}

#[tactic(auto, unfolding(crate::specs::Conversions::number_in_text))]
fn number_in_text(text: &str) -> Option<Fixed>
    ensures { result ≡ number_in_text text.now }
{
    number_in_trimmed(without_blanks(text.as_bytes()))
}

fn number_in_trimmed(bytes: &[u8]) -> Option<Fixed>
    ensures { result ≡ number_in_trimmed bytes.now }
{
    match bytes {
        [] => Some(whole(0)),
        _ => signed_number(bytes),
    }
}

fn signed_number(bytes: &[u8]) -> Option<Fixed>
    ensures { result ≡ signed_number bytes.now }
{
    if begins_with(bytes, b'+') {
        let unsigned = &bytes[1..];
        if begins_with(unsigned, b'-') {
            return None;
        }
        return number_of(read_decimal(unsigned));
    }
    number_of(read_decimal(bytes))
}

fn number_of(read: Result<Fixed, NumFault>) -> Option<Fixed>
    ensures { result ≡ value_of read }
{
    match read {
        Ok(number) => Some(number),
        Err(_) => None,
    }
}

#[tactic(auto, unfolding(crate::specs::Conversions::without_blanks))]
fn without_blanks(bytes: &[u8]) -> &[u8]
    ensures { result.now ≡ without_blanks bytes.now }
{
    without_blanks_behind(without_blanks_before(bytes))
}

fn without_blanks_before(bytes: &[u8]) -> &[u8]
    ensures { result.now ≡ without_blanks_before bytes.now }
{
    bytes.split_at(blanks_before(bytes)).1
}

fn without_blanks_behind(bytes: &[u8]) -> &[u8]
    ensures { result.now ≡ without_blanks_behind bytes.now }
{
    let blanks = blanks_behind(bytes);
    bytes.split_at(bytes.len() - blanks).0
}

fn blanks_before(bytes: &[u8]) -> usize
    ensures value { result ≡ prefix_len is_blank bytes.now }
    ensures within { result ≤ length bytes.now }
{
    bytes.iter().take_while(|byte| is_blank(**byte)).count()
}

#[tactic(auto, using(crate::proofs::Lists::suffix_within))]
fn blanks_behind(bytes: &[u8]) -> usize
    ensures value { result ≡ suffix_len is_blank bytes.now }
    ensures within { result ≤ length bytes.now }
{
    bytes
        .iter()
        .rev()
        .take_while(|byte| is_blank(**byte))
        .count()
}

fn is_blank(byte: u8) -> bool
    ensures { result ≡ is_blank byte }
{
    byte == b' ' || byte == b'\t' || byte == b'\n' || byte == b'\r'
}

/// The color that a value is read as, or `None` where it is read as none (`to-color`): a color, the text of
/// one, or a list of three or four numbers, red, green and blue from 0 to 255 and the opacity from 0 to 1.
pub fn color_in(value: &Value) -> Option<Color>
    ensures value { result ≡ color_in (data_of value.now) }
    ensures range { IfSome result (λ c. IsInRange c) }
{
    match value {
        Value::Color(color) => Some(color.color()),
        Value::Text(text) => read_color(text.as_str()),
        Value::List(items) => color_of_list(items.as_slice()),
        _ => None,
    }
}

fn color_of_list(items: &[Value]) -> Option<Color>
    ensures value { result ≡ color_of_list (values_view items.now) }
    ensures range { IfSome result (λ c. IsInRange c) }
{
    match items {
        [Value::Num(r), Value::Num(g), Value::Num(b)] => color_of_parts(*r, *g, *b, whole(1)),
        [Value::Num(r), Value::Num(g), Value::Num(b), Value::Num(a)] => color_of_parts(
            *r, *g, *b, *a,
        ),
        _ => None,
    }
}

/// The color of these parts, or `None` where one is out of range.
#[tactic(auto, using(crate::proofs::Lists::parts_in_range))]
pub(crate) fn color_of_parts(r: Fixed, g: Fixed, b: Fixed, a: Fixed) -> Option<Color>
    ensures value { result ≡ color_of_parts r g b a }
    ensures range { IfSome result (λ c. IsInRange c) }
{
    if are_parts(r, g, b, a) {
        Some(Color { r, g, b, a })
    } else {
        None
    }
}

fn are_parts(r: Fixed, g: Fixed, b: Fixed, a: Fixed) -> bool
    ensures { result ≡ are_parts r g b a }
{
    is_within(255_000_000, r)
        && is_within(255_000_000, g)
        && is_within(255_000_000, b)
        && is_within(1_000_000, a)
}

fn is_within(most: i128, part: Fixed) -> bool
    ensures { result ≡ is_within most part }
{
    let millionths = part.millionths();
    0 <= millionths && millionths <= most
}
