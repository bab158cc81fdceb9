ghost use Rattle.std.specs.Prelude.{◌≡◌, [], ◌∷◌, ◌++◌, OnOk, OnErr, IfOk, string_bytes};
ghost use Rattle.std.specs.Str.{IsAscii};
ghost use Rattle.decimal_json.specs.JsonText.{text_json};
ghost use Rattle.fixed_num.specs.NumberText.{number_text};
ghost use Rattle.prop_values.specs.ColorText.{color_text};
ghost use Rattle.prop_values.specs.Data.{list, map, items_of, pairs_of};
ghost use Rattle.prop_values.specs.ValueText.{data_json, shown_text, listed_text, comma_if};
ghost use Rattle.prop_values.specs.View.{data_of};

use crate::value::{Entries, Value, Values};
use decimal_json::{Text, write_text};
use fixed_num::{Color, Fixed};
use std::alloc::{AllocError, Global};

/// Appends the text of a color, `rgba(r,g,b,a)` with its four numbers. When allocation fails `out` is as
/// before.
pub fn write_color(color: &Color, out: &mut Vec<u8>) -> Result<(), AllocError>
    ensures ok { OnOk result (out.new.items ≡ out.old.items ++ color_text color.now) }
    ensures err { OnErr result (out.new.items ≡ out.old.items) }
{
    let mut text = String::new(*out.allocator());
    append_color(color, &mut text)?;
    out.extend_from_slice(text.as_bytes())
}

/// Appends what a listing has for a value: its JSON, but for a color the bare text. When allocation fails
/// `out` is as before.
pub fn write_listed(value: &Value, out: &mut Vec<u8>) -> Result<(), AllocError>
    ensures ok { OnOk result (out.new.items ≡ out.old.items ++ listed_text (data_of value.now)) }
    ensures err { OnErr result (out.new.items ≡ out.old.items) }
{
    let alloc = *out.allocator();
    let mut text = String::new(alloc);
    match value {
        Value::Color(color) => append_color(&color.color(), &mut text)?,
        _ => append_json(alloc, value, &mut text)?,
    }
    out.extend_from_slice(text.as_bytes())
}

/// The text of a color, `rgba(r,g,b,a)` with its four numbers.
pub fn color_text(alloc: Global, color: &Color) -> Result<Text, AllocError>
    ensures { IfOk result (λ text. text ≡ color_text color.now) }
{
    let mut text = String::new(alloc);
    append_color(color, &mut text)?;
    Text::copy_of(alloc, text.as_str())
}

/// What `to-string` says of a value: null is empty, a text is itself, a color is its text, and all
/// else is its JSON, in which a color is a JSON string of its text.
pub fn to_text(alloc: Global, value: &Value) -> Result<Text, AllocError>
    ensures { IfOk result (λ text. text ≡ shown_text (data_of value.now)) }
{
    let mut text = String::new(alloc);
    match value {
        Value::Null => {}
        Value::Text(shown) => return shown.share(),
        Value::Color(color) => return color_text(alloc, &color.color()),
        _ => append_json(alloc, value, &mut text)?,
    }
    Text::copy_of(alloc, text.as_str())
}

#[tactic(auto, using(crate::proofs::Falls::value_falls, crate::proofs::Falls::entry_falls))]
#[cycle(append)]
fn append_json(alloc: Global, value: &Value, out: &mut String) -> Result<(), AllocError>
    ensures { OnOk result (string_bytes out.new ≡ string_bytes out.old ++ data_json (data_of value.now)) }
{
    match value {
        Value::Null => out.push_str("null"),
        Value::Bool(flag) => out.push_str(if *flag { "true" } else { "false" }),
        Value::Num(number) => append_number(*number, out),
        Value::Text(text) => append_quoted(alloc, text.as_str(), out),
        Value::Color(color) => {
            let mut shown = String::new(alloc);
            append_color(&color.color(), &mut shown)?;
            append_quoted(alloc, shown.as_str(), out)
        }
        Value::List(values) => append_values(alloc, values, out),
        Value::Map(entries) => append_entries(alloc, entries.as_entries(), out),
    }
}

#[tactic(auto, using(crate::proofs::Falls::value_falls, crate::proofs::Falls::entry_falls))]
#[cycle(append)]
fn append_values(alloc: Global, values: &Values, out: &mut String) -> Result<(), AllocError>
    ensures { OnOk result (string_bytes out.new ≡ string_bytes out.old ++ data_json (list (items_of values.now))) }
{
    out.push_str("[")?;
    let mut later = false;
    for value in values.as_slice() {
        append_comma_if(later, out)?;
        append_json(alloc, value, out)?;
        later = true;
    }
    out.push_str("]")
}

#[tactic(auto, using(crate::proofs::Falls::value_falls, crate::proofs::Falls::entry_falls))]
#[cycle(append)]
fn append_entries(alloc: Global, entries: &Entries, out: &mut String) -> Result<(), AllocError>
    ensures { OnOk result (string_bytes out.new ≡ string_bytes out.old ++ data_json (map (pairs_of entries.now))) }
{
    out.push_str("{")?;
    let mut later = false;
    for entry in entries.as_slice() {
        append_comma_if(later, out)?;
        append_quoted(alloc, entry.key.as_str(), out)?;
        out.push_str(":")?;
        append_json(alloc, &entry.value, out)?;
        later = true;
    }
    out.push_str("}")
}

fn append_comma_if(later: bool, out: &mut String) -> Result<(), AllocError>
    ensures { OnOk result (string_bytes out.new ≡ string_bytes out.old ++ comma_if later) }
{
    if later {
        out.push_str(",")?;
    }
    Ok(())
}

// Appends the JSON string of a text.
fn append_quoted(alloc: Global, text: &str, out: &mut String) -> Result<(), AllocError>
    ensures { OnOk result (string_bytes out.new ≡ string_bytes out.old ++ text_json text.now) }
{
    let mut quoted = Vec::new(alloc);
    write_text(text, &mut quoted)?;
    // The JSON string of a text is UTF-8, so the second arm is never taken.
    match std::str::from_utf8(&quoted) {
        Ok(quoted) => out.push_str(quoted),
        Err(_) => Ok(()),
    }
}

#[tactic(auto, using(crate::proofs::ColorSteps::color_joined))]
fn append_color(color: &Color, out: &mut String) -> Result<(), AllocError>
    ensures { OnOk result (string_bytes out.new ≡ string_bytes out.old ++ color_text color.now) }
{
    out.push_str("rgba(")?;
    append_part(color.r, out)?;
    append_part(color.g, out)?;
    append_part(color.b, out)?;
    append_number(color.a, out)?;
    out.push_str(")")?;
    Ok(())
}

// Appends a number and a comma.
fn append_part(number: Fixed, out: &mut String) -> Result<(), AllocError>
    ensures { OnOk result (string_bytes out.new ≡ string_bytes out.old ++ (number_text number ++ 44 ∷ [])) }
{
    append_number(number, out)?;
    out.push_str(",")?;
    Ok(())
}

fn append_number(number: Fixed, out: &mut String) -> Result<(), AllocError>
    ensures { OnOk result (string_bytes out.new ≡ string_bytes out.old ++ number_text number) }
{
    let mut text = [0; 48];
    let length = number.write(&mut text);
    out.push_str(ascii_text(&text[..length]))
}

fn ascii_text(bytes: &[u8]) -> &str
    requires { IsAscii bytes.now }
    ensures { result.now ≡ bytes.now }
{
    // ASCII is UTF-8, so the second arm is never taken.
    match std::str::from_utf8(bytes) {
        Ok(text) => text,
        Err(_) => "",
    }
}
