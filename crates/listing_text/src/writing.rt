ghost use Rattle.std.specs.Prelude.{codes, ◌≡◌, false, ◌+◌, ◌≤◌, ◌++◌, length, take, IfSome, OnOk, OnErr};
ghost use Rattle.decimal_json.specs.Writing.{AppendsPrefix};
ghost use Rattle.fixed_num.specs.NumberText.{number_text};
ghost use Rattle.prop_values.specs.ColorText.{color_text};
ghost use Rattle.prop_values.specs.ValueText.{listed_text};
ghost use Rattle.prop_values.specs.View.{data_of};
ghost use Rattle.prop_values.specs.declared.outcome.Outcome.TheVariants.{Given};
ghost use Rattle.listing_text.specs.Listing.{zoom_line, end_line, show_mark, layer_line, outcome_text, value_line};
ghost use Rattle.listing_text.specs.Listing.{id_text, feature_line};
ghost use Rattle.tile_reader.specs.ShapeName.{shape_name};
ghost use Rattle.listing_text.specs.Parts.{parts_text, line_front, number_line};

use crate::show::Show;
use decimal_json::write_text;
use fixed_num::{Color, Fixed};
use itoa::Buffer;
use prop_values::{Outcome, Value, write_listed};
use property_tables::LayerType;
use std::alloc::AllocError;
use tile_reader::Shape;

/// Appends the first line.
pub fn write_zoom(zoom: Fixed, out: &mut Vec<u8>) -> Result<(), AllocError>
    ensures ok { OnOk result (out.new.items ≡ out.old.items ++ zoom_line zoom) }
    ensures err { OnErr result (AppendsPrefix out.old.items out.new.items (zoom_line zoom)) }
{
    let mut digits = [0; 48];
    write_parts(&[b"zoom ", number_bytes(zoom, &mut digits), b"\n"], out)
}

/// Appends the line of a layer.
pub fn write_layer_line(
    id: &str,
    layer_type: LayerType,
    show: Show,
    out: &mut Vec<u8>,
) -> Result<(), AllocError>
    ensures ok { OnOk result (out.new.items ≡ out.old.items ++ layer_line id.now layer_type show) }
    ensures err { OnErr result (AppendsPrefix out.old.items out.new.items (layer_line id.now layer_type show)) }
{
    write_parts(&[b"layer "], out)?;
    write_text(id, out)?;
    let name = layer_type.name().as_bytes();
    write_parts(&[b" ", name, show_mark(show), b"\n"], out)
}

/// Appends the last line.
pub fn write_end(out: &mut Vec<u8>) -> Result<(), AllocError>
    ensures ok { OnOk result (out.new.items ≡ out.old.items ++ end_line) }
    ensures err { OnErr result (AppendsPrefix out.old.items out.new.items end_line) }
{
    write_parts(&[b"end\n"], out)
}

// What is after the type of a layer.
fn show_mark(show: Show) -> &'static [u8]
    ensures { result.now ≡ show_mark show }
{
    match show {
        Show::Plain => b"",
        Show::Hidden => b" hidden",
        Show::Unread => b" unread",
        Show::OutsideFilter => b" ?",
    }
}

/// Appends the line of a feature.
pub fn write_feature_line(
    number: u32,
    shape: Shape,
    id: Option<u64>,
    out: &mut Vec<u8>,
) -> Result<(), AllocError>
    ensures ok { OnOk result (out.new.items ≡ out.old.items ++ feature_line number shape id) }
    ensures err { OnErr result (AppendsPrefix out.old.items out.new.items (feature_line number shape id)) }
{
    let mut line = [0; 128];
    let mut numbers = Buffer::new();
    let end = put(&mut line, 0, b"  feature ");
    let end = put(&mut line, end, numbers.format(number).as_bytes());
    let end = put_shape(&mut line, end, shape);
    let end = put_id(&mut line, end, id);
    let end = put(&mut line, end, b"\n");
    out.extend_from_slice(&line[..end])
}

// Puts a space and the name of a shape at a place of a line, and answers where they end.
#[inline(always)]
fn put_shape(line: &mut [u8; 128], at: usize, shape: Shape) -> usize
    requires { at + 11 ≤ 128 }
    ensures within { result ≤ at + 11 }
    ensures text { take result line.new ≡ take at line.old ++ (codes " " ++ shape_name shape) }
{
    match shape {
        Shape::Unknown => put(line, at, b" Unknown"),
        Shape::Point => put(line, at, b" Point"),
        Shape::LineString => put(line, at, b" LineString"),
        Shape::Polygon => put(line, at, b" Polygon"),
    }
}

// Puts the id of a feature at a place of a line, where it has one, and answers where it ends.
#[inline(always)]
fn put_id(line: &mut [u8; 128], at: usize, id: Option<u64>) -> usize
    requires { at + 24 ≤ 128 }
    ensures within { result ≤ at + 24 }
    ensures text { take result line.new ≡ take at line.old ++ id_text id }
{
    let Some(id) = id else {
        return at;
    };
    let mut ids = Buffer::new();
    let end = put(line, at, b" id ");
    put(line, end, ids.format(id).as_bytes())
}

/// Appends the line of a property after a margin.
pub fn write_value(
    margin: &'static [u8],
    name: &str,
    outcome: &Outcome,
    out: &mut Vec<u8>,
) -> Result<(), AllocError>
    ensures ok { OnOk result (out.new.items ≡ out.old.items ++ value_line margin.now name.now outcome.now) }
    ensures err { OnErr result
        (AppendsPrefix out.old.items out.new.items (value_line margin.now name.now outcome.now)) }
{
    if let Outcome::Given(value) = outcome {
        return write_given(margin, name, value, out);
    }
    write_front(margin, name, out)?;
    write_outcome(outcome, out)?;
    write_part(b"\n", out)
}

/// Appends the line of a property that is its value.
pub fn write_given(
    margin: &'static [u8],
    name: &str,
    value: &Value,
    out: &mut Vec<u8>,
) -> Result<(), AllocError>
    ensures ok { OnOk result (out.new.items ≡ out.old.items ++ value_line margin.now name.now (Given value.now)) }
    ensures err { OnErr result
        (AppendsPrefix out.old.items out.new.items (value_line margin.now name.now (Given value.now))) }
{
    if let Value::Num(number) = value {
        return write_number_line(margin, name, *number, out);
    }
    write_front(margin, name, out)?;
    write_value_text(value, out)?;
    write_part(b"\n", out)
}

// Appends the line of a number, of which features have millions, at once.
fn write_number_line(
    margin: &'static [u8],
    name: &str,
    number: Fixed,
    out: &mut Vec<u8>,
) -> Result<(), AllocError>
    ensures ok { OnOk result (out.new.items ≡ out.old.items ++ number_line margin.now name.now number) }
    ensures err { OnErr result (AppendsPrefix out.old.items out.new.items (number_line margin.now name.now number)) }
{
    let mut digits = [0; 48];
    let number = number_bytes(number, &mut digits);
    if is_long(margin, name) {
        return write_parts(&[margin, name.as_bytes(), b" ", number, b"\n"], out);
    }
    let mut line = [0; 128];
    let end = put_front(&mut line, margin, name);
    let end = put(&mut line, end, number);
    let end = put(&mut line, end, b"\n");
    out.extend_from_slice(&line[..end])
}

// Appends what is before the value of a property on its line.
fn write_front(margin: &'static [u8], name: &str, out: &mut Vec<u8>) -> Result<(), AllocError>
    ensures ok { OnOk result (out.new.items ≡ out.old.items ++ line_front margin.now name.now) }
    ensures err { OnErr result (AppendsPrefix out.old.items out.new.items (line_front margin.now name.now)) }
{
    if is_long(margin, name) {
        return write_parts(&[margin, name.as_bytes(), b" "], out);
    }
    let mut line = [0; 128];
    let end = put_front(&mut line, margin, name);
    write_part(&line[..end], out)
}

// Whether a margin and a name are longer than those of the properties. Else they fit the buffer of a line, also with
// a space, a number of at most 48 bytes and the end of the line.
fn is_long(margin: &'static [u8], name: &str) -> bool
    ensures { result ≡ false → (length margin.now ≤ 8) × (length name.now ≤ 64) }
{
    margin.len() > 8 || name.len() > 64
}

// Puts what is before the value of a property at the front of a line, and answers where it ends.
fn put_front(line: &mut [u8; 128], margin: &'static [u8], name: &str) -> usize
    requires { (length margin.now ≤ 8) × (length name.now ≤ 64) }
    ensures within { result ≤ 73 }
    ensures text { take result line.new ≡ line_front margin.now name.now }
{
    let end = put(line, 0, margin);
    let end = put(line, end, name.as_bytes());
    put(line, end, b" ")
}

fn write_outcome(outcome: &Outcome, out: &mut Vec<u8>) -> Result<(), AllocError>
    ensures ok { OnOk result (out.new.items ≡ out.old.items ++ outcome_text outcome.now) }
    ensures err { OnErr result (AppendsPrefix out.old.items out.new.items (outcome_text outcome.now)) }
{
    match outcome {
        Outcome::Given(value) => write_value_text(value, out),
        Outcome::Faulted(None, fault) => write_parts(&[b"null!", fault.name().as_bytes()], out),
        Outcome::Faulted(Some(value), fault) => {
            write_value_text(value, out)?;
            write_parts(&[b"!", fault.name().as_bytes()], out)
        }
        Outcome::Outside => write_part(b"?", out),
    }
}

// Appends the listed text of a value. Features by the million have one each, so all but lists and maps
// take no memory except in `out`.
fn write_value_text(value: &Value, out: &mut Vec<u8>) -> Result<(), AllocError>
    ensures ok { OnOk result (out.new.items ≡ out.old.items ++ listed_text (data_of value.now)) }
    ensures err { OnErr result
        (AppendsPrefix out.old.items out.new.items (listed_text (data_of value.now))) }
{
    match value {
        Value::Null => write_part(b"null", out),
        Value::Bool(false) => write_part(b"false", out),
        Value::Bool(true) => write_part(b"true", out),
        Value::Num(number) => write_number(*number, out),
        Value::Text(text) => write_text(text.as_str(), out),
        Value::Color(color) => write_color(&color.color(), out),
        Value::List(_) | Value::Map(_) => write_listed(value, out),
    }
}

fn write_number(number: Fixed, out: &mut Vec<u8>) -> Result<(), AllocError>
    ensures ok { OnOk result (out.new.items ≡ out.old.items ++ number_text number) }
    ensures err { OnErr result (AppendsPrefix out.old.items out.new.items (number_text number)) }
{
    let mut digits = [0; 48];
    write_part(number_bytes(number, &mut digits), out)
}

#[tactic(auto, unfolding(prop_values::specs::ColorText::color_text))]
fn write_color(color: &Color, out: &mut Vec<u8>) -> Result<(), AllocError>
    ensures ok { OnOk result (out.new.items ≡ out.old.items ++ color_text color.now) }
    ensures err { OnErr result (AppendsPrefix out.old.items out.new.items (color_text color.now)) }
{
    let (mut r, mut g, mut b, mut a) = ([0; 48], [0; 48], [0; 48], [0; 48]);
    let r = number_bytes(color.r, &mut r);
    let g = number_bytes(color.g, &mut g);
    let b = number_bytes(color.b, &mut b);
    let a = number_bytes(color.a, &mut a);
    write_parts(&[b"rgba(", r, b",", g, b",", b, b",", a, b")"], out)
}

fn number_bytes(number: Fixed, digits: &mut [u8; 48]) -> &[u8]
    ensures text { result.now ≡ number_text number }
    ensures within { length result.now ≤ 48 }
{
    let length = number.write(digits);
    &digits[..length]
}

// Appends bytes.
fn write_part(part: &[u8], out: &mut Vec<u8>) -> Result<(), AllocError>
    ensures ok { OnOk result (out.new.items ≡ out.old.items ++ part.now) }
    ensures err { OnErr result (AppendsPrefix out.old.items out.new.items part.now) }
{
    out.extend_from_slice(part)
}

// Appends parts one after the other: at once where they fit the buffer of a line.
fn write_parts(parts: &[&[u8]], out: &mut Vec<u8>) -> Result<(), AllocError>
    ensures ok { OnOk result (out.new.items ≡ out.old.items ++ parts_text parts.now) }
    ensures err { OnErr result (AppendsPrefix out.old.items out.new.items (parts_text parts.now)) }
{
    let mut line = [0; 128];
    match join(parts, &mut line) {
        Some(end) => out.extend_from_slice(&line[..end]),
        None => write_each(parts, out),
    }
}

// Puts parts one after the other at the front of a line, and answers where they end, or `None` where they do not fit.
fn join(parts: &[&[u8]], line: &mut [u8; 128]) -> Option<usize>
    ensures within { IfSome result (λ end. end ≤ 128) }
    ensures text { IfSome result (λ end. take end line.new ≡ parts_text parts.now) }
{
    let mut end = 0;
    for part in parts {
        if line.len() - end < part.len() {
            return None;
        }
        end = put(line, end, part);
    }
    Some(end)
}

// Puts bytes at a place of a line, and answers where they end. A line is put together before it is appended, since
// each append tests the room of `out`.
#[inline(always)]
fn put(line: &mut [u8; 128], at: usize, bytes: &[u8]) -> usize
    requires { at + length bytes.now ≤ 128 }
    ensures end { result ≡ at + length bytes.now }
    ensures text { take result line.new ≡ take at line.old ++ bytes.now }
{
    let end = at + bytes.len();
    line[at..end].copy_from_slice(bytes);
    end
}

// Appends parts one by one.
fn write_each(parts: &[&[u8]], out: &mut Vec<u8>) -> Result<(), AllocError>
    ensures ok { OnOk result (out.new.items ≡ out.old.items ++ parts_text parts.now) }
    ensures err { OnErr result (AppendsPrefix out.old.items out.new.items (parts_text parts.now)) }
{
    for part in parts {
        out.extend_from_slice(part)?;
    }
    Ok(())
}
