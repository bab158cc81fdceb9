//! Sections as values.

ghost use Rattle.std.specs.Prelude.{◌≡◌, ◌++◌, IfOk, OnOk, option_map};
ghost use Rattle.prop_values.specs.Data.{number, color as a_color, list};
ghost use Rattle.prop_values.specs.Keys.{LacksKey};
ghost use Rattle.prop_values.specs.View.{data_of};
ghost use Rattle.format_text.specs.Reading.{option_entry};
ghost use Rattle.format_text.specs.Sections.{section_of};

use decimal_json::Text;
use fixed_num::Fixed;
use prop_values::{Entries, PackedColor, SharedEntries, Value, Values};
use std::alloc::{AllocError, Global};

/// The value of a section: the list of its content and of the map of its options, in the order `font-scale`,
/// `text-font`, `text-color`.
#[tactic(auto, using(crate::proofs::Options::options_in_order))]
pub fn section(
    alloc: Global,
    content: Text,
    scale: Option<Fixed>,
    font: Option<Value>,
    color: Option<PackedColor>,
) -> Result<Value, AllocError>
    ensures { IfOk result
        (λ value. data_of value ≡ section_of
        (record { content = content; scale = scale; font = font; color = color })) }
{
    let mut options = Entries::new(alloc);
    push_option(alloc, &mut options, "font-scale", number_value(scale))?;
    push_option(alloc, &mut options, "text-font", font)?;
    push_option(alloc, &mut options, "text-color", color_value(color))?;
    let mut section = Values::with_capacity(alloc, 2)?;
    section.push(Value::Text(content))?;
    section.push(Value::Map(SharedEntries::of(alloc, options)?))?;
    Ok(Value::List(section))
}

// Adds an option to others, where it is given.
fn push_option(
    alloc: Global,
    options: &mut Entries,
    key: &str,
    value: Option<Value>,
) -> Result<(), AllocError>
    requires { LacksKey key.now options.old }
    ensures { OnOk result (options.new ≡ options.old ++ option_entry key.now (option_map data_of value)) }
{
    if let Some(value) = value {
        options.push(Text::copy_of(alloc, key)?, value)?;
    }
    Ok(())
}

fn number_value(scale: Option<Fixed>) -> Option<Value>
    ensures { option_map data_of result ≡ option_map number scale }
{
    match scale {
        Some(scale) => Some(Value::Num(scale)),
        None => None,
    }
}

fn color_value(color: Option<PackedColor>) -> Option<Value>
    ensures { option_map data_of result ≡ option_map a_color color }
{
    match color {
        Some(color) => Some(Value::Color(color)),
        None => None,
    }
}
