//! Reading texts of sections.

ghost use Rattle.std.specs.Prelude.{◌≡◌, ◌↔◌, true, IfOk};
ghost use Rattle.std.specs.Option.{option_map};
ghost use Rattle.decimal_json.specs.View.{tree_of};
ghost use Rattle.prop_values.specs.JsonData.{json_data};
ghost use Rattle.prop_values.specs.Data.{item, no_items, pairs_of};
ghost use Rattle.prop_values.specs.View.{data_of};
ghost use Rattle.prop_values.specs.ViewParts.{items};
ghost use Rattle.format_text.specs.Sections.{section_of};
ghost use Rattle.format_text.specs.SectionLists.{is_text, are_texts, is_font, sections_values, sections_text};
ghost use Rattle.format_text.specs.ReadText.{ReadsSections};
ghost use Rattle.format_text.specs.Reading.{SaysSections, scale_in, font_in, color_of_option, section_by, section_in};
ghost use Rattle.format_text.specs.Reading.{section_said, sections_in, sections_said, sections_of_json};

use crate::colors::color_in;
use crate::formatted::{Section, Sections};
use crate::values::section as section_value;
use decimal_json::{Json, Text, parse, written_trees_are_spelled};
use fixed_num::{Fixed, json_numbers_are_read, written_numbers_are_read};
use prop_values::{Entries, PackedColor, Value, Values, copy, from_json, to_text};
use std::alloc::{AllocError, Global};

/// The sections whose text this is, each font a list of texts, or `None` where it is the text of no such
/// sections. Takes time and memory linear in the text.
pub fn read_sections(alloc: Global, text: &str) -> Result<Option<Sections>, AllocError>
    ensures { IfOk result (ReadsSections text.now) }
{
    let Some(sections) = sections_of(alloc, text)? else {
        return Ok(None);
    };
    if is_text_of(alloc, text, sections.as_slice())? {
        Ok(Some(sections))
    } else {
        Ok(None)
    }
}

// The only sections whose text this may be.
fn sections_of(alloc: Global, text: &str) -> Result<Option<Sections>, AllocError>
    ensures { IfOk result (SaysSections text.now) }
{
    written_trees_are_spelled();
    json_numbers_are_read();
    written_numbers_are_read();
    let Ok(json) = parse(alloc, text.as_bytes())? else {
        return Ok(None);
    };
    sections_in_tree(alloc, &json)
}

fn sections_in_tree(alloc: Global, json: &Json) -> Result<Option<Sections>, AllocError>
    ensures { IfOk result (λ said. said ≡ sections_of_json (json_data (tree_of json.now))) }
{
    match from_json(alloc, json)? {
        Ok(value) => sections_said(alloc, &value),
        Err(_) => Ok(None),
    }
}

fn is_text_of(alloc: Global, text: &str, sections: &[Section]) -> Result<bool, AllocError>
    ensures { IfOk result (λ same. same ≡ true ↔ text.now ≡ sections_text sections.now) }
{
    let value = Value::List(values_of(alloc, sections)?);
    let written = to_text(alloc, &value)?;
    Ok(written.as_str() == text)
}

fn values_of(alloc: Global, sections: &[Section]) -> Result<Values, AllocError>
    ensures { IfOk result (λ values. values ≡ sections_values sections.now) }
{
    let mut values = Values::with_capacity(alloc, sections.len())?;
    for section in sections {
        values.push(value_of_section(alloc, section)?)?;
    }
    Ok(values)
}

fn value_of_section(alloc: Global, section: &Section) -> Result<Value, AllocError>
    ensures { IfOk result (λ value. data_of value ≡ section_of section.now) }
{
    let font = match &section.font {
        Some(font) => Some(copy(font)?),
        None => None,
    };
    let color = match &section.color {
        Some(color) => Some(color.copy()),
        None => None,
    };
    section_value(alloc, section.content.share()?, section.scale, font, color)
}

fn sections_said(alloc: Global, value: &Value) -> Result<Option<Sections>, AllocError>
    ensures { IfOk result (λ said. said ≡ sections_said (data_of value.now)) }
{
    match value {
        Value::List(items) => sections_in(alloc, items.as_slice()),
        _ => Ok(None),
    }
}

#[tactic(auto, using(crate::proofs::SectionTrees::after_more))]
fn sections_in(alloc: Global, values: &[Value]) -> Result<Option<Sections>, AllocError>
    ensures { IfOk result (λ said. said ≡ sections_in (items values.now)) }
{
    let mut sections = Sections::new(alloc);
    for value in values {
        let Some(section) = section_said(alloc, value)? else {
            return Ok(None);
        };
        sections.push(section)?;
    }
    Ok(Some(sections))
}

fn section_said(alloc: Global, value: &Value) -> Result<Option<Section>, AllocError>
    ensures { IfOk result (λ said. said ≡ section_said (data_of value.now)) }
{
    match value {
        Value::List(items) => section_in(alloc, items.as_slice()),
        _ => Ok(None),
    }
}

#[tactic(auto, using(crate::proofs::SectionTrees::other_count))]
fn section_in(alloc: Global, values: &[Value]) -> Result<Option<Section>, AllocError>
    ensures { IfOk result (λ said. said ≡ section_in (items values.now)) }
{
    match values {
        [content, options] => section_of_two(alloc, content, options),
        _ => Ok(None),
    }
}

fn section_of_two(
    alloc: Global,
    content: &Value,
    options: &Value,
) -> Result<Option<Section>, AllocError>
    ensures { IfOk result
        (λ said. said ≡ section_in (item (data_of content.now) (item (data_of options.now) no_items))) }
{
    let Value::Text(content) = content else {
        return Ok(None);
    };
    let Value::Map(options) = options else {
        return Ok(None);
    };
    let section = section_by(content, options.as_entries())?;
    Ok(Some(section))
}

fn section_by(content: &Text, options: &Entries) -> Result<Section, AllocError>
    ensures { IfOk result (λ section. section ≡ section_by content.now (pairs_of options.now)) }
{
    Ok(Section {
        content: content.share()?,
        scale: scale_in(options.get("font-scale")),
        font: font_in(options.get("text-font"))?,
        color: color_of_option(options.get("text-color")),
    })
}

fn scale_in(value: Option<&Value>) -> Option<Fixed>
    ensures { result ≡ scale_in (option_map (λ v. data_of v.now) value.entry) }
{
    match value {
        Some(Value::Num(scale)) => Some(*scale),
        _ => None,
    }
}

#[tactic(auto, using(prop_values::proofs::ViewLaws::value_again))]
fn font_in(value: Option<&Value>) -> Result<Option<Value>, AllocError>
    ensures { IfOk result (λ font. font ≡ font_in (option_map (λ v. data_of v.now) value.entry)) }
{
    match value {
        Some(font) if is_font(font) => Ok(Some(copy(font)?)),
        _ => Ok(None),
    }
}

fn color_of_option(value: Option<&Value>) -> Option<PackedColor>
    ensures { result ≡ color_of_option (option_map (λ v. data_of v.now) value.entry) }
{
    match value {
        Some(Value::Text(text)) => color_in(text.as_str()),
        _ => None,
    }
}

fn is_font(value: &Value) -> bool
    ensures { result ≡ is_font (data_of value.now) }
{
    match value {
        Value::List(items) => are_texts(items.as_slice()),
        _ => false,
    }
}

fn are_texts(values: &[Value]) -> bool
    ensures { result ≡ are_texts (items values.now) }
{
    for value in values {
        if !is_text(value) {
            return false;
        }
    }
    true
}

fn is_text(value: &Value) -> bool
    ensures { result ≡ is_text (data_of value.now) }
{
    match value {
        Value::Text(_) => true,
        _ => false,
    }
}
