//! What a property or an argument takes, in words.

ghost use Rattle.std.specs.Prelude.{◌≡◌, ◌++◌, option_map, OnOk, None, Some};
ghost use Rattle.fixed_num.specs.NumberText.{number_text};
ghost use Rattle.prop_values.specs.Choices.{texts_of};
ghost use Rattle.property_tables.specs.RowView.{row_seen};
ghost use Rattle.finding_sentences.specs.Wanted.{allowed_words, item_words, kind_words, limit_words, reads_words};
ghost use Rattle.finding_sentences.specs.Wanted.{row_words, texts_listed, want_words};
ghost use Rattle.prop_values.specs.declared.kinds.Want.{Want};

use crate::words::write_count;
use fixed_num::Fixed;
use prop_values::{Choice, Item, Kind, Want};
use property_tables::Row;
use std::alloc::AllocError;

/// The texts of a set, as JSON strings with commas between them.
pub(crate) fn choice_words(choice: Choice) -> &'static str
    ensures { result.now ≡ texts_listed (texts_of choice) }
{
    match choice {
        Choice::Visibility => "\"visible\", \"none\"",
        Choice::Anchor => {
            "\"center\", \"left\", \"right\", \"top\", \"bottom\", \"top-left\", \"top-right\", \"bottom-left\", \"bottom-right\""
        }
        Choice::MapViewport => "\"map\", \"viewport\"",
        Choice::MapViewportAuto => "\"map\", \"viewport\", \"auto\"",
        Choice::Overlap => "\"never\", \"always\", \"cooperative\"",
        Choice::LineCap => "\"butt\", \"round\", \"square\"",
        Choice::LineJoin => "\"bevel\", \"round\", \"miter\"",
        Choice::SymbolPlacement => "\"point\", \"line\", \"line-center\"",
        Choice::SymbolZOrder => "\"auto\", \"viewport-y\", \"source\"",
        Choice::IconTextFit => "\"none\", \"width\", \"height\", \"both\"",
        Choice::TextRotationAlignment => "\"map\", \"viewport\", \"viewport-glyph\", \"auto\"",
        Choice::TextJustify => "\"auto\", \"left\", \"center\", \"right\"",
        Choice::TextWritingMode => "\"horizontal\", \"vertical\"",
        Choice::TextTransform => "\"none\", \"uppercase\", \"lowercase\"",
        Choice::RasterResampling => "\"linear\", \"nearest\"",
    }
}

fn item_words(item: Item) -> &'static str
    ensures { result.now ≡ item_words item }
{
    match item {
        Item::Any => "values",
        Item::Boolean => "booleans",
        Item::Number => "numbers",
        Item::Text => "texts",
    }
}

/// Appends what a value is wanted as.
#[tactic(auto, using(crate::proofs::Appending::nothing_after))]
pub(crate) fn write_want(want: &Want, out: &mut Vec<u8>) -> Result<(), AllocError>
    ensures { OnOk result (out.new.items ≡ out.old.items ++ want_words want.now) }
{
    match want {
        Want::Any => out.extend_from_slice(b"a value"),
        Want::Shown => out.extend_from_slice(b"a text"),
        Want::Boolean => out.extend_from_slice(b"true or false"),
        Want::Number => out.extend_from_slice(b"a number"),
        Want::Text => out.extend_from_slice(b"a text"),
        Want::Color => out.extend_from_slice(b"a color"),
        Want::Object => out.extend_from_slice(b"an object"),
        Want::Image => out.extend_from_slice(b"the name of an image"),
        Want::List(item, None) => write_items(*item, out),
        Want::List(item, Some(count)) => write_counted_items(*item, *count, out),
        Want::Enum(choice) => write_choice(b"one of ", *choice, out),
        Want::EnumList(choice) => write_some(*choice, out),
    }
}

#[tactic(auto, using(crate::proofs::Appending::nothing_after))]
fn write_items(item: Item, out: &mut Vec<u8>) -> Result<(), AllocError>
    ensures { OnOk result (out.new.items ≡ out.old.items ++ want_words (Want.List item None)) }
{
    out.extend_from_slice(b"an array of ")?;
    out.extend_from_slice(item_words(item).as_bytes())?;
    Ok(())
}

#[tactic(auto, using(crate::proofs::Appending::nothing_after))]
fn write_counted_items(item: Item, count: u32, out: &mut Vec<u8>) -> Result<(), AllocError>
    ensures { OnOk result (out.new.items ≡ out.old.items ++ want_words (Want.List item (Some count))) }
{
    out.extend_from_slice(b"an array of ")?;
    write_count(count as usize, out)?;
    out.extend_from_slice(b" ")?;
    out.extend_from_slice(item_words(item).as_bytes())?;
    Ok(())
}

fn write_some(choice: Choice, out: &mut Vec<u8>) -> Result<(), AllocError>
    ensures { OnOk result (out.new.items ≡ out.old.items ++ want_words (Want.EnumList choice)) }
{
    out.extend_from_slice(b"an array of some of ")?;
    out.extend_from_slice(choice_words(choice).as_bytes())?;
    Ok(())
}

fn write_choice(before: &[u8], choice: Choice, out: &mut Vec<u8>) -> Result<(), AllocError>
    ensures { OnOk result (out.new.items ≡ out.old.items ++ (before.now ++ texts_listed (texts_of choice))) }
{
    out.extend_from_slice(before)?;
    out.extend_from_slice(choice_words(choice).as_bytes())
}

/// Appends what a literal of a row is.
#[tactic(auto, using(crate::proofs::Appending::nothing_after), unfolding(crate::specs::Wanted::row_words))]
pub(crate) fn write_row(row: &Row, out: &mut Vec<u8>) -> Result<(), AllocError>
    ensures { OnOk result (out.new.items ≡ out.old.items ++ row_words (row_seen row.now)) }
{
    write_want(&row.want, out)?;
    write_limits(row.least, row.most, out)?;
    Ok(())
}

#[tactic(auto, using(crate::proofs::Appending::nothing_after))]
fn write_limits(
    least: Option<Fixed>,
    most: Option<Fixed>,
    out: &mut Vec<u8>,
) -> Result<(), AllocError>
    ensures { OnOk result (out.new.items ≡ out.old.items ++ limit_words least most) }
{
    match (least, most) {
        (None, None) => Ok(()),
        (Some(least), None) => write_least(least, out),
        (None, Some(most)) => write_limit(b" of at most ", most, out),
        (Some(least), Some(most)) => {
            write_limit(b" from ", least, out)?;
            write_limit(b" to ", most, out)
        }
    }
}

fn write_least(least: Fixed, out: &mut Vec<u8>) -> Result<(), AllocError>
    ensures { OnOk result (out.new.items ≡ out.old.items ++ limit_words (Some least) None) }
{
    write_limit(b" of at least ", least, out)?;
    Ok(())
}

fn write_limit(before: &[u8], limit: Fixed, out: &mut Vec<u8>) -> Result<(), AllocError>
    ensures { OnOk result (out.new.items ≡ out.old.items ++ (before.now ++ number_text limit)) }
{
    let mut digits = [0; 48];
    let length = limit.write(&mut digits);
    out.extend_from_slice(before)?;
    out.extend_from_slice(&digits[..length])
}

/// Appends what an expression gives.
pub(crate) fn write_kind(kind: Kind, out: &mut Vec<u8>) -> Result<(), AllocError>
    ensures { OnOk result (out.new.items ≡ out.old.items ++ kind_words kind) }
{
    match kind {
        Kind::Any => out.extend_from_slice(b"a value of any type"),
        Kind::Boolean => out.extend_from_slice(b"true or false"),
        Kind::Number => out.extend_from_slice(b"a number"),
        Kind::Text => out.extend_from_slice(b"a text"),
        Kind::Color => out.extend_from_slice(b"a color"),
        Kind::Object => out.extend_from_slice(b"an object"),
        Kind::Image => out.extend_from_slice(b"an image"),
        Kind::List(item, _) => write_items(item, out),
    }
}

/// What the value of a row may read, or a filter where there is none.
pub(crate) fn allowed_words(row: Option<&Row>) -> &'static str
    ensures { result.now ≡ allowed_words (option_map (λ r. row_seen r.now) row.entry) }
{
    match row {
        Some(row) => reads_words(row.zoom, row.feature, row.state),
        None => reads_words(true, true, false),
    }
}

fn reads_words(zoom: bool, feature: bool, state: bool) -> &'static str
    ensures { result.now ≡ reads_words zoom feature state }
{
    match (zoom, feature, state) {
        (_, _, true) => "the zoom, the feature and its state",
        (_, true, false) => "the zoom and the feature",
        (true, false, false) => "the zoom alone",
        (false, false, false) => "nothing",
    }
}
