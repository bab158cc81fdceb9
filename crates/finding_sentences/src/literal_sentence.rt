ghost use Rattle.std.specs.Prelude.{◌≡◌, ◌++◌, OnOk};
ghost use Rattle.decimal_json.specs.Tree.{list};
ghost use Rattle.decimal_json.specs.View.{tree_of, trees};
ghost use Rattle.property_tables.specs.RowView.{row_seen};
ghost use Rattle.finding_sentences.specs.LiteralSentence.{is_operator, literal_sentence, no_operator, operator_hint};

use crate::function_sentence::write_unlike_row;
use decimal_json::{Json, write_text};
use expr_syntax::operator_named;
use property_tables::Row;
use std::alloc::AllocError;

/// Appends why a literal is none of its property.
pub(crate) fn write_literal(row: &Row, json: &Json, out: &mut Vec<u8>) -> Result<(), AllocError>
    ensures { OnOk result (out.new.items ≡ out.old.items ++ literal_sentence (row_seen row.now) (tree_of json.now)) }
{
    write_unlike_row(row, json, out)?;
    write_operator_hint(json, out)
}

// An array that begins with a text may be meant as an expression.
fn write_operator_hint(json: &Json, out: &mut Vec<u8>) -> Result<(), AllocError>
    ensures { OnOk result (out.new.items ≡ out.old.items ++ operator_hint (tree_of json.now)) }
{
    match json {
        Json::List(items) => write_hint(items.as_slice(), out),
        _ => Ok(()),
    }
}

fn write_hint(items: &[Json], out: &mut Vec<u8>) -> Result<(), AllocError>
    ensures { OnOk result (out.new.items ≡ out.old.items ++ operator_hint (list (trees items.now))) }
{
    match items {
        [Json::Text(name), ..] => {
            if is_operator(name.as_str()) {
                return Ok(());
            }
            write_no_operator(name.as_str(), out)
        }
        _ => Ok(()),
    }
}

#[tactic(auto, unfolding(crate::specs::LiteralSentence::is_operator))]
fn is_operator(name: &str) -> bool
    ensures { result ≡ is_operator name.now }
{
    match operator_named(name) {
        Some(_) => true,
        None => false,
    }
}

#[tactic(auto, unfolding(crate::specs::LiteralSentence::no_operator))]
fn write_no_operator(name: &str, out: &mut Vec<u8>) -> Result<(), AllocError>
    ensures { OnOk result (out.new.items ≡ out.old.items ++ no_operator name.now) }
{
    out.extend_from_slice(b", and ")?;
    write_text(name, out)?;
    out.extend_from_slice(b" is no operator")?;
    Ok(())
}
