//! A text of an expression that is not what is wanted there.

ghost use Rattle.std.specs.Prelude.{◌≡◌, ◌++◌, option_map, OnOk, Some, length};
ghost use Rattle.decimal_json.specs.View.{tree_at, tree_of, trees};
ghost use Rattle.finding_sentences.specs.MaySentence.{in_layer, none_of, misspelled, misspelled_at, text_fault};
ghost use Rattle.finding_sentences.specs.MaySentence.{in_elements, misspelled_each};
ghost use Rattle.finding_sentences.specs.ExpressionSentence.{arguments_before};
ghost use Rattle.finding_sentences.specs.Views.{misspelled_text};
ghost use Rattle.expr_syntax.specs.ReadView.{row_view};
ghost use Rattle.decimal_json.specs.Tree.{list};

use crate::expression_sentence::head_name;
use crate::layer_sentence::type_of;
use crate::node_words::layer_at;
use crate::wanted::choice_words;
use crate::wanted_node::{arguments_before, handed_by};
use color_values::read_color;
use decimal_json::{Json, PathPart, Text, write_text};
use expr_syntax::{ElementPlace, OperatorRow};
use prop_values::{Choice, Want};
use property_tables::{Place, row};
use std::alloc::AllocError;

/// A text that is no color, or none of a set.
#[derive(Clone, Copy)]
pub(crate) struct Misspelled<'a> {
    text: &'a str,
    choice: Option<Choice>,
}

/// Appends that a text is misspelled.
pub(crate) fn write_misspelled(
    misspelled: &Misspelled<'_>,
    out: &mut Vec<u8>,
) -> Result<(), AllocError>
    ensures { OnOk result (out.new.items ≡ out.old.items ++ misspelled_text misspelled.now) }
{
    match misspelled.choice {
        None => {
            write_text(misspelled.text, out)?;
            out.extend_from_slice(b" is no color")
        }
        Some(choice) => write_none_of(misspelled.text, choice, out),
    }
}

#[tactic(auto, unfolding(crate::specs::MaySentence::none_of))]
fn write_none_of(text: &str, choice: Choice, out: &mut Vec<u8>) -> Result<(), AllocError>
    ensures { OnOk result (out.new.items ≡ out.old.items ++ none_of text.now choice) }
{
    write_text(text, out)?;
    out.extend_from_slice(b" is none of ")?;
    out.extend_from_slice(choice_words(choice).as_bytes())?;
    Ok(())
}

/// The first misspelled text of the value of a property at a path.
pub(crate) fn misspelled_at<'a>(document: &'a Json, path: &[PathPart]) -> Option<Misspelled<'a>>
    ensures { option_map misspelled_text result ≡ misspelled_at (tree_of document.now) path.now }
{
    match path {
        [
            PathPart::Key(_),
            PathPart::Index(place),
            PathPart::Key(key),
            PathPart::Key(name),
        ] => {
            match layer_at(document, *place) {
                Some(layer) => misspelled_in_layer(layer, key.as_str(), name.as_str()),
                None => None,
            }
        }
        _ => None,
    }
}

fn misspelled_in_layer<'a>(layer: &'a Json, key: &str, name: &str) -> Option<Misspelled<'a>>
    ensures { option_map misspelled_text result ≡ in_layer key.now name.now (Some (tree_of layer.now)) }
{
    let place = match key {
        "layout" => Place::Layout,
        "paint" => Place::Paint,
        _ => return None,
    };
    let Some(layer_type) = type_of(layer) else {
        return None;
    };
    let value = layer.get(key).and_then(|properties| properties.get(name));
    match (row(layer_type, place, name), value) {
        (Some(row), Some(value)) => first_misspelled(value, &row.want),
        _ => None,
    }
}

// The first misspelled text of an expression that is wanted as this.
#[tactic(auto, using(crate::proofs::TreeLaws::search_rules))]
#[cycle(searching)]
fn first_misspelled<'x>(json: &'x Json, want: &Want) -> Option<Misspelled<'x>>
    ensures { option_map misspelled_text result ≡ misspelled (tree_of json.now) want.now }
{
    match json {
        Json::Text(text) => in_text(text, want),
        Json::List(items) => misspelled_item(items.as_slice(), want),
        _ => None,
    }
}

fn in_text<'a>(text: &'a Text, want: &Want) -> Option<Misspelled<'a>>
    ensures { option_map misspelled_text result ≡ text_fault want.now text.now }
{
    let text = text.as_str();
    match want {
        Want::Color if read_color(text).is_none() => Some(Misspelled { text, choice: None }),
        Want::Enum(choice) if !choice.holds(text) => Some(Misspelled {
            text,
            choice: Some(*choice),
        }),
        _ => None,
    }
}

#[tactic(auto, using(crate::proofs::TreeLaws::search_rules))]
#[cycle(searching)]
fn misspelled_item<'x>(items: &'x [Json], want: &Want) -> Option<Misspelled<'x>>
    ensures { option_map misspelled_text result ≡ misspelled (list (trees items.now)) want.now }
{
    match head_name(items) {
        Some(name) => misspelled_element(items, name.row(), want),
        None => None,
    }
}

#[tactic(auto, using(crate::proofs::TreeLaws::search_rules))]
#[cycle(searching)]
fn misspelled_element<'x>(
    items: &'x [Json],
    row: &OperatorRow,
    want: &Want,
) -> Option<Misspelled<'x>>
    ensures { option_map misspelled_text result
        ≡ in_elements (row_view row.now) (length items.now)
        (arguments_before row.now.layout (length items.now) (length items.now)) 0 0
        (misspelled_each (trees items.now)) want.now }
{
    let arguments = arguments_before(row.layout, items.len(), items.len());
    let handed = handed_by(row.layout, want);
    let mut argument = 0;
    for (at, item) in items.iter().enumerate() {
        if row.layout.place(items.len(), at) != ElementPlace::Part {
            let wanted = row.wants.wanted(arguments, argument).under(&handed);
            let found = first_misspelled(item, &wanted);
            if found.is_some() {
                return found;
            }
            argument += 1;
        }
    }
    None
}
