//! The values of the global state, of which one is set, and whether layers read them.

ghost use Rattle.std.specs.Prelude.{◌≡◌, IfOk, OnOk, option_map};
ghost use Rattle.decimal_json.specs.View.{fields, tree_of, trees};
ghost use Rattle.edit_session.specs.Applied.{default_of, value_or_default, with_global, with_or_without};
ghost use Rattle.edit_session.specs.View.{reads_globals};
ghost use Rattle.global_laws.specs.GlobalLaw.{items_name_globals, members_name_globals, names_globals};
ghost use Rattle.prop_values.specs.View.{data_of};

use decimal_json::{Json, Member, Text};
use prop_values::{Entries, Value, copy};
use std::alloc::{AllocError, Global};
use style_layout::global_default;
use style_parts::layers_of;

/// Gives a name its value, in time logarithmic in the names. For null it gets the document's default, or is taken away
/// where there is none.
pub(crate) fn set_global(
    alloc: Global,
    document: &Json,
    name: &Text,
    value: &Value,
    globals: &mut Entries,
) -> Result<(), AllocError>
    ensures { OnOk result (globals.new ≡ with_global (tree_of document.now) name.now (data_of value.now) globals.old) }
{
    let value = value_or_default(alloc, document, name.as_str(), value)?;
    set_or_remove(name, value, globals)
}

fn value_or_default(
    alloc: Global,
    document: &Json,
    name: &str,
    value: &Value,
) -> Result<Option<Value>, AllocError>
    ensures { IfOk result (λ made. option_map data_of made
        ≡ value_or_default (data_of value.now) (default_of (tree_of document.now) name.now)) }
{
    match value {
        Value::Null => global_default(alloc, document, name),
        value => Ok(Some(copy(value)?)),
    }
}

fn set_or_remove(name: &Text, value: Option<Value>, globals: &mut Entries) -> Result<(), AllocError>
    ensures { OnOk result (globals.new ≡ with_or_without name.now (option_map data_of value) globals.old) }
{
    match value {
        Some(value) => globals.set(name.share()?, value),
        None => {
            globals.remove(name.as_str());
            Ok(())
        }
    }
}

/// Whether a text in the layers of a document is `global-state`. Where none is, no value of them reads the global
/// state.
pub(crate) fn reads_globals(document: &Json) -> bool
    ensures { result ≡ reads_globals (tree_of document.now) }
{
    items_name_globals(layers_of(document))
}

/// Whether a text in a tree is `global-state`, at whatever place. A call goes down the tree.
#[tactic(auto, using(decimal_json::specs::Falls::item_weight, decimal_json::specs::Falls::member_weight))]
#[cycle(names)]
pub(crate) fn names_globals(json: &Json) -> bool
    ensures { result ≡ names_globals (tree_of json.now) }
{
    match json {
        Json::Text(text) => text.as_str() == "global-state",
        Json::List(items) => items_name_globals(items.as_slice()),
        Json::Object(members) => members_name_globals(members.as_slice()),
        _ => false,
    }
}

#[tactic(auto, using(decimal_json::specs::Falls::item_weight, decimal_json::specs::Falls::member_weight))]
#[cycle(names)]
fn items_name_globals(items: &[Json]) -> bool
    ensures { result ≡ items_name_globals (trees items.now) }
{
    for item in items {
        if names_globals(item) {
            return true;
        }
    }
    false
}

#[tactic(auto, using(decimal_json::specs::Falls::item_weight, decimal_json::specs::Falls::member_weight))]
#[cycle(names)]
fn members_name_globals(members: &[Member]) -> bool
    ensures { result ≡ members_name_globals (fields members.now) }
{
    for member in members {
        if names_globals(&member.value) {
            return true;
        }
    }
    false
}
