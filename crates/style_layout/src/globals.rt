//! The values of the global state that a document gives.

ghost use Rattle.std.specs.Prelude.{◌≡◌, [], codes, OnOk, IfOk, option_map};
ghost use Rattle.std.specs.Option.{option_and_then};
ghost use Rattle.decimal_json.specs.Tree.{fields_of};
ghost use Rattle.decimal_json.specs.View.{tree_of, fields};
ghost use Rattle.decimal_json.specs.Accessors.{member, fields_in};
ghost use Rattle.prop_values.specs.Data.{pairs_of};
ghost use Rattle.prop_values.specs.Equality.{at_key};
ghost use Rattle.prop_values.specs.JsonData.{json_data};
ghost use Rattle.prop_values.specs.View.{data_of};
ghost use Rattle.style_layout.specs.Globals.{globals_of, with_defaults, with_default, default_in, data_read};

use decimal_json::{Json, Member, Members};
use prop_values::{Entries, Value, from_json};
use std::alloc::{AllocError, Global};

/// The defaults of `state`.
pub fn globals_of(alloc: Global, document: &Json) -> Result<Entries, AllocError>
    ensures { IfOk result (λ globals. globals ≡ globals_of (tree_of document.now)) }
{
    match state_of(document) {
        Some(state) => defaults_of(alloc, state.as_slice()),
        None => Ok(Entries::new(alloc)),
    }
}

/// The default that `state` has for a name, in time logarithmic in its names at most.
pub fn global_default(
    alloc: Global,
    document: &Json,
    name: &str,
) -> Result<Option<Value>, AllocError>
    ensures { IfOk result
        (λ found. option_map data_of found ≡ at_key name.now (pairs_of (globals_of (tree_of document.now)))) }
{
    match state_of(document) {
        Some(state) => default_among(alloc, state, name),
        None => Ok(None),
    }
}

#[tactic(auto, using(crate::proofs::Defaults::default_found, crate::proofs::Defaults::default_lacking))]
fn default_among(alloc: Global, state: &Members, name: &str) -> Result<Option<Value>, AllocError>
    ensures { IfOk result
        (λ found. option_map data_of found ≡ at_key name.now (pairs_of (with_defaults [] (fields_of state.now)))) }
{
    if state.as_slice().is_empty() {
        return Ok(None);
    }
    match state.get(name) {
        Some(json) => default_in(alloc, json),
        None => Ok(None),
    }
}

fn state_of(document: &Json) -> Option<&Members>
    ensures { option_map (λ members. fields_of members.now) result
        ≡ option_and_then fields_in (member (codes "state") (tree_of document.now)) }
{
    document.get("state").and_then(Json::as_members)
}

fn defaults_of(alloc: Global, state: &[Member]) -> Result<Entries, AllocError>
    ensures { IfOk result (λ globals. globals ≡ with_defaults [] (fields state.now)) }
{
    let mut globals = Entries::new(alloc);
    for member in state {
        put_default(alloc, member, &mut globals)?;
    }
    Ok(globals)
}

fn put_default(alloc: Global, member: &Member, globals: &mut Entries) -> Result<(), AllocError>
    ensures { OnOk result (globals.new
        ≡ with_default member.now.key (default_in (tree_of member.now.value)) globals.old) }
{
    match default_in(alloc, &member.value)? {
        Some(value) => globals.set(member.key.share()?, value),
        None => Ok(()),
    }
}

fn default_in(alloc: Global, json: &Json) -> Result<Option<Value>, AllocError>
    ensures { IfOk result (λ found. option_map data_of found ≡ default_in (tree_of json.now)) }
{
    match json.get("default") {
        Some(default) => value_in(alloc, default),
        None => Ok(None),
    }
}

fn value_in(alloc: Global, json: &Json) -> Result<Option<Value>, AllocError>
    ensures { IfOk result (λ found. option_map data_of found ≡ data_read (json_data (tree_of json.now))) }
{
    match from_json(alloc, json)? {
        Ok(value) => Ok(Some(value)),
        Err(_) => Ok(None),
    }
}
