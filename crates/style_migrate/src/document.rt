//! The migrated document.

ghost use Rattle.std.specs.Prelude.{◌≡◌, IfOk};
ghost use Rattle.decimal_json.specs.View.{tree_of};
ghost use Rattle.style_migrate.specs.Mapped.{mapped_list, mapped_pairs};
ghost use Rattle.style_migrate.specs.Migrated.{migrated, migrated_layer, migrated_part, with_items};

use crate::layers::migrate_layer;
use decimal_json::{Items, Json, Member, Members, copy};
use std::alloc::{AllocError, Global};

/// The document with each legacy filter, each legacy function that is not outside, and each token text
/// replaced by its expression. Asks a document without findings.
#[tactic(auto, using(crate::proofs::MappedLaws::fields_mapped))]
pub fn migrate(alloc: Global, document: &Json) -> Result<Json, AllocError>
    ensures { IfOk result (λ made. tree_of made ≡ migrated (tree_of document.now)) }
{
    match document {
        Json::Object(members) => Ok(Json::Object(migrate_parts(alloc, members)?)),
        _ => copy(alloc, document),
    }
}

fn migrate_parts(alloc: Global, members: &Members) -> Result<Members, AllocError>
    ensures { IfOk result (λ made. made ≡ mapped_pairs migrated_part members.now) }
{
    let mut made = Members::new(alloc);
    for member in members.as_slice() {
        let key = member.key.share()?;
        made.push(key, migrate_part(alloc, member)?)?;
    }
    Ok(made)
}

fn migrate_part(alloc: Global, member: &Member) -> Result<Json, AllocError>
    ensures { IfOk result (λ made. tree_of made ≡ migrated_part member.now.key (tree_of member.now.value)) }
{
    match member.key.as_str() {
        "layers" => migrate_layers(alloc, &member.value),
        _ => copy(alloc, &member.value),
    }
}

#[tactic(auto, using(crate::proofs::MappedLaws::items_mapped))]
fn migrate_layers(alloc: Global, layers: &Json) -> Result<Json, AllocError>
    ensures { IfOk result (λ made. tree_of made ≡ with_items migrated_layer (tree_of layers.now)) }
{
    match layers {
        Json::List(items) => Ok(Json::List(migrate_each(alloc, items)?)),
        _ => copy(alloc, layers),
    }
}

fn migrate_each(alloc: Global, layers: &Items) -> Result<Items, AllocError>
    ensures { IfOk result (λ made. made ≡ mapped_list migrated_layer layers.now) }
{
    let mut made = Items::new(alloc);
    for layer in layers.as_slice() {
        made.push(migrate_layer(alloc, layer)?)?;
    }
    Ok(made)
}
