//! The migrated layers.

ghost use Rattle.std.specs.Prelude.{◌≡◌, IfOk};
ghost use Rattle.decimal_json.specs.View.{tree_of};
ghost use Rattle.legacy_filters.specs.Migrated.{migrated_filter};
ghost use Rattle.style_migrate.specs.Mapped.{mapped_pairs};
ghost use Rattle.style_migrate.specs.Migrated.{migrated_layer, migrated_member};

use crate::properties::migrate_properties;
use decimal_json::{Json, Member, Members, copy};
use legacy_filters::{is_legacy, read};
use property_tables::{LayerType, Place};
use std::alloc::{AllocError, Global};
use value_forms::{layer_type, tested_type};

#[tactic(auto, using(crate::proofs::MappedLaws::fields_mapped))]
pub(crate) fn migrate_layer(alloc: Global, layer: &Json) -> Result<Json, AllocError>
    ensures { IfOk result (λ made. tree_of made ≡ migrated_layer (tree_of layer.now)) }
{
    match layer {
        Json::Object(members) => {
            let tested = tested_type(layer_type(members));
            Ok(Json::Object(migrate_members(alloc, tested, members)?))
        }
        _ => copy(alloc, layer),
    }
}

fn migrate_members(
    alloc: Global,
    tested: Option<LayerType>,
    members: &Members,
) -> Result<Members, AllocError>
    ensures { IfOk result (λ made. made ≡ mapped_pairs (migrated_member tested) members.now) }
{
    let mut made = Members::new(alloc);
    for member in members.as_slice() {
        let key = member.key.share()?;
        made.push(key, migrate_member(alloc, tested, member)?)?;
    }
    Ok(made)
}

fn migrate_member(
    alloc: Global,
    tested: Option<LayerType>,
    member: &Member,
) -> Result<Json, AllocError>
    ensures { IfOk result (λ made. tree_of made ≡ migrated_member tested member.now.key (tree_of member.now.value)) }
{
    match member.key.as_str() {
        "filter" => migrate_filter(alloc, &member.value),
        "layout" => migrate_properties(alloc, tested, Place::Layout, &member.value),
        "paint" => migrate_properties(alloc, tested, Place::Paint, &member.value),
        _ => copy(alloc, &member.value),
    }
}

fn migrate_filter(alloc: Global, filter: &Json) -> Result<Json, AllocError>
    ensures { IfOk result (λ made. tree_of made ≡ migrated_filter (tree_of filter.now)) }
{
    if !is_legacy(filter) {
        return copy(alloc, filter);
    }
    match read(alloc, filter)? {
        Ok(legacy) => legacy.to_expr(alloc),
        Err(_) => copy(alloc, filter),
    }
}
