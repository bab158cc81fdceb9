//! The migrated members of `layout` and `paint`.

ghost use Rattle.std.specs.Prelude.{◌≡◌, Some, IfOk};
ghost use Rattle.decimal_json.specs.View.{tree_of};
ghost use Rattle.style_migrate.specs.LegacyValues.{may_be_legacy};
ghost use Rattle.style_migrate.specs.Mapped.{mapped_pairs};
ghost use Rattle.style_migrate.specs.Migrated.{migrated_properties, migrated_property, with_values};

use crate::values::migrate_value;
use decimal_json::{Json, Member, Members, copy};
use legacy_functions::has_tokens;
use property_tables::{LayerType, Place, row};
use std::alloc::{AllocError, Global};

/// A migrated `layout` or `paint`, by the layer's type where that is tested.
pub(crate) fn migrate_properties(
    alloc: Global,
    tested: Option<LayerType>,
    place: Place,
    properties: &Json,
) -> Result<Json, AllocError>
    ensures { IfOk result (λ made. tree_of made ≡ migrated_properties tested (Some place) (tree_of properties.now)) }
{
    match tested {
        Some(layer_type) => migrate_tested(alloc, layer_type, place, properties),
        None => copy(alloc, properties),
    }
}

#[tactic(auto, using(crate::proofs::MappedLaws::fields_mapped))]
fn migrate_tested(
    alloc: Global,
    layer_type: LayerType,
    place: Place,
    properties: &Json,
) -> Result<Json, AllocError>
    ensures { IfOk result
        (λ made. tree_of made ≡ with_values (migrated_property layer_type place) (tree_of properties.now)) }
{
    match properties {
        Json::Object(members) => {
            Ok(Json::Object(migrate_each(alloc, layer_type, place, members)?))
        }
        _ => copy(alloc, properties),
    }
}

fn migrate_each(
    alloc: Global,
    layer_type: LayerType,
    place: Place,
    members: &Members,
) -> Result<Members, AllocError>
    ensures { IfOk result (λ made. made ≡ mapped_pairs (migrated_property layer_type place) members.now) }
{
    let mut made = Members::new(alloc);
    for member in members.as_slice() {
        let key = member.key.share()?;
        made.push(key, migrate_property(alloc, layer_type, place, member)?)?;
    }
    Ok(made)
}

#[tactic(auto, using(crate::proofs::KeptValues::property_kept))]
fn migrate_property(
    alloc: Global,
    layer_type: LayerType,
    place: Place,
    property: &Member,
) -> Result<Json, AllocError>
    ensures { IfOk result (λ made. tree_of made
        ≡ migrated_property layer_type place property.now.key (tree_of property.now.value)) }
{
    if !may_be_legacy(&property.value) {
        return copy(alloc, &property.value);
    }
    match row(layer_type, place, property.key.as_str()) {
        Some(row) => migrate_value(alloc, &row, &property.value),
        None => copy(alloc, &property.value),
    }
}

// Whether a value may be a legacy form: an object, or a text with tokens. All others stay, whatever their row.
fn may_be_legacy(json: &Json) -> bool
    ensures { result ≡ may_be_legacy (tree_of json.now) }
{
    match json {
        Json::Object(_) => true,
        Json::Text(text) => has_tokens(text.as_str()),
        _ => false,
    }
}
