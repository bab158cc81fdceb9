//! The simplified members of `layout` and `paint`.

ghost use Rattle.std.specs.Prelude.{◌≡◌, IfOk};
ghost use Rattle.decimal_json.specs.View.{tree_of};
ghost use Rattle.style_migrate.specs.Mapped.{mapped_pairs};
ghost use Rattle.style_migrate.specs.Migrated.{with_values};
ghost use Rattle.style_simplify.specs.SimplifiedStyle.{simplified_properties, simplified_property};

use crate::values::simplify_value;
use decimal_json::{Json, Member, Members, copy};
use property_tables::{LayerType, Place, row};
use std::alloc::{AllocError, Global};

/// A member of a layer: a simplified `layout` or `paint`, by the layer's type where that is tested.
pub(crate) fn simplify_properties(
    alloc: Global,
    tested: Option<LayerType>,
    place: Option<Place>,
    properties: &Json,
) -> Result<Json, AllocError>
    ensures { IfOk result (λ made. tree_of made ≡ simplified_properties tested place (tree_of properties.now)) }
{
    match (tested, place) {
        (Some(layer_type), Some(place)) => simplify_tested(alloc, layer_type, place, properties),
        _ => copy(alloc, properties),
    }
}

#[tactic(auto, using(style_migrate::proofs::MappedLaws::fields_mapped))]
fn simplify_tested(
    alloc: Global,
    layer_type: LayerType,
    place: Place,
    properties: &Json,
) -> Result<Json, AllocError>
    ensures { IfOk result
        (λ made. tree_of made ≡ with_values (simplified_property layer_type place) (tree_of properties.now)) }
{
    match properties {
        Json::Object(members) => {
            Ok(Json::Object(simplify_each(alloc, layer_type, place, members)?))
        }
        _ => copy(alloc, properties),
    }
}

fn simplify_each(
    alloc: Global,
    layer_type: LayerType,
    place: Place,
    members: &Members,
) -> Result<Members, AllocError>
    ensures { IfOk result (λ made. made ≡ mapped_pairs (simplified_property layer_type place) members.now) }
{
    let mut made = Members::new(alloc);
    for member in members.as_slice() {
        let key = member.key.share()?;
        made.push(key, simplify_property(alloc, layer_type, place, member)?)?;
    }
    Ok(made)
}

fn simplify_property(
    alloc: Global,
    layer_type: LayerType,
    place: Place,
    property: &Member,
) -> Result<Json, AllocError>
    ensures { IfOk result (λ made. tree_of made
        ≡ simplified_property layer_type place property.now.key (tree_of property.now.value)) }
{
    match row(layer_type, place, property.key.as_str()) {
        Some(row) => simplify_value(alloc, &row, &property.value),
        None => copy(alloc, &property.value),
    }
}
