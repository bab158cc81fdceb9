//! The simplified layers.

ghost use Rattle.std.specs.Prelude.{◌≡◌, IfOk};
ghost use Rattle.decimal_json.specs.View.{tree_of};
ghost use Rattle.style_migrate.specs.Mapped.{mapped_pairs};
ghost use Rattle.style_simplify.specs.SimplifiedStyle.{simplified_layer, simplified_member};
ghost use Rattle.value_forms.specs.LayerTypes.{place_named};

use crate::properties::simplify_properties;
use crate::values::simplify_filter;
use decimal_json::{Json, Member, Members, copy};
use property_tables::{LayerType, Place};
use std::alloc::{AllocError, Global};
use value_forms::{layer_type, tested_type};

#[tactic(auto, using(style_migrate::proofs::MappedLaws::fields_mapped))]
pub(crate) fn simplify_layer(alloc: Global, layer: &Json) -> Result<Json, AllocError>
    ensures { IfOk result (λ made. tree_of made ≡ simplified_layer (tree_of layer.now)) }
{
    match layer {
        Json::Object(members) => {
            let tested = tested_type(layer_type(members));
            Ok(Json::Object(simplify_members(alloc, tested, members)?))
        }
        _ => copy(alloc, layer),
    }
}

fn simplify_members(
    alloc: Global,
    tested: Option<LayerType>,
    members: &Members,
) -> Result<Members, AllocError>
    ensures { IfOk result (λ made. made ≡ mapped_pairs (simplified_member tested) members.now) }
{
    let mut made = Members::new(alloc);
    for member in members.as_slice() {
        let key = member.key.share()?;
        made.push(key, simplify_member(alloc, tested, member)?)?;
    }
    Ok(made)
}

fn simplify_member(
    alloc: Global,
    tested: Option<LayerType>,
    member: &Member,
) -> Result<Json, AllocError>
    ensures { IfOk result (λ made. tree_of made ≡ simplified_member tested member.now.key (tree_of member.now.value)) }
{
    if member.key.as_str() == "filter" {
        simplify_filter(alloc, &member.value)
    } else {
        let place = place_named(member.key.as_str());
        simplify_properties(alloc, tested, place, &member.value)
    }
}

fn place_named(key: &str) -> Option<Place>
    ensures { result ≡ place_named key.now }
{
    match key {
        "layout" => Some(Place::Layout),
        "paint" => Some(Place::Paint),
        _ => None,
    }
}
