//! The simplified document.

ghost use Rattle.std.specs.Prelude.{◌≡◌, IfOk};
ghost use Rattle.decimal_json.specs.View.{tree_of};
ghost use Rattle.style_migrate.specs.Mapped.{mapped_list, mapped_pairs};
ghost use Rattle.style_migrate.specs.Migrated.{with_items};
ghost use Rattle.style_simplify.specs.SimplifiedStyle.{never_passed, simplified, simplified_layer, simplified_part};

use crate::layers::simplify_layer;
use crate::never::never_passed;
use decimal_json::{Items, Json, Member, Members, Path, copy};
use std::alloc::{AllocError, Global};

/// A simplified document, and the paths of the filters that no feature passes any more.
#[derive(Drop)]
pub struct Simplified {
    pub document: Json,
    /// Of the filters that were expressions and became false, in document order.
    pub never: Vec<Path>,
}

/// The document with each value and filter that is an expression replaced by its simplified form. Asks a document
/// without findings.
pub fn simplify(alloc: Global, document: &Json) -> Result<Simplified, AllocError>
    ensures document { IfOk result (λ made. tree_of made.document ≡ simplified (tree_of document.now)) }
    ensures never { IfOk result
        (λ made. made.never.items ≡ never_passed (tree_of document.now) (simplified (tree_of document.now))) }
{
    let made = simplify_document(alloc, document)?;
    let never = never_passed(alloc, document, &made)?;
    Ok(Simplified {
        document: made,
        never,
    })
}

#[tactic(auto, using(style_migrate::proofs::MappedLaws::fields_mapped))]
fn simplify_document(alloc: Global, document: &Json) -> Result<Json, AllocError>
    ensures { IfOk result (λ made. tree_of made ≡ simplified (tree_of document.now)) }
{
    match document {
        Json::Object(members) => Ok(Json::Object(simplify_parts(alloc, members)?)),
        _ => copy(alloc, document),
    }
}

fn simplify_parts(alloc: Global, members: &Members) -> Result<Members, AllocError>
    ensures { IfOk result (λ made. made ≡ mapped_pairs simplified_part members.now) }
{
    let mut made = Members::new(alloc);
    for member in members.as_slice() {
        let key = member.key.share()?;
        made.push(key, simplify_part(alloc, member)?)?;
    }
    Ok(made)
}

fn simplify_part(alloc: Global, member: &Member) -> Result<Json, AllocError>
    ensures { IfOk result (λ made. tree_of made ≡ simplified_part member.now.key (tree_of member.now.value)) }
{
    match member.key.as_str() {
        "layers" => simplify_layers(alloc, &member.value),
        _ => copy(alloc, &member.value),
    }
}

#[tactic(auto, using(style_migrate::proofs::MappedLaws::items_mapped))]
fn simplify_layers(alloc: Global, layers: &Json) -> Result<Json, AllocError>
    ensures { IfOk result (λ made. tree_of made ≡ with_items simplified_layer (tree_of layers.now)) }
{
    match layers {
        Json::List(items) => Ok(Json::List(simplify_each(alloc, items)?)),
        _ => copy(alloc, layers),
    }
}

fn simplify_each(alloc: Global, layers: &Items) -> Result<Items, AllocError>
    ensures { IfOk result (λ made. made ≡ mapped_list simplified_layer layers.now) }
{
    let mut made = Items::new(alloc);
    for layer in layers.as_slice() {
        made.push(simplify_layer(alloc, layer)?)?;
    }
    Ok(made)
}
