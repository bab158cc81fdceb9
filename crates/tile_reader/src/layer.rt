ghost use Rattle.std.specs.Prelude.{◌≡◌, ℕ, ◌+◌, ◌^◌, ◌<◌, ◌≤◌, [], ◌∷◌, ◌++◌, length, IfOk, OnOk, Ok};
ghost use Rattle.proto_wire.specs.View.{field_seen, content_length};
ghost use Rattle.tile_reader.specs.Message.{message};
ghost use Rattle.tile_reader.specs.Read.{◌then◌, read_fields};
ghost use Rattle.tile_reader.specs.Feature.{feature_at};
ghost use Rattle.tile_reader.specs.Layer.{layer_member, layer_step, no_parts};
ghost use Rattle.tile_reader.specs.View.{GivesOrLacks, Leaves, HasAllTags, tagged_all, parts_seen};

use crate::fault::TileFault;
use crate::feature::{TaggedFeature, read_feature};
use crate::value::{Held, read_value};
use crate::wire_parts::{bytes_in, next_field, number_in, text_in};
use halts::Halt;
use proto_wire::{Field, Fields};
use std::alloc::Global;

/// What the fields of a layer hold; texts are parts of the tile's bytes.
#[derive(Drop)]
pub(crate) struct LayerParts<'a> {
    pub(crate) name: Option<&'a str>,
    pub(crate) version: Option<u64>,
    pub(crate) keys: Vec<&'a str>,
    pub(crate) values: Vec<Held<'a>>,
    pub(crate) features: Vec<TaggedFeature>,
    /// The tags of all features in order.
    pub(crate) tags: Vec<u64>,
}

/// The fields of a layer. Source: Vector Tile 2.1 §4.1.
#[derive(Clone, Copy)]
enum LayerMember {
    Name,
    Feature,
    Key,
    Value,
    Extent,
    Version,
    Unknown,
}

/// The parts of the layer whose content begins at `start`.
pub(crate) fn read_parts(
    alloc: Global,
    content: &[u8],
    start: usize,
) -> Result<LayerParts<'_>, Halt<TileFault>>
    requires { start + length content.now < 2 ^ 64 }
    ensures parts { GivesOrLacks parts_seen result (read_fields layer_step no_parts (message start content.now)) }
    ensures tags { IfOk result (λ parts. HasAllTags parts.features.items parts.tags.items) }
{
    let mut parts = LayerParts {
        name: None,
        version: None,
        keys: Vec::new(alloc),
        values: Vec::new(alloc),
        features: Vec::new(alloc),
        tags: Vec::new(alloc),
    };
    let mut fields = Fields::new(content, start);
    while let Some(field) = next_field(&mut fields)? {
        let end = fields.offset();
        add_field(&mut parts, field, end)?;
    }
    Ok(parts)
}

// Adds what a field holds to a layer. The byte after the field is at `end`.
fn add_field<'a>(
    parts: &mut LayerParts<'a>,
    field: Field<'a>,
    end: usize,
) -> Result<(), Halt<TileFault>>
    requires inside { content_length field.wire ≤ end }
    requires room { end < 2 ^ 64 }
    requires tags { HasAllTags parts.old.features.items parts.old.tags.items }
    ensures step { Leaves (parts_seen parts.new) result
        (layer_step (parts_seen parts.old) (field_seen field.entry end)) }
    ensures tags { OnOk result (HasAllTags parts.new.features.items parts.new.tags.items) }
{
    let Field { number, at, wire } = field;
    match layer_member(number) {
        LayerMember::Name => parts.name = Some(text_in(at, wire)?),
        LayerMember::Feature => {
            let content = bytes_in(at, wire)?;
            add_feature(
                &mut parts.features,
                &mut parts.tags,
                content,
                end - content.len(),
                at,
            )?;
        }
        LayerMember::Key => parts.keys.push(text_in(at, wire)?)?,
        LayerMember::Value => {
            let content = bytes_in(at, wire)?;
            let value = read_value(content, end - content.len(), at)?;
            parts.values.push(value)?;
        }
        LayerMember::Extent => {
            number_in(at, wire)?;
        }
        LayerMember::Version => parts.version = Some(number_in(at, wire)?),
        LayerMember::Unknown => {}
    }
    Ok(())
}

// Adds the feature whose tag is at `at` and whose content begins at `start`, with its tags.
#[inline(always)]
fn add_feature(
    features: &mut Vec<TaggedFeature>,
    tags: &mut Vec<u64>,
    content: &[u8],
    start: usize,
    at: usize,
) -> Result<(), Halt<TileFault>>
    requires room { start + length content.now < 2 ^ 64 }
    requires tags { HasAllTags features.old.items tags.old.items }
    ensures feature { Leaves (tagged_all features.new.items tags.new.items) result
        (feature_at at start content.now
        then λ feature. Ok (tagged_all features.old.items tags.old.items ++ feature ∷ [])) }
    ensures tags { OnOk result (HasAllTags features.new.items tags.new.items) }
{
    let feature = read_feature(content, start, at, tags)?;
    features.push(feature)?;
    Ok(())
}

fn layer_member(number: u32) -> LayerMember
    ensures { result ≡ layer_member number }
{
    match number {
        1 => LayerMember::Name,
        2 => LayerMember::Feature,
        3 => LayerMember::Key,
        4 => LayerMember::Value,
        5 => LayerMember::Extent,
        15 => LayerMember::Version,
        _ => LayerMember::Unknown,
    }
}
