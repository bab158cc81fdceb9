ghost use Rattle.std.specs.Prelude.{◌≡◌, ◌≤◌, ◌<◌, ◌^◌, [], ◌∷◌, ◌++◌, IfOk, OnOk, Ok, option_map};
ghost use Rattle.proto_wire.specs.View.{field_seen, content_length};
ghost use Rattle.tile_reader.specs.Message.{message};
ghost use Rattle.tile_reader.specs.Read.{◌then◌, read_fields};
ghost use Rattle.tile_reader.specs.Layer.{name_of, version_of, new_name, layer_end};
ghost use Rattle.tile_reader.specs.Names.{names};
ghost use Rattle.tile_reader.specs.Tile.{tile_step, tile_of, is_compressed};
ghost use Rattle.tile_reader.specs.View.{GivesRead, GivesOrLacks, Leaves, HasAllTags, parts_seen};

use crate::fault::{TileFault, TileKind};
use crate::layer::{LayerParts, read_parts};
use crate::properties::features;
use crate::tile::{Tile, TileLayer};
use crate::wire_parts::{bytes_in, next_field};
use decimal_json::Text;
use halts::Halt;
use proto_wire::{Field, Fields};
use std::alloc::{AllocError, Global};

/// The tile that these bytes are, or their first fault.
pub fn read_tile(alloc: Global, bytes: &[u8]) -> Result<Result<Tile, TileFault>, AllocError>
    ensures { IfOk result (λ answer. answer ≡ tile_of bytes.now) }
{
    match read_layers(alloc, bytes) {
        Ok(tile) => Ok(Ok(tile)),
        Err(Halt::Fault(fault)) => Ok(Err(fault)),
        Err(Halt::NoMemory) => Err(AllocError),
    }
}

fn is_compressed(bytes: &[u8]) -> bool
    ensures { result ≡ is_compressed bytes.now }
{
    match bytes {
        [first, second, ..] => *first == 0x1F && *second == 0x8B,
        _ => false,
    }
}

#[tactic(auto, unfolding(crate::specs::Tile::tile_of))]
fn read_layers(alloc: Global, bytes: &[u8]) -> Result<Tile, Halt<TileFault>>
    ensures { GivesOrLacks (λ tile. tile) result (tile_of bytes.now) }
{
    if is_compressed(bytes) {
        return Err(Halt::Fault(TileFault {
            kind: TileKind::Compressed,
            at: 0,
        }));
    }
    read_message(alloc, bytes)
}

// The layers of bytes that are not compressed.
fn read_message(alloc: Global, bytes: &[u8]) -> Result<Tile, Halt<TileFault>>
    ensures { GivesOrLacks (λ tile. tile) result (read_fields tile_step [] (message 0 bytes.now)) }
{
    let mut tile = Tile::new(alloc);
    let mut fields = Fields::new(bytes, 0);
    while let Some(field) = next_field(&mut fields)? {
        let end = fields.offset();
        add_field(alloc, &mut tile, field, end)?;
    }
    Ok(tile)
}

// Adds the layer that a field holds, if it does. The byte after the field is at `end`.
fn add_field(
    alloc: Global,
    tile: &mut Tile,
    field: Field<'_>,
    end: usize,
) -> Result<(), Halt<TileFault>>
    requires inside { content_length field.wire ≤ end }
    requires room { end < 2 ^ 64 }
    ensures { Leaves tile.new result (tile_step tile.old (field_seen field.entry end)) }
{
    let Field { number, at, wire } = field;
    if number == 3 {
        let content = bytes_in(at, wire)?;
        let parts = read_parts(alloc, content, end - content.len())?;
        add_layer(alloc, tile, parts, at)?;
    }
    Ok(())
}

// Adds the layer of these parts, whose tag is at `at`.
fn add_layer(
    alloc: Global,
    tile: &mut Tile,
    parts: LayerParts<'_>,
    at: usize,
) -> Result<(), Halt<TileFault>>
    requires { HasAllTags parts.features.items parts.tags.items }
    ensures { Leaves tile.new result
        (layer_end at (names tile.old) (parts_seen parts.entry) then λ layer. Ok (tile.old ++ layer ∷ [])) }
{
    let LayerParts {
        name,
        version,
        keys,
        values,
        features: tagged,
        tags,
    } = parts;
    let name = name_of(at, name)?;
    let _version = version_of(at, version)?;
    let name = new_name(at, tile, name)?;
    let features = features(alloc, keys.as_slice(), values.as_slice(), tagged, tags)?;
    let text = Text::copy_of(alloc, name)?;
    tile.push(TileLayer {
        name: text,
        features,
    })?;
    Ok(())
}

fn name_of(at: usize, name: Option<&str>) -> Result<&str, TileFault>
    ensures { GivesRead (λ s. s.now) result (name_of at (option_map (λ s. s.now) name.entry)) }
{
    match name {
        Some(name) => Ok(name),
        None => Err(TileFault {
            kind: TileKind::NoName,
            at,
        }),
    }
}

fn version_of(at: usize, version: Option<u64>) -> Result<u64, TileFault>
    ensures { result ≡ version_of at version }
{
    match version {
        None => Err(TileFault {
            kind: TileKind::NoVersion,
            at,
        }),
        Some(1) => Ok(1),
        Some(2) => Ok(2),
        Some(_) => Err(TileFault {
            kind: TileKind::Version,
            at,
        }),
    }
}

// The name, where no layer of the tile has it.
fn new_name<'a>(at: usize, tile: &Tile, name: &'a str) -> Result<&'a str, TileFault>
    ensures { GivesRead (λ s. s.now) result (new_name at (names tile.now) name.now) }
{
    if tile.named(name).is_some() {
        return Err(TileFault {
            kind: TileKind::RepeatedName,
            at,
        });
    }
    Ok(name)
}
