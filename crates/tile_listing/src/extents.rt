//! The extents of the layers of a tile, read from its bytes.

ghost use Rattle.std.specs.Prelude.{◌≡◌, ◌++◌, ◌<◌, false, length, OnOk, IfOk, IfSome};
ghost use Rattle.proto_wire.specs.Message.{content_of};
ghost use Rattle.proto_wire.specs.View.{payload_seen};
ghost use Rattle.tile_listing.specs.Extents.{extent_in, extents_of};
ghost use Rattle.tile_listing.specs.ExtentSteps.{TakesField, extent_after, extents_in};

use proto_wire::{Field, Fields, Wire};
use std::alloc::{AllocError, Global};

/// The extent of a layer that says none, in units of its grid. Source: Vector Tile 2.1 §4.1.
pub(crate) const DEFAULT_EXTENT: u64 = 4096;

/// The extents of the layers of the tile that these bytes are, in order.
#[tactic(auto, using(crate::proofs::ExtentSteps::layer_next))]
pub(crate) fn extents_of(alloc: Global, bytes: &[u8]) -> Result<Vec<u64>, AllocError>
    ensures { IfOk result (λ extents. extents.items ≡ extents_of bytes.now) }
{
    let mut extents = Vec::new(alloc);
    let mut fields = Fields::new(bytes, 0);
    while let Some(field) = next_field(&mut fields) {
        add_extent(field, &mut extents)?;
    }
    Ok(extents)
}

// The next field, or `None` at the end of the message and where it breaks off.
fn next_field<'a>(fields: &mut Fields<'a>) -> Option<Field<'a>>
    requires { fields.old.failed ≡ false }
    ensures takes { TakesField fields.old result fields.new }
    ensures going { IfSome result (λ _. fields.new.failed ≡ false) }
    ensures taken { IfSome result (λ _. length fields.new.bytes < length fields.old.bytes) }
{
    match fields.next() {
        None => None,
        Some(Ok(field)) => Some(field),
        Some(Err(_)) => None,
    }
}

// Adds the extent of the layer that a field of a tile holds, if it holds one.
fn add_extent(field: Field<'_>, extents: &mut Vec<u64>) -> Result<(), AllocError>
    ensures { OnOk result (extents.new.items
        ≡ extents.old.items ++ extents_in field.entry.number (payload_seen field.entry.wire)) }
{
    if field.number == 3 {
        extents.push(extent_in(content_of(field.wire)))?;
    }
    Ok(())
}

// The bytes that a field holds, which are none where it holds a number.
fn content_of(wire: Wire<'_>) -> &[u8]
    ensures { result.now ≡ content_of (payload_seen wire.entry) }
{
    match wire {
        Wire::Bytes(content) => content,
        Wire::Varint(_) | Wire::Bits64(_) | Wire::Bits32(_) => &[],
    }
}

// The extent of the layer that these bytes are.
#[tactic(auto, using(crate::proofs::ExtentSteps::extent_next))]
fn extent_in(content: &[u8]) -> u64
    ensures { result ≡ extent_in content.now }
{
    let mut extent = DEFAULT_EXTENT;
    let mut fields = Fields::new(content, 0);
    while let Some(field) = next_field(&mut fields) {
        extent = extent_after(extent, field);
    }
    extent
}

// The extent after a field of a layer.
fn extent_after(extent: u64, field: Field<'_>) -> u64
    ensures { result ≡ extent_after extent field.entry.number (payload_seen field.entry.wire) }
{
    match (field.number, field.wire) {
        (5, Wire::Varint(number)) => number,
        _ => extent,
    }
}
