ghost use Rattle.std.specs.Prelude.{◌≡◌, ℕ, ◌+◌, ◌++◌, ◌^◌, ◌<◌, ◌≤◌, length, take, drop, IfOk, OnOk, Ok};
ghost use Rattle.proto_wire.specs.View.{field_seen, payload_seen};
ghost use Rattle.tile_reader.specs.Read.{◌then◌};
ghost use Rattle.tile_reader.specs.Feature.{feature_member, feature_step, feature_at, packed, placed, tags_in};
ghost use Rattle.tile_reader.specs.Feature.{geometry_in, shape_of};
ghost use Rattle.tile_reader.specs.View.{GivesRead, GivesOrLacks, Leaves, tagged_seen};

use crate::fault::{TileFault, TileKind};
use crate::tile::Shape;
use crate::wire_parts::{next_field, number_in, wrong_type};
use halts::Halt;
use proto_wire::{Field, Fields, Wire, varint};
use std::alloc::AllocError;

/// A feature whose tags are indices of its layer's keys and values. The tags of a layer's features are one
/// after the other in one vector.
#[derive(Clone, Copy)]
pub(crate) struct TaggedFeature {
    /// The offset of its own tag.
    pub(crate) at: usize,
    /// Its id, which counts only where it has one.
    pub(crate) id: u64,
    /// How many tags it has.
    pub(crate) count: u32,
    pub(crate) has_id: bool,
    pub(crate) shape: Shape,
}

/// The fields of a feature. Source: Vector Tile 2.1 §4.2.
#[derive(Clone, Copy)]
enum FeatureMember {
    Id,
    Tags,
    Shape,
    Geometry,
    Unknown,
}

/// The feature whose tag is at `at` and whose content begins at `start`. Its tags go after those before it.
#[inline(always)]
pub(crate) fn read_feature(
    content: &[u8],
    start: usize,
    at: usize,
    tags: &mut Vec<u64>,
) -> Result<TaggedFeature, Halt<TileFault>>
    requires { start + length content.now < 2 ^ 64 }
    ensures feature { GivesOrLacks (λ feature. tagged_seen feature (drop (length tags.old.items) tags.new.items)) result
        (feature_at at start content.now) }
    ensures before { OnOk result (take (length tags.old.items) tags.new.items ≡ tags.old.items) }
    ensures count { IfOk result (λ feature. length tags.old.items + feature.count ≡ length tags.new.items) }
{
    let first = tags.len();
    let mut feature = TaggedFeature {
        at,
        id: 0,
        count: 0,
        has_id: false,
        shape: Shape::Unknown,
    };
    let mut fields = Fields::new(content, start);
    while let Some(field) = next_field(&mut fields)? {
        add_field(&mut feature, tags, first, field)?;
    }
    feature.count = count_of(tags.len() - first)?;
    Ok(feature)
}

// A count of tags in 32 bits. So many tags fill 4 GiB of a tile at least.
#[inline(always)]
fn count_of(count: usize) -> Result<u32, AllocError>
    ensures { IfOk result (λ same. same ≡ count) }
{
    match u32::try_from(count) {
        Ok(count) => Ok(count),
        Err(_) => Err(AllocError),
    }
}

// Adds what a field holds to a feature whose tags begin at the index `first`.
#[inline(always)]
fn add_field(
    feature: &mut TaggedFeature,
    tags: &mut Vec<u64>,
    first: usize,
    field: Field<'_>,
) -> Result<(), Halt<TileFault>>
    requires { first ≤ length tags.old.items }
    ensures step { (end : ℕ) → Leaves (tagged_seen feature.new (drop first tags.new.items)) result
        (feature_step (tagged_seen feature.old (drop first tags.old.items)) (field_seen field.entry end)) }
    ensures before { OnOk result (take first tags.new.items ≡ take first tags.old.items) }
    ensures longer { OnOk result (first ≤ length tags.new.items) }
{
    let Field { number, at, wire } = field;
    match feature_member(number) {
        FeatureMember::Id => {
            feature.id = number_in(at, wire)?;
            feature.has_id = true;
        }
        FeatureMember::Tags => add_tags(tags, at, wire)?,
        FeatureMember::Shape => feature.shape = shape_of(at, number_in(at, wire)?)?,
        FeatureMember::Geometry => geometry_in(at, wire)?,
        FeatureMember::Unknown => {}
    }
    Ok(())
}

#[inline(always)]
fn feature_member(number: u32) -> FeatureMember
    ensures { result ≡ feature_member number }
{
    match number {
        1 => FeatureMember::Id,
        2 => FeatureMember::Tags,
        3 => FeatureMember::Shape,
        4 => FeatureMember::Geometry,
        _ => FeatureMember::Unknown,
    }
}

// Adds the tags of a field, which are packed or single.
#[inline(always)]
fn add_tags(tags: &mut Vec<u64>, at: usize, wire: Wire<'_>) -> Result<(), Halt<TileFault>>
    ensures { Leaves tags.new.items result
        (tags_in at (payload_seen wire.entry) then λ more. Ok (tags.old.items ++ more)) }
{
    match wire {
        Wire::Varint(tag) => {
            tags.push(tag)?;
            Ok(())
        }
        Wire::Bytes(content) => add_packed(tags, at, content),
        Wire::Bits64(_) | Wire::Bits32(_) => Err(Halt::Fault(wrong_type(at))),
    }
}

// Adds the numbers of a packed field, whose tag is at `at`.
#[inline(always)]
fn add_packed(tags: &mut Vec<u64>, at: usize, content: &[u8]) -> Result<(), Halt<TileFault>>
    ensures { Leaves tags.new.items result (placed at (packed content.now) then λ more. Ok (tags.old.items ++ more)) }
{
    let mut rest = content;
    while !rest.is_empty() {
        match varint(&mut rest) {
            Ok(tag) => tags.push(tag)?,
            Err(kind) => {
                return Err(Halt::Fault(TileFault {
                    kind: TileKind::Wire(kind),
                    at,
                }));
            }
        }
    }
    Ok(())
}

// Geometry is packed or single, and is not read.
#[inline(always)]
fn geometry_in(at: usize, wire: Wire<'_>) -> Result<(), TileFault>
    ensures { GivesRead (λ _. tt) result (geometry_in at (payload_seen wire.entry)) }
{
    match wire {
        Wire::Varint(_) | Wire::Bytes(_) => Ok(()),
        Wire::Bits64(_) | Wire::Bits32(_) => Err(wrong_type(at)),
    }
}

#[inline(always)]
fn shape_of(at: usize, number: u64) -> Result<Shape, TileFault>
    ensures { result ≡ shape_of at number }
{
    match number {
        0 => Ok(Shape::Unknown),
        1 => Ok(Shape::Point),
        2 => Ok(Shape::LineString),
        3 => Ok(Shape::Polygon),
        _ => Err(TileFault {
            kind: TileKind::GeometryType,
            at,
        }),
    }
}
