use halts::Halt;
use proto_wire::{WireFault, WireKind};
use thiserror::Error;

/// What a byte string lacks that a tile has.
#[derive(Clone, Copy, Debug, PartialEq, Eq)]
pub enum TileKind {
    /// The bytes of a field are none (Protocol Buffers, "Encoding").
    Wire(WireKind),
    /// The bytes begin as a gzip file: 1F 8B. Source: RFC 1952 §2.3.1.
    Compressed,
    /// A layer without a name.
    NoName,
    /// A layer without a version.
    NoVersion,
    /// A layer of a version other than 1 and 2.
    Version,
    /// A layer with the name of an earlier one.
    RepeatedName,
    /// A tag that is no index of a key or of a value of its layer.
    TagIndex,
    /// A feature with an odd number of tags.
    OddTags,
    /// A value that does not have exactly one of the seven fields of a value.
    ValueKind,
    /// A value that is a float or a double.
    FloatValue,
    /// A name, key or text that is not UTF-8.
    Utf8,
    /// A known field of another wire type than its own.
    FieldType,
    /// A feature type above 3.
    GeometryType,
}

/// The first fault of a byte string, and where: the offset of the tag of the innermost field in which it is.
/// That is a layer's tag for what a layer lacks, a feature's tag for its tags, a value's tag for a value
/// without a field, and 0 for `Compressed`.
#[derive(Clone, Copy, Debug, PartialEq, Eq, Error)]
#[error("{kind:?} at byte {at}")]
pub struct TileFault {
    pub kind: TileKind,
    pub at: usize,
}

impl From<WireFault> for TileFault {
    ghost use Rattle.std.specs.Prelude.{◌≡◌};
    ghost use Rattle.tile_reader.specs.Read.{broken};

    ghost from_gives = { λ wire fault. fault ≡ broken wire };

    fn from(wire: WireFault) -> TileFault {
        TileFault {
            kind: TileKind::Wire(wire.kind),
            at: wire.at,
        }
    }
}

impl From<TileFault> for Halt<TileFault> {
    ghost use Rattle.std.specs.Prelude.{◌≡◌};
    ghost use Rattle.halts.specs.declared.halt.Halt.TheVariants.{Fault};

    ghost from_gives = { λ fault halt. halt ≡ Fault fault };

    fn from(fault: TileFault) -> Halt<TileFault> {
        Halt::Fault(fault)
    }
}
