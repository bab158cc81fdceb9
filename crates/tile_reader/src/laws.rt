//! What the definitions mean, each law on a function that does nothing.
ghost use Rattle.tile_reader.specs.Laws.{TilesAreRead, FaultsComeFirst, TileOrFault, NeverBoth, OneTile};
ghost use Rattle.tile_reader.specs.Laws.{MessagesAreCut, KeysDiffer};

/// A tile is read exactly where the bytes are that tile in the words of its format, and the fault that is
/// read is the first one: what is before it has none. All bytes are a tile or have a fault, never both, and
/// are no two tiles.
pub fn bytes_are_one_tile()
    ensures read { TilesAreRead }
    ensures first { FaultsComeFirst }
    ensures some { TileOrFault }
    ensures apart { NeverBoth }
    ensures only { OneTile }
{}

/// A message is the list of the fields that its bytes have in order.
pub fn messages_are_cut()
    ensures { MessagesAreCut }
{}

/// No key of a feature occurs twice.
pub fn keys_differ()
    ensures { KeysDiffer }
{}
