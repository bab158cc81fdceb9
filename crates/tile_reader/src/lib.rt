//! Reads Mapbox vector tiles: layers, features, ids, types and properties. Source: Vector Tile 2.1, for
//! layers of versions 1 and 2.
//!
//! ```text
//! match read_tile(alloc, bytes)? {
//!     Ok(tile) => ..,      // tile.as_slice()[0].name, .features ..; tile.named("roads")
//!                          // feature.id.get(), feature.shape, feature.properties.get("class")
//!     Err(fault) => ..,    // fault.kind, fault.at
//! }
//! ```
//!
//! What is promised: for all bytes the answer is the tile that they are, or the first fault in the reading
//! order with its place, unless allocation fails. `IsTile` of `specs/Format.antt` says what a tile is in the
//! words of its format, and `IsFirstFault` of `specs/FirstFault.antt` which fault comes first; `tile_of` of
//! `specs/Tile.antt` is the function that they determine. Time is that of n log n in the bytes. The
//! keys and values of a layer are kept once; a property of a feature is eight bytes that name its key and its
//! value, and an index of the keys where the feature has more than sixteen. `Tile::named` gives exactly the
//! layer of a name, by an index, and `FeatureProperties::get` the value of a key.
//!
//! The reading order: compressed bytes come first. Then the fields follow from left to right, and what is
//! inside a layer, feature or value is read where its field is. At a field come its wire type, a float, a
//! second field of a value, UTF-8, and the feature type, also where a later field replaces it. At the end of
//! a layer come its name, its version and a repeated name, and then for each feature an odd number of tags
//! and a tag without a key or value.
//!
//! The text to believe is in `specs/`: `Names`, `ShapeName`, `Format`, `FirstFault`; `Laws` joins it to what is read.
#![tactic(auto)]

mod fault;
mod feature;
mod feature_id;
mod feature_properties;
mod laws;
mod layer;
mod properties;
mod reading;
mod tile;
mod value;
mod wire_parts;

pub use fault::{TileFault, TileKind};
pub use feature_id::FeatureId;
pub use feature_properties::FeatureProperties;
pub use laws::{bytes_are_one_tile, keys_differ, messages_are_cut};
pub use reading::read_tile;
pub use tile::{Feature, Features, Shape, Tile, TileLayer};
