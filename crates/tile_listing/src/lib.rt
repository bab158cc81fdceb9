//! The listing of a tile: what the reader gives of it, and the extent of each layer.
//!
//! ```text
//! let tile = read_tile(alloc, bytes)?;     // the tile that the bytes are
//! write_tile(bytes, &tile, &mut out)?;
//! // layer "roads" extent 4096
//! //   feature 0 LineString id 7
//! //     "class" "minor"
//! ```
//!
//! What is promised: `write_tile` appends exactly the lines that `specs/TileListing.antt` defines, by the layers of the
//! tile and the extents that its bytes say; a layer of a tile has its own extent (`each_layer_has_its_extent`). Time is
//! linear in the bytes and the text. A key or text that many features have in common is written for each of them.
//!
//! The text to believe is in `specs/`: `Extents`, `TileListing`. Law of it: `ExtentLaw`.
#![tactic(auto)]

mod extents;
mod laws;
mod writing;

pub use laws::each_layer_has_its_extent;
pub use writing::write_tile;
