//! The lines of a layer.

ghost use Rattle.std.specs.Prelude.{◌≡◌, ◌++◌, ◌<◌, ◌^◌, None, length, map, OnOk};
ghost use Rattle.layer_buckets.specs.Seen.{IsSound};
ghost use Rattle.listing_text.specs.Listing.{below_layer, layer_lines};
ghost use Rattle.style_layout.specs.CodeView.{tile_seen};
ghost use Rattle.style_layout.specs.Shown.{layer_features};
ghost use Rattle.style_layout.specs.StyleLayout.{layer_out};
ghost use Rattle.asked_cells.specs.SeenCells.{layer_at, scene_at};
ghost use Rattle.cell_listing.specs.KeptListing.{IsWritable};
ghost use Rattle.cell_listing.specs.Listable.{IsListable};
ghost use Rattle.cell_listing.specs.SeenLayers.{KnowsFeatures, feature_in, layer_in, lines_in, listed_in, ordered_in};
ghost use Rattle.cell_listing.specs.SeenLayers.{passed_in, values_in};

use crate::kept_layer::KeptLayer;
use asked_cells::LayerAt;
use expr_nodes::CountedEvaluator;
use layer_buckets::Buckets;
use listing_text::{Show, write_layer_line};
use std::alloc::{AllocError, Global};
use style_layout::{LayerFeatures, SourceTile, TextTests};

/// Appends the lines of a layer, by what is kept of its cells, without an evaluation: each cell that a listing asks
/// is kept. Asks a layer of fewer than 2^32 features. Where an allocation fails, some of the lines may be there.
pub fn write_layer<E: CountedEvaluator + Drop, V: TextTests>(
    alloc: Global,
    buckets: &Buckets<E>,
    at: &LayerAt<'_, V>,
    tiles: &[SourceTile<'_>],
    out: &mut Vec<u8>,
) -> Result<(), AllocError>
    requires sound { IsSound buckets.now }
    requires few { length (layer_features (map tile_seen tiles.now) (layer_at at.now)) < 2 ^ 32 }
    requires listable { IsListable E.slots at.now.number (scene_at V.tests at.now) (map tile_seen tiles.now)
        (layer_at at.now) buckets.now }
    ensures { OnOk result (out.new.items ≡ out.old.items
        ++ layer_lines (layer_out (scene_at V.tests at.now) (map tile_seen tiles.now) (layer_at at.now))) }
{
    let layer = KeptLayer {
        buckets,
        number: at.number,
        layer: at.layer,
    };
    let show = at.layer.show(at.scene.zoom.exact());
    let prepared = at.layer.prepared;
    write_layer_line(prepared.id.as_str(), prepared.layer_type, show, out)?;
    layer.write_below(alloc, show, tiles, out)
}

impl<E: CountedEvaluator + Drop> KeptLayer<'_, E> {
    // Appends what is below the line of the layer.
    fn write_below(
        &self,
        alloc: Global,
        show: Show,
        tiles: &[SourceTile<'_>],
        out: &mut Vec<u8>,
    ) -> Result<(), AllocError>
        requires sound { IsSound self.now.buckets.now }
        requires few { length (layer_features (map tile_seen tiles.now) (layer_in self.now)) < 2 ^ 32 }
        requires writable { IsWritable (values_in self.now) show (layer_in self.now).properties
            (passed_in self.now (map tile_seen tiles.now)) }
        ensures { OnOk result (out.new.items ≡ out.old.items ++ below_layer show (listed_in self.now None)
            (map (feature_in self.now) (ordered_in self.now (map tile_seen tiles.now)))) }
    {
        match show {
            Show::Hidden => Ok(()),
            Show::Unread => Ok(()),
            Show::OutsideFilter => self.write_values(None, b"  ", out),
            Show::Plain => {
                self.write_values(None, b"  ", out)?;
                self.write_features(alloc, tiles, out)
            }
        }
    }

    fn write_features(
        &self,
        alloc: Global,
        tiles: &[SourceTile<'_>],
        out: &mut Vec<u8>,
    ) -> Result<(), AllocError>
        requires sound { IsSound self.now.buckets.now }
        requires few { length (layer_features (map tile_seen tiles.now) (layer_in self.now)) < 2 ^ 32 }
        requires known { KnowsFeatures self.now (passed_in self.now (map tile_seen tiles.now)) }
        ensures { OnOk result (out.new.items ≡ out.old.items
            ++ lines_in self.now (ordered_in self.now (map tile_seen tiles.now))) }
    {
        match self.layer.sort_property() {
            Some(sort) => self.write_in_order(alloc, sort.property, tiles, out),
            None => self.write_as_listed(tiles, out),
        }
    }

    // Without a sort key features keep the order of the tiles, and each is written as it comes.
    fn write_as_listed(&self, tiles: &[SourceTile<'_>], out: &mut Vec<u8>) -> Result<(), AllocError>
        requires sound { IsSound self.now.buckets.now }
        requires few { length (layer_features (map tile_seen tiles.now) (layer_in self.now)) < 2 ^ 32 }
        requires known { KnowsFeatures self.now (passed_in self.now (map tile_seen tiles.now)) }
        ensures { OnOk result (out.new.items ≡ out.old.items
            ++ lines_in self.now (passed_in self.now (map tile_seen tiles.now))) }
    {
        let answer = self.common_answer();
        let mut features = LayerFeatures::new(self.layer.prepared, tiles);
        while let Some(found) = self.next_passed(answer, &mut features) {
            self.write_feature(found.0, found.1, out)?;
        }
        Ok(())
    }
}
