//! Which layers have an expression that reads a feature's state.

ghost use Rattle.std.specs.Prelude.{◌≡◌, false};
ghost use Rattle.layer_buckets.specs.Cells.{reads_state};
ghost use Rattle.layer_buckets.specs.Seen.{source_of};
ghost use Rattle.layer_buckets.specs.declared.cell.CellItem.{CellItem};
ghost use Rattle.cell_sources.specs.CellExpressions.{IsItemOf};

use crate::kept_layers::KeptLayers;
use layer_buckets::CellItem;
use property_tables::{LayerType, row_count};

impl KeptLayers {
    /// Whether an expression of a layer reads a feature's state.
    pub(crate) fn layer_reads_state(&self, number: u32, layer_type: LayerType) -> bool
        ensures { result ≡ false → (item : CellItem) → IsItemOf layer_type item
            → reads_state (source_of self.now.cells.buckets number item) ≡ false }
    {
        for row in 0..row_count(layer_type) {
            if self.item_reads_state(number, CellItem::Property(row)) {
                return true;
            }
        }
        self.item_reads_state(number, CellItem::Filter)
    }

    /// Whether the expression of an item reads a feature's state.
    pub(crate) fn item_reads_state(&self, number: u32, item: CellItem) -> bool
        ensures { result ≡ reads_state (source_of self.now.cells.buckets number item) }
    {
        match self.cells.buckets.source(number, item) {
            Some(source) => source.mentions.state,
            None => false,
        }
    }
}
