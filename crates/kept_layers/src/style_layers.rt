//! A style, as its kept cells see it.

ghost use Rattle.std.specs.Prelude.{◌≡◌, ◌<◌, length, slice_index_or};
ghost use Rattle.decimal_json.specs.Tree.{null, object, fields_of};
ghost use Rattle.decimal_json.specs.View.{tree_of};
ghost use Rattle.kept_layers.specs.Changes.{IsOneLayer, globals_of, tiles_of};
ghost use Rattle.style_layout.specs.CodeView.{document_layer};
ghost use Rattle.kept_layers.specs.KeptLayers.{prepared_layers, type_of};
ghost use Rattle.kept_layers.specs.View.{IsPrepared, globals_in, tiles_in, trees_in};

use cell_sources::LayerValues;
use decimal_json::Json;
use prop_values::Entries;
use style_layout::{DocumentLayer, PreparedStyle, SourceTile, StyleLayer};

/// The layers of a document without findings, over tiles.
#[derive(Clone, Copy)]
pub struct StyleLayers<'a> {
    pub layers: &'a [Json],
    /// The same layers, prepared by the values of the global state.
    pub style: &'a PreparedStyle,
    pub globals: &'a Entries,
    pub tiles: &'a [SourceTile<'a>],
}

impl<'a> StyleLayers<'a> {
    /// The layer at a place. Takes constant time.
    pub fn one(&self, place: usize) -> OneLayer<'a>
        requires prepared { IsPrepared self.now }
        requires within { place < length (trees_in self.now) }
        ensures layer { tree_of result.layer.now ≡ slice_index_or (trees_in self.now) place null }
        ensures one { IsOneLayer result }
        ensures globals { globals_of result ≡ globals_in self.now }
        ensures tiles { tiles_of result ≡ tiles_in self.now }
    {
        OneLayer {
            layer: &self.layers[place],
            prepared: self.style.layer(place),
            globals: self.globals,
            tiles: self.tiles,
        }
    }

    /// The layer at a place, as a listing reads it. Takes constant time.
    pub(crate) fn listed_layer(&self, place: usize) -> DocumentLayer<'a>
        requires prepared { IsPrepared self.now }
        requires within { place < length (trees_in self.now) }
        ensures { document_layer result
            ≡ slice_index_or (prepared_layers (globals_in self.now) (trees_in self.now)) place (document_layer result) }
    {
        DocumentLayer {
            prepared: self.style.layer(place),
            json: &self.layers[place],
            globals: self.globals,
        }
    }
}

/// A layer of a document without findings, over tiles.
#[derive(Clone, Copy)]
pub struct OneLayer<'a> {
    pub layer: &'a Json,
    /// The same layer, prepared by the values of the global state.
    pub prepared: &'a StyleLayer,
    pub globals: &'a Entries,
    pub tiles: &'a [SourceTile<'a>],
}

impl<'a> OneLayer<'a> {
    /// What the sources of its items are made of.
    pub(crate) fn values(&self) -> LayerValues<'a>
        requires { IsOneLayer self.now }
        ensures layer_type { result.layer_type ≡ type_of (tree_of self.now.layer.now) }
        ensures members { object (fields_of result.members.now) ≡ tree_of self.now.layer.now }
        ensures globals { result.globals.now ≡ globals_of self.now }
    {
        let Json::Object(members) = self.layer else {
            unreachable!()
        };
        LayerValues {
            layer_type: self.prepared.layer_type,
            members,
            globals: self.globals,
        }
    }
}
