//! A style, of whose layers outlines are prepared.

ghost use Rattle.std.specs.Prelude.{◌≡◌, ◌<◌, ◌≤◌, insert, length, map, remove, slice_index_or, slice_set};
ghost use Rattle.std.specs.Prelude.{IfOk, OnErr, OnOk};
ghost use Rattle.decimal_json.specs.View.{tree_of};
ghost use Rattle.style_parts.specs.Parts.{layers_of};
ghost use Rattle.style_layout.specs.CodeView.{layer_seen, layers_seen};
ghost use Rattle.style_layout.specs.Layers.{style_layers, StyleLayer as Layer};
ghost use Rattle.style_layout.specs.Outlines.{layer_outline};

use crate::layers::{StyleLayer, prepare_layer};
use decimal_json::Json;
use moved_slices::move_element;
use prop_values::Entries;
use std::alloc::{AllocError, Global};
use std::mem;
use style_parts::layers_of;

/// A style as its layout reads it.
#[derive(Drop)]
pub struct PreparedStyle {
    pub(crate) layers: Vec<StyleLayer>,
}

/// What is prepared of the layers of a document without findings, by the values of the global state.
pub fn prepare(
    alloc: Global,
    document: &Json,
    globals: &Entries,
) -> Result<PreparedStyle, AllocError>
    ensures { IfOk result (λ style. layers_seen style
        ≡ map layer_outline (style_layers globals.now (tree_of document.now))) }
{
    let found = layers_of(document);
    let mut layers = Vec::new(alloc);
    for layer in found {
        match prepare_layer(alloc, globals, layer)? {
            Some(layer) => layers.push(layer)?,
            None => {}
        }
    }
    Ok(PreparedStyle { layers })
}

impl PreparedStyle {
    /// The layer at a place.
    pub fn layer(&self, place: usize) -> &StyleLayer
        requires { place < length (layers_seen self.now) }
        ensures { layer_seen result.now ≡ slice_index_or (layers_seen self.now) place (layer_seen result.now) }
    {
        &self.layers[place]
    }

    /// Puts a layer in place of the one at a place. Takes constant time.
    pub fn replace(&mut self, place: usize, layer: StyleLayer)
        requires { place < length (layers_seen self.old) }
        ensures { layers_seen self.new ≡ slice_set (layers_seen self.old) place (layer_seen layer) }
    {
        let _ = mem::replace(&mut self.layers[place], layer);
    }

    /// Puts a layer before the one at a place, or last where the place is the number of layers. Takes time linear in
    /// the layers.
    pub fn insert(&mut self, place: usize, layer: StyleLayer) -> Result<(), AllocError>
        requires { place ≤ length (layers_seen self.old) }
        ensures ok { OnOk result (layers_seen self.new ≡ insert (layers_seen self.old) place (layer_seen layer)) }
        ensures err { OnErr result (layers_seen self.new ≡ layers_seen self.old) }
    {
        let Ok(()) = self.layers.insert(place, layer) else {
            return Err(AllocError);
        };
        Ok(())
    }

    /// Takes the layer at a place out. Takes time linear in the layers.
    pub fn remove(&mut self, place: usize)
        requires { place < length (layers_seen self.old) }
        ensures { layers_seen self.new ≡ remove (layers_seen self.old) place }
    {
        let _ = self.layers.remove(place);
    }

    /// Moves the layer at a place to another, and the layers in between by one place. Takes time linear in how many
    /// these are, and no memory.
    pub fn move_layer(&mut self, from: usize, to: usize)
        requires from { from < length (layers_seen self.old) }
        requires to { to < length (layers_seen self.old) }
        ensures { (other : Layer) → layers_seen self.new
            ≡ insert (remove (layers_seen self.old) from) to (slice_index_or (layers_seen self.old) from other) }
    {
        move_element(self.layers.as_mut_slice(), from, to);
    }
}
