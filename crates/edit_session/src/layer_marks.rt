//! Marks of layers by their ids, by which a layer is found without a look at each.

ghost use Rattle.std.specs.Prelude.{◌≡◌, [], nat_eq, slice_index_or, true, IfOk, IfSome, OnOk, Some, option_map, IsOk};
ghost use Rattle.std.specs.List.{position};
ghost use Rattle.std.specs.Option.{option_and_then};
ghost use Rattle.decimal_json.specs.Tree.{null};
ghost use Rattle.decimal_json.specs.View.{items_view, tree_of};
ghost use Rattle.edit_script.specs.View.{command_seen};
ghost use Rattle.edit_session.specs.LayerMarks.{AreMarks, layer_mark, mark_of};
ghost use Rattle.style_edits.specs.Layers.{layer_list};
ghost use Rattle.style_edits.specs.Places.{layer_place, places_of};
ghost use Rattle.style_edits.specs.Undone.{IsWithin, adds_nothing, undone_layers};
ghost use Rattle.style_parts.specs.Parts.{is_id_of};
ghost use Rattle.style_rules.specs.Findings.{findings};

use crate::place_hints::PlaceHints;
use decimal_json::{Json, Text};
use edit_findings::layers_have_distinct_members;
use edit_script::Command;
use moved_slices::move_element;
use std::alloc::{AllocError, Global};
use std::hash::{DefaultHasher, Hasher};
use style_edits::{EditPlaces, Undo, before_named, id_added, layer_named, layer_place, text_id};
use style_parts::{is_id_of, layers_of};
use style_rules::documents_have_distinct_members;

/// A mark of each layer of a document, in their order. Layers of one id have one mark, and most others have others: so
/// the layer of an id is found by a look at eight bytes of each. Those near to where it was last are looked at first.
/// That no name occurs twice in a layer goes along, so that a move asks it of none.
#[derive(Drop)]
pub struct LayerMarks {
    pub(crate) marks: Vec<u64>,
    pub(crate) hints: PlaceHints,
}

impl LayerMarks {
    /// Those of the layers of a document.
    #[tactic(auto, using(style_edits::proofs::DocumentLaws::layers_listed))]
    pub(crate) fn of(alloc: Global, document: &Json) -> Result<LayerMarks, AllocError>
        ensures { IfOk result (λ made. AreMarks made (layer_list (tree_of document.now))) }
    {
        marks_of(alloc, layers_of(document))
    }

    /// The places of the layers that an edit of a document without findings names.
    pub(crate) fn places(&self, document: &Json, command: &Command) -> EditPlaces
        requires marks { AreMarks self.now (layer_list (tree_of document.now)) }
        requires sound { findings (tree_of document.now) ≡ [] }
        ensures { result ≡ places_of (tree_of document.now) (command_seen command.now) }
    {
        EditPlaces {
            layer: self.place_if(document, layer_named(command)),
            before: self.place_if(document, before_named(command)),
            same: self.place_if(document, id_added(command)),
        }
    }

    fn place_if(&self, document: &Json, id: Option<&Text>) -> Option<usize>
        requires marks { AreMarks self.now (layer_list (tree_of document.now)) }
        requires sound { findings (tree_of document.now) ≡ [] }
        ensures { result ≡ option_and_then (layer_place (layer_list (tree_of document.now)))
            (option_map (λ id. id.now) id.entry) }
    {
        match id {
            Some(id) => self.place(document, id.as_str()),
            None => None,
        }
    }

    // The place of the layer that has an id, of which a document without findings has one at most.
    fn place(&self, document: &Json, id: &str) -> Option<usize>
        requires marks { AreMarks self.now (layer_list (tree_of document.now)) }
        requires sound { findings (tree_of document.now) ≡ [] }
        ensures { result ≡ layer_place (layer_list (tree_of document.now)) id.now }
    {
        let mark = mark_of(id);
        let near = self.hints.place_near(self.marks.as_slice(), mark);
        match own_place(document, near, id) {
            Some(place) => Some(place),
            None => self.place_by_marks(document, id, mark),
        }
    }

    // The same by a look at all marks. Where another layer has its mark, each layer is looked at.
    fn place_by_marks(&self, document: &Json, id: &str, mark: u64) -> Option<usize>
        requires marks { AreMarks self.now (layer_list (tree_of document.now)) }
        requires sound { findings (tree_of document.now) ≡ [] }
        requires mark { mark ≡ mark_of id.now }
        ensures { result ≡ layer_place (layer_list (tree_of document.now)) id.now }
    {
        match self.first_marked(mark) {
            Some(first) => place_or_first(document, first, id),
            None => None,
        }
    }

    fn first_marked(&self, mark: u64) -> Option<usize>
        ensures { result ≡ position (λ one. nat_eq one mark) self.now.marks.items }
    {
        self.marks.as_slice().iter().position(|one| *one == mark)
    }

    /// Follows an edit, after which a document has these layers. Takes time linear in them; for a move, in how many
    /// layers are in between. Takes memory only where a layer came.
    pub(crate) fn follow(&mut self, layers: &[Json], undo: &Undo) -> Result<(), AllocError>
        requires before { AreMarks self.old (undone_layers undo.now (items_view layers.now)) }
        requires within { IsWithin undo.now (items_view layers.now) }
        ensures marks { OnOk result (AreMarks self.new (items_view layers.now)) }
        ensures memory { adds_nothing undo.now ≡ true → IsOk result }
    {
        match undo {
            Undo::Nothing => Ok(()),
            Undo::Changed(place, _) => {
                let layer = &layers[*place];
                documents_have_distinct_members(layer);
                let mark = layer_mark(layer);
                self.marks[*place] = mark;
                self.hints.note(mark, *place);
                Ok(())
            }
            Undo::Added(place) => {
                let layer = &layers[*place];
                documents_have_distinct_members(layer);
                let mark = layer_mark(layer);
                let Ok(()) = self.marks.insert(*place, mark) else {
                    return Err(AllocError);
                };
                self.hints.note(mark, *place);
                self.hints.make_room(self.marks.as_slice())?;
                Ok(())
            }
            Undo::Removed(place, _) => {
                let _ = self.marks.remove(*place);
                Ok(())
            }
            Undo::Moved(from, to) => {
                move_element(self.marks.as_mut_slice(), *from, *to);
                self.hints.note(self.marks[*to], *to);
                Ok(())
            }
        }
    }
}

fn marks_of(alloc: Global, layers: &[Json]) -> Result<LayerMarks, AllocError>
    ensures { IfOk result (λ made. AreMarks made (items_view layers.now)) }
{
    layers_have_distinct_members(layers);
    let mut marks = Vec::new(alloc);
    for layer in layers {
        marks.push(layer_mark(layer))?;
    }
    let mut hints = PlaceHints::new(alloc);
    hints.make_room(marks.as_slice())?;
    Ok(LayerMarks { marks, hints })
}

// The place of the layer that has an id: this one, or where a look at each finds it.
fn place_or_first(document: &Json, place: usize, id: &str) -> Option<usize>
    requires { findings (tree_of document.now) ≡ [] }
    ensures { result ≡ layer_place (layer_list (tree_of document.now)) id.now }
{
    match own_place(document, Some(place), id) {
        Some(place) => Some(place),
        None => layer_place(document, id),
    }
}

// A place, where the layer there has an id.
fn own_place(document: &Json, place: Option<usize>, id: &str) -> Option<usize>
    requires { findings (tree_of document.now) ≡ [] }
    ensures { IfSome result (λ place. Some place ≡ layer_place (layer_list (tree_of document.now)) id.now) }
{
    documents_have_distinct_members(document);
    let place = place?;
    if has_id(layers_of(document), place, id) {
        return Some(place);
    }
    None
}

// Whether the layer at a place has an id.
fn has_id(layers: &[Json], place: usize, id: &str) -> bool
    ensures { result ≡ true → is_id_of id.now (slice_index_or (items_view layers.now) place null) ≡ true }
{
    match layers.get(place) {
        Some(layer) => is_id_of(id, layer),
        None => false,
    }
}

fn layer_mark(layer: &Json) -> u64
    ensures { result ≡ layer_mark (tree_of layer.now) }
{
    match text_id(layer) {
        Some(id) => mark_of(id.as_str()),
        None => 0,
    }
}

#[tactic(auto, unfolding(crate::specs::LayerMarks::mark_of))]
fn mark_of(id: &str) -> u64
    ensures { result ≡ mark_of id.now }
{
    let mut hasher = DefaultHasher::new();
    hasher.write(id.as_bytes());
    hasher.finish()
}
