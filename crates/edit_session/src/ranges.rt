//! Ranges of zooms that are to be set in the document, before the next command that needs it as it is then.

ghost use Rattle.std.specs.Prelude.{◌≡◌, ◌<◌, ◌+◌, ℕ, List, Bool, false, true, length, Some, IfOk, IfSome, IsOk, OnOk};
ghost use Rattle.std.specs.Prelude.{is_err};
ghost use Rattle.decimal_json.specs.View.{tree_of};
ghost use Rattle.edit_script.specs.View.{command_seen};
ghost use Rattle.edit_session.specs.Answering.{is_done};
ghost use Rattle.edit_session.specs.Applied.{applied};
ghost use Rattle.edit_session.specs.Ranges.{lets_ranges_be};
ghost use Rattle.edit_session.specs.Setting.{HasSettled, IsBeforeRanges, NonePending, RepresentsSame, SettlesAt};
ghost use Rattle.edit_session.specs.Setting.{is_range, moved_slot, removed_slot, slots_after, slots_for};
ghost use Rattle.edit_session.specs.View.{HasSlots, IsReady, reply_seen, session_state, tiles_of, lacks_memory};
ghost use Rattle.pending_ranges.specs.Pending.{AreZoomRanges, IsZoomRange};
ghost use Rattle.style_edits.specs.Layers.{layer_list};
ghost use Rattle.style_edits.specs.Taking.{HasLayers};
ghost use Rattle.style_rules.specs.Levels.{HasDistinctMembers};

use crate::answer::Answer;
use crate::commands::{is_done, refusal_of};
use crate::session::Session;
use crate::whole::note_types;
use edit_script::Command;
use fixed_num::Fixed;
use std::alloc::AllocError;
use style_edits::{EditPlaces, edit_fault, place_moved_to, text_id};
use style_parts::layers_of;
use style_rules::documents_have_distinct_members;

/// What the ranges follow a command by: where the layers were that it names, and how many there were.
#[derive(Clone, Copy)]
pub(crate) struct BeforeRanges {
    pub(crate) places: EditPlaces,
    pub(crate) count: usize,
}

/// Whether a command sets the range of a layer.
pub(crate) fn is_range(command: &Command) -> bool
    ensures { result ≡ is_range (command_seen command.now) }
{
    matches!(command, Command::SetRange(_, _, _))
}

// Whether a command lets the ranges be.
fn lets_ranges_be(command: &Command) -> bool
    ensures { result ≡ lets_ranges_be (command_seen command.now) }
{
    matches!(
        command,
        Command::Stats
            | Command::SetZoom(_)
            | Command::RemoveState(_, _, _, _)
            | Command::AddImage(_)
            | Command::RemoveImage(_)
            | Command::RemoveLayer(_)
            | Command::MoveLayer(_, _)
    )
}

impl Session<'_> {
    /// The answer to a command that sets the range of a layer: it is to be set in the document. That takes no memory.
    pub(crate) fn set_range(&mut self, command: &Command) -> Answer
        requires ready { IsReady self.old }
        requires slots { HasSlots self.old }
        requires command { is_range (command_seen command.now) ≡ true }
        ensures answer { (has_image scripts : List ℕ → Bool) (can_change : Bool)
            → (session_state self.new has_image, reply_seen result) ≡ applied (tiles_of self.old) scripts can_change
            (session_state self.old has_image) (command_seen command.now) }
        ensures others { self.new ≡ record self.old { ranges = self.new.ranges } }
        ensures slots { HasSlots self.new }
        ensures there { HasLayers (tree_of self.old.document) (layer_list (tree_of self.old.document)) }
    {
        note_types(&self.document);
        let Command::SetRange(_, min, max) = command else {
            unreachable!()
        };
        let places = self.marks.places(&self.document, command);
        if let Some(fault) = edit_fault(&self.document, places, command) {
            return Answer::Refused(refusal_of(fault));
        }
        let Some(place) = places.layer else {
            unreachable!()
        };
        documents_have_distinct_members(&layers_of(&self.document)[place]);
        self.ranges.have_zooms();
        self.ranges.set(place, *min, *max);
        Answer::Done
    }

    /// Sets all ranges in the document that are still to be set. Takes the time of as many edits, and of a look at each
    /// slot between the first range and the last.
    pub(crate) fn settle(&mut self) -> Result<(), AllocError>
        requires ready { IsReady self.old }
        requires slots { HasSlots self.old }
        ensures same { OnOk result (RepresentsSame self.old self.new) }
        ensures none { OnOk result (NonePending self.new.ranges) }
        ensures slots { OnOk result (HasSlots self.new) }
        ensures there { OnOk result (HasLayers (tree_of self.new.document) (layer_list (tree_of self.new.document))) }
        ensures tiles { tiles_of self.new ≡ tiles_of self.old }
    {
        let (start, end) = self.ranges.bounds();
        for place in start..end {
            if let Some((min, max)) = self.ranges.take(place) {
                self.settle_at(place, min, max)?;
            }
        }
        note_types(&self.document);
        Ok(())
    }

    // Sets the range of the layer at a place in the document.
    fn settle_at(
        &mut self,
        place: usize,
        min: Option<Fixed>,
        max: Option<Fixed>,
    ) -> Result<(), AllocError>
        requires ready { IsReady self.old }
        requires within { place < length (layer_list (tree_of self.old.document)) }
        requires zooms { IsZoomRange (Some (min, max)) }
        ensures settles { OnOk result
            (SettlesAt place (min, max) (tree_of self.old.document) (tree_of self.new.document)) }
        ensures settled { OnOk result (HasSettled self.old self.new) }
        ensures ranges { self.new.ranges ≡ self.old.ranges }
        ensures tiles { tiles_of self.new ≡ tiles_of self.old }
    {
        note_types(&self.document);
        let Some(id) = text_id(&layers_of(&self.document)[place]) else {
            unreachable!()
        };
        let command = Command::SetRange(id.share()?, min, max);
        let places = EditPlaces {
            layer: Some(place),
            before: None,
            same: None,
        };
        let _done = self.edit_sound(&command, places)?;
        Ok(())
    }

    /// Makes the ranges ready for a command that sets none: where it needs the document they are set in it, and there
    /// is a slot for a layer that it adds. What they follow it by.
    pub(crate) fn before_ranges(&mut self, command: &Command) -> Result<BeforeRanges, AllocError>
        requires ready { IsReady self.old }
        requires slots { HasSlots self.old }
        requires memory { lacks_memory self.old ≡ false }
        ensures same { OnOk result (RepresentsSame self.old self.new) }
        ensures none { OnOk result (lets_ranges_be (command_seen command.now) ≡ false → NonePending self.new.ranges) }
        ensures slots { OnOk result (length self.new.ranges
            ≡ slots_for (command_seen command.now) (length (layer_list (tree_of self.new.document)))) }
        ensures before { IfOk result
            (λ before. IsBeforeRanges (tree_of self.new.document) (command_seen command.now) before) }
        ensures distinct { OnOk result (HasDistinctMembers (tree_of self.new.document)) }
        ensures zooms { AreZoomRanges self.new.ranges }
        ensures tiles { tiles_of self.new ≡ tiles_of self.old }
        ensures lacks { lacks_memory self.new ≡ is_err result }
        ensures memory { lets_ranges_be (command_seen command.now) ≡ true → IsOk result }
    {
        let made = self.make_ready(command);
        self.lacks_memory = made.is_err();
        self.ranges.have_zooms();
        made?;
        note_types(&self.document);
        Ok(BeforeRanges {
            places: self.marks.places(&self.document, command),
            count: layers_of(&self.document).len(),
        })
    }

    fn make_ready(&mut self, command: &Command) -> Result<(), AllocError>
        requires ready { IsReady self.old }
        requires slots { HasSlots self.old }
        ensures same { OnOk result (RepresentsSame self.old self.new) }
        ensures none { OnOk result (lets_ranges_be (command_seen command.now) ≡ false → NonePending self.new.ranges) }
        ensures slots { OnOk result (length self.new.ranges
            ≡ slots_for (command_seen command.now) (length (layer_list (tree_of self.new.document)))) }
        ensures tiles { tiles_of self.new ≡ tiles_of self.old }
        ensures memory { lets_ranges_be (command_seen command.now) ≡ true → IsOk result }
    {
        if lets_ranges_be(command) {
            return Ok(());
        }
        self.settle()?;
        if let Command::AddLayer(_, _) = command {
            self.add_slot()?;
        }
        Ok(())
    }

    // One slot more, where no range is to be set.
    fn add_slot(&mut self) -> Result<(), AllocError>
        requires slots { HasSlots self.old }
        requires none { NonePending self.old.ranges }
        ensures others { self.new ≡ record self.old { ranges = self.new.ranges } }
        ensures slots { OnOk result (length self.new.ranges ≡ length self.old.ranges + 1) }
        ensures none { OnOk result (NonePending self.new.ranges) }
    {
        let count = layers_of(&self.document).len();
        self.ranges.insert(count)
    }

    /// The ranges follow a command that sets none and that was answered so.
    pub(crate) fn follow_ranges(
        &mut self,
        answer: &Answer,
        command: &Command,
        before: &BeforeRanges,
    )
        requires ready { IsReady self.old }
        requires slots { length self.old.ranges ≡ slots_for (command_seen command.now) before.now.count }
        requires layer { IfSome before.now.places.layer (λ i. i < before.now.count) }
        requires before { IfSome before.now.places.before (λ i. i < before.now.count) }
        ensures others { self.new ≡ record self.old { ranges = self.new.ranges } }
        ensures ranges { self.new.ranges ≡ slots_after before.now.places before.now.count (command_seen command.now)
            (is_done (reply_seen answer.now)) self.old.ranges }
        ensures there { HasLayers (tree_of self.old.document) (layer_list (tree_of self.old.document)) }
    {
        note_types(&self.document);
        match command {
            Command::AddLayer(_, _) => {
                if !is_done(answer) {
                    self.ranges.remove(before.count);
                }
            }
            Command::RemoveLayer(_) => {
                if is_done(answer) {
                    self.remove_slot(before.places.layer);
                }
            }
            Command::MoveLayer(_, _) => {
                if is_done(answer) {
                    self.move_slot(before);
                }
            }
            _ => {}
        }
    }

    // The slot of a layer that went goes.
    fn remove_slot(&mut self, place: Option<usize>)
        requires { IfSome place (λ i. i < length self.old.ranges) }
        ensures others { self.new ≡ record self.old { ranges = self.new.ranges } }
        ensures ranges { self.new.ranges ≡ removed_slot place self.old.ranges }
    {
        if let Some(place) = place {
            self.ranges.remove(place);
        }
    }

    // The slot of a layer that moved moves along.
    fn move_slot(&mut self, before: &BeforeRanges)
        requires slots { length self.old.ranges ≡ before.now.count }
        requires layer { IfSome before.now.places.layer (λ i. i < before.now.count) }
        requires before { IfSome before.now.places.before (λ i. i < before.now.count) }
        ensures others { self.new ≡ record self.old { ranges = self.new.ranges } }
        ensures ranges { self.new.ranges
            ≡ moved_slot before.now.places.layer before.now.places.before before.now.count self.old.ranges }
    {
        let Some(from) = before.places.layer else {
            return;
        };
        if before.places.before == Some(from) {
            return;
        }
        let to = place_moved_to(from, before.places.before, before.count);
        self.ranges.move_slot(from, to);
    }
}
