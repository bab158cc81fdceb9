//! What each command changes of a session.

ghost use Rattle.std.specs.Prelude.{◌≡◌, ℕ, List, [], Bool, None, false, true, option_map, IfOk, IsOk, OnOk, OnErr};
ghost use Rattle.decimal_json.specs.JsonText.{json_text};
ghost use Rattle.decimal_json.specs.View.{tree_of};
ghost use Rattle.edit_script.specs.Edit as edits;
ghost use Rattle.edit_script.specs.View.{command_seen};
ghost use Rattle.edit_session.specs.Answering.{IsAnswer, is_done, is_list, told, spares_memory};
ghost use Rattle.edit_session.specs.Applied.{edits_layers, refusal_of, styled, tell_count_after};
ghost use Rattle.edit_session.specs.View.{IsReady, reply_seen, tiles_of};
ghost use Rattle.edit_session.specs.PlainView.{plain_state};
ghost use Rattle.host_ops.specs.Change.{IsSameTest, count_after};
ghost use Rattle.prop_values.specs.Data.{pairs_of};
ghost use Rattle.prop_values.specs.View.{data_of};
ghost use Rattle.style_edits.specs.Edited.{edited};
ghost use Rattle.style_edits.specs.Faults.{edit_fault};
ghost use Rattle.style_edits.specs.Needs.{takes_memory};
ghost use Rattle.style_edits.specs.Places.{places_of};
ghost use Rattle.style_rules.specs.Findings.{findings};

use crate::answer::{Answer, Refusal};
use crate::globals::set_global;
use crate::session::Session;
use crate::whole::{finding_refusal, note_types};
use decimal_json::{Text, write};
use edit_script::Command;
use host_ops::{HostOp, TellFault};
use prop_values::{Entries, Value, copy_entries};
use std::alloc::{AllocError, Global};
use style_edits::{EditFault, EditPlaces, edit_at, edit_fault, undo_edit};
use style_layout::{Zoom, prepare};
use style_parts::layers_of;

impl Session<'_> {
    /// What a command changes of the style, the zoom and the states, and its answer.
    #[tactic(auto, using(crate::proofs::AppliedLaws::fault_tells_nothing))]
    pub(crate) fn changed(
        &mut self,
        command: &Command,
        places: EditPlaces,
        images: &mut dyn HostOp,
    ) -> Result<Answer, AllocError>
        requires ready { IsReady self.old }
        requires edit { is_list (command_seen command.now) ≡ false }
        requires places { places ≡ places_of (tree_of self.old.document) (command_seen command.now) }
        ensures answer { (scripts : List ℕ → Bool)
            → IfOk result (IsAnswer (tiles_of self.old) scripts (changes images.old)
            (plain_state self.old (test images.old)) (plain_state self.new (test images.new))
            (command_seen command.now)) }
        ensures tiles { tiles_of self.new ≡ tiles_of self.old }
        ensures ranges { self.new.ranges ≡ self.old.ranges }
        ensures changes { changes images.new ≡ changes images.old }
        ensures count { tell_count images.new
            ≡ tell_count_after (changes images.old) (command_seen command.now) (tell_count images.old) }
        ensures lent { OnErr result (IsSameTest (test images.old) (test images.new)) }
        ensures ready { OnOk result (IsReady self.new) }
        ensures kept { self.new.kept ≡ self.old.kept }
        ensures last { self.new.last ≡ self.old.last }
        ensures memory { spares_memory (command_seen command.now) ≡ true → IsOk result }
    {
        match edit_fault(&self.document, places, command) {
            Some(fault) => Ok(Answer::Refused(refusal_of(fault))),
            None => self.answer_possible(command, places, images),
        }
    }

    // The answer to a command without fault.
    #[tactic(auto, using(crate::proofs::AppliedLaws::layers_tell_nothing, crate::proofs::AppliedLaws::none_taken))]
    fn answer_possible(
        &mut self,
        command: &Command,
        places: EditPlaces,
        images: &mut dyn HostOp,
    ) -> Result<Answer, AllocError>
        requires ready { IsReady self.old }
        requires edit { is_list (command_seen command.now) ≡ false }
        requires possible { edit_fault (tree_of self.old.document) (command_seen command.now) ≡ None }
        requires places { places ≡ places_of (tree_of self.old.document) (command_seen command.now) }
        ensures answer { (scripts : List ℕ → Bool)
            → IfOk result (IsAnswer (tiles_of self.old) scripts (changes images.old)
            (plain_state self.old (test images.old)) (plain_state self.new (test images.new))
            (command_seen command.now)) }
        ensures tiles { tiles_of self.new ≡ tiles_of self.old }
        ensures ranges { self.new.ranges ≡ self.old.ranges }
        ensures changes { changes images.new ≡ changes images.old }
        ensures count { tell_count images.new
            ≡ tell_count_after (changes images.old) (command_seen command.now) (tell_count images.old) }
        ensures lent { OnErr result (IsSameTest (test images.old) (test images.new)) }
        ensures ready { OnOk result (IsReady self.new) }
        ensures kept { self.new.kept ≡ self.old.kept }
        ensures last { self.new.last ≡ self.old.last }
        ensures memory { spares_memory (command_seen command.now) ≡ true → IsOk result }
    {
        match command {
            Command::List => unreachable!(),
            Command::Stats => Ok(Answer::Stats(self.last)),
            Command::Style => self.answer_style(),
            Command::SetZoom(zoom) => {
                self.zoom = Zoom::new(*zoom);
                Ok(Answer::Done)
            }
            Command::SetState(source, layer, id, members) => {
                self.set_state(source, layer, *id, members)
            }
            Command::RemoveState(source, layer, id, key) => {
                self.states
                    .remove(source.as_str(), layer.as_str(), *id, text_in(key));
                Ok(Answer::Done)
            }
            Command::AddImage(name) => told(self.alloc, images, name, true),
            Command::RemoveImage(name) => told(self.alloc, images, name, false),
            Command::SetGlobal(name, value) => self.set_global(name, value),
            _ => self.edit_layers(command, places),
        }
    }

    fn answer_style(&self) -> Result<Answer, AllocError>
        ensures { IfOk result (λ answer. reply_seen answer ≡ styled (json_text (tree_of self.now.document))) }
    {
        let mut text = Vec::new(self.alloc);
        write(&self.document, &mut text)?;
        Ok(Answer::Style(text))
    }

    fn set_state(
        &mut self,
        source: &Text,
        layer: &Text,
        id: u64,
        members: &Entries,
    ) -> Result<Answer, AllocError>
        requires ready { IsReady self.old }
        requires possible { edit_fault (tree_of self.old.document)
            (edits.set_state source.now layer.now id (pairs_of members.now)) ≡ None }
        ensures answer { (has_image scripts : List ℕ → Bool) (can_change : Bool)
            → IfOk result (IsAnswer (tiles_of self.old) scripts can_change (plain_state self.old has_image)
            (plain_state self.new has_image) (edits.set_state source.now layer.now id (pairs_of members.now))) }
        ensures tiles { tiles_of self.new ≡ tiles_of self.old }
        ensures ranges { self.new.ranges ≡ self.old.ranges }
        ensures ready { OnOk result (IsReady self.new) }
        ensures kept { self.new.kept ≡ self.old.kept }
        ensures last { self.new.last ≡ self.old.last }
    {
        let members = copy_entries(self.alloc, members)?;
        self.states
            .merge(source.as_str(), layer.as_str(), id, members)?;
        Ok(Answer::Done)
    }

    #[tactic(auto, using(crate::proofs::AppliedLaws::whole_with, crate::proofs::SteadyLayers::style_steady))]
    fn set_global(&mut self, name: &Text, value: &Value) -> Result<Answer, AllocError>
        requires ready { IsReady self.old }
        ensures answer { (has_image scripts : List ℕ → Bool) (can_change : Bool)
            → IfOk result (IsAnswer (tiles_of self.old) scripts can_change (plain_state self.old has_image)
            (plain_state self.new has_image) (edits.set_global name.now (data_of value.now))) }
        ensures tiles { tiles_of self.new ≡ tiles_of self.old }
        ensures ranges { self.new.ranges ≡ self.old.ranges }
        ensures ready { OnOk result (IsReady self.new) }
        ensures kept { self.new.kept ≡ self.old.kept }
        ensures last { self.new.last ≡ self.old.last }
    {
        set_global(self.alloc, &self.document, name, value, &mut self.globals)?;
        if self.layers.reads_globals {
            self.layers.style = prepare(self.alloc, &self.document, &self.globals)?;
        }
        Ok(Answer::Done)
    }

    // The answer to an edit of layers, which is refused where the edited document breaks a rule.
    fn edit_layers(&mut self, command: &Command, places: EditPlaces) -> Result<Answer, AllocError>
        requires ready { IsReady self.old }
        requires possible { edit_fault (tree_of self.old.document) (command_seen command.now) ≡ None }
        requires places { places ≡ places_of (tree_of self.old.document) (command_seen command.now) }
        requires layers { edits_layers (command_seen command.now) ≡ true }
        ensures answer { (has_image scripts : List ℕ → Bool) (can_change : Bool)
            → IfOk result (IsAnswer (tiles_of self.old) scripts can_change (plain_state self.old has_image)
            (plain_state self.new has_image) (command_seen command.now)) }
        ensures tiles { tiles_of self.new ≡ tiles_of self.old }
        ensures ranges { self.new.ranges ≡ self.old.ranges }
        ensures ready { OnOk result (IsReady self.new) }
        ensures kept { self.new.kept ≡ self.old.kept }
        ensures last { self.new.last ≡ self.old.last }
        ensures memory { takes_memory (command_seen command.now) ≡ false → IsOk result }
    {
        match finding_refusal(self.alloc, &self.document, places, command)? {
            Some(refusal) => Ok(Answer::Refused(refusal)),
            None => self.edit_sound(command, places),
        }
    }

    /// The answer where it breaks none: the edit is taken back where the document gets too many cells.
    pub(crate) fn edit_sound(
        &mut self,
        command: &Command,
        places: EditPlaces,
    ) -> Result<Answer, AllocError>
        requires possible { edit_fault (tree_of self.old.document) (command_seen command.now) ≡ None }
        requires places { places ≡ places_of (tree_of self.old.document) (command_seen command.now) }
        requires layers { edits_layers (command_seen command.now) ≡ true }
        requires sound { findings (edited (tree_of self.old.document) (command_seen command.now)) ≡ [] }
        requires ready { IsReady self.old }
        ensures answer { (has_image scripts : List ℕ → Bool) (can_change : Bool)
            → IfOk result (IsAnswer (tiles_of self.old) scripts can_change (plain_state self.old has_image)
            (plain_state self.new has_image) (command_seen command.now)) }
        ensures tiles { tiles_of self.new ≡ tiles_of self.old }
        ensures ranges { self.new.ranges ≡ self.old.ranges }
        ensures ready { OnOk result (IsReady self.new) }
        ensures kept { self.new.kept ≡ self.old.kept }
        ensures last { self.new.last ≡ self.old.last }
        ensures memory { takes_memory (command_seen command.now) ≡ false → IsOk result }
    {
        note_types(&self.document);
        let undo = edit_at(self.alloc, &mut self.document, places, command)?;
        note_types(&self.document);
        let is_done = self.layers.follow(
            self.alloc,
            &self.globals,
            layers_of(&self.document),
            &undo,
            self.tiles.as_slice(),
        )?;
        if is_done {
            self.marks.follow(layers_of(&self.document), &undo)?;
            return Ok(Answer::Done);
        }
        undo_edit(&mut self.document, undo)?;
        Ok(Answer::Refused(Refusal::CellLimit))
    }
}

/// Whether an edit was done.
pub(crate) fn is_done(answer: &Answer) -> bool
    ensures { result ≡ is_done (reply_seen answer.now) }
{
    matches!(answer, Answer::Done)
}

/// The refusal of the same name.
pub(crate) fn refusal_of(fault: EditFault) -> Refusal
    ensures { result ≡ refusal_of fault }
{
    match fault {
        EditFault::UnknownLayer => Refusal::UnknownLayer,
        EditFault::UnknownBefore => Refusal::UnknownBefore,
        EditFault::UnknownSource => Refusal::UnknownSource,
        EditFault::ZoomRange => Refusal::ZoomRange,
        EditFault::UnknownProperty => Refusal::UnknownProperty,
    }
}

fn text_in(text: &Option<Text>) -> Option<&str>
    ensures { option_map (λ found. found.now) result ≡ text.now }
{
    match text {
        Some(text) => Some(text.as_str()),
        None => None,
    }
}

// Reports to the test of images that a name is there or not.
fn told(
    alloc: Global,
    images: &mut dyn HostOp,
    name: &Text,
    present: bool,
) -> Result<Answer, AllocError>
    ensures answer { IfOk result (λ answer. (test images.new, reply_seen answer)
        ≡ told (changes images.old) name.now present (test images.old)) }
    ensures changes { changes images.new ≡ changes images.old }
    ensures count { tell_count images.new ≡ count_after (changes images.old) (tell_count images.old) }
    ensures lent { OnErr result (IsSameTest (test images.old) (test images.new)) }
{
    match images.tell(alloc, name.as_str(), present) {
        Ok(()) => Ok(Answer::Done),
        Err(TellFault::Fixed) => Ok(Answer::Refused(Refusal::FixedImages)),
        Err(TellFault::NoMemory) => Err(AllocError),
    }
}
