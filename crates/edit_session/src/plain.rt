//! The calls of a session without a look at the ranges that are still to be set: they answer by its document as it is.

ghost use Rattle.std.specs.Prelude.{◌≡◌, ◌≤◌, ◌+◌, ℕ, List, Bool, map, false, true, is_err, IfOk, IsErr, IsOk, OnErr};
ghost use Rattle.std.specs.Prelude.{OnOk};
ghost use Rattle.edit_script.specs.Edit as edits;
ghost use Rattle.edit_script.specs.View.{command_seen};
ghost use Rattle.edit_session.specs.Answering.{spares_memory, through, with_own};
ghost use Rattle.edit_session.specs.Applied.{applied, is_of_view, least_steps, listing_of, most_steps};
ghost use Rattle.edit_session.specs.Applied.{tell_count_after};
ghost use Rattle.edit_session.specs.OpenViews.{fresh_view, in_each};
ghost use Rattle.edit_session.specs.PlainView.{plain_state, plain_state_in, ArePlainSoundViews, IsPlainSound};
ghost use Rattle.edit_session.specs.PlainView.{IsPlainSoundView, IsPlainUsable};
ghost use Rattle.edit_session.specs.SessionState.{opened};
ghost use Rattle.edit_session.specs.Setting.{NonePending};
ghost use Rattle.edit_session.specs.View.{HasSlots, IsWholeDocument, reply_seen, tiles_of, view_seen, lacks_memory};
ghost use Rattle.host_ops.specs.Change.{IsSameTest};
ghost use Rattle.decimal_json.specs.View.{tree_of};
ghost use Rattle.style_edits.specs.Layers.{layer_list};
ghost use Rattle.style_edits.specs.Taking.{HasLayers};
ghost use Rattle.style_layout.specs.CodeView.{tile_seen};
ghost use Rattle.style_layout.specs.Globals.{globals_of};
ghost use Rattle.text_pieces.specs.Pieces.{WritesText};

use crate::answer::Answer;
use crate::commands::is_done;
use crate::following::shown_style;
use crate::layer_marks::LayerMarks;
use crate::opening::OpenedLayers;
use crate::session::Session;
use crate::view::View;
use crate::whole::note_types;
use decimal_json::{Json, Text};
use edit_script::Command;
use feature_index::FeatureIndexes;
use feature_states::States;
use fixed_num::Fixed;
use halts::Halt;
use host_ops::HostOp;
use kept_layers::KeptLayers;
use outside_io::{Sink, SinkFailed, Steps};
use pending_ranges::PendingRanges;
use std::alloc::{AllocError, Global};
use std::mem;
use std::sync::ledger::Ledger;
use style_layout::{HostTests, Scene, SourceTile, Zoom};
use style_parts::layers_of;
use text_pieces::TextPieces;

impl<'a> Session<'a> {
    /// A session over a style whose layers are prepared by the values that the global state has at first.
    pub(crate) fn over(
        alloc: Global,
        style: Json,
        tiles: Vec<SourceTile<'a>>,
        zoom: Fixed,
        first: OpenedLayers,
    ) -> Result<Session<'a>, AllocError>
        requires whole { IsWholeDocument (map tile_seen tiles.items) first.globals (tree_of style) first.layers }
        requires globals { first.globals ≡ globals_of (tree_of style) }
        ensures opened { (has_image : List ℕ → Bool) → IfOk result (λ session. plain_state session has_image
            ≡ opened first.layers.limit (tree_of style) zoom has_image) }
        ensures tiles { IfOk result (λ session. tiles_of session ≡ map tile_seen tiles.entry.items) }
        ensures sound { (has_image scripts : List ℕ → Bool)
            → IfOk result (λ session. IsPlainSound session has_image scripts) }
        ensures none { IfOk result (λ session. NonePending session.ranges) }
        ensures slots { IfOk result HasSlots }
        ensures there { IfOk result
            (λ session. HasLayers (tree_of session.document) (layer_list (tree_of session.document))) }
        ensures memory { IfOk result (λ session. lacks_memory session ≡ false) }
    {
        note_types(&style);
        let marks = LayerMarks::of(alloc, &style)?;
        let ranges = PendingRanges::of(alloc, layers_of(&style).len())?;
        let shown = shown_style(&style, &first.layers, &first.globals, tiles.as_slice());
        let kept = KeptLayers::of(alloc, &shown)?;
        let zoom = Zoom::new(zoom);
        let states = States::new(alloc);
        Ok(Session {
            alloc,
            document: style,
            ranges,
            tiles,
            zoom,
            states,
            globals: first.globals,
            layers: first.layers,
            marks,
            indexes: FeatureIndexes::new(alloc),
            kept,
            last: 0,
            lacks_memory: false,
        })
    }

    /// `apply` of a session in whose document no range is still to be set, or of a command that lets them be.
    pub(crate) fn apply_plain<L: Ledger>(
        &mut self,
        command: &Command,
        images: &mut dyn HostOp,
        scripts: &dyn HostOp,
        steps: &mut Steps<L>,
    ) -> Result<Answer, AllocError>
        requires { IsPlainSound self.old (test images.old) (test scripts.now) }
        ensures answer { IfOk result (λ answer. (plain_state self.new (test images.new), reply_seen answer)
            ≡ applied (tiles_of self.old) (test scripts.now) (changes images.old)
            (plain_state self.old (test images.old))
            (command_seen command.now)) }
        ensures tiles { tiles_of self.new ≡ tiles_of self.old }
        ensures ranges { self.new.ranges ≡ self.old.ranges }
        ensures changes { changes images.new ≡ changes images.old }
        ensures count { lacks_memory self.old ≡ false → tell_count images.new
            ≡ tell_count_after (changes images.old) (command_seen command.now) (tell_count images.old) }
        ensures silent { lacks_memory self.old ≡ true → tell_count images.new ≡ tell_count images.old }
        ensures lent { OnErr result (IsSameTest (test images.old) (test images.new)) }
        ensures sound { IsPlainSound self.new (test images.new) (test scripts.now) }
        ensures lacks { lacks_memory self.new ≡ is_err result }
        ensures memory { lacks_memory self.old ≡ true → IsErr result }
        ensures spare { lacks_memory self.old ≡ false → spares_memory (command_seen command.now) ≡ true → IsOk result }
        ensures least { OnOk result (steps.old + least_steps (tiles_of self.old) (test scripts.now)
            (plain_state self.old (test images.old)) (command_seen command.now) ≤ steps.new) }
        ensures most { steps.new ≤ steps.old + most_steps (tiles_of self.old) (test scripts.now)
            (plain_state self.old (test images.old)) (command_seen command.now) }
    {
        if self.lacks_memory {
            return Err(AllocError);
        }
        let answer = self.answer(command, images, scripts, steps);
        self.lacks_memory = answer.is_err();
        answer
    }

    /// `write_listing` of a session in whose document no range is still to be set.
    pub(crate) fn write_listing_plain<O: Sink, L: Ledger>(
        self,
        images: &dyn HostOp,
        scripts: &dyn HostOp,
        out: &mut O,
        steps: &mut Steps<L>,
    ) -> Result<(), Halt<SinkFailed>>
        requires { IsPlainSound self (test images.now) (test scripts.now) }
        ensures text { WritesText O.held O.faults result out.old out.new
            (listing_of (tiles_of self.entry) (test scripts.now)
            (plain_state self.entry (test images.now))) }
        ensures memory { lacks_memory self.entry ≡ true → IsErr result }
        ensures least { OnOk result (steps.old + least_steps (tiles_of self.entry) (test scripts.now)
            (plain_state self.entry (test images.now)) edits.list ≤ steps.new) }
        ensures most { steps.new ≤ steps.old + most_steps (tiles_of self.entry) (test scripts.now)
            (plain_state self.entry (test images.now)) edits.list }
    {
        if self.lacks_memory {
            return Err(Halt::NoMemory);
        }
        let Session {
            alloc,
            document,
            tiles,
            zoom,
            states,
            globals,
            layers,
            kept,
            ..
        } = self;
        let mut kept = kept;
        let style = shown_style(&document, &layers, &globals, tiles.as_slice());
        let scene = Scene {
            zoom,
            states: &states,
            tests: HostTests { images, scripts },
        };
        let mut pieces = TextPieces {
            text: Vec::new(alloc),
            out,
        };
        let listed = kept.list_last(alloc, &style, &scene, steps, &mut pieces);
        let TextPieces {
            text: _text,
            out: _out,
        } = pieces;
        listed?;
        Ok(())
    }

    /// `open_view`, by the document as it is.
    pub(crate) fn open_view_plain(&self, name: Text, zoom: Fixed) -> Result<View, AllocError>
        requires { IsPlainUsable self.now }
        ensures view { (has_image : List ℕ → Bool) → IfOk result (λ view. view_seen view
            ≡ fresh_view (plain_state self.now has_image) name zoom) }
        ensures sound { (has_image scripts : List ℕ → Bool)
            → IfOk result (IsPlainSoundView self.now has_image scripts) }
        ensures memory { lacks_memory self.now ≡ true → IsErr result }
    {
        if self.lacks_memory {
            return Err(AllocError);
        }
        let style = shown_style(
            &self.document,
            &self.layers,
            &self.globals,
            self.tiles.as_slice(),
        );
        let kept = KeptLayers::of(self.alloc, &style)?;
        let zoom = Zoom::new(zoom);
        let states = States::new(self.alloc);
        Ok(View {
            name,
            zoom,
            states,
            kept,
            last: 0,
        })
    }

    /// `apply_in`, as `apply_plain`.
    pub(crate) fn apply_in_plain<L: Ledger>(
        &mut self,
        view: &mut View,
        command: &Command,
        images: &mut dyn HostOp,
        scripts: &dyn HostOp,
        steps: &mut Steps<L>,
    ) -> Result<Answer, AllocError>
        requires session { IsPlainSound self.old (test images.old) (test scripts.now) }
        requires view { IsPlainSoundView self.old (test images.old) (test scripts.now) view.old }
        requires command { is_of_view (command_seen command.now) ≡ true }
        ensures answer { IfOk result (λ answer. (plain_state_in self.new view.new (test images.new), reply_seen answer)
            ≡ applied (tiles_of self.old) (test scripts.now) (changes images.old)
            (plain_state_in self.old view.old (test images.old))
            (command_seen command.now)) }
        ensures own { OnOk result (plain_state self.new (test images.new) ≡ plain_state self.old (test images.old)) }
        ensures name { view.new.name ≡ view.old.name }
        ensures tiles { tiles_of self.new ≡ tiles_of self.old }
        ensures ranges { self.new.ranges ≡ self.old.ranges }
        ensures changes { changes images.new ≡ changes images.old }
        ensures count { lacks_memory self.old ≡ false → tell_count images.new
            ≡ tell_count_after (changes images.old) (command_seen command.now) (tell_count images.old) }
        ensures silent { lacks_memory self.old ≡ true → tell_count images.new ≡ tell_count images.old }
        ensures lent { OnErr result (IsSameTest (test images.old) (test images.new)) }
        ensures sound { IsPlainSound self.new (test images.new) (test scripts.now) }
        ensures sound_view { IsPlainSoundView self.new (test images.new) (test scripts.now) view.new }
        ensures lacks { lacks_memory self.new ≡ is_err result }
        ensures memory { lacks_memory self.old ≡ true → IsErr result }
        ensures spare { lacks_memory self.old ≡ false → spares_memory (command_seen command.now) ≡ true → IsOk result }
        ensures least { OnOk result (steps.old + least_steps (tiles_of self.old) (test scripts.now)
            (plain_state_in self.old view.old (test images.old)) (command_seen command.now) ≤ steps.new) }
        ensures most { steps.new ≤ steps.old + most_steps (tiles_of self.old) (test scripts.now)
            (plain_state_in self.old view.old (test images.old)) (command_seen command.now) }
    {
        self.exchange(view);
        let answer = self.apply_plain(command, images, scripts, steps);
        self.exchange(view);
        answer
    }

    // What is of the session's own view for what is of another.
    fn exchange(&mut self, view: &mut View)
        ensures session { self.new ≡ through self.old view.old }
        ensures view { view.new ≡ with_own view.old self.old }
    {
        mem::swap(&mut self.zoom, &mut view.zoom);
        mem::swap(&mut self.states, &mut view.states);
        mem::swap(&mut self.kept, &mut view.kept);
        mem::swap(&mut self.last, &mut view.last);
    }

    /// `apply_to_all`, as `apply_plain`.
    pub(crate) fn apply_to_all_plain<L: Ledger>(
        &mut self,
        views: &mut [View],
        command: &Command,
        images: &mut dyn HostOp,
        scripts: &dyn HostOp,
        steps: &mut Steps<L>,
    ) -> Result<Answer, AllocError>
        requires session { IsPlainSound self.old (test images.old) (test scripts.now) }
        requires views { ArePlainSoundViews self.old (test images.old) (test scripts.now) views.old }
        requires command { is_of_view (command_seen command.now) ≡ false }
        ensures answer { IfOk result (λ answer. (plain_state self.new (test images.new), reply_seen answer)
            ≡ applied (tiles_of self.old) (test scripts.now) (changes images.old)
            (plain_state self.old (test images.old))
            (command_seen command.now)) }
        ensures views { OnOk result (map view_seen views.new ≡ in_each (tiles_of self.old) (test scripts.now)
            (changes images.old) (plain_state self.old (test images.old)) (command_seen command.now)
            (map view_seen views.old)) }
        ensures tiles { tiles_of self.new ≡ tiles_of self.old }
        ensures ranges { self.new.ranges ≡ self.old.ranges }
        ensures changes { changes images.new ≡ changes images.old }
        ensures count { lacks_memory self.old ≡ false → tell_count images.new
            ≡ tell_count_after (changes images.old) (command_seen command.now) (tell_count images.old) }
        ensures silent { lacks_memory self.old ≡ true → tell_count images.new ≡ tell_count images.old }
        ensures lent { OnErr result (IsSameTest (test images.old) (test images.new)) }
        ensures sound { IsPlainSound self.new (test images.new) (test scripts.now) }
        ensures sound_views { ArePlainSoundViews self.new (test images.new) (test scripts.now) views.new }
        ensures lacks { lacks_memory self.new ≡ is_err result }
        ensures memory { lacks_memory self.old ≡ true → IsErr result }
        ensures spare { lacks_memory self.old ≡ false → spares_memory (command_seen command.now) ≡ true → IsOk result }
        ensures least { OnOk result (steps.old ≤ steps.new) }
        ensures most { steps.new ≤ steps.old }
    {
        if self.lacks_memory {
            return Err(AllocError);
        }
        let before = self.before(command);
        let answer = self.apply_plain(command, images, scripts, steps)?;
        if is_done(&answer) {
            let lacks = self.follow_in_all(views, command, &before).is_err();
            self.lacks_memory = lacks;
            if lacks {
                return Err(AllocError);
            }
            return Ok(answer);
        }
        Ok(answer)
    }
}
