//! The answer to a command: what it changes, and then what is kept follows it.

ghost use Rattle.std.specs.Prelude.{◌≡◌, ◌≤◌, ◌+◌, ℕ, List, Bool, false, true, IfOk, IsOk, OnOk, OnErr};
ghost use Rattle.decimal_json.specs.View.{tree_of};
ghost use Rattle.edit_script.specs.Edit as edits;
ghost use Rattle.edit_script.specs.View.{command_seen};
ghost use Rattle.edit_session.specs.Answering.{AreAccepted, AreOfAccepted, FollowsEdit, IsAccepted, IsFollowed};
ghost use Rattle.edit_session.specs.Answering.{IsOfAccepted, is_done, is_list, spares_memory};
ghost use Rattle.edit_session.specs.Applied.{applied, least_steps, most_steps, tell_count_after, tells_image};
ghost use Rattle.edit_session.specs.SessionState.{SessionState};
ghost use Rattle.edit_session.specs.View.{IsKept, IsReady, reply_seen, tiles_of};
ghost use Rattle.edit_session.specs.PlainView.{plain_state};
ghost use Rattle.feature_index.specs.Indexes.{AreIndexed};
ghost use Rattle.host_ops.specs.Change.{IsSameTest};
ghost use Rattle.kept_layers.specs.Holding.{Pairwise};
ghost use Rattle.style_edits.specs.Layers.{layer_list};
ghost use Rattle.style_edits.specs.Places.{places_of};
ghost use Rattle.style_edits.specs.Taking.{HasLayers};

use crate::answer::Answer;
use crate::commands::is_done;
use crate::following::{BeforeEdit, follow_command, shown_style};
use crate::session::Session;
use crate::view::View;
use crate::whole::note_types;
use edit_script::Command;
use feature_index::FeatureIndexes;
use host_ops::HostOp;
use outside_io::Steps;
use std::alloc::AllocError;
use std::sync::ledger::Ledger;
use style_layout::{HostTests, Scene};

impl Session<'_> {
    /// The answer to a command, of a session that has memory.
    pub(crate) fn answer<L: Ledger>(
        &mut self,
        command: &Command,
        images: &mut dyn HostOp,
        scripts: &dyn HostOp,
        steps: &mut Steps<L>,
    ) -> Result<Answer, AllocError>
        requires ready { IsReady self.old }
        requires kept { IsKept (tiles_of self.old) (test scripts.now) (plain_state self.old (test images.old))
            self.old.kept }
        ensures answer { IfOk result (λ answer. (plain_state self.new (test images.new), reply_seen answer)
            ≡ applied (tiles_of self.old) (test scripts.now) (changes images.old)
            (plain_state self.old (test images.old))
            (command_seen command.now)) }
        ensures tiles { tiles_of self.new ≡ tiles_of self.old }
        ensures ranges { self.new.ranges ≡ self.old.ranges }
        ensures changes { changes images.new ≡ changes images.old }
        ensures count { tell_count images.new
            ≡ tell_count_after (changes images.old) (command_seen command.now) (tell_count images.old) }
        ensures lent { OnErr result (IsSameTest (test images.old) (test images.new)) }
        ensures ready { OnOk result (IsReady self.new) }
        ensures kept { OnOk result (IsKept (tiles_of self.new) (test scripts.now)
            (plain_state self.new (test images.new)) self.new.kept) }
        ensures least { OnOk result (steps.old + least_steps (tiles_of self.old) (test scripts.now)
            (plain_state self.old (test images.old)) (command_seen command.now) ≤ steps.new) }
        ensures most { steps.new ≤ steps.old + most_steps (tiles_of self.old) (test scripts.now)
            (plain_state self.old (test images.old)) (command_seen command.now) }
        ensures memory { spares_memory (command_seen command.now) ≡ true → IsOk result }
    {
        match command {
            Command::List => self.answer_list(images, scripts, steps),
            _ => self.answer_edit(command, images),
        }
    }

    // The answer to `list`.
    fn answer_list<L: Ledger>(
        &mut self,
        images: &dyn HostOp,
        scripts: &dyn HostOp,
        steps: &mut Steps<L>,
    ) -> Result<Answer, AllocError>
        requires ready { IsReady self.old }
        requires kept { IsKept (tiles_of self.old) (test scripts.now) (plain_state self.old (test images.now))
            self.old.kept }
        ensures answer { (can_change : Bool)
            → IfOk result (λ answer. (plain_state self.new (test images.now), reply_seen answer)
            ≡ applied (tiles_of self.old) (test scripts.now) can_change (plain_state self.old (test images.now))
            edits.list) }
        ensures tiles { tiles_of self.new ≡ tiles_of self.old }
        ensures ranges { self.new.ranges ≡ self.old.ranges }
        ensures ready { IsReady self.new }
        ensures kept { OnOk result (IsKept (tiles_of self.new) (test scripts.now)
            (plain_state self.new (test images.now)) self.new.kept) }
        ensures least { OnOk result (steps.old + least_steps (tiles_of self.old) (test scripts.now)
            (plain_state self.old (test images.now)) edits.list ≤ steps.new) }
        ensures most { steps.new ≤ steps.old + most_steps (tiles_of self.old) (test scripts.now)
            (plain_state self.old (test images.now)) edits.list }
    {
        let mut out = Vec::new(self.alloc);
        let style = shown_style(
            &self.document,
            &self.layers,
            &self.globals,
            self.tiles.as_slice(),
        );
        let scene = Scene {
            zoom: self.zoom,
            states: &self.states,
            tests: HostTests { images, scripts },
        };
        let number = self.kept.list(self.alloc, &style, &scene, steps, &mut out)?;
        self.last = number;
        Ok(Answer::Listing(out))
    }

    // The answer to any other command: what it changes, and then what is kept follows it.
    fn answer_edit(
        &mut self,
        command: &Command,
        images: &mut dyn HostOp,
    ) -> Result<Answer, AllocError>
        requires ready { IsReady self.old }
        requires kept { (scripts : List ℕ → Bool) × IsKept (tiles_of self.old) scripts
            (plain_state self.old (test images.old)) self.old.kept }
        requires edit { is_list (command_seen command.now) ≡ false }
        ensures answer { (scripts : List ℕ → Bool)
            → IfOk result (λ answer. (plain_state self.new (test images.new), reply_seen answer)
            ≡ applied (tiles_of self.old) scripts (changes images.old) (plain_state self.old (test images.old))
            (command_seen command.now)) }
        ensures tiles { tiles_of self.new ≡ tiles_of self.old }
        ensures ranges { self.new.ranges ≡ self.old.ranges }
        ensures changes { changes images.new ≡ changes images.old }
        ensures count { tell_count images.new
            ≡ tell_count_after (changes images.old) (command_seen command.now) (tell_count images.old) }
        ensures lent { OnErr result (IsSameTest (test images.old) (test images.new)) }
        ensures ready { OnOk result (IsReady self.new) }
        ensures kept { (scripts : List ℕ → Bool)
            → IsKept (tiles_of self.old) scripts (plain_state self.old (test images.old)) self.old.kept
            → OnOk result (IsKept (tiles_of self.new) scripts (plain_state self.new (test images.new)) self.new.kept) }
        ensures memory { spares_memory (command_seen command.now) ≡ true → IsOk result }
    {
        let before = self.before(command);
        let answer = self.changed(command, before.places, images)?;
        if is_done(&answer) {
            self.follow(command, &before)?;
            return Ok(answer);
        }
        Ok(answer)
    }

    /// The places and the zoom before a command, for what follows it.
    pub(crate) fn before(&self, command: &Command) -> BeforeEdit
        requires { IsReady self.now }
        ensures places { result.places ≡ places_of (tree_of self.now.document) (command_seen command.now) }
        ensures zoom { result.zoom ≡ self.now.zoom }
        ensures there { HasLayers (tree_of self.now.document) (layer_list (tree_of self.now.document)) }
    {
        note_types(&self.document);
        BeforeEdit {
            places: self.marks.places(&self.document, command),
            zoom: self.zoom,
        }
    }

    // What is kept follows an edit that was done.
    fn follow(&mut self, command: &Command, before: &BeforeEdit) -> Result<(), AllocError>
        requires ready { IsReady self.old }
        requires accepted { IsOfAccepted (tiles_of self.old) self.old.globals (layer_list (tree_of self.old.document))
            (command_seen command.now) before.now self.old.kept }
        ensures others { self.new ≡ record self.old { indexes = self.new.indexes; kept = self.new.kept } }
        ensures indexed { AreIndexed (tiles_of self.old) self.new.indexes }
        ensures followed { (scripts : List ℕ → Bool) (p : SessionState)
            → IsAccepted (tiles_of self.old) self.old.globals (layer_list (tree_of self.old.document))
            scripts p (command_seen command.now) before.now self.old.kept
            → OnOk result (FollowsEdit (tiles_of self.old) scripts p (command_seen command.now) self.new.kept) }
        ensures images { OnErr result (tells_image (command_seen command.now) ≡ false) }
        ensures memory { spares_memory (command_seen command.now) ≡ true → IsOk result }
    {
        let style = shown_style(
            &self.document,
            &self.layers,
            &self.globals,
            self.tiles.as_slice(),
        );
        follow_command(
            self.alloc,
            &mut self.kept,
            command,
            before,
            &mut self.indexes,
            &style,
        )
    }

    /// What is kept of each of several views follows a command that was done. It is one of the style, for which no
    /// feature is looked for.
    pub(crate) fn follow_in_all(
        &self,
        views: &mut [View],
        command: &Command,
        before: &BeforeEdit,
    ) -> Result<(), AllocError>
        requires ready { IsReady self.now }
        requires accepted { AreOfAccepted (tiles_of self.now) self.now.globals (layer_list (tree_of self.now.document))
            (command_seen command.now) before.now views.old }
        ensures followed { (scripts : List ℕ → Bool) (p : SessionState)
            → AreAccepted (tiles_of self.now) self.now.globals (layer_list (tree_of self.now.document))
            scripts p (command_seen command.now) before.now views.old
            → OnOk result (Pairwise (IsFollowed (tiles_of self.now) scripts p (command_seen command.now))
            views.old views.new) }
        ensures images { OnErr result (tells_image (command_seen command.now) ≡ false) }
        ensures memory { spares_memory (command_seen command.now) ≡ true → IsOk result }
    {
        let style = shown_style(
            &self.document,
            &self.layers,
            &self.globals,
            self.tiles.as_slice(),
        );
        let mut indexes = FeatureIndexes::new(self.alloc);
        for view in views.iter_mut() {
            follow_command(
                self.alloc,
                &mut view.kept,
                command,
                before,
                &mut indexes,
                &style,
            )?;
        }
        Ok(())
    }
}
