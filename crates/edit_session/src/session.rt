//! A session: a style over tiles, under edit.

ghost use Rattle.std.specs.Prelude.{◌≡◌, ◌≤◌, ◌+◌, ℕ, List, [], Bool, map, false, true, option_map, is_err, IfOk};
ghost use Rattle.std.specs.Prelude.{IsErr, IsOk, OnErr, OnOk};
ghost use Rattle.std.specs.Result.{result_err};
ghost use Rattle.decimal_json.specs.View.{tree_of};
ghost use Rattle.edit_script.specs.Edit as edits;
ghost use Rattle.edit_script.specs.View.{command_seen};
ghost use Rattle.edit_session.specs.Applied.{applied, is_of_view, least_steps, listing_of, most_steps, needs_no_memory};
ghost use Rattle.edit_session.specs.Applied.{tell_count_after};
ghost use Rattle.edit_session.specs.OpenViews.{fresh_view, in_each};
ghost use Rattle.edit_session.specs.Opening.{cell_limit, open_fault, tiles_fault};
ghost use Rattle.edit_session.specs.SessionState.{opened};
ghost use Rattle.edit_session.specs.View.{fault_seen, IsWholeDocument, session_state, reply_seen, state_in, tiles_of};
ghost use Rattle.edit_session.specs.View.{view_seen, lacks_memory, AreSoundViews, IsSoundSession, IsSoundView};
ghost use Rattle.edit_session.specs.View.{IsUsable};
ghost use Rattle.host_ops.specs.Change.{IsSameTest};
ghost use Rattle.style_layout.specs.CodeView.{tile_seen};
ghost use Rattle.style_layout.specs.Globals.{globals_of};
ghost use Rattle.style_rules.specs.Findings.{findings};
ghost use Rattle.text_pieces.specs.Pieces.{WritesText};

use crate::answer::Answer;
use crate::layer_marks::LayerMarks;
use crate::layers::PreparedLayers;
use crate::opening::{CELL_LIMIT, OpenFault, open_layers};
use crate::ranges::is_range;
use crate::view::View;
use crate::whole::note_types;
use decimal_json::{Json, Text};
use edit_script::Command;
use feature_index::FeatureIndexes;
use feature_states::States;
use fixed_num::Fixed;
use halts::Halt;
use host_ops::HostOp;
use kept_layers::KeptLayers;
use outside_io::{Sink, SinkFailed, Steps};
use pending_ranges::PendingRanges;
use prop_values::Entries;
use std::alloc::{AllocError, Global};
use std::sync::ledger::Ledger;
use style_layout::{SourceTile, Zoom};
use style_rules::findings;

/// A style over tiles, under edit, with the zoom, the states of features and the values of the global state by which it
/// is shown, and the cells of its layers that are kept. The tests on images and scripts are handed in to each call;
/// images change by commands alone, and scripts never. `session_state` is what a session represents, for clauses.
#[derive(Drop)]
pub struct Session<'a> {
    pub(crate) alloc: Global,
    /// The style as it is but for the ranges of zooms that are still to be set in it.
    pub(crate) document: Json,
    pub(crate) ranges: PendingRanges,
    pub(crate) tiles: Vec<SourceTile<'a>>,
    pub(crate) zoom: Zoom,
    pub(crate) states: States,
    pub(crate) globals: Entries,
    /// The layers of the document, by the values of the global state.
    pub(crate) layers: PreparedLayers,
    pub(crate) marks: LayerMarks,
    /// The features of the tiles by their ids, for all views.
    pub(crate) indexes: FeatureIndexes,
    pub(crate) kept: KeptLayers,
    /// How many cells the last listing evaluated.
    pub(crate) last: u64,
    pub(crate) lacks_memory: bool,
}

impl<'a> Session<'a> {
    /// Opens a session over a style and tiles, at a zoom, which may have as many cells as a session that is alone; or
    /// gives the fault, the first that holds. No feature has a state then, and the global state has its defaults.
    pub fn open(
        alloc: Global,
        style: Json,
        tiles: Vec<SourceTile<'a>>,
        zoom: Fixed,
    ) -> Result<Result<Session<'a>, OpenFault<'a>>, AllocError>
        ensures fault { IfOk result (λ made. option_map fault_seen (result_err made)
            ≡ open_fault cell_limit (tree_of style) (map tile_seen tiles.entry.items) zoom) }
        ensures opened { IfOk result (λ made. IfOk made (λ session. (has_image : List ℕ → Bool)
            → session_state session has_image ≡ opened cell_limit (tree_of style) zoom has_image)) }
        ensures tiles { IfOk result
            (λ made. IfOk made (λ session. tiles_of session ≡ map tile_seen tiles.entry.items)) }
        ensures sound { (has_image scripts : List ℕ → Bool)
            → IfOk result (λ made. IfOk made (λ session. IsSoundSession session has_image scripts)) }
        ensures memory { IfOk result (λ made. IfOk made (λ session. lacks_memory session ≡ false)) }
    {
        let found = findings(alloc, &style)?;
        if !found.as_slice().is_empty() {
            return Ok(Err(OpenFault::Findings));
        }
        Session::open_sound(alloc, style, tiles, zoom, CELL_LIMIT)
    }

    /// As `open`, over a style without findings, whose rules are not asked again. It may have so many cells, which are
    /// no more than those of a session that is alone.
    pub fn open_sound(
        alloc: Global,
        style: Json,
        tiles: Vec<SourceTile<'a>>,
        zoom: Fixed,
        limit: u64,
    ) -> Result<Result<Session<'a>, OpenFault<'a>>, AllocError>
        requires sound { findings (tree_of style) ≡ [] }
        requires few { limit ≤ cell_limit }
        ensures fault { IfOk result (λ made. option_map fault_seen (result_err made)
            ≡ tiles_fault limit (tree_of style) (map tile_seen tiles.entry.items) zoom) }
        ensures opened { IfOk result (λ made. IfOk made (λ session. (has_image : List ℕ → Bool)
            → session_state session has_image ≡ opened limit (tree_of style) zoom has_image)) }
        ensures tiles { IfOk result
            (λ made. IfOk made (λ session. tiles_of session ≡ map tile_seen tiles.entry.items)) }
        ensures sound { (has_image scripts : List ℕ → Bool)
            → IfOk result (λ made. IfOk made (λ session. IsSoundSession session has_image scripts)) }
        ensures memory { IfOk result (λ made. IfOk made (λ session. lacks_memory session ≡ false)) }
    {
        match open_layers(alloc, &style, tiles.as_slice(), zoom, limit)? {
            Ok(first) => Ok(Ok(Session::over(alloc, style, tiles, zoom, first)?)),
            Err(fault) => Ok(Err(fault)),
        }
    }

    /// Where memory for its calls is taken.
    pub fn alloc(&self) -> Global {
        self.alloc
    }

    /// Does what a command says, and answers. A refused command changes nothing, and neither do `stats` and `style`. A
    /// listing evaluates the cells that it asks and that are not kept, and keeps them; `steps` rises by no other
    /// command. Once allocation fails every later call answers so too. A command that puts nothing in never comes to
    /// it: `stats`, `set-zoom`, `remove-state`, `set-range`, `remove-layer`, `move-layer`. A range is set in the
    /// document before the next command that needs it.
    pub fn apply<L: Ledger>(
        &mut self,
        command: &Command,
        images: &mut dyn HostOp,
        scripts: &dyn HostOp,
        steps: &mut Steps<L>,
    ) -> Result<Answer, AllocError>
        requires { IsSoundSession self.old (test images.old) (test scripts.now) }
        ensures answer { IfOk result (λ answer. (session_state self.new (test images.new), reply_seen answer)
            ≡ applied (tiles_of self.old) (test scripts.now) (changes images.old)
            (session_state self.old (test images.old))
            (command_seen command.now)) }
        ensures tiles { tiles_of self.new ≡ tiles_of self.old }
        ensures changes { changes images.new ≡ changes images.old }
        ensures count { lacks_memory self.old ≡ false → tell_count images.new
            ≡ tell_count_after (changes images.old) (command_seen command.now) (tell_count images.old) }
        ensures silent { lacks_memory self.old ≡ true → tell_count images.new ≡ tell_count images.old }
        ensures lent { OnErr result (IsSameTest (test images.old) (test images.new)) }
        ensures sound { IsSoundSession self.new (test images.new) (test scripts.now) }
        ensures lacks { lacks_memory self.new ≡ is_err result }
        ensures memory { lacks_memory self.old ≡ true → IsErr result }
        ensures spare { lacks_memory self.old ≡ false → needs_no_memory (command_seen command.now) ≡ true
            → IsOk result }
        ensures least { OnOk result (steps.old + least_steps (tiles_of self.old) (test scripts.now)
            (session_state self.old (test images.old)) (command_seen command.now) ≤ steps.new) }
        ensures most { steps.new ≤ steps.old + most_steps (tiles_of self.old) (test scripts.now)
            (session_state self.old (test images.old)) (command_seen command.now) }
    {
        if self.lacks_memory {
            return Err(AllocError);
        }
        if is_range(command) {
            return Ok(self.set_range(command));
        }
        let before = self.before_ranges(command)?;
        let answer = self.apply_plain(command, images, scripts, steps)?;
        self.follow_ranges(&answer, command, &before);
        Ok(answer)
    }

    /// Writes the listing of a session that ends with it, piece by piece: what `apply` answers to `list`. A session
    /// that kept no cell keeps none for it. It breaks off where an allocation fails, or did in an earlier call, or
    /// where a write fails; a prefix of the listing may have been written then.
    pub fn write_listing<O: Sink, L: Ledger>(
        self,
        images: &dyn HostOp,
        scripts: &dyn HostOp,
        out: &mut O,
        steps: &mut Steps<L>,
    ) -> Result<(), Halt<SinkFailed>>
        requires { IsSoundSession self (test images.now) (test scripts.now) }
        ensures text { WritesText O.held O.faults result out.old out.new
            (listing_of (tiles_of self.entry) (test scripts.now)
            (session_state self.entry (test images.now))) }
        ensures memory { lacks_memory self.entry ≡ true → IsErr result }
        ensures least { OnOk result (steps.old + least_steps (tiles_of self.entry) (test scripts.now)
            (session_state self.entry (test images.now)) edits.list ≤ steps.new) }
        ensures most { steps.new ≤ steps.old + most_steps (tiles_of self.entry) (test scripts.now)
            (session_state self.entry (test images.now)) edits.list }
    {
        if self.lacks_memory {
            return Err(Halt::NoMemory);
        }
        let mut session = self;
        session.settle()?;
        session.write_listing_plain(images, scripts, out, steps)
    }

    // ---- several views

    /// Opens a view of the style, at a zoom, in which no feature has a state, and of which nothing is kept. Whether the
    /// zoom is from 0 to 24 is not looked at. Takes time and memory linear in the style.
    pub fn open_view(&self, name: Text, zoom: Fixed) -> Result<View, AllocError>
        requires { IsUsable self.now }
        ensures view { (has_image : List ℕ → Bool) → IfOk result (λ view. view_seen view
            ≡ fresh_view (session_state self.now has_image) name zoom) }
        ensures sound { (has_image scripts : List ℕ → Bool)
            → IfOk result (IsSoundView self.now has_image scripts) }
        ensures memory { lacks_memory self.now ≡ true → IsErr result }
    {
        if self.lacks_memory {
            return Err(AllocError);
        }
        note_types(&self.document);
        self.open_view_plain(name, zoom)
    }

    /// As `apply`, with what is of a view in the place of the session's own, which stays. The command is one of a view.
    /// What is exchanged takes constant time.
    pub fn apply_in<L: Ledger>(
        &mut self,
        view: &mut View,
        command: &Command,
        images: &mut dyn HostOp,
        scripts: &dyn HostOp,
        steps: &mut Steps<L>,
    ) -> Result<Answer, AllocError>
        requires session { IsSoundSession self.old (test images.old) (test scripts.now) }
        requires view { IsSoundView self.old (test images.old) (test scripts.now) view.old }
        requires command { is_of_view (command_seen command.now) ≡ true }
        ensures answer { IfOk result (λ answer. (state_in self.new view.new (test images.new), reply_seen answer)
            ≡ applied (tiles_of self.old) (test scripts.now) (changes images.old)
            (state_in self.old view.old (test images.old))
            (command_seen command.now)) }
        ensures own { OnOk result
            (session_state self.new (test images.new) ≡ session_state self.old (test images.old)) }
        ensures name { view.new.name ≡ view.old.name }
        ensures tiles { tiles_of self.new ≡ tiles_of self.old }
        ensures changes { changes images.new ≡ changes images.old }
        ensures count { lacks_memory self.old ≡ false → tell_count images.new
            ≡ tell_count_after (changes images.old) (command_seen command.now) (tell_count images.old) }
        ensures silent { lacks_memory self.old ≡ true → tell_count images.new ≡ tell_count images.old }
        ensures lent { OnErr result (IsSameTest (test images.old) (test images.new)) }
        ensures sound { IsSoundSession self.new (test images.new) (test scripts.now) }
        ensures sound_view { IsSoundView self.new (test images.new) (test scripts.now) view.new }
        ensures lacks { lacks_memory self.new ≡ is_err result }
        ensures memory { lacks_memory self.old ≡ true → IsErr result }
        ensures spare { lacks_memory self.old ≡ false → needs_no_memory (command_seen command.now) ≡ true
            → IsOk result }
        ensures least { OnOk result (steps.old + least_steps (tiles_of self.old) (test scripts.now)
            (state_in self.old view.old (test images.old)) (command_seen command.now) ≤ steps.new) }
        ensures most { steps.new ≤ steps.old + most_steps (tiles_of self.old) (test scripts.now)
            (state_in self.old view.old (test images.old)) (command_seen command.now) }
    {
        if self.lacks_memory {
            return Err(AllocError);
        }
        let _ = self.before_ranges(command)?;
        self.apply_in_plain(view, command, images, scripts, steps)
    }

    /// As `apply`, of a command of the style, which is done in each of these views of it. It is checked and refused
    /// once, and what is kept of each view follows it. No step is counted.
    pub fn apply_to_all<L: Ledger>(
        &mut self,
        views: &mut [View],
        command: &Command,
        images: &mut dyn HostOp,
        scripts: &dyn HostOp,
        steps: &mut Steps<L>,
    ) -> Result<Answer, AllocError>
        requires session { IsSoundSession self.old (test images.old) (test scripts.now) }
        requires views { AreSoundViews self.old (test images.old) (test scripts.now) views.old }
        requires command { is_of_view (command_seen command.now) ≡ false }
        ensures answer { IfOk result (λ answer. (session_state self.new (test images.new), reply_seen answer)
            ≡ applied (tiles_of self.old) (test scripts.now) (changes images.old)
            (session_state self.old (test images.old))
            (command_seen command.now)) }
        ensures views { OnOk result (map view_seen views.new ≡ in_each (tiles_of self.old) (test scripts.now)
            (changes images.old) (session_state self.old (test images.old)) (command_seen command.now)
            (map view_seen views.old)) }
        ensures tiles { tiles_of self.new ≡ tiles_of self.old }
        ensures changes { changes images.new ≡ changes images.old }
        ensures count { lacks_memory self.old ≡ false → tell_count images.new
            ≡ tell_count_after (changes images.old) (command_seen command.now) (tell_count images.old) }
        ensures silent { lacks_memory self.old ≡ true → tell_count images.new ≡ tell_count images.old }
        ensures lent { OnErr result (IsSameTest (test images.old) (test images.new)) }
        ensures sound { IsSoundSession self.new (test images.new) (test scripts.now) }
        ensures sound_views { AreSoundViews self.new (test images.new) (test scripts.now) views.new }
        ensures lacks { lacks_memory self.new ≡ is_err result }
        ensures memory { lacks_memory self.old ≡ true → IsErr result }
        ensures spare { lacks_memory self.old ≡ false → needs_no_memory (command_seen command.now) ≡ true
            → IsOk result }
        ensures least { OnOk result (steps.old ≤ steps.new) }
        ensures most { steps.new ≤ steps.old }
    {
        if self.lacks_memory {
            return Err(AllocError);
        }
        if is_range(command) {
            return Ok(self.set_range(command));
        }
        let before = self.before_ranges(command)?;
        let answer = self.apply_to_all_plain(views, command, images, scripts, steps)?;
        self.follow_ranges(&answer, command, &before);
        Ok(answer)
    }
}
