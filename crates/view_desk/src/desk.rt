//! A style under edit, with the views in which it is shown.

ghost use Rattle.std.specs.Prelude.{◌≡◌, ◌<◌, ◌≤◌, ◌+◌, ◌⊎◌, ℕ, List, Bool, Ok, is_err, is_some, length, map, false};
ghost use Rattle.std.specs.Prelude.{true, IfOk, IfSome, IsErr, OnErr, OnOk};
ghost use Rattle.std.specs.List.{position};
ghost use Rattle.std.specs.Str.{bytes_eq};
ghost use Rattle.edit_script.specs.View.{command_seen};
ghost use Rattle.edit_session.specs.Applied.{is_of_view, tell_count_after};
ghost use Rattle.edit_session.specs.View.{session_state, tiles_of, view_seen, IsSoundSession, IsUsable};
ghost use Rattle.host_ops.specs.Change.{IsSameTest};
ghost use Rattle.view_desk.specs.DeskLines as lines;
ghost use Rattle.view_desk.specs.DeskState.{desk_applied, desk_least, desk_most, desk_over, desk_image_reports_after};
ghost use Rattle.view_desk.specs.DeskState.{opening_refusal, view_named};
ghost use Rattle.view_desk.specs.View.{answer_seen, desk_command_seen, desk_state, desk_tiles, DeskGives, IsSoundDesk};
ghost use Rattle.view_desk.specs.View.{IsWellSorted, ImageReportsOfDeskLine, StepsAreOfDeskLine};

use crate::answers::{DeskAnswer, DeskRefusal};
use crate::lines::{DeskCommand, read_desk_line};
use decimal_json::Text;
use edit_script::Command;
use edit_session::{Session, View};
use fixed_num::Fixed;
use host_ops::HostOp;
use outside_io::Steps;
use std::alloc::{AllocError, Global};
use std::sync::ledger::Ledger;
use style_parts::is_zoom;

/// The most cells that the style of a desk may have over its tiles.
pub const DESK_LIMIT: u64 = 1_000_000;

/// The most views that may be open.
const MOST_VIEWS: usize = 8;

/// A style over tiles, under edit, and the views in which it is shown, each with the cells that it keeps. `desk_state`
/// is what a desk represents, for clauses.
pub struct Desk<'a> {
    pub(crate) session: Session<'a>,
    /// In the order in which they were opened.
    pub(crate) views: Vec<View>,
    pub(crate) lacks_memory: bool,
}

impl Drop for Desk<'_> {
    // Each part as a whole: the prover does not follow a drop of their parts in place.
    fn drop(self) {
        let Desk {
            session: _session,
            views: _views,
            lacks_memory: _,
        } = self;
    }
}

impl<'a> Desk<'a> {
    /// A desk over a session, without views.
    pub fn new(session: Session<'a>) -> Desk<'a>
        ensures state { (has_image : List ℕ → Bool) → desk_state result has_image
            ≡ desk_over (session_state session.entry has_image) }
        ensures tiles { desk_tiles result ≡ tiles_of session.entry }
        ensures sound { (has_image scripts : List ℕ → Bool) → IsSoundSession session.entry has_image scripts
            → IsSoundDesk result has_image scripts }
    {
        let views = Vec::new(session.alloc());
        Desk {
            session,
            views,
            lacks_memory: false,
        }
    }

    /// Where memory for its calls is taken.
    pub fn alloc(&self) -> Global {
        self.session.alloc()
    }

    /// Does what the bytes of a line say, without a line feed, and answers. A line with a fault and one that is refused
    /// change nothing. A line of the style is done in each view; `steps` rises by listings alone. Once allocation fails
    /// every later call answers so too.
    pub fn line<L: Ledger>(
        &mut self,
        line: &[u8],
        images: &mut dyn HostOp,
        scripts: &dyn HostOp,
        steps: &mut Steps<L>,
    ) -> Result<DeskAnswer, AllocError>
        requires { IsSoundDesk self.old (test images.old) (test scripts.now) }
        ensures gives { IfOk result
            (λ answer. DeskGives (desk_tiles self.old) (test scripts.now) steps.old steps.new (changes images.old)
            (desk_state self.old (test images.old)) line.now
            (desk_state self.new (test images.new), answer_seen answer)) }
        ensures most { OnErr result (StepsAreOfDeskLine (desk_tiles self.old) (test scripts.now) steps.old steps.new
            (desk_state self.old (test images.old)) line.now) }
        ensures tiles { desk_tiles self.new ≡ desk_tiles self.old }
        ensures changes { changes images.new ≡ changes images.old }
        ensures count { OnOk result
            (ImageReportsOfDeskLine (changes images.old) line.now (tell_count images.old) (tell_count images.new)) }
        ensures count_failed { OnErr result ((tell_count images.new ≡ tell_count images.old)
            ⊎ ImageReportsOfDeskLine (changes images.old) line.now (tell_count images.old) (tell_count images.new)) }
        ensures silent { self.old.lacks_memory ≡ true → tell_count images.new ≡ tell_count images.old }
        ensures lent { OnErr result (IsSameTest (test images.old) (test images.new)) }
        ensures sound { IsSoundDesk self.new (test images.new) (test scripts.now) }
        ensures lacks { self.new.lacks_memory ≡ is_err result }
        ensures memory { self.old.lacks_memory ≡ true → IsErr result }
    {
        if self.lacks_memory {
            return Err(AllocError);
        }
        let answer = self.answer(line, images, scripts, steps);
        self.lacks_memory = answer.is_err();
        answer
    }

    fn answer<L: Ledger>(
        &mut self,
        line: &[u8],
        images: &mut dyn HostOp,
        scripts: &dyn HostOp,
        steps: &mut Steps<L>,
    ) -> Result<DeskAnswer, AllocError>
        requires { IsSoundDesk self.old (test images.old) (test scripts.now) }
        ensures gives { IfOk result
            (λ answer. DeskGives (desk_tiles self.old) (test scripts.now) steps.old steps.new (changes images.old)
            (desk_state self.old (test images.old)) line.now
            (desk_state self.new (test images.new), answer_seen answer)) }
        ensures most { OnErr result (StepsAreOfDeskLine (desk_tiles self.old) (test scripts.now) steps.old steps.new
            (desk_state self.old (test images.old)) line.now) }
        ensures tiles { desk_tiles self.new ≡ desk_tiles self.old }
        ensures changes { changes images.new ≡ changes images.old }
        ensures count { OnOk result
            (ImageReportsOfDeskLine (changes images.old) line.now (tell_count images.old) (tell_count images.new)) }
        ensures count_failed { OnErr result ((tell_count images.new ≡ tell_count images.old)
            ⊎ ImageReportsOfDeskLine (changes images.old) line.now (tell_count images.old) (tell_count images.new)) }
        ensures lent { OnErr result (IsSameTest (test images.old) (test images.new)) }
        ensures sound { IsSoundDesk self.new (test images.new) (test scripts.now) }
    {
        match read_desk_line(self.alloc(), line)? {
            Ok(command) => self.obey(&command, images, scripts, steps),
            Err(fault) => Ok(DeskAnswer::Fault(fault)),
        }
    }

    fn obey<L: Ledger>(
        &mut self,
        command: &DeskCommand,
        images: &mut dyn HostOp,
        scripts: &dyn HostOp,
        steps: &mut Steps<L>,
    ) -> Result<DeskAnswer, AllocError>
        requires desk { IsSoundDesk self.old (test images.old) (test scripts.now) }
        requires command { IsWellSorted command.now }
        ensures answer { IfOk result (λ answer. (desk_state self.new (test images.new), answer_seen answer)
            ≡ desk_applied (desk_tiles self.old) (test scripts.now) (changes images.old)
            (desk_state self.old (test images.old))
            (desk_command_seen command.now)) }
        ensures tiles { desk_tiles self.new ≡ desk_tiles self.old }
        ensures changes { changes images.new ≡ changes images.old }
        ensures count { OnOk result (tell_count images.new
            ≡ desk_image_reports_after (changes images.old) (Ok (desk_command_seen command.now))
            (tell_count images.old)) }
        ensures count_failed { OnErr result ((tell_count images.new ≡ tell_count images.old) ⊎ (tell_count images.new
            ≡ desk_image_reports_after (changes images.old) (Ok (desk_command_seen command.now))
            (tell_count images.old))) }
        ensures lent { OnErr result (IsSameTest (test images.old) (test images.new)) }
        ensures sound { IsSoundDesk self.new (test images.new) (test scripts.now) }
        ensures least { OnOk result (steps.old + desk_least (desk_tiles self.old) (test scripts.now)
            (desk_state self.old (test images.old)) (Ok (desk_command_seen command.now)) ≤ steps.new) }
        ensures most { steps.new ≤ steps.old + desk_most (desk_tiles self.old) (test scripts.now)
            (desk_state self.old (test images.old)) (Ok (desk_command_seen command.now)) }
    {
        match command {
            DeskCommand::OpenView(name, zoom) => self.open_view(name, *zoom),
            DeskCommand::CloseView(name) => Ok(self.close_view(name.as_str())),
            DeskCommand::InView(name, command) => {
                self.apply_in(name, command, images, scripts, steps)
            }
            DeskCommand::OfStyle(command) => self.apply(command, images, scripts, steps),
        }
    }

    fn open_view(&mut self, name: &Text, zoom: Fixed) -> Result<DeskAnswer, AllocError>
        requires { IsUsable self.old.session }
        ensures answer { (has_image scripts : List ℕ → Bool) (can_change : Bool) → IfOk result (λ answer.
            (desk_state self.new has_image, answer_seen answer) ≡ desk_applied (desk_tiles self.old) scripts can_change
            (desk_state self.old has_image) (lines.open_view name.now zoom)) }
        ensures session { self.new.session ≡ self.old.session }
        ensures sound { (has_image scripts : List ℕ → Bool) → IsSoundDesk self.old has_image scripts
            → IsSoundDesk self.new has_image scripts }
    {
        if let Some(refusal) = self.opening_refusal(name.as_str(), zoom) {
            return Ok(DeskAnswer::Refused(refusal));
        }
        let view = self.session.open_view(name.share()?, zoom)?;
        self.views.push(view)?;
        Ok(DeskAnswer::Done)
    }

    fn opening_refusal(&self, name: &str, zoom: Fixed) -> Option<DeskRefusal>
        ensures { (has_image : List ℕ → Bool) → result ≡ opening_refusal (desk_state self.now has_image) name.now zoom }
    {
        if is_open(self.views.as_slice(), name) {
            return Some(DeskRefusal::ViewTaken);
        }
        if !is_zoom(zoom) {
            return Some(DeskRefusal::ZoomRange);
        }
        if self.views.len() >= MOST_VIEWS {
            return Some(DeskRefusal::ViewLimit);
        }
        None
    }

    fn close_view(&mut self, name: &str) -> DeskAnswer
        ensures answer { (has_image scripts : List ℕ → Bool) (can_change : Bool) →
            (desk_state self.new has_image, answer_seen result) ≡ desk_applied (desk_tiles self.old) scripts can_change
            (desk_state self.old has_image) (lines.close_view name.now) }
        ensures session { self.new.session ≡ self.old.session }
        ensures sound { (has_image scripts : List ℕ → Bool) → IsSoundDesk self.old has_image scripts
            → IsSoundDesk self.new has_image scripts }
    {
        match place_of(self.views.as_slice(), name) {
            Some(place) => {
                self.views.remove(place);
                DeskAnswer::Done
            }
            None => DeskAnswer::Refused(DeskRefusal::UnknownView),
        }
    }

    fn apply_in<L: Ledger>(
        &mut self,
        name: &Text,
        command: &Command,
        images: &mut dyn HostOp,
        scripts: &dyn HostOp,
        steps: &mut Steps<L>,
    ) -> Result<DeskAnswer, AllocError>
        requires desk { IsSoundDesk self.old (test images.old) (test scripts.now) }
        requires command { is_of_view (command_seen command.now) ≡ true }
        ensures answer { IfOk result (λ answer. (desk_state self.new (test images.new), answer_seen answer)
            ≡ desk_applied (desk_tiles self.old) (test scripts.now) (changes images.old)
            (desk_state self.old (test images.old))
            (lines.in_view name.now (command_seen command.now))) }
        ensures tiles { desk_tiles self.new ≡ desk_tiles self.old }
        ensures changes { changes images.new ≡ changes images.old }
        ensures silent { tell_count images.new ≡ tell_count images.old }
        ensures lent { OnErr result (IsSameTest (test images.old) (test images.new)) }
        ensures sound { IsSoundDesk self.new (test images.new) (test scripts.now) }
        ensures least { OnOk result (steps.old + desk_least (desk_tiles self.old) (test scripts.now)
            (desk_state self.old (test images.old)) (Ok (lines.in_view name.now (command_seen command.now)))
            ≤ steps.new) }
        ensures most { steps.new ≤ steps.old + desk_most (desk_tiles self.old) (test scripts.now)
            (desk_state self.old (test images.old)) (Ok (lines.in_view name.now (command_seen command.now))) }
    {
        let Some(place) = place_of(self.views.as_slice(), name.as_str()) else {
            return Ok(DeskAnswer::Refused(DeskRefusal::UnknownView));
        };
        let name = name.share()?;
        let view = &mut self.views[place];
        let answer = self
            .session
            .apply_in(view, command, images, scripts, steps)?;
        Ok(DeskAnswer::View(name, answer))
    }

    fn apply<L: Ledger>(
        &mut self,
        command: &Command,
        images: &mut dyn HostOp,
        scripts: &dyn HostOp,
        steps: &mut Steps<L>,
    ) -> Result<DeskAnswer, AllocError>
        requires desk { IsSoundDesk self.old (test images.old) (test scripts.now) }
        requires command { is_of_view (command_seen command.now) ≡ false }
        ensures answer { IfOk result (λ answer. (desk_state self.new (test images.new), answer_seen answer)
            ≡ desk_applied (desk_tiles self.old) (test scripts.now) (changes images.old)
            (desk_state self.old (test images.old))
            (lines.of_style (command_seen command.now))) }
        ensures tiles { desk_tiles self.new ≡ desk_tiles self.old }
        ensures changes { changes images.new ≡ changes images.old }
        ensures count { OnOk result (tell_count images.new
            ≡ tell_count_after (changes images.old) (command_seen command.now) (tell_count images.old)) }
        ensures count_failed { OnErr result ((tell_count images.new ≡ tell_count images.old) ⊎ (tell_count images.new
            ≡ tell_count_after (changes images.old) (command_seen command.now) (tell_count images.old))) }
        ensures lent { OnErr result (IsSameTest (test images.old) (test images.new)) }
        ensures sound { IsSoundDesk self.new (test images.new) (test scripts.now) }
        ensures least { OnOk result (steps.old + desk_least (desk_tiles self.old) (test scripts.now)
            (desk_state self.old (test images.old)) (Ok (lines.of_style (command_seen command.now))) ≤ steps.new) }
        ensures most { steps.new ≤ steps.old + desk_most (desk_tiles self.old) (test scripts.now)
            (desk_state self.old (test images.old)) (Ok (lines.of_style (command_seen command.now))) }
    {
        let views = self.views.as_mut_slice();
        let answer = self
            .session
            .apply_to_all(views, command, images, scripts, steps)?;
        Ok(DeskAnswer::Style(answer))
    }
}

// Whether a view of this name is open.
fn is_open(views: &[View], name: &str) -> bool
    ensures { result ≡ is_some (view_named name.now (map view_seen views.now)) }
{
    place_of(views, name).is_some()
}

// The place of the view of a name.
fn place_of(views: &[View], name: &str) -> Option<usize>
    ensures place { result ≡ position (λ one. bytes_eq one.name name.now) views.now }
    ensures within { IfSome result (λ place. place < length views.now) }
{
    views.iter().position(|one| one.name() == name)
}
