//! What is reported of places, while a document is walked.

ghost use Rattle.std.specs.Prelude.{◌≡◌, [], ◌∷◌, ◌++◌, OnOk, IfOk};
ghost use Rattle.decimal_json.specs.View.{path_of};
ghost use Rattle.decimal_json.specs.declared.paths.PathPart.TheVariants.{Key};
ghost use Rattle.style_rules.specs.Findings.{reports_or};
ghost use Rattle.style_rules.specs.Places.{unless_broken};

use crate::late_path::LatePath;
use crate::possible_faults::PossibleFaults;
use decimal_json::{Here, Path, PathPart, Text, path_to};
use std::alloc::{AllocError, Global};
use std::marker::Model;

/// What is reported of one place.
#[derive(Drop)]
pub(crate) enum Mark {
    Nothing,
    /// It breaks this rule, at a path from it.
    Broken(Path, u8),
    /// It is outside of what is evaluated.
    Outside,
    /// It breaks no rule, and its evaluation may have these faults.
    Sound(PossibleFaults),
}

/// What is reported, and the path of its place.
#[derive(Drop)]
pub(crate) enum Diagnostic {
    Finding(Path, u8),
    Note(Path),
    May(LatePath, PossibleFaults),
}

/// What is reported of a document so far.
#[derive(Drop)]
pub(crate) struct Diagnostics {
    pub(crate) all: Vec<Diagnostic>,
    /// Whether faults are listed: then those of a function are found at once, and the function is freed.
    pub(crate) lists_faults: bool,
}

impl Model for Diagnostics {
    ghost use Rattle.std.specs.Prelude.{List};
    ghost use Rattle.style_rules.specs.declared.diagnostics.Diagnostic.{Diagnostic};

    ghost Value = { List Diagnostic };

    ghost view = { λ a. a.all.items };
}

impl Diagnostics {
    pub(crate) fn new(alloc: Global, lists_faults: bool) -> Diagnostics
        ensures { result ≡ [] }
    {
        Diagnostics {
            all: Vec::new(alloc),
            lists_faults,
        }
    }

    /// Adds what is reported of a place.
    pub(crate) fn report(
        &mut self,
        alloc: Global,
        here: &Here<'_>,
        mark: Mark,
    ) -> Result<(), AllocError>
        ensures { OnOk result (self.new ≡ self.old ++ reports_or mark (path_of here.now) []) }
    {
        match mark {
            Mark::Nothing => {}
            Mark::Broken(more, rule) => {
                let path = path_below(alloc, here, &more)?;
                self.all.push(Diagnostic::Finding(path, rule))?;
            }
            Mark::Outside => self.all.push(Diagnostic::Note(path_to(alloc, here)?))?,
            Mark::Sound(faults) => {
                let path = LatePath::of(alloc, here)?;
                self.all.push(Diagnostic::May(path, faults))?
            }
        }
        Ok(())
    }

    /// Adds what is reported of the member of a name below a place.
    pub(crate) fn report_member<'x>(
        &mut self,
        alloc: Global,
        name: &'x Text,
        outer: &'x Here<'x>,
        mark: Mark,
    ) -> Result<(), AllocError>
        ensures { OnOk result (self.new ≡ self.old ++ reports_or mark (path_of outer.now ++ Key name.now ∷ []) []) }
    {
        match mark {
            Mark::Sound(faults) => {
                let path = LatePath::of_member(alloc, name, outer)?;
                self.all.push(Diagnostic::May(path, faults))?;
                Ok(())
            }
            other => self.report(alloc, &Here::Key(name.as_str(), outer), other),
        }
    }

    /// Reports that a place breaks a rule.
    pub(crate) fn report_broken(
        &mut self,
        alloc: Global,
        here: &Here<'_>,
        rule: u8,
    ) -> Result<(), AllocError>
        ensures { OnOk result (self.new ≡ self.old ++ Diagnostic.Finding (path_of here.now) rule ∷ []) }
    {
        let path = path_to(alloc, here)?;
        self.all.push(Diagnostic::Finding(path, rule))?;
        Ok(())
    }

    /// Reports that a place breaks a rule, unless its test holds.
    pub(crate) fn report_unless(
        &mut self,
        alloc: Global,
        here: &Here<'_>,
        rule: u8,
        holds: bool,
    ) -> Result<(), AllocError>
        ensures { OnOk result (self.new ≡ self.old ++ reports_or (unless_broken rule holds) (path_of here.now) []) }
    {
        if holds {
            return Ok(());
        }
        self.report_broken(alloc, here, rule)
    }
}

/// A path from a place, from the root.
fn path_below(alloc: Global, here: &Here<'_>, more: &Path) -> Result<Path, AllocError>
    ensures { IfOk result (λ path. path ≡ path_of here.now ++ more.now) }
{
    let mut path = path_to(alloc, here)?;
    for part in more.as_slice() {
        path.push(copy_of(part)?)?;
    }
    Ok(path)
}

fn copy_of(part: &PathPart) -> Result<PathPart, AllocError>
    ensures { IfOk result (λ same. same ≡ part.now) }
{
    match part {
        PathPart::Key(key) => Ok(PathPart::Key(key.share()?)),
        PathPart::Index(index) => Ok(PathPart::Index(*index)),
    }
}
