//! The lists of what is reported of a document.

ghost use Rattle.std.specs.Prelude.{◌≡◌, [], ◌∷◌, ◌++◌, slice_get, OnOk, OnErr};

use decimal_json::Path;
use prop_values::FaultSet;
use std::alloc::{AllocError, Global};
use std::marker::Model;

/// A place that breaks a rule.
#[derive(Drop)]
pub struct Finding {
    pub path: Path,
    /// The number of the rule, from 1 to 22.
    pub rule: u8,
}

/// A list of findings, in the order of the text.
#[derive(Drop)]
pub struct Findings {
    findings: Vec<Finding>,
}

impl Model for Findings {
    ghost use Rattle.std.specs.Prelude.{List};
    ghost use Rattle.style_rules.specs.declared.lists.Finding.{Finding};

    ghost Value = { List Finding };

    ghost view = { λ a. a.findings.items };
}

impl Findings {
    pub fn new(alloc: Global) -> Findings
        ensures { result ≡ [] }
    {
        Findings {
            findings: Vec::new(alloc),
        }
    }

    pub fn push(&mut self, finding: Finding) -> Result<(), AllocError>
        ensures ok { OnOk result (self.new ≡ self.old ++ finding ∷ []) }
        ensures err { OnErr result (self.new ≡ self.old) }
    {
        self.findings.push(finding)?;
        Ok(())
    }

    pub fn as_slice(&self) -> &[Finding]
        ensures { result.now ≡ self.now }
    {
        self.findings.as_slice()
    }

    /// The first finding, taken out of the list, or `None` exactly where there is none.
    pub fn into_first(self) -> Option<Finding>
        ensures { result ≡ slice_get self 0 }
    {
        self.findings.into_iter().next()
    }
}

#[derive(Drop)]
pub struct Paths {
    paths: Vec<Path>,
}

impl Model for Paths {
    ghost use Rattle.std.specs.Prelude.{List};
    ghost use Rattle.decimal_json.specs.declared.paths.PathPart.{PathPart};

    ghost Value = { List (List PathPart) };

    ghost view = { λ a. a.paths.items };
}

impl Paths {
    pub fn new(alloc: Global) -> Paths
        ensures { result ≡ [] }
    {
        Paths {
            paths: Vec::new(alloc),
        }
    }

    pub fn push(&mut self, path: Path) -> Result<(), AllocError>
        ensures ok { OnOk result (self.new ≡ self.old ++ path ∷ []) }
        ensures err { OnErr result (self.new ≡ self.old) }
    {
        self.paths.push(path)?;
        Ok(())
    }

    pub fn as_slice(&self) -> &[Path]
        ensures { result.now ≡ self.now }
    {
        self.paths.as_slice()
    }
}

/// A value or filter whose evaluation may fault, and the faults.
#[derive(Drop)]
pub struct MayLine {
    pub path: Path,
    pub faults: FaultSet,
}

/// A list of these, in the order of the text.
#[derive(Drop)]
pub struct MayLines {
    lines: Vec<MayLine>,
}

impl Model for MayLines {
    ghost use Rattle.std.specs.Prelude.{List};
    ghost use Rattle.style_rules.specs.declared.lists.MayLine.{MayLine};

    ghost Value = { List MayLine };

    ghost view = { λ a. a.lines.items };
}

impl MayLines {
    pub fn new(alloc: Global) -> MayLines
        ensures { result ≡ [] }
    {
        MayLines {
            lines: Vec::new(alloc),
        }
    }

    pub fn push(&mut self, line: MayLine) -> Result<(), AllocError>
        ensures ok { OnOk result (self.new ≡ self.old ++ line ∷ []) }
        ensures err { OnErr result (self.new ≡ self.old) }
    {
        self.lines.push(line)?;
        Ok(())
    }

    pub fn as_slice(&self) -> &[MayLine]
        ensures { result.now ≡ self.now }
    {
        self.lines.as_slice()
    }
}

/// All that is reported of a document. Where it has findings, of the rest only what is not below one.
#[derive(Drop)]
pub struct Report {
    pub findings: Findings,
    pub notes: Paths,
    pub may_lines: MayLines,
}
