//! Formatted texts: their sections in order.

ghost use Rattle.std.specs.Prelude.{◌≡◌, [], ◌∷◌, ◌++◌, OnOk, OnErr};

use decimal_json::Text;
use fixed_num::Fixed;
use prop_values::{PackedColor, Value};
use std::alloc::{AllocError, Global};
use std::marker::Model;

/// A section: its content and its options.
#[derive(Drop)]
pub struct Section {
    pub content: Text,
    /// `font-scale`.
    pub scale: Option<Fixed>,
    /// `text-font`, a list of texts.
    pub font: Option<Value>,
    /// `text-color`.
    pub color: Option<PackedColor>,
}

#[derive(Drop)]
pub struct Sections {
    sections: Vec<Section>,
}

impl Model for Sections {
    ghost use Rattle.std.specs.Prelude.{List};
    ghost use Rattle.format_text.specs.declared.formatted.Section.{Section};

    ghost Value = { List Section };

    ghost use Rattle.format_text.specs.contracts.formatted.Section as section;
    ghost use Rattle.std.specs.Coded.{coded_list};

    ghost coded = { coded_list section.the_row.coded };

    ghost view = { λ a. a.sections.items };
}

impl Sections {
    pub fn new(alloc: Global) -> Sections
        ensures { result ≡ [] }
    {
        Sections {
            sections: Vec::new(alloc),
        }
    }

    /// Adds a section at the end.
    pub fn push(&mut self, section: Section) -> Result<(), AllocError>
        ensures ok { OnOk result (self.new ≡ self.old ++ section ∷ []) }
        ensures err { OnErr result (self.new ≡ self.old) }
    {
        self.sections.push(section)?;
        Ok(())
    }

    pub fn as_slice(&self) -> &[Section]
        ensures { result.now ≡ self.now }
    {
        self.sections.as_slice()
    }
}
