//! The parts of operators, which are no arguments.

ghost use Rattle.std.specs.Prelude.{◌≡◌, ◌<◌, [], ◌∷◌, ◌++◌, length, IfOk, OnOk, OnErr};
ghost use Rattle.prop_values.specs.View.{data_of};
ghost use Rattle.expr_syntax.specs.Chosen.{output_of};
ghost use Rattle.expr_syntax.specs.LabelIndex.{distinct_labels};
ghost use Rattle.expr_syntax.specs.Operators.{role_want};
ghost use Rattle.expr_syntax.specs.Stops.{IsAboveLast};
ghost use Rattle.interpolate_fixed.specs.PlaceFacts.{IsAscending, HasPositiveBase};

use crate::label_index::{LabelIndex, LabelList, index_of, value_output};
use decimal_json::Text;
use fixed_num::Fixed;
use prop_values::{Curve, Item, Value, Want};
use std::alloc::{AllocError, Global};
use std::marker::Model;

/// A label of `match`: a text or a whole number.
#[derive(Drop)]
pub enum Label {
    Text(Text),
    Number(Fixed),
}

/// A label, and the number of the output that it chooses, counted from 0.
#[derive(Drop)]
pub struct Labelled {
    pub label: Label,
    pub output: usize,
}

/// The labels of a `match` in order. They are all texts or all numbers, and no two are equal. The index finds
/// the output of a value in logarithmic time.
#[derive(Drop)]
pub struct Labels {
    table: Box<LabelTable>,
}

// The parts of an operator are on the heap, so that an expression takes little room whatever its operator.
#[derive(Drop)]
struct LabelTable {
    labels: LabelList,
    index: LabelIndex,
}

impl Model for Labels {
    ghost use Rattle.std.specs.Prelude.{List};
    ghost use Rattle.expr_syntax.specs.declared.parts.Labelled.{Labelled};
    ghost use Rattle.expr_syntax.specs.LabelIndex.{IsIndexOfLabels};

    ghost Value = { List Labelled };

    ghost view = { λ a. a.table.value.labels };

    ghost invariant = { λ a. IsIndexOfLabels a.table.value.index a.table.value.labels };
}

impl Labels {
    /// Labels, or none where one occurs twice.
    pub(crate) fn of(alloc: Global, labels: LabelList) -> Result<Option<Labels>, AllocError>
        ensures { IfOk result (λ made. made ≡ distinct_labels labels) }
    {
        let Some(index) = index_of(alloc, labels.as_slice())? else {
            return Ok(None);
        };
        let table = Box::new(alloc, LabelTable { labels, index })?;
        Ok(Some(Labels { table }))
    }

    pub fn as_slice(&self) -> &[Labelled]
        ensures { result.now ≡ self.now }
    {
        self.table.labels.as_slice()
    }

    /// The number of the output of the label that is equal to a value, or the given one where none is.
    #[tactic(auto, using(crate::proofs::LabelIndexLaws::chosen_some, crate::proofs::LabelIndexLaws::chosen_none))]
    pub fn output_of(&self, value: &Value, last: usize) -> usize
        ensures { result ≡ output_of self.now (data_of value.now) last }
    {
        match value_output(&self.table.index, value) {
            Some(output) => output,
            None => last,
        }
    }
}

/// The inputs of stops while they are read, in order. Each is below the next.
#[derive(Drop)]
pub(crate) struct InputList {
    inputs: Vec<Fixed>,
}

impl Model for InputList {
    ghost use Rattle.std.specs.Prelude.{List, ℤ};
    ghost use Rattle.interpolate_fixed.specs.PlaceFacts.{IsAscending};

    ghost Value = { List ℤ };

    ghost view = { λ a. a.inputs.items };

    ghost invariant = { λ a. IsAscending a.inputs.items };
}

impl InputList {
    pub(crate) fn new(alloc: Global) -> InputList
        ensures { result ≡ [] }
    {
        InputList {
            inputs: Vec::new(alloc),
        }
    }

    /// Adds an input at the end. It has to be above the last.
    pub(crate) fn push(&mut self, input: Fixed) -> Result<(), AllocError>
        requires { IsAboveLast input self.old }
        ensures ok { OnOk result (self.new ≡ self.old ++ input ∷ []) }
        ensures err { OnErr result (self.new ≡ self.old) }
    {
        self.inputs.push(input)?;
        Ok(())
    }

    pub(crate) fn as_slice(&self) -> &[Fixed]
        ensures inputs { result.now ≡ self.now }
        ensures ascending { IsAscending result.now }
    {
        self.inputs.as_slice()
    }
}

/// The inputs of stops. Each is below the next.
#[derive(Drop)]
pub struct Inputs {
    inputs: Box<InputList>,
}

impl Model for Inputs {
    ghost use Rattle.std.specs.Prelude.{List, ℤ};

    ghost Value = { List ℤ };

    ghost view = { λ a. a.inputs.value };
}

impl Inputs {
    pub(crate) fn of(alloc: Global, inputs: InputList) -> Result<Inputs, AllocError>
        ensures { IfOk result (λ made. made ≡ inputs) }
    {
        Ok(Inputs {
            inputs: Box::new(alloc, inputs)?,
        })
    }

    pub fn as_slice(&self) -> &[Fixed]
        ensures inputs { result.now ≡ self.now }
        ensures ascending { IsAscending result.now }
    {
        self.inputs.as_slice()
    }
}

/// How an `interpolate` goes from stop to stop: the curve, whose base is above 0 where it has one, and the
/// inputs of the stops, at least one.
#[derive(Drop)]
pub struct Ramp {
    parts: Box<RampParts>,
}

#[derive(Drop)]
struct RampParts {
    curve: Curve,
    inputs: InputList,
}

impl Model for Ramp {
    ghost use Rattle.std.specs.Prelude.{List, ℤ, ◌<◌, length};
    ghost use Rattle.prop_values.specs.declared.outcome.Curve.{Curve};
    ghost use Rattle.interpolate_fixed.specs.PlaceFacts.{HasPositiveBase};

    ghost Value = { Curve × List ℤ };

    ghost view = { λ a. (a.parts.value.curve, a.parts.value.inputs) };

    ghost invariant = { λ a. (0 < length a.parts.value.inputs) × HasPositiveBase a.parts.value.curve };
}

impl Ramp {
    pub(crate) fn of(alloc: Global, curve: Curve, inputs: InputList) -> Result<Ramp, AllocError>
        requires some { 0 < length inputs }
        requires base { HasPositiveBase curve }
        ensures { IfOk result (λ made. made ≡ (curve, inputs)) }
    {
        Ok(Ramp {
            parts: Box::new(alloc, RampParts { curve, inputs })?,
        })
    }

    pub fn curve(&self) -> &Curve
        ensures curve { result.now ≡ self.now.0 }
        ensures base { HasPositiveBase result.now }
    {
        &self.parts.curve
    }

    pub fn inputs(&self) -> &[Fixed]
        ensures inputs { result.now ≡ self.now.1 }
        ensures some { 0 < length result.now }
        ensures ascending { IsAscending result.now }
    {
        self.parts.inputs.as_slice()
    }
}

/// What an argument of `format` is: a content, or the option of a name.
#[derive(Clone, Copy, Debug, PartialEq, Eq)]
pub enum Role {
    Content,
    /// `font-scale`.
    Scale,
    /// `text-font`.
    Font,
    /// `text-color`.
    Color,
}

impl Role {
    /// What an argument that is this is wanted as.
    pub fn want(self) -> Want
        ensures { result ≡ role_want self }
    {
        match self {
            Role::Content => Want::Shown,
            Role::Scale => Want::Number,
            Role::Font => Want::List(Item::Text, None),
            Role::Color => Want::Color,
        }
    }
}

/// An argument of `format`: the place of the element that it is, or is in, and what it is there.
#[derive(Clone, Copy, Debug, PartialEq, Eq)]
pub struct FormatPiece {
    pub at: usize,
    pub role: Role,
}

/// What the arguments of a `format` are, in order, while they are read.
#[derive(Drop)]
pub(crate) struct PieceList {
    pieces: Vec<FormatPiece>,
}

impl Model for PieceList {
    ghost use Rattle.std.specs.Prelude.{List};
    ghost use Rattle.expr_syntax.specs.declared.parts.FormatPiece.{FormatPiece};

    ghost Value = { List FormatPiece };

    ghost view = { λ a. a.pieces.items };
}

impl PieceList {
    pub(crate) fn new(alloc: Global) -> PieceList
        ensures { result ≡ [] }
    {
        PieceList {
            pieces: Vec::new(alloc),
        }
    }

    /// Adds a piece at the end.
    pub(crate) fn push(&mut self, piece: FormatPiece) -> Result<(), AllocError>
        ensures ok { OnOk result (self.new ≡ self.old ++ piece ∷ []) }
        ensures err { OnErr result (self.new ≡ self.old) }
    {
        self.pieces.push(piece)?;
        Ok(())
    }

    pub(crate) fn as_slice(&self) -> &[FormatPiece]
        ensures { result.now ≡ self.now }
    {
        self.pieces.as_slice()
    }
}

/// What the arguments of a `format` are, in order. Options follow their content.
#[derive(Drop)]
pub struct Pieces {
    pieces: Box<PieceList>,
}

impl Model for Pieces {
    ghost use Rattle.std.specs.Prelude.{List};
    ghost use Rattle.expr_syntax.specs.declared.parts.FormatPiece.{FormatPiece};

    ghost Value = { List FormatPiece };

    ghost view = { λ a. a.pieces.value };
}

impl Pieces {
    pub(crate) fn of(alloc: Global, pieces: PieceList) -> Result<Pieces, AllocError>
        ensures { IfOk result (λ made. made ≡ pieces) }
    {
        Ok(Pieces {
            pieces: Box::new(alloc, pieces)?,
        })
    }

    pub fn as_slice(&self) -> &[FormatPiece]
        ensures { result.now ≡ self.now }
    {
        self.pieces.as_slice()
    }
}
