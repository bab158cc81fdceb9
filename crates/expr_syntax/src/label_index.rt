//! An index of the labels of a `match`, by which a value finds its output.

ghost use Rattle.std.specs.Prelude.{◌≡◌, ◌++◌, [], ◌∷◌, None, IfOk, OnOk, OnErr};
ghost use Rattle.std.specs.BTreeMap.{get};
ghost use Rattle.std.specs.Ordering.{int_cmp};
ghost use Rattle.prop_values.specs.View.{data_of};
ghost use Rattle.expr_syntax.specs.declared.parts.Label.{Label};
ghost use Rattle.expr_syntax.specs.LabelIndex.{output_at, value_output, IsIndexOrNone, NotesLabel, NotesNumber};

use crate::parts::{Label, Labelled};
use crate::text_numbers::{TextNumbers, note_text, number_of_text};
use fixed_num::Fixed;
use prop_values::Value;
use std::alloc::{AllocError, Global};
use std::collections::BTreeMap;
use std::marker::Model;

/// Labels while they are read, in order.
#[derive(Drop)]
pub(crate) struct LabelList {
    labels: Vec<Labelled>,
}

impl Model for LabelList {
    ghost use Rattle.std.specs.Prelude.{List};
    ghost use Rattle.expr_syntax.specs.declared.parts.Labelled.{Labelled};

    ghost Value = { List Labelled };

    ghost view = { λ a. a.labels.items };
}

impl LabelList {
    pub(crate) fn new(alloc: Global) -> LabelList
        ensures { result ≡ [] }
    {
        LabelList {
            labels: Vec::new(alloc),
        }
    }

    /// Adds a label at the end.
    pub(crate) fn push(&mut self, label: Labelled) -> Result<(), AllocError>
        ensures ok { OnOk result (self.new ≡ self.old ++ label ∷ []) }
        ensures err { OnErr result (self.new ≡ self.old) }
    {
        self.labels.push(label)?;
        Ok(())
    }

    pub(crate) fn as_slice(&self) -> &[Labelled]
        ensures { result.now ≡ self.now }
    {
        self.labels.as_slice()
    }
}

/// An index of labels: the number of the output of each.
#[derive(Drop)]
pub(crate) struct LabelIndex {
    texts: TextNumbers,
    numbers: BTreeMap<i128, usize>,
}

impl LabelIndex {
    pub(crate) fn new(alloc: Global) -> LabelIndex
        ensures { (m : Label) → output_at result m ≡ None }
    {
        LabelIndex {
            texts: BTreeMap::new(alloc),
            numbers: BTreeMap::new(alloc),
        }
    }
}

/// The index of labels, or none where one occurs twice.
#[tactic(auto, using(crate::proofs::LabelIndexLaws::index_rules))]
pub(crate) fn index_of(alloc: Global, labels: &[Labelled]) -> Result<Option<LabelIndex>, AllocError>
    ensures { IfOk result (λ index. IsIndexOrNone index labels.now) }
{
    let mut index = LabelIndex::new(alloc);
    for labelled in labels {
        if output_at(&index, &labelled.label).is_some() {
            return Ok(None);
        }
        note_label(alloc, &mut index, &labelled.label, labelled.output)?;
    }
    Ok(Some(index))
}

fn output_at(index: &LabelIndex, label: &Label) -> Option<usize>
    ensures { result ≡ output_at index.now label.now }
{
    match label {
        Label::Text(text) => number_of_text(&index.texts, text.as_str()),
        Label::Number(number) => number_output(&index.numbers, number),
    }
}

/// The output of the label that is equal to a value.
pub(crate) fn value_output(index: &LabelIndex, value: &Value) -> Option<usize>
    ensures { result ≡ value_output index.now (data_of value.now) }
{
    match value {
        Value::Text(text) => number_of_text(&index.texts, text.as_str()),
        Value::Num(number) => number_output(&index.numbers, number),
        _ => None,
    }
}

/// Notes a label with its output.
fn note_label(
    alloc: Global,
    index: &mut LabelIndex,
    label: &Label,
    output: usize,
) -> Result<(), AllocError>
    ensures { OnOk result (NotesLabel label.now output index.old index.new) }
{
    match label {
        Label::Text(text) => note_text(alloc, &mut index.texts, text.as_str(), output),
        Label::Number(number) => note_number(&mut index.numbers, number.millionths(), output),
    }
}

fn number_output(numbers: &BTreeMap<i128, usize>, number: &Fixed) -> Option<usize>
    ensures { result ≡ get int_cmp numbers.now number.now }
{
    numbers.get(&number.millionths()).copied()
}

fn note_number(
    numbers: &mut BTreeMap<i128, usize>,
    number: i128,
    output: usize,
) -> Result<(), AllocError>
    ensures { OnOk result (NotesNumber number output numbers.old numbers.new) }
{
    let Ok(_) = numbers.insert(number, output) else {
        return Err(AllocError);
    };
    Ok(())
}
