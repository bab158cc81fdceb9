//! The stops of categories, and an index by which a value finds its output.

ghost use Rattle.std.specs.Prelude.{◌≡◌, ◌∷◌, None, map, option_map, IfOk, OnOk};
ghost use Rattle.std.specs.BTreeMap.{get};
ghost use Rattle.std.specs.Ordering.{int_cmp};
ghost use Rattle.prop_values.specs.View.{data_of};
ghost use Rattle.legacy_functions.specs.Function.{Input as InputData};
ghost use Rattle.legacy_functions.specs.Parts.{input_seen, category_seen};
ghost use Rattle.legacy_functions.specs.CategoryIndex.{text_place, flag_place, place_at, value_place, IsIndexOrNone};
ghost use Rattle.legacy_functions.specs.CategoryIndex.{NotesInput, NotesText, NotesNumber};

use crate::function::{Category, Input, Output};
use fixed_num::Fixed;
use prop_values::Value;
use std::alloc::{AllocError, Global};
use std::boxed::BoxedStr;
use std::collections::BTreeMap;
use std::marker::Model;

type Texts = BTreeMap<BoxedStr, usize>;

/// The places of inputs among those of a list, counted from 0.
#[derive(Drop)]
pub(crate) struct CategoryIndex {
    texts: Texts,
    numbers: BTreeMap<i128, usize>,
    on_true: Option<usize>,
    on_false: Option<usize>,
}

/// The stops of categories in order. No two inputs are equal. The index finds the one that is equal to a
/// value in time logarithmic in their number. Clauses see the list of stops.
#[derive(Drop)]
pub(crate) struct Categories {
    stops: Vec<Category>,
    index: CategoryIndex,
}

impl Model for Categories {
    ghost use Rattle.std.specs.Prelude.{List};
    ghost use Rattle.legacy_functions.specs.declared.function.Category.{Category};

    ghost Value = { List Category };

    ghost use Rattle.legacy_functions.specs.contracts.function.Category as category;
    ghost use Rattle.std.specs.Coded.{coded_list};

    ghost coded = { coded_list category.the_row.coded };

    ghost use Rattle.legacy_functions.specs.CategoryIndex.{IsIndexOf};

    ghost view = { λ a. a.stops.items };

    ghost invariant = { λ a. IsIndexOf a.index a.stops.items };
}

impl Categories {
    ghost use Rattle.std.specs.Prelude.{◌≡◌, map, option_map, IfOk};
    ghost use Rattle.prop_values.specs.View.{data_of};
    ghost use Rattle.legacy_functions.specs.CategoryIndex.{distinct_categories};
    ghost use Rattle.legacy_functions.specs.Meaning.{chosen_output};
    ghost use Rattle.legacy_functions.specs.Parts.{category_seen, output_seen};

    /// The stops, or none where one's input is that of another.
    pub(crate) fn of(alloc: Global, stops: Vec<Category>) -> Result<Option<Categories>, AllocError>
        ensures { IfOk result (λ made. made ≡ distinct_categories stops.items) }
    {
        match index_of(alloc, stops.as_slice())? {
            Some(index) => Ok(Some(Categories { stops, index })),
            None => Ok(None),
        }
    }

    pub(crate) fn as_slice(&self) -> &[Category]
        ensures { result.now ≡ self.now }
    {
        self.stops.as_slice()
    }

    /// The output of the input that is equal to a value.
    pub(crate) fn output_of(&self, value: &Value) -> Option<&Output>
        ensures { option_map (λ o. output_seen o.now) result
            ≡ chosen_output (data_of value.now) (map category_seen self.now) }
    {
        let stops = self.stops.as_slice();
        match value_place(&self.index, value) {
            Some(place) => Some(&stops[place].output),
            None => None,
        }
    }
}

// The index of the inputs of stops, or none where one is that of another.
#[tactic(auto, using(crate::proofs::CategoryLaws::index_rules))]
fn index_of(alloc: Global, stops: &[Category]) -> Result<Option<CategoryIndex>, AllocError>
    ensures { IfOk result (λ index. IsIndexOrNone index stops.now) }
{
    let mut index = no_index(alloc);
    for (i, stop) in stops.iter().enumerate() {
        if place_at(&index, &stop.input).is_some() {
            return Ok(None);
        }
        note(alloc, &mut index, &stop.input, i)?;
    }
    Ok(Some(index))
}

fn no_index(alloc: Global) -> CategoryIndex
    ensures { (i : InputData) → place_at result i ≡ None }
{
    CategoryIndex {
        texts: BTreeMap::new(alloc),
        numbers: BTreeMap::new(alloc),
        on_true: None,
        on_false: None,
    }
}

fn place_at(index: &CategoryIndex, input: &Input) -> Option<usize>
    ensures { result ≡ place_at index.now (input_seen input.now) }
{
    match input {
        Input::Flag(flag) => flag_place(index, *flag),
        Input::Number(number) => number_place(&index.numbers, number.value),
        Input::Word(text) => text_place(&index.texts, text.as_str()),
    }
}

// The place of the input that is equal to a value.
fn value_place(index: &CategoryIndex, value: &Value) -> Option<usize>
    ensures { result ≡ value_place index.now (data_of value.now) }
{
    match value {
        Value::Bool(flag) => flag_place(index, *flag),
        Value::Num(number) => number_place(&index.numbers, *number),
        Value::Text(text) => text_place(&index.texts, text.as_str()),
        _ => None,
    }
}

fn flag_place(index: &CategoryIndex, flag: bool) -> Option<usize>
    ensures { result ≡ flag_place index.now flag }
{
    if flag { index.on_true } else { index.on_false }
}

fn text_place(texts: &Texts, text: &str) -> Option<usize>
    ensures { result ≡ text_place texts.now text.now }
{
    texts.get(text).copied()
}

fn number_place(numbers: &BTreeMap<i128, usize>, number: Fixed) -> Option<usize>
    ensures { result ≡ get int_cmp numbers.now number }
{
    numbers.get(&number.millionths()).copied()
}

fn note(
    alloc: Global,
    index: &mut CategoryIndex,
    input: &Input,
    place: usize,
) -> Result<(), AllocError>
    ensures { OnOk result (NotesInput (input_seen input.now) place index.old index.new) }
{
    match input {
        Input::Flag(true) => {
            index.on_true = Some(place);
            Ok(())
        }
        Input::Flag(false) => {
            index.on_false = Some(place);
            Ok(())
        }
        Input::Number(number) => note_number(&mut index.numbers, number.value.millionths(), place),
        Input::Word(text) => note_text(alloc, &mut index.texts, text.as_str(), place),
    }
}

fn note_text(alloc: Global, texts: &mut Texts, text: &str, place: usize) -> Result<(), AllocError>
    ensures { OnOk result (NotesText text.now place texts.old texts.new) }
{
    let name = BoxedStr::from_str(alloc, text)?;
    let Ok(_) = texts.insert(name, place) else {
        return Err(AllocError);
    };
    Ok(())
}

fn note_number(
    numbers: &mut BTreeMap<i128, usize>,
    number: i128,
    place: usize,
) -> Result<(), AllocError>
    ensures { OnOk result (NotesNumber number place numbers.old numbers.new) }
{
    let Ok(_) = numbers.insert(number, place) else {
        return Err(AllocError);
    };
    Ok(())
}
