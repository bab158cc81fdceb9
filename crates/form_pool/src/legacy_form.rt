//! Legacy forms of a style's items, and what they give.

ghost use Rattle.std.specs.Prelude.{Ok};
ghost use Rattle.prop_values.specs.Data.{boolean, text};
ghost use Rattle.property_tables.specs.Fitting.{fit};
ghost use Rattle.operator_values.specs.Evaluated.{GivesValue};
ghost use Rattle.legacy_filters.specs.Meaning.{passes};
ghost use Rattle.legacy_filters.specs.View.{filter_of};
ghost use Rattle.legacy_functions.specs.Meaning.{value_of};
ghost use Rattle.legacy_functions.specs.Tokens.{token_text};
ghost use Rattle.legacy_functions.specs.View.{function_of, row_of};
ghost use Rattle.form_pool.specs.LegacyForms.{form_value};

use decimal_json::Text;
use fixed_num::Fixed;
use legacy_filters::LegacyFilter;
use legacy_functions::{Function, token_text};
use operator_values::Halt;
use prop_values::{Value, Want};
use property_tables::fit;
use std::alloc::Global;
use tile_reader::Feature;

/// What gives the values of an item in a legacy form.
#[derive(Drop)]
pub enum LegacyForm {
    /// The value of a function on its row.
    Function(Function),
    /// A text whose tokens are replaced, fitted to a want.
    Tokens(Text, Want),
    /// Whether a feature passes a filter.
    Filter(LegacyFilter),
}

impl LegacyForm {
    /// What it gives at a zoom on a feature: a value, or its fault.
    pub(crate) fn value(&self, alloc: Global, zoom: Fixed, feature: &Feature) -> Result<Value, Halt>
        ensures { GivesValue result (form_value self.now zoom feature.now) }
    {
        match self {
            LegacyForm::Function(function) => function_value(alloc, function, zoom, feature),
            LegacyForm::Tokens(text, want) => tokens_value(alloc, text, want, feature),
            LegacyForm::Filter(filter) => Ok(filter_value(filter, feature)),
        }
    }
}

fn function_value(
    alloc: Global,
    function: &Function,
    zoom: Fixed,
    feature: &Feature,
) -> Result<Value, Halt>
    ensures { GivesValue result (value_of (row_of function.now) (function_of function.now) zoom feature.now) }
{
    Ok(function.value(alloc, zoom, feature)??)
}

fn tokens_value(alloc: Global, tokens: &Text, want: &Want, feature: &Feature) -> Result<Value, Halt>
    ensures { GivesValue result (fit want.now (text (token_text tokens.now feature.now))) }
{
    let made = token_text(alloc, tokens.as_str(), feature)?;
    Ok(fit(alloc, Value::Text(made), want)??)
}

fn filter_value(filter: &LegacyFilter, feature: &Feature) -> Value
    ensures { GivesValue (Ok result) (Ok (boolean (passes (filter_of filter.now) feature.now))) }
{
    Value::Bool(filter.passes(feature))
}
