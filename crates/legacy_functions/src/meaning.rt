//! The value of a legacy function.

ghost use Rattle.std.specs.Prelude.{◌≡◌, ◌<◌, ◌-◌, length, map, option_map, unwrap_or, Ok, IfOk, IfSome, true};
ghost use Rattle.prop_values.specs.Data.{null as null_data};
ghost use Rattle.prop_values.specs.View.{data_of};
ghost use Rattle.prop_values.specs.ViewParts.{evaluated_of};
ghost use Rattle.prop_values.specs.declared.outcome.Curve.TheVariants.{Exponential};
ghost use Rattle.interpolate_fixed.specs.Places.{count_not_above, place_of};
ghost use Rattle.interpolate_fixed.specs.PlaceFacts.{IsAscending, IsBetween};
ghost use Rattle.interpolate_fixed.specs.declared.place.StopPlace.TheVariants.{Between};
ghost use Rattle.interpolate_fixed.specs.Warp.{warp_of};
ghost use Rattle.property_tables.specs.Fitting.{fit};
ghost use Rattle.tile_reader.specs.declared.tile.Feature.{Feature};
ghost use Rattle.operator_values.specs.Evaluated.{GivesValue, or_fault, then_value};
ghost use Rattle.legacy_functions.specs.Meaning.{value_of, plain_by, property_at, output_data, chosen_output};
ghost use Rattle.legacy_functions.specs.Meaning.{category_data, numeric_at, numeric_result, rule_result, zoom_rule};
ghost use Rattle.legacy_functions.specs.Meaning.{step_result, ramp_result, result_at, way_result, zoom_way, rule_zooms};
ghost use Rattle.legacy_functions.specs.Meaning.{identity_data, is_of_form};
ghost use Rattle.legacy_functions.specs.FunctionView.{default_on, rule_in, rules_in, results_in, zoom_results_in};
ghost use Rattle.legacy_functions.specs.Parts.{stop_seen, category_seen, output_seen};
ghost use Rattle.legacy_functions.specs.Stops.{inputs_in};
ghost use Rattle.legacy_functions.specs.View.{function_of, row_of, way_seen};
ghost use Rattle.legacy_functions.specs.Zooms.{zooms_seen};

use crate::categories::Categories;
use crate::function::{Body, Function, Output, PropertyRule, Way};
use crate::stops::{Base, NumberStops, ZoomRules};
use crate::tokens::token_text;
use fixed_num::Fixed;
use halts::Halt;
use interpolate_fixed::{StopPlace, step_place, stop_place, warp};
use operator_values::value_between;
use prop_values::{Curve, EvalFault, Value, Want, copy};
use property_tables::{default_value, fit};
use std::alloc::{AllocError, Global};
use tile_reader::Feature;

impl Function {
    /// The value at a zoom on a feature, fitted to the row, or its fault. Stops are found by halving.
    pub fn value(
        &self,
        alloc: Global,
        zoom: Fixed,
        feature: &Feature,
    ) -> Result<Result<Value, EvalFault>, AllocError>
        ensures { IfOk result
            (λ found. evaluated_of found ≡ value_of (row_of self.now) (function_of self.now) zoom feature.now) }
    {
        match fitted_value(alloc, self, zoom, feature) {
            Ok(value) => Ok(Ok(value)),
            Err(Halt::Fault(fault)) => Ok(Err(fault)),
            Err(Halt::NoMemory) => Err(AllocError),
        }
    }
}

#[tactic(auto, using(crate::proofs::MeaningLaws::then_rules))]
fn fitted_value(
    alloc: Global,
    function: &Function,
    zoom: Fixed,
    feature: &Feature,
) -> Result<Value, Halt<EvalFault>>
    ensures { GivesValue result (value_of (row_of function.now) (function_of function.now) zoom feature.now) }
{
    let want = &function.row.want;
    match &function.body {
        Body::Plain(rule) => plain_value(alloc, function, rule, zoom, feature),
        Body::Zoomed(rules) => {
            let value = zoomed_value(alloc, function, rules, zoom, feature)?;
            fit_value(alloc, value, want)
        }
        Body::Identity => fit_value(alloc, identity_value(alloc, function, feature)?, want),
    }
}

// What one rule gives, fitted to the row. A rule by a property gives what is fitted already.
#[tactic(auto, using(crate::proofs::MeaningLaws::then_rules, crate::proofs::MeaningLaws::rule_is_fitted))]
fn plain_value(
    alloc: Global,
    function: &Function,
    rule: &PropertyRule,
    zoom: Fixed,
    feature: &Feature,
) -> Result<Value, Halt<EvalFault>>
    ensures { GivesValue result (then_value (plain_by function.now.property (row_of function.now)
        (default_on function.now feature.now) zoom feature.now (rule_in function.now rule.now))
        (fit (row_of function.now).want)) }
{
    match &function.property {
        Some(name) => {
            let found = feature.properties.get(name.as_str());
            rule_value(alloc, function, rule, feature, found)
        }
        None => {
            let value = zoom_rule_value(alloc, function, rule, zoom, feature)?;
            fit_value(alloc, value, &function.row.want)
        }
    }
}

// A value that passes by its kind is not handed to the fitting.
fn fit_value(alloc: Global, value: Value, want: &Want) -> Result<Value, Halt<EvalFault>>
    ensures { GivesValue result (fit want.now (data_of value)) }
{
    if passes_by_kind(&value, want) {
        return Ok(value);
    }
    Ok(fit(alloc, value, want)??)
}

// Whether a value is one of those that a want lets pass as they are, seen by the kind alone.
fn passes_by_kind(value: &Value, want: &Want) -> bool
    ensures { result ≡ true → fit want.now (data_of value.now) ≡ Ok (data_of value.now) }
{
    match want {
        Want::Any => true,
        Want::Number => matches!(value, Value::Num(_)),
        Want::Boolean => matches!(value, Value::Bool(_)),
        Want::Color => matches!(value, Value::Color(_)),
        Want::Text | Want::Shown | Want::Image => matches!(value, Value::Text(_)),
        _ => false,
    }
}

fn property_at<'a>(function: &Function, feature: &'a Feature) -> Option<&'a Value>
    ensures { option_map (λ v. data_of v.now) result ≡ property_at function.now.property feature.now }
{
    match &function.property {
        Some(name) => feature.properties.get(name.as_str()),
        None => None,
    }
}

// The function's default, else the row's, else null.
fn default_of(alloc: Global, function: &Function, feature: &Feature) -> Result<Value, AllocError>
    ensures { IfOk result (λ default. data_of default ≡ default_on function.now feature.now) }
{
    match &function.fallback {
        Some(output) => output_value(alloc, output, feature),
        None => match default_value(alloc, &function.row)? {
            Some(value) => Ok(value),
            None => Ok(Value::Null),
        },
    }
}

fn output_value(alloc: Global, output: &Output, feature: &Feature) -> Result<Value, AllocError>
    ensures { IfOk result (λ value. data_of value ≡ output_data feature.now (output_seen output.now)) }
{
    match output {
        Output::Literal(_, value) => copy(value),
        Output::Tokens(text) => Ok(Value::Text(token_text(alloc, text.as_str(), feature)?)),
    }
}

// ---- rules

// A rule by a property, fitted to the row.
#[tactic(auto, using(crate::proofs::MeaningLaws::then_rules))]
fn rule_value(
    alloc: Global,
    function: &Function,
    rule: &PropertyRule,
    feature: &Feature,
    found: Option<&Value>,
) -> Result<Value, Halt<EvalFault>>
    ensures { GivesValue result (rule_result (row_of function.now) (default_on function.now feature.now) feature.now
        (option_map (λ v. data_of v.now) found.entry) (rule_in function.now rule.now)) }
{
    match rule {
        PropertyRule::Numeric(stops) => {
            let value = value_by_number(alloc, function, stops, feature, found)?;
            fit_value(alloc, value, &function.row.want)
        }
        PropertyRule::Categorical(stops) => {
            let value = category_value(alloc, function, stops, feature, found)?;
            fit_value(alloc, value, &function.row.want)
        }
    }
}

// A rule by the zoom.
fn zoom_rule_value(
    alloc: Global,
    function: &Function,
    rule: &PropertyRule,
    zoom: Fixed,
    feature: &Feature,
) -> Result<Value, Halt<EvalFault>>
    ensures { GivesValue result (zoom_rule (row_of function.now) (default_on function.now feature.now) zoom feature.now
        (rule_in function.now rule.now)) }
{
    match rule {
        PropertyRule::Numeric(stops) => numeric_value(alloc, function, stops, zoom, feature),
        PropertyRule::Categorical(_) => Ok(default_of(alloc, function, feature)?),
    }
}

// What a rule over numbers gives for a property, and the default where that is no number.
fn value_by_number(
    alloc: Global,
    function: &Function,
    stops: &NumberStops,
    feature: &Feature,
    found: Option<&Value>,
) -> Result<Value, Halt<EvalFault>>
    ensures { GivesValue result (numeric_at (row_of function.now) (way_seen function.now.way) (map stop_seen stops.now)
        (default_on function.now feature.now) feature.now (option_map (λ v. data_of v.now) found.entry)) }
{
    match found {
        Some(Value::Num(number)) => numeric_value(alloc, function, stops, *number, feature),
        _ => Ok(default_of(alloc, function, feature)?),
    }
}

// The output of the category of a property, else the default.
fn category_value(
    alloc: Global,
    function: &Function,
    stops: &Categories,
    feature: &Feature,
    found: Option<&Value>,
) -> Result<Value, AllocError>
    ensures { IfOk result (λ value. data_of value ≡ category_data (default_on function.now feature.now) feature.now
        (unwrap_or (option_map (λ v. data_of v.now) found.entry) null_data) (map category_seen stops.now)) }
{
    match chosen_output(stops, found) {
        Some(output) => output_value(alloc, output, feature),
        None => default_of(alloc, function, feature),
    }
}

fn chosen_output<'a>(stops: &'a Categories, found: Option<&Value>) -> Option<&'a Output>
    ensures { option_map (λ o. output_seen o.now) result
        ≡ chosen_output (unwrap_or (option_map (λ v. data_of v.now) found.entry) null_data)
        (map category_seen stops.now) }
{
    match found {
        Some(value) => stops.output_of(value),
        None => stops.output_of(&Value::Null),
    }
}

// ---- stops over numbers

// The result of stops over numbers at one.
#[tactic(auto, using(crate::proofs::MeaningLaws::number_rules))]
fn numeric_value(
    alloc: Global,
    function: &Function,
    stops: &NumberStops,
    input: Fixed,
    feature: &Feature,
) -> Result<Value, Halt<EvalFault>>
    ensures { GivesValue result
        (numeric_result (row_of function.now) (way_seen function.now.way) (map stop_seen stops.now)
        feature.now input) }
{
    match &function.way {
        Way::Stepped => step_value(alloc, function, stops, input, feature),
        Way::Even => ramp_value(alloc, function, stops, input, feature),
        Way::Curved(base) => {
            let moved = moved_input(base, stops, input)?;
            ramp_value(alloc, function, stops, moved, feature)
        }
    }
}

// The input that the curve of a base moves between its neighbours.
fn moved_input(base: &Base, stops: &NumberStops, input: Fixed) -> Result<Fixed, EvalFault>
    ensures { result ≡ or_fault (warp_of (Exponential base.now.value) (inputs_in stops.now) input) }
{
    Ok(warp(&Curve::Exponential(base.value()), stops.inputs(), input)?)
}

#[tactic(auto, using(crate::proofs::MeaningLaws::inputs_length))]
fn step_value(
    alloc: Global,
    function: &Function,
    stops: &NumberStops,
    input: Fixed,
    feature: &Feature,
) -> Result<Value, Halt<EvalFault>>
    ensures { GivesValue result
        (step_result (inputs_in stops.now) (results_in function.now feature.now stops.now) input) }
{
    let place = place_in_force(stops.inputs(), input);
    stop_value(alloc, function, stops, place, feature)
}

// The place of the greatest input that is not above, and the first below all.
#[tactic(auto, using(crate::proofs::MeaningLaws::count_within))]
fn place_in_force(inputs: &[Fixed], input: Fixed) -> usize
    requires some { 0 < length inputs.now }
    requires ascending { IsAscending inputs.now }
    ensures place { result ≡ count_not_above input inputs.now - 1 }
    ensures within { result < length inputs.now }
{
    step_place(inputs, input).saturating_sub(1)
}

#[tactic(auto, using(crate::proofs::MeaningLaws::inputs_length))]
fn ramp_value(
    alloc: Global,
    function: &Function,
    stops: &NumberStops,
    x: Fixed,
    feature: &Feature,
) -> Result<Value, Halt<EvalFault>>
    ensures { GivesValue result (ramp_result (inputs_in stops.now) (results_in function.now feature.now stops.now) x
        (place_of (inputs_in stops.now) x)) }
{
    let inputs = stops.inputs();
    match stop_place(inputs, x) {
        StopPlace::First => stop_value(alloc, function, stops, 0, feature),
        StopPlace::Last => stop_value(alloc, function, stops, inputs.len() - 1, feature),
        StopPlace::Between(i) => value_between_stops(alloc, function, stops, i, x, feature),
    }
}

#[tactic(auto, using(crate::proofs::MeaningLaws::between_rules))]
fn value_between_stops(
    alloc: Global,
    function: &Function,
    stops: &NumberStops,
    i: usize,
    x: Fixed,
    feature: &Feature,
) -> Result<Value, Halt<EvalFault>>
    requires { IsBetween (inputs_in stops.now) x i }
    ensures { GivesValue result
        (ramp_result (inputs_in stops.now) (results_in function.now feature.now stops.now) x (Between i)) }
{
    let inputs = stops.inputs();
    if let Some(lower) = literal_result(function, stops, i) {
        if let Some(upper) = literal_result(function, stops, i + 1) {
            return value_between(alloc, x, inputs[i], lower, inputs[i + 1], upper);
        }
    }
    let lower = stop_value(alloc, function, stops, i, feature)?;
    let upper = stop_value(alloc, function, stops, i + 1, feature)?;
    value_between(alloc, x, inputs[i], &lower, inputs[i + 1], &upper)
}

// The result of a stop whose output is a literal that passes by its kind.
fn literal_result<'a>(
    function: &Function,
    stops: &'a NumberStops,
    place: usize,
) -> Option<&'a Value>
    requires { place < length stops.now }
    ensures { (feature : Feature) → IfSome result (λ value.
        result_at (results_in function.now feature stops.now) place ≡ Ok (data_of value.now)) }
{
    let stops = stops.as_slice();
    match &stops[place].output {
        Output::Literal(_, value) if passes_by_kind(value, &function.row.want) => Some(value),
        _ => None,
    }
}

// The output of a stop, fitted to the row.
#[tactic(auto, using(crate::proofs::MeaningLaws::stop_result_at))]
fn stop_value(
    alloc: Global,
    function: &Function,
    stops: &NumberStops,
    place: usize,
    feature: &Feature,
) -> Result<Value, Halt<EvalFault>>
    requires { place < length stops.now }
    ensures { GivesValue result (result_at (results_in function.now feature.now stops.now) place) }
{
    let stops = stops.as_slice();
    let value = output_value(alloc, &stops[place].output, feature)?;
    fit_value(alloc, value, &function.row.want)
}

// ---- rules of zooms

// Between zooms: linearly where the row ramps, else by interval.
#[tactic(auto, using(crate::proofs::MeaningLaws::zooms_length))]
fn zoomed_value(
    alloc: Global,
    function: &Function,
    rules: &ZoomRules,
    zoom: Fixed,
    feature: &Feature,
) -> Result<Value, Halt<EvalFault>>
    ensures { GivesValue result
        (way_result (zoom_way (row_of function.now)) (rule_zooms (rules_in function.now rules.now))
        (zoom_results_in function.now feature.now rules.now) zoom) }
{
    if function.row.ramps {
        zoom_ramp_value(alloc, function, rules, zoom, feature)
    } else {
        let place = place_in_force(rules.zooms(), zoom);
        zoom_value(alloc, function, rules, place, feature)
    }
}

#[tactic(auto, using(crate::proofs::MeaningLaws::zooms_length))]
fn zoom_ramp_value(
    alloc: Global,
    function: &Function,
    rules: &ZoomRules,
    zoom: Fixed,
    feature: &Feature,
) -> Result<Value, Halt<EvalFault>>
    ensures { GivesValue result
        (ramp_result (zooms_seen rules.now) (zoom_results_in function.now feature.now rules.now) zoom
        (place_of (zooms_seen rules.now) zoom)) }
{
    let zooms = rules.zooms();
    match stop_place(zooms, zoom) {
        StopPlace::First => zoom_value(alloc, function, rules, 0, feature),
        StopPlace::Last => zoom_value(alloc, function, rules, zooms.len() - 1, feature),
        StopPlace::Between(i) => value_between_zooms(alloc, function, rules, i, zoom, feature),
    }
}

#[tactic(auto, using(crate::proofs::MeaningLaws::between_rules))]
fn value_between_zooms(
    alloc: Global,
    function: &Function,
    rules: &ZoomRules,
    i: usize,
    zoom: Fixed,
    feature: &Feature,
) -> Result<Value, Halt<EvalFault>>
    requires { IsBetween (zooms_seen rules.now) zoom i }
    ensures { GivesValue result
        (ramp_result (zooms_seen rules.now) (zoom_results_in function.now feature.now rules.now) zoom
        (Between i)) }
{
    let zooms = rules.zooms();
    let lower = zoom_value(alloc, function, rules, i, feature)?;
    let upper = zoom_value(alloc, function, rules, i + 1, feature)?;
    value_between(alloc, zoom, zooms[i], &lower, zooms[i + 1], &upper)
}

// The result of the rule of a zoom.
#[tactic(auto, using(crate::proofs::MeaningLaws::zoom_result_at))]
fn zoom_value(
    alloc: Global,
    function: &Function,
    rules: &ZoomRules,
    place: usize,
    feature: &Feature,
) -> Result<Value, Halt<EvalFault>>
    requires { place < length rules.now }
    ensures { GivesValue result (result_at (zoom_results_in function.now feature.now rules.now) place) }
{
    let rules = rules.as_slice();
    rule_value(
        alloc,
        function,
        &rules[place].rule,
        feature,
        property_at(function, feature),
    )
}

// ---- identity

// The property, where it has the row's form, else the default.
fn identity_value(
    alloc: Global,
    function: &Function,
    feature: &Feature,
) -> Result<Value, Halt<EvalFault>>
    ensures { GivesValue result (Ok (identity_data (row_of function.now).want (default_on function.now feature.now)
        (property_at function.now.property feature.now))) }
{
    match property_at(function, feature) {
        Some(value) if is_of_form(&function.row.want, value) => Ok(copy(value)?),
        _ => Ok(default_of(alloc, function, feature)?),
    }
}

// Whether a property has the row's form.
fn is_of_form(want: &Want, value: &Value) -> bool
    ensures { result ≡ is_of_form want.now (data_of value.now) }
{
    match want {
        Want::Shown => !matches!(value, Value::Null),
        Want::Number => matches!(value, Value::Num(_)),
        Want::Boolean => matches!(value, Value::Bool(_)),
        Want::List(_, _) => matches!(value, Value::List(_)),
        Want::EnumList(_) => matches!(value, Value::List(_)),
        _ => matches!(value, Value::Text(_)),
    }
}
