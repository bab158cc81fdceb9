//! The expression that means what a legacy function means.

ghost use Rattle.std.specs.Prelude.{◌≡◌, ◌<◌, ◌++◌, ◌∷◌, [], length, map, codes, IfOk, OnOk};
ghost use Rattle.std.specs.Str.{IsAscii};
ghost use Rattle.fixed_num.specs.NumberText.{number_text};
ghost use Rattle.decimal_json.specs.Tree.{text as text_tree, number as number_tree};
ghost use Rattle.decimal_json.specs.View.{tree_of};
ghost use Rattle.property_tables.specs.RowView.{fallback_seen};
ghost use Rattle.property_tables.specs.Rows.{zeros, fonts};
ghost use Rattle.legacy_functions.specs.Function.{even};
ghost use Rattle.legacy_functions.specs.FunctionView.{default_tree, property_tree, rule_in, rules_in, branches_in};
ghost use Rattle.legacy_functions.specs.Meaning.{zoom_way};
ghost use Rattle.legacy_functions.specs.Names.{name_text};
ghost use Rattle.legacy_functions.specs.Parts.{input_seen, output_seen, category_seen};
ghost use Rattle.legacy_functions.specs.ToExpression.{function_expression, as_literal, output_expression, written_tree};
ghost use Rattle.legacy_functions.specs.ToExpression.{branch_elements, step_expression, way_expression, kind_case};
ghost use Rattle.legacy_functions.specs.ToExpression.{input_tree, category_elements, rule_expression, zoom_expression};
ghost use Rattle.legacy_functions.specs.ToExpression.{zoom_rule_expression, rule_branches, form_name};
ghost use Rattle.legacy_functions.specs.ToExpression.{identity_expression};
ghost use Rattle.legacy_functions.specs.Tokens.{call};
ghost use Rattle.legacy_functions.specs.View.{function_of, row_of, way_seen};

use crate::categories::Categories;
use crate::function::{
    Body, Category, Function, Input, NumberStop, Output, PropertyRule, Way, ZoomRule,
};
use crate::names::{CallName, CallNames};
use crate::stops::{NumberStops, ZoomRules};
use crate::tokens::{property_expression, token_expr};
use decimal_json::{Items, Json, NumText, Text, copy};
use fixed_num::Fixed;
use prop_values::Want;
use property_tables::Fallback;
use std::alloc::{AllocError, Global};

impl Function {
    /// The expression that means the same. Texts and numbers are in it as they were, and the row's default as
    /// the table writes it.
    pub fn to_expr(&self, alloc: Global) -> Result<Json, AllocError>
        ensures { IfOk result (λ made. tree_of made ≡ function_expression (row_of self.now) (function_of self.now)) }
    {
        let names = CallNames::of(alloc)?;
        match &self.body {
            Body::Plain(rule) => match &self.property {
                Some(_) => rule_expression(alloc, &names, self, rule),
                None => zoom_rule_expression(alloc, &names, self, rule),
            },
            Body::Zoomed(rules) => zoomed_expression(alloc, &names, self, rules),
            Body::Identity => identity_expression(alloc, &names, self),
        }
    }
}

// ---- calls

// A call that has room for so many arguments.
pub(crate) fn call(
    alloc: Global,
    names: &CallNames,
    name: CallName,
    arguments: usize,
) -> Result<Items, AllocError>
    ensures { IfOk result (λ items. items ≡ text_tree (name_text name) ∷ []) }
{
    let mut items = Items::with_room(alloc, arguments.saturating_add(1))?;
    items.push(Json::Text(names.text(name)?))?;
    Ok(items)
}

fn text(alloc: Global, name: &str) -> Result<Json, AllocError>
    ensures { IfOk result (λ made. tree_of made ≡ text_tree name.now) }
{
    Ok(Json::Text(Text::copy_of(alloc, name)?))
}

fn call_one(
    alloc: Global,
    names: &CallNames,
    name: CallName,
    element: Json,
) -> Result<Json, AllocError>
    ensures { IfOk result (λ made. tree_of made ≡ call (name_text name) (tree_of element ∷ [])) }
{
    let mut items = call(alloc, names, name, 1)?;
    items.push(element)?;
    Ok(Json::List(items))
}

fn call_two(
    alloc: Global,
    names: &CallNames,
    name: CallName,
    first: Json,
    second: Json,
) -> Result<Json, AllocError>
    ensures { IfOk result (λ made. tree_of made ≡ call (name_text name) (tree_of first ∷ tree_of second ∷ [])) }
{
    let mut items = call(alloc, names, name, 2)?;
    items.push(first)?;
    items.push(second)?;
    Ok(Json::List(items))
}

fn zoom_json(alloc: Global, names: &CallNames) -> Result<Json, AllocError>
    ensures { IfOk result (λ made. tree_of made ≡ zoom_expression) }
{
    Ok(Json::List(call(alloc, names, CallName::Zoom, 0)?))
}

// ---- outputs and defaults

// An array is in `literal`.
fn as_literal(alloc: Global, names: &CallNames, json: Json) -> Result<Json, AllocError>
    ensures { IfOk result (λ made. tree_of made ≡ as_literal (tree_of json)) }
{
    match json {
        Json::List(items) => call_one(alloc, names, CallName::Literal, Json::List(items)),
        json => Ok(json),
    }
}

fn output_expression(alloc: Global, names: &CallNames, output: &Output) -> Result<Json, AllocError>
    ensures { IfOk result (λ made. tree_of made ≡ output_expression (output_seen output.now)) }
{
    match output {
        Output::Literal(json, _) => {
            let json = copy(alloc, json)?;
            as_literal(alloc, names, json)
        }
        Output::Tokens(text) => token_expr(alloc, text.as_str()),
    }
}

// The function's default, else the row's, else null.
fn default_expression(
    alloc: Global,
    names: &CallNames,
    function: &Function,
) -> Result<Json, AllocError>
    ensures { IfOk result (λ made. tree_of made ≡ default_tree function.now) }
{
    match &function.fallback {
        Some(output) => output_expression(alloc, names, output),
        None => {
            let written = written_json(alloc, &function.row.fallback)?;
            as_literal(alloc, names, written)
        }
    }
}

fn written_json(alloc: Global, fallback: &Fallback) -> Result<Json, AllocError>
    ensures { IfOk result (λ made. tree_of made ≡ written_tree (fallback_seen fallback.now)) }
{
    match fallback {
        Fallback::Absent => Ok(Json::Null),
        Fallback::Flag(flag) => Ok(Json::Bool(*flag)),
        Fallback::Number(number) => number_json(alloc, *number),
        Fallback::Word(word) => text(alloc, word),
        Fallback::Zeros(count) => zeros_json(alloc, *count),
        Fallback::Fonts => fonts_json(alloc),
    }
}

fn number_json(alloc: Global, number: Fixed) -> Result<Json, AllocError>
    ensures { IfOk result (λ made. tree_of made ≡ number_tree (number_text number)) }
{
    let mut out = [0; 48];
    let length = number.write(&mut out);
    Ok(Json::Num(NumText::copy_of(alloc, ascii_text(&out[..length]))?))
}

/// ASCII as a text.
pub(crate) fn ascii_text(bytes: &[u8]) -> &str
    requires { IsAscii bytes.now }
    ensures { result.now ≡ bytes.now }
{
    // ASCII is UTF-8, so the second arm is never taken.
    match str::from_utf8(bytes) {
        Ok(text) => text,
        Err(_) => "",
    }
}

fn zeros_json(alloc: Global, count: u32) -> Result<Json, AllocError>
    ensures { IfOk result (λ made. tree_of made ≡ written_tree (zeros count)) }
{
    let mut items = Items::new(alloc);
    for _ in 0..count {
        items.push(zero_json(alloc)?)?;
    }
    Ok(Json::List(items))
}

fn zero_json(alloc: Global) -> Result<Json, AllocError>
    ensures { IfOk result (λ made. tree_of made ≡ number_tree (codes "0")) }
{
    Ok(Json::Num(NumText::copy_of(alloc, "0")?))
}

fn fonts_json(alloc: Global) -> Result<Json, AllocError>
    ensures { IfOk result (λ made. tree_of made ≡ written_tree fonts) }
{
    let mut items = Items::new(alloc);
    items.push(text(alloc, "Open Sans Regular")?)?;
    items.push(text(alloc, "Arial Unicode MS Regular")?)?;
    Ok(Json::List(items))
}

// ---- stops over numbers

// Stops over an expression of a number.
fn way_expression(
    alloc: Global,
    names: &CallNames,
    way: &Way,
    input: Json,
    stops: &NumberStops,
) -> Result<Json, AllocError>
    ensures { IfOk result
        (λ made. tree_of made ≡ way_expression (way_seen way.now) (tree_of input) (branches_in stops.now)) }
{
    match way {
        Way::Stepped => step_expression(alloc, names, input, stops.as_slice()),
        Way::Even => {
            let curve = Json::List(call(alloc, names, CallName::Linear, 0)?);
            ramp_expression(alloc, names, curve, input, stops.as_slice())
        }
        Way::Curved(base) => {
            let curve = call_one(
                alloc,
                names,
                CallName::Exponential,
                Json::Num(base.spelled().share()?),
            )?;
            ramp_expression(alloc, names, curve, input, stops.as_slice())
        }
    }
}

fn ramp_expression(
    alloc: Global,
    names: &CallNames,
    curve: Json,
    input: Json,
    stops: &[NumberStop],
) -> Result<Json, AllocError>
    ensures { IfOk result (λ made. tree_of made
        ≡ call (codes "interpolate") (tree_of curve ∷ tree_of input ∷ branch_elements (branches_in stops.now))) }
{
    let room = stops.len().saturating_mul(2).saturating_add(2);
    let mut items = call(alloc, names, CallName::Interpolate, room)?;
    items.push(curve)?;
    items.push(input)?;
    push_stops(alloc, names, &mut items, stops)?;
    Ok(Json::List(items))
}

// The first output has no input, and is alone where it is the only one.
#[tactic(auto, using(crate::proofs::ExpressionLaws::step_one, crate::proofs::ExpressionLaws::step_more))]
fn step_expression(
    alloc: Global,
    names: &CallNames,
    input: Json,
    stops: &[NumberStop],
) -> Result<Json, AllocError>
    requires { 0 < length stops.now }
    ensures { IfOk result (λ made. tree_of made ≡ step_expression (tree_of input) (branches_in stops.now)) }
{
    let first = output_expression(alloc, names, &stops[0].output)?;
    if stops.len() == 1 {
        return Ok(first);
    }
    let mut items = call(alloc, names, CallName::Step, stops.len().saturating_mul(2))?;
    items.push(input)?;
    items.push(first)?;
    push_stops(alloc, names, &mut items, &stops[1..])?;
    Ok(Json::List(items))
}

// Adds inputs with their outputs.
fn push_stops(
    alloc: Global,
    names: &CallNames,
    items: &mut Items,
    stops: &[NumberStop],
) -> Result<(), AllocError>
    ensures { OnOk result (items.new ≡ items.old ++ branch_elements (branches_in stops.now)) }
{
    for stop in stops {
        let output = output_expression(alloc, names, &stop.output)?;
        push_branch(items, &stop.input.spelled, output)?;
    }
    Ok(())
}

fn push_branch(items: &mut Items, number: &NumText, output: Json) -> Result<(), AllocError>
    ensures { OnOk result (items.new ≡ items.old ++ number_tree number.now ∷ tree_of output ∷ []) }
{
    items.push(Json::Num(number.share()?))?;
    items.push(output)?;
    Ok(())
}

// ---- rules

fn property_json(alloc: Global, names: &CallNames, function: &Function) -> Result<Json, AllocError>
    ensures { IfOk result (λ made. tree_of made ≡ property_tree function.now) }
{
    match &function.property {
        Some(name) => property_expression(alloc, names, name.share()?),
        None => Ok(Json::Null),
    }
}

// An expression where the property is of a kind, else the default.
fn kind_case(
    alloc: Global,
    names: &CallNames,
    function: &Function,
    kind: CallName,
    expression: Json,
) -> Result<Json, AllocError>
    ensures { IfOk result (λ made. tree_of made
        ≡ kind_case (name_text kind) (property_tree function.now) (tree_of expression) (default_tree function.now)) }
{
    let property = property_json(alloc, names, function)?;
    let found = call_one(alloc, names, CallName::TypeOf, property)?;
    let wanted = Json::Text(names.text(kind)?);
    let test = call_two(alloc, names, CallName::Equal, found, wanted)?;
    let mut items = call(alloc, names, CallName::Case, 3)?;
    items.push(test)?;
    items.push(expression)?;
    items.push(default_expression(alloc, names, function)?)?;
    Ok(Json::List(items))
}

// A rule by the property.
fn rule_expression(
    alloc: Global,
    names: &CallNames,
    function: &Function,
    rule: &PropertyRule,
) -> Result<Json, AllocError>
    ensures { IfOk result (λ made. tree_of made
        ≡ rule_expression (property_tree function.now) (default_tree function.now) (rule_in function.now rule.now)) }
{
    match rule {
        PropertyRule::Numeric(stops) => {
            let input = property_json(alloc, names, function)?;
            let expression = way_expression(alloc, names, &function.way, input, stops)?;
            kind_case(alloc, names, function, CallName::Number, expression)
        }
        PropertyRule::Categorical(stops) => categories_expression(
            alloc,
            names,
            function,
            stops.as_slice(),
        ),
    }
}

fn categories_expression(
    alloc: Global,
    names: &CallNames,
    function: &Function,
    stops: &[Category],
) -> Result<Json, AllocError>
    ensures { IfOk result (λ made. tree_of made ≡ call (codes "case")
        (category_elements (property_tree function.now) (map category_seen stops.now)
        ++ default_tree function.now ∷ [])) }
{
    let room = stops.len().saturating_mul(2).saturating_add(1);
    let mut items = call(alloc, names, CallName::Case, room)?;
    for stop in stops {
        push_category(alloc, names, &mut items, function, stop)?;
    }
    items.push(default_expression(alloc, names, function)?)?;
    Ok(Json::List(items))
}

// Adds the test of an input, and its output.
fn push_category(
    alloc: Global,
    names: &CallNames,
    items: &mut Items,
    function: &Function,
    stop: &Category,
) -> Result<(), AllocError>
    ensures { OnOk result (items.new
        ≡ items.old ++ category_elements (property_tree function.now) (category_seen stop.now ∷ [])) }
{
    let property = property_json(alloc, names, function)?;
    let input = input_json(&stop.input)?;
    items.push(call_two(alloc, names, CallName::Equal, property, input)?)?;
    items.push(output_expression(alloc, names, &stop.output)?)?;
    Ok(())
}

fn input_json(input: &Input) -> Result<Json, AllocError>
    ensures { IfOk result (λ made. tree_of made ≡ input_tree (input_seen input.now)) }
{
    match input {
        Input::Flag(flag) => Ok(Json::Bool(*flag)),
        Input::Number(number) => Ok(Json::Num(number.spelled.share()?)),
        Input::Word(text) => Ok(Json::Text(text.share()?)),
    }
}

// A rule by the zoom.
fn zoom_rule_expression(
    alloc: Global,
    names: &CallNames,
    function: &Function,
    rule: &PropertyRule,
) -> Result<Json, AllocError>
    ensures { IfOk result
        (λ made. tree_of made ≡ zoom_rule_expression (default_tree function.now) (rule_in function.now rule.now)) }
{
    match rule {
        PropertyRule::Numeric(stops) => {
            let input = zoom_json(alloc, names)?;
            way_expression(alloc, names, &function.way, input, stops)
        }
        PropertyRule::Categorical(_) => default_expression(alloc, names, function),
    }
}

// ---- rules of zooms

fn zoomed_expression(
    alloc: Global,
    names: &CallNames,
    function: &Function,
    rules: &ZoomRules,
) -> Result<Json, AllocError>
    ensures { IfOk result (λ made. tree_of made ≡ way_expression (zoom_way (row_of function.now)) zoom_expression
        (rule_branches (property_tree function.now) (default_tree function.now) (rules_in function.now rules.now))) }
{
    if function.row.ramps {
        zoom_ramp_expression(alloc, names, function, rules.as_slice())
    } else {
        zoom_step_expression(alloc, names, function, rules.as_slice())
    }
}

fn zoom_ramp_expression(
    alloc: Global,
    names: &CallNames,
    function: &Function,
    rules: &[ZoomRule],
) -> Result<Json, AllocError>
    ensures { IfOk result (λ made. tree_of made ≡ way_expression even zoom_expression
        (rule_branches (property_tree function.now) (default_tree function.now) (rules_in function.now rules.now))) }
{
    let room = rules.len().saturating_mul(2).saturating_add(2);
    let mut items = call(alloc, names, CallName::Interpolate, room)?;
    items.push(Json::List(call(alloc, names, CallName::Linear, 0)?))?;
    items.push(zoom_json(alloc, names)?)?;
    push_rules(alloc, names, &mut items, function, rules)?;
    Ok(Json::List(items))
}

#[tactic(auto, using(crate::proofs::ExpressionLaws::zoom_one, crate::proofs::ExpressionLaws::zoom_more))]
fn zoom_step_expression(
    alloc: Global,
    names: &CallNames,
    function: &Function,
    rules: &[ZoomRule],
) -> Result<Json, AllocError>
    requires { 0 < length rules.now }
    ensures { IfOk result (λ made. tree_of made ≡ step_expression zoom_expression
        (rule_branches (property_tree function.now) (default_tree function.now) (rules_in function.now rules.now))) }
{
    let first = rule_expression(alloc, names, function, &rules[0].rule)?;
    if rules.len() == 1 {
        return Ok(first);
    }
    let mut items = call(alloc, names, CallName::Step, rules.len().saturating_mul(2))?;
    items.push(zoom_json(alloc, names)?)?;
    items.push(first)?;
    push_rules(alloc, names, &mut items, function, &rules[1..])?;
    Ok(Json::List(items))
}

// Adds zooms with their rules.
fn push_rules(
    alloc: Global,
    names: &CallNames,
    items: &mut Items,
    function: &Function,
    rules: &[ZoomRule],
) -> Result<(), AllocError>
    ensures { OnOk result (items.new ≡ items.old ++ branch_elements
        (rule_branches (property_tree function.now) (default_tree function.now) (rules_in function.now rules.now))) }
{
    for rule in rules {
        let output = rule_expression(alloc, names, function, &rule.rule)?;
        push_branch(items, &rule.zoom.spelled, output)?;
    }
    Ok(())
}

// ---- identity

fn identity_expression(
    alloc: Global,
    names: &CallNames,
    function: &Function,
) -> Result<Json, AllocError>
    ensures { IfOk result (λ made. tree_of made
        ≡ identity_expression (row_of function.now).want (property_tree function.now) (default_tree function.now)) }
{
    let property = property_json(alloc, names, function)?;
    match &function.row.want {
        Want::Shown => {
            let default = default_expression(alloc, names, function)?;
            call_two(alloc, names, CallName::Coalesce, property, default)
        }
        want => kind_case(alloc, names, function, form_name(want), property),
    }
}

// What `typeof` says of a value that has the row's form.
fn form_name(want: &Want) -> CallName
    ensures { name_text result ≡ form_name want.now }
{
    match want {
        Want::Number => CallName::Number,
        Want::Boolean => CallName::Boolean,
        Want::List(_, _) => CallName::Array,
        Want::EnumList(_) => CallName::Array,
        _ => CallName::Text,
    }
}
