//! The reading of expressions from JSON.

ghost use Rattle.std.specs.Prelude.{◌≡◌, ◌<◌, ◌≤◌, ◌^◌, IfOk};
ghost use Rattle.decimal_json.specs.View.{path_of, tree_of, trees};
ghost use Rattle.decimal_json.specs.Tree.{list};
ghost use Rattle.expr_syntax.specs.Elements.{second, second_text};
ghost use Rattle.expr_syntax.specs.ReadView.{read_of, reading_of, read_at, arguments_of, arguments_within, elements_of};
ghost use Rattle.expr_syntax.specs.ReadView.{members_of, value_view, node_of, section_of, scope_of, uses_globals};
ghost use Rattle.expr_syntax.specs.Reading.{read, reading, reading_with, fault, number_read, literal_read};
ghost use Rattle.expr_syntax.specs.Reading.{global_read, global_term, is_value_layout, is_global_layout, is_part};
ghost use Rattle.expr_syntax.specs.Reading.{then_node, all_sections, options_read};
ghost use Rattle.expr_syntax.specs.Rows.{element_place};
ghost use Rattle.expr_syntax.specs.TermView.{term_of};

use crate::elements::{head_text, second, second_text};
use crate::expression::{Arguments, Expr, Operator};
use crate::fault::{SynCode, SynFault};
use crate::names::{Name, operator_named};
use crate::parts::Role;
use crate::rows::{ElementLayout, ElementPlace};
use crate::scope::{Scope, global_at};
use crate::sections::{FormatArguments, SectionElement, finish_format};
use crate::standing::{Sought, has_arity, is_format, stands};
use crate::values::{option_named, read_operator};
use decimal_json::{Here, Json, Member, Text, path_to};
use fixed_num::{Fixed, NumFault, read_decimal};
use prop_values::{Entries, SharedEntries, Value, copy, from_json};
use std::alloc::{AllocError, Global};

/// What a JSON tree that has no fault reads as.
#[derive(Drop)]
pub enum Reading {
    Inside(Expr),
    /// One of its nodes is outside of what is evaluated.
    Outside,
}

/// What a JSON tree reads as, or its first fault, where no name of the global state has a value.
pub fn read_expr(alloc: Global, json: &Json) -> Result<Result<Reading, SynFault>, AllocError>
    ensures { IfOk result (λ read. reading_of read ≡ reading (tree_of json.now)) }
{
    let globals = Entries::new(alloc);
    read_with(alloc, json, &globals)
}

/// What a JSON tree reads as, or its first fault, by the values of the global state. Each `global-state` node
/// reads as `get` of its name in an object that has the name's value, or is empty where it has none.
pub fn read_with(
    alloc: Global,
    json: &Json,
    globals: &Entries,
) -> Result<Result<Reading, SynFault>, AllocError>
    ensures { IfOk result (λ read. reading_of read ≡ reading_with (tree_of json.now) globals.now) }
{
    if stands(Sought::Outside, json, true) {
        return Ok(Ok(Reading::Outside));
    }
    match read_json(alloc, json, &Scope::Globals(globals), &Here::Root)? {
        Ok(expression) => Ok(Ok(Reading::Inside(expression))),
        Err(fault) => Ok(Err(fault)),
    }
}

/// Whether an expression contains a `global-state` node.
pub fn uses_globals(json: &Json) -> bool
    ensures { result ≡ uses_globals (tree_of json.now) }
{
    stands(Sought::Global, json, true)
}

#[cycle(reading)]
fn read_json(
    alloc: Global,
    json: &Json,
    scope: &Scope<'_>,
    here: &Here<'_>,
) -> Result<Result<Expr, SynFault>, AllocError>
    ensures { IfOk result (λ r. read_of r ≡ read_at (read (tree_of json.now)) scope.now here.now) }
{
    match json {
        Json::Null => Ok(Ok(Expr::Literal(Value::Null))),
        Json::Bool(flag) => Ok(Ok(Expr::Literal(Value::Bool(*flag)))),
        Json::Num(number) => read_number(alloc, read_decimal(number.as_str().as_bytes()), here),
        Json::Text(text) => Ok(Ok(Expr::Literal(Value::Text(text.share()?)))),
        Json::List(items) => read_array(alloc, items.as_slice(), scope, here),
        Json::Object(_) => refused(alloc, here, SynCode::BareObject),
    }
}

#[cycle(reading)]
fn read_array(
    alloc: Global,
    items: &[Json],
    scope: &Scope<'_>,
    here: &Here<'_>,
) -> Result<Result<Expr, SynFault>, AllocError>
    ensures { IfOk result (λ r. read_of r ≡ read_at (read (list (trees items.now))) scope.now here.now) }
{
    let Some(text) = head_text(items) else {
        return refused(alloc, here, SynCode::NoOperator);
    };
    match operator_named(text.as_str()) {
        Some(name) => read_node(alloc, name, items, scope, here),
        None => refused(alloc, here, SynCode::UnknownOperator),
    }
}

#[cycle(reading)]
fn read_node(
    alloc: Global,
    name: Name,
    items: &[Json],
    scope: &Scope<'_>,
    here: &Here<'_>,
) -> Result<Result<Expr, SynFault>, AllocError>
    ensures { IfOk result (λ r. read_of r ≡ read_at (node_of name (trees items.now)) scope.now here.now) }
{
    let shape = name.shape();
    if !has_arity(shape.arity, items) {
        return refused(alloc, here, SynCode::Arity);
    }
    if is_value(shape.layout) {
        return read_literal(alloc, items, here);
    }
    if is_global(shape.layout) {
        return read_global(alloc, items, scope, here);
    }
    if is_format(shape.layout) {
        let read = read_sections(alloc, items, scope, here)?;
        return finish_format(alloc, read);
    }
    match read_operator(alloc, shape.layout, name, items, scope)? {
        Ok(op) => {
            let arguments = read_within(alloc, shape.layout, &op, items, &*scope, here)?;
            Ok(finish(op, arguments))
        }
        Err(code) => refused(alloc, here, code),
    }
}

// The arguments of a node, its last element inside the names that it binds.
#[cycle(reading)]
fn read_within<'x>(
    alloc: Global,
    layout: ElementLayout,
    op: &'x Operator,
    items: &[Json],
    scope: &'x Scope<'x>,
    here: &Here<'_>,
) -> Result<Result<Arguments, SynFault>, AllocError>
    ensures { IfOk result (λ r. r ≡ read_at (arguments_within layout op.now items.now) scope.now here.now) }
{
    match op {
        Operator::Let(names) => {
            let inner = Scope::Inside(names, &*scope);
            read_arguments(alloc, layout, items, &inner, &*scope, here)
        }
        _ => read_arguments(alloc, layout, items, &*scope, &*scope, here),
    }
}

#[cycle(reading)]
fn read_arguments<'x>(
    alloc: Global,
    layout: ElementLayout,
    items: &[Json],
    inner: &'x Scope<'x>,
    scope: &'x Scope<'x>,
    here: &Here<'_>,
) -> Result<Result<Arguments, SynFault>, AllocError>
    ensures { IfOk result (λ r. r ≡ read_at (arguments_of layout items.now (scope_of inner.now)) scope.now here.now) }
{
    let mut arguments = Arguments::with_room(alloc, argument_count(layout, items.len()))?;
    for (i, item) in items.iter().enumerate() {
        if !is_part(layout, items.len(), i) {
            let there = Here::Index(i, &*here);
            let argument = if i + 1 == items.len() {
                read_json(alloc, item, inner, &there)?
            } else {
                read_json(alloc, item, scope, &there)?
            };
            match argument {
                Ok(argument) => arguments.push(argument)?,
                Err(fault) => return Ok(Err(fault)),
            }
        }
    }
    Ok(Ok(arguments))
}

// The contents of a `format` and the options after them.
#[cycle(reading)]
fn read_sections(
    alloc: Global,
    items: &[Json],
    scope: &Scope<'_>,
    here: &Here<'_>,
) -> Result<Result<FormatArguments, SynFault>, AllocError>
    ensures { IfOk result (λ r. r ≡ read_at (all_sections (elements_of items.now)) scope.now here.now) }
{
    let mut found = FormatArguments::new(alloc);
    let mut follows = false;
    for (i, item) in items.iter().enumerate() {
        if i > 0 {
            let there = Here::Index(i, &*here);
            let element = SectionElement { at: i, follows };
            match read_section(alloc, item, element, found, scope, &there)? {
                Ok(more) => found = more,
                Err(fault) => return Ok(Err(fault)),
            }
        }
        follows = i > 0 && !matches!(item, Json::Object(_));
    }
    Ok(Ok(found))
}

#[cycle(reading)]
fn read_section(
    alloc: Global,
    item: &Json,
    element: SectionElement,
    found: FormatArguments,
    scope: &Scope<'_>,
    here: &Here<'_>,
) -> Result<Result<FormatArguments, SynFault>, AllocError>
    ensures { IfOk result
        (λ r. r ≡ read_at (section_of element.at element.follows (tree_of item.now)) scope.now here.now found) }
{
    match item {
        Json::Object(options) if element.follows => {
            read_options(alloc, options.as_slice(), element.at, found, scope, here)
        }
        Json::Object(_) => no_section(alloc, here, SynCode::BareObject),
        _ => match read_json(alloc, item, scope, here)? {
            Ok(content) => Ok(Ok(found.with(element.at, Role::Content, content)?)),
            Err(fault) => Ok(Err(fault)),
        },
    }
}

#[cycle(reading)]
fn read_options(
    alloc: Global,
    options: &[Member],
    at: usize,
    found: FormatArguments,
    scope: &Scope<'_>,
    here: &Here<'_>,
) -> Result<Result<FormatArguments, SynFault>, AllocError>
    ensures { IfOk result (λ r. r ≡ read_at (options_read at (members_of options.now)) scope.now here.now found) }
{
    let mut found = found;
    for option in options {
        let Some(role) = option_named(option.key.as_str()) else {
            return no_section(alloc, here, SynCode::BareObject);
        };
        let there = Here::Key(option.key.as_str(), &*here);
        match read_json(alloc, &option.value, scope, &there)? {
            Ok(value) => found = found.with(at, role, value)?,
            Err(fault) => return Ok(Err(fault)),
        }
    }
    Ok(Ok(found))
}

fn refused(
    alloc: Global,
    here: &Here<'_>,
    code: SynCode,
) -> Result<Result<Expr, SynFault>, AllocError>
    ensures { IfOk result (λ r. read_of r ≡ fault (path_of here.now) code) }
{
    Ok(Err(SynFault {
        path: path_to(alloc, here)?,
        code,
    }))
}

fn no_section(
    alloc: Global,
    here: &Here<'_>,
    code: SynCode,
) -> Result<Result<FormatArguments, SynFault>, AllocError>
    ensures { IfOk result (λ r. r ≡ fault (path_of here.now) code) }
{
    Ok(Err(SynFault {
        path: path_to(alloc, here)?,
        code,
    }))
}

fn read_number(
    alloc: Global,
    number: Result<Fixed, NumFault>,
    here: &Here<'_>,
) -> Result<Result<Expr, SynFault>, AllocError>
    ensures { IfOk result (λ r. read_of r ≡ number_read number (path_of here.now)) }
{
    match number {
        Ok(number) => Ok(Ok(Expr::Literal(Value::Num(number)))),
        Err(_) => refused(alloc, here, SynCode::NumberRange),
    }
}

fn read_literal(
    alloc: Global,
    items: &[Json],
    here: &Here<'_>,
) -> Result<Result<Expr, SynFault>, AllocError>
    ensures { IfOk result (λ r. read_of r ≡ literal_read (second (trees items.now)) (path_of here.now)) }
{
    let Some(part) = second(items) else {
        return refused(alloc, here, SynCode::Part);
    };
    match from_json(alloc, part)? {
        Ok(value) => Ok(Ok(Expr::Literal(value))),
        Err(_) => refused(alloc, here, SynCode::NumberRange),
    }
}

fn read_global(
    alloc: Global,
    items: &[Json],
    scope: &Scope<'_>,
    here: &Here<'_>,
) -> Result<Result<Expr, SynFault>, AllocError>
    ensures { IfOk result (λ r. read_of r ≡ read_at (global_read (second_text (trees items.now))) scope.now here.now) }
{
    let Some(name) = second_text(items) else {
        return refused(alloc, here, SynCode::Part);
    };
    Ok(Ok(global_get(alloc, name, global_at(scope, name.as_str()))?))
}

// `get` of a name in an object that has its value, or is empty where there is none.
fn global_get(alloc: Global, name: &Text, value: Option<&Value>) -> Result<Expr, AllocError>
    ensures { IfOk result (λ e. term_of e ≡ global_term name.now (value_view value.entry)) }
{
    let mut members = Entries::new(alloc);
    if let Some(value) = value {
        members.push(name.share()?, copy(value)?)?;
    }
    let mut arguments = Arguments::with_room(alloc, 2)?;
    arguments.push(Expr::Literal(Value::Text(name.share()?)))?;
    arguments.push(Expr::Literal(Value::Map(SharedEntries::of(alloc, members)?)))?;
    Ok(Expr::Node(Operator::Get, arguments))
}

fn finish(op: Operator, arguments: Result<Arguments, SynFault>) -> Result<Expr, SynFault>
    ensures { read_of result ≡ then_node op arguments }
{
    match arguments {
        Ok(arguments) => Ok(Expr::Node(op, arguments)),
        Err(fault) => Err(fault),
    }
}

// How many arguments are among so many elements, for which room is made.
fn argument_count(layout: ElementLayout, elements: usize) -> usize
    requires { elements < 2 ^ 63 }
    ensures { result ≤ elements }
{
    let mut count = 0;
    for at in 0..elements {
        if !is_part(layout, elements, at) {
            count += 1;
        }
    }
    count
}

fn is_part(layout: ElementLayout, elements: usize, at: usize) -> bool
    requires { at < 2 ^ 63 }
    ensures { result ≡ is_part (element_place layout elements at) }
{
    matches!(layout.place(elements, at), ElementPlace::Part)
}

fn is_value(layout: ElementLayout) -> bool
    ensures { result ≡ is_value_layout layout }
{
    matches!(layout, ElementLayout::Value)
}

fn is_global(layout: ElementLayout) -> bool
    ensures { result ≡ is_global_layout layout }
{
    matches!(layout, ElementLayout::Global)
}
