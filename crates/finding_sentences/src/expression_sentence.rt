//! Why an expression is not read or not well typed, and what it may not read.

ghost use Rattle.std.specs.Prelude.{◌≡◌, ◌++◌, option_map, OnOk, IfOk, ◌∷◌, [], Some, codes};
ghost use Rattle.decimal_json.specs.View.{tree_at, tree_of, trees};
ghost use Rattle.property_tables.specs.RowView.{row_seen};
ghost use Rattle.expr_syntax.specs.ReadView.{row_view};
ghost use Rattle.finding_sentences.specs.ExpressionSentence.{both_kinds, even_arguments, no_kinds, odd_arguments};
ghost use Rattle.finding_sentences.specs.ExpressionSentence.{arity_sentence, arity_words, compared_sentence};
ghost use Rattle.finding_sentences.specs.ExpressionSentence.{elements_of, expression_sentence, input_sentence};
ghost use Rattle.finding_sentences.specs.ExpressionSentence.{kind_alone, kind_sentence, layout_words, part_sentence};
ghost use Rattle.finding_sentences.specs.ExpressionSentence.{part_words, read_sentence, typed_sentence, zoom_sentence};
ghost use Rattle.finding_sentences.specs.ExpressionSentence.{between_words, check_sentence, compared_kinds};
ghost use Rattle.finding_sentences.specs.ExpressionSentence.{name_or_rule, node_at};
ghost use Rattle.decimal_json.specs.Tree.{Tree};
ghost use Rattle.expr_syntax.specs.Elements.{after_head, head_name, head_text, second, second_text};
ghost use Rattle.expr_syntax.specs.TermView.{term_of};
ghost use Rattle.expr_types.specs.Checked.{checked};
ghost use Rattle.finding_sentences.specs.Views.{judged_kind, judged_sentence, wanted_seen};
ghost use Rattle.finding_sentences.specs.Pairs.{pair_of};
ghost use Rattle.finding_sentences.specs.Words.{words};
ghost use Rattle.expr_syntax.specs.declared.fault.SynCode.{SynCode};

use crate::node_words::{node_at, write_node};
use crate::pairs::pair_of;
use crate::wanted::{allowed_words, write_kind};
use crate::wanted_node::{WantedNode, wanted_at, write_wanted};
use crate::words::{BREAKS_RULE, PAST_BOUND, write_count, write_counted};
use decimal_json::{Json, PathPart, write_text};
use expr_syntax::{
    Arity, ElementLayout, Expr, Name, OperatorRow, Reading, SynCode, operator_named, read_expr,
};
use expr_types::{TypeCode, TypeFault, Typed, check, check_free};
use prop_values::{Kind, Want};
use property_tables::Row;
use std::alloc::{AllocError, Global};

/// An expression that is wanted as this: as the value of a row, or as a filter where there is none.
#[derive(Clone, Copy)]
pub(crate) struct WantedValue<'a> {
    pub(crate) json: &'a Json,
    pub(crate) want: &'a Want,
    pub(crate) row: Option<&'a Row>,
}

/// Appends the first fault of an expression, whose node is at a path.
pub(crate) fn write_expression(
    value: &WantedValue<'_>,
    more: &[PathPart],
    out: &mut Vec<u8>,
) -> Result<(), AllocError>
    ensures { OnOk result (out.new.items
        ≡ out.old.items ++ expression_sentence value.now.want.now (option_map (λ r. row_seen r.now) value.now.row)
        (tree_of value.now.json.now) more.now) }
{
    let Some(node) = node_at(value.json, more) else {
        return out.extend_from_slice(BREAKS_RULE);
    };
    match read_expr(*out.allocator(), value.json)? {
        Ok(Reading::Inside(expression)) => write_check(value, &expression, node, more, out),
        Ok(Reading::Outside) => out.extend_from_slice(BREAKS_RULE),
        Err(fault) => {
            write_read(fault.code, node, out)?;
            write_code(fault.code.name(), out)
        }
    }
}

#[tactic(auto, using(crate::proofs::TypingLaws::judged_sentence_is))]
fn write_check(
    value: &WantedValue<'_>,
    expression: &Expr,
    node: &Json,
    more: &[PathPart],
    out: &mut Vec<u8>,
) -> Result<(), AllocError>
    ensures { OnOk result (out.new.items ≡ out.old.items
        ++ check_sentence value.now.want.now (tree_of value.now.json.now) more.now (tree_of node.now)
        (checked (term_of expression.now) value.now.want.now (option_map (λ r. row_seen r.now) value.now.row))) }
{
    let checked = check(*out.allocator(), expression, value.want, value.row)?;
    write_judged(value, checked, node, more, out)
}

fn write_judged(
    value: &WantedValue<'_>,
    checked: Result<Typed<'_>, TypeFault>,
    node: &Json,
    more: &[PathPart],
    out: &mut Vec<u8>,
) -> Result<(), AllocError>
    ensures { OnOk result (out.new.items ≡ out.old.items
        ++ judged_sentence value.now.want.now (tree_of value.now.json.now) more.now (tree_of node.now) checked.entry) }
{
    match checked {
        Ok(_) => out.extend_from_slice(BREAKS_RULE),
        Err(fault) => {
            let wanted = wanted_at(value.json, more, value.want);
            write_typed(fault.code, wanted, node, out)?;
            write_code(fault.code.name(), out)
        }
    }
}

// The rule, with the code of the fault.
fn write_code(code: &str, out: &mut Vec<u8>) -> Result<(), AllocError>
    ensures { OnOk result (out.new.items ≡ out.old.items ++ words (codes " [V16 " ∷ code.now ∷ codes "]" ∷ [])) }
{
    out.extend_from_slice(b" [V16 ")?;
    out.extend_from_slice(code.as_bytes())?;
    out.extend_from_slice(b"]")?;
    Ok(())
}

// A fault of reading at a node.
fn write_read(code: SynCode, node: &Json, out: &mut Vec<u8>) -> Result<(), AllocError>
    ensures { OnOk result (out.new.items ≡ out.old.items ++ read_sentence code (elements_of (tree_of node.now))) }
{
    write_read_of(code, elements_of(node), out)
}

fn elements_of(node: &Json) -> &[Json]
    ensures { trees result.now ≡ elements_of (tree_of node.now) }
{
    match node {
        Json::List(items) => items.as_slice(),
        _ => &[],
    }
}

fn write_read_of(code: SynCode, items: &[Json], out: &mut Vec<u8>) -> Result<(), AllocError>
    ensures { OnOk result (out.new.items ≡ out.old.items ++ read_sentence code (trees items.now)) }
{
    match code {
        SynCode::NoOperator => out.extend_from_slice(
            b"an expression begins with the name of an operator, and a list of values is written [\"literal\", [..]]",
        ),
        SynCode::UnknownOperator => {
            write_name_or_rule(b"", head_text(items), b" is no operator", out)
        }
        SynCode::Arity => write_arity(items, out),
        SynCode::Part => write_part(items, out),
        SynCode::BareObject => out.extend_from_slice(
            b"an object is no expression, and is written [\"literal\", {..}]",
        ),
        SynCode::NumberRange => out.extend_from_slice(PAST_BOUND),
        SynCode::UnknownVar => {
            write_name_or_rule(b"no \"let\" around it binds ", second_text(items), b"", out)
        }
    }
}

fn head_text(items: &[Json]) -> Option<&str>
    ensures { option_map (λ text. text.now) result ≡ head_text (trees items.now) }
{
    match items {
        [Json::Text(text), ..] => Some(text.as_str()),
        _ => None,
    }
}

fn second_text(items: &[Json]) -> Option<&str>
    ensures { option_map (λ text. text.now) result ≡ second_text (trees items.now) }
{
    match second(items) {
        Some(Json::Text(text)) => Some(text.as_str()),
        _ => None,
    }
}

#[tactic(auto, using(crate::proofs::TreeLaws::none_after_one))]
fn second(items: &[Json]) -> Option<&Json>
    ensures { tree_at result ≡ second (trees items.now) }
{
    match items {
        [] => None,
        [_] => None,
        [_, element, ..] => Some(element),
    }
}

fn write_name_or_rule(
    before: &[u8],
    name: Option<&str>,
    after: &[u8],
    out: &mut Vec<u8>,
) -> Result<(), AllocError>
    ensures { OnOk result (out.new.items
        ≡ out.old.items ++ name_or_rule before.now (option_map (λ name. name.now) name.entry) after.now) }
{
    let Some(name) = name else {
        return out.extend_from_slice(BREAKS_RULE);
    };
    out.extend_from_slice(before)?;
    write_text(name, out)?;
    out.extend_from_slice(after)
}

pub(crate) fn head_name(items: &[Json]) -> Option<Name>
    ensures { result ≡ head_name (trees items.now) }
{
    match items {
        [Json::Text(name), ..] => operator_named(name.as_str()),
        _ => None,
    }
}

#[tactic(auto, using(crate::proofs::TreeLaws::counts_items))]
fn write_arity(items: &[Json], out: &mut Vec<u8>) -> Result<(), AllocError>
    ensures { OnOk result (out.new.items ≡ out.old.items ++ read_sentence SynCode.Arity (trees items.now)) }
{
    match head_name(items) {
        Some(name) => write_arity_of(name.row(), items.len().saturating_sub(1), out),
        None => out.extend_from_slice(BREAKS_RULE),
    }
}

fn write_arity_of(row: &OperatorRow, found: usize, out: &mut Vec<u8>) -> Result<(), AllocError>
    ensures { OnOk result (out.new.items ≡ out.old.items ++ arity_sentence (row_view row.now) found) }
{
    out.extend_from_slice(row.text.as_bytes())?;
    out.extend_from_slice(b" takes ")?;
    write_arguments(row.arity, out)?;
    out.extend_from_slice(layout_words(row.layout).as_bytes())?;
    out.extend_from_slice(b", found ")?;
    write_count(found, out)
}

fn write_arguments(arity: Arity, out: &mut Vec<u8>) -> Result<(), AllocError>
    ensures { OnOk result (out.new.items ≡ out.old.items ++ arity_words arity) }
{
    match arity {
        Arity::Exactly(count) => write_counted(count, b"argument", b"arguments", out),
        Arity::Between(least, most) => {
            write_count(least, out)?;
            out.extend_from_slice(between(least, most).as_bytes())?;
            write_counted(most, b"argument", b"arguments", out)
        }
        Arity::AtLeast(count) => {
            out.extend_from_slice(b"at least ")?;
            write_counted(count, b"argument", b"arguments", out)
        }
        Arity::OddFrom(count) => write_odd(count, out),
        Arity::EvenFrom(count) => write_even(count, out),
    }
}

#[tactic(auto, unfolding(crate::specs::ExpressionSentence::odd_arguments))]
fn write_odd(count: usize, out: &mut Vec<u8>) -> Result<(), AllocError>
    ensures { OnOk result (out.new.items ≡ out.old.items ++ odd_arguments count) }
{
    out.extend_from_slice(b"an odd number of arguments, at least ")?;
    write_count(count, out)?;
    Ok(())
}

#[tactic(auto, unfolding(crate::specs::ExpressionSentence::even_arguments))]
fn write_even(count: usize, out: &mut Vec<u8>) -> Result<(), AllocError>
    ensures { OnOk result (out.new.items ≡ out.old.items ++ even_arguments count) }
{
    out.extend_from_slice(b"an even number of arguments, at least ")?;
    write_count(count, out)?;
    Ok(())
}

fn between(least: usize, most: usize) -> &'static str
    ensures { result.now ≡ between_words least most }
{
    if least == most.saturating_sub(1) {
        " or "
    } else {
        " to "
    }
}

// What the arguments are, where they are no plain list.
fn layout_words(layout: ElementLayout) -> &'static str
    ensures { result.now ≡ layout_words layout }
{
    match layout {
        ElementLayout::Cases => " (a condition and an output in turn, and a last output)",
        ElementLayout::Labels => " (an input, labels and an output in turn, and a last output)",
        ElementLayout::Stops => " (an input, an output, then an input and an output in turn)",
        ElementLayout::Ramp => " (a curve, an input, then an input and an output in turn)",
        ElementLayout::Bindings => " (a name and a value in turn, and a last value)",
        _ => "",
    }
}

fn write_part(items: &[Json], out: &mut Vec<u8>) -> Result<(), AllocError>
    ensures { OnOk result (out.new.items ≡ out.old.items ++ read_sentence SynCode.Part (trees items.now)) }
{
    let Some(name) = head_name(items) else {
        return out.extend_from_slice(BREAKS_RULE);
    };
    let row = name.row();
    out.extend_from_slice(row.text.as_bytes())?;
    out.extend_from_slice(b": ")?;
    out.extend_from_slice(part_words(row.layout).as_bytes())
}

// What the parts of an operator are.
fn part_words(layout: ElementLayout) -> &'static str
    ensures { result.now ≡ part_words layout }
{
    match layout {
        ElementLayout::Items => {
            "the items are \"string\", \"number\" or \"boolean\", and their count is a whole number"
        }
        ElementLayout::Labels => {
            "labels are texts or whole numbers, or arrays of these, and no label is given twice"
        }
        ElementLayout::Stops => "the inputs of stops are numbers and must ascend",
        ElementLayout::Ramp => {
            "the curve is [\"linear\"] or [\"exponential\", BASE], and the inputs of stops are numbers and must ascend"
        }
        ElementLayout::Bindings => "the names are texts of letters, digits and _",
        ElementLayout::Variable => "the name is a text",
        ElementLayout::Global => "the name is a text",
        _ => "a part has another form",
    }
}

// A fault of types at a node.
fn write_typed(
    code: TypeCode,
    wanted: Option<WantedNode>,
    node: &Json,
    out: &mut Vec<u8>,
) -> Result<(), AllocError>
    ensures { OnOk result (out.new.items
        ≡ out.old.items ++ typed_sentence code (option_map wanted_seen wanted) (tree_of node.now)) }
{
    match code {
        TypeCode::Kind => write_misfit(wanted, node, out),
        TypeCode::NotInterpolable => out.extend_from_slice(
            b"only numbers, colors and arrays of numbers can be interpolated",
        ),
        TypeCode::NotComparable => write_compared(node, out),
        TypeCode::Input | TypeCode::ZoomPlace => out.extend_from_slice(BREAKS_RULE),
    }
}

fn write_misfit(
    wanted: Option<WantedNode>,
    node: &Json,
    out: &mut Vec<u8>,
) -> Result<(), AllocError>
    ensures { OnOk result (out.new.items
        ≡ out.old.items ++ kind_sentence (option_map wanted_seen wanted) (kind_alone (tree_of node.now))) }
{
    let Some(wanted) = wanted else {
        return out.extend_from_slice(BREAKS_RULE);
    };
    out.extend_from_slice(b"must be ")?;
    write_wanted(&wanted, out)?;
    if let Some(kind) = kind_alone(*out.allocator(), node)? {
        out.extend_from_slice(b", found ")?;
        write_kind(kind, out)?;
    }
    Ok(())
}

fn write_compared(node: &Json, out: &mut Vec<u8>) -> Result<(), AllocError>
    ensures { OnOk result (out.new.items
        ≡ out.old.items ++ compared_sentence (tree_of node.now) (elements_of (tree_of node.now))) }
{
    let (first, second) = compared_kinds(*out.allocator(), elements_of(node))?;
    match (first, second) {
        (Some(first), Some(second)) => write_both(node, first, second, out),
        _ => write_neither(node, out),
    }
}

#[tactic(auto, unfolding(crate::specs::ExpressionSentence::both_kinds))]
fn write_both(node: &Json, first: Kind, second: Kind, out: &mut Vec<u8>) -> Result<(), AllocError>
    ensures { OnOk result (out.new.items ≡ out.old.items ++ both_kinds (tree_of node.now) first second) }
{
    write_node(node, out)?;
    out.extend_from_slice(b" cannot compare ")?;
    write_kind(first, out)?;
    out.extend_from_slice(b" with ")?;
    write_kind(second, out)?;
    Ok(())
}

#[tactic(auto, unfolding(crate::specs::ExpressionSentence::no_kinds))]
fn write_neither(node: &Json, out: &mut Vec<u8>) -> Result<(), AllocError>
    ensures { OnOk result (out.new.items ≡ out.old.items ++ no_kinds (tree_of node.now)) }
{
    write_node(node, out)?;
    out.extend_from_slice(b" cannot compare values of these types")?;
    Ok(())
}

// The kinds of the two arguments, where there are two.
fn compared_kinds(alloc: Global, items: &[Json]) -> Result<(Option<Kind>, Option<Kind>), AllocError>
    ensures { IfOk result
        (λ kinds. (node : Tree) → compared_kinds node kinds.0 kinds.1 ≡ compared_sentence node (trees items.now)) }
{
    match pair_after(items) {
        Some((first, second)) => Ok((kind_alone(alloc, first)?, kind_alone(alloc, second)?)),
        None => Ok((None, None)),
    }
}

// The two elements after the name, where there are just two.
fn pair_after(items: &[Json]) -> Option<(&Json, &Json)>
    ensures { option_map (λ p. (tree_of p.0.now, tree_of p.1.now)) result ≡ pair_of (after_head (trees items.now)) }
{
    match items {
        [] => None,
        [_, elements @ ..] => pair_of(elements),
    }
}

// What an expression gives by itself, where it can be typed by itself.
#[tactic(auto, using(crate::proofs::TypingLaws::judged_kind_is))]
fn kind_alone(alloc: Global, node: &Json) -> Result<Option<Kind>, AllocError>
    ensures { IfOk result (λ kind. kind ≡ kind_alone (tree_of node.now)) }
{
    match read_expr(alloc, node)? {
        Ok(Reading::Inside(expression)) => Ok(kind_of(check_free(alloc, &expression)?)),
        Ok(Reading::Outside) => Ok(None),
        Err(_) => Ok(None),
    }
}

fn kind_of(checked: Result<Typed<'_>, TypeFault>) -> Option<Kind>
    ensures { result ≡ judged_kind checked.entry }
{
    match checked {
        Ok(typed) => Some(typed.kind()),
        Err(_) => None,
    }
}

/// Appends what a node reads and may not read.
pub(crate) fn write_input(
    row: Option<&Row>,
    node: &Json,
    out: &mut Vec<u8>,
) -> Result<(), AllocError>
    ensures { OnOk result (out.new.items
        ≡ out.old.items ++ input_sentence (option_map (λ r. row_seen r.now) row.entry) (tree_of node.now)) }
{
    out.extend_from_slice(b"may read ")?;
    out.extend_from_slice(allowed_words(row).as_bytes())?;
    out.extend_from_slice(b", found ")?;
    write_node(node, out)
}

/// `zoom` is at a place where it may not be.
pub(crate) const ZOOM_SENTENCE: &[u8] =
    b"[\"zoom\"] is the input of a \"step\" or \"interpolate\" that is the whole value, and is there once";
