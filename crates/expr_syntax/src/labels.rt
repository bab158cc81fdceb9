//! The labels of `match`.

ghost use Rattle.std.specs.Prelude.{◌≡◌, IfOk, length};
ghost use Rattle.std.specs.List.{list_all};
ghost use Rattle.decimal_json.specs.View.{tree_of, trees};
ghost use Rattle.expr_syntax.specs.LabelLists.{is_number, is_text};
ghost use Rattle.expr_syntax.specs.Parts.{match_operator, labels_operator, labels_among, collect_part, collect_some};
ghost use Rattle.expr_syntax.specs.Parts.{collect_labels};
ghost use Rattle.expr_syntax.specs.Parts.{collect_label, collect_number, with_label, are_of_one_type};

use crate::expression::Operator;
use crate::fault::SynCode;
use crate::label_index::LabelList;
use crate::parts::{Label, Labelled, Labels};
use crate::rows::is_label;
use decimal_json::Json;
use fixed_num::{Fixed, NumFault, read_decimal};
use std::alloc::{AllocError, Global};

/// The labels within the bound, and whether there is one past it.
#[derive(Drop)]
pub(crate) struct Collected {
    labels: LabelList,
    past: bool,
}

/// `match` with its labels, which are among the elements of its node.
pub(crate) fn read_match(
    alloc: Global,
    items: &[Json],
) -> Result<Result<Operator, SynCode>, AllocError>
    ensures { IfOk result (λ read. read ≡ match_operator (labels_among (length items.now) (trees items.now))) }
{
    match collect_parts(alloc, items)? {
        Some(found) => finish(alloc, found),
        None => Ok(Err(SynCode::Part)),
    }
}

fn finish(alloc: Global, found: Collected) -> Result<Result<Operator, SynCode>, AllocError>
    ensures { IfOk result (λ read. read ≡ labels_operator found) }
{
    if !are_of_one_type(&found) {
        return Ok(Err(SynCode::Part));
    }
    let Collected { labels, past } = found;
    let Some(labels) = Labels::of(alloc, labels)? else {
        return Ok(Err(SynCode::Part));
    };
    if past {
        return Ok(Err(SynCode::NumberRange));
    }
    Ok(Ok(Operator::Match(labels)))
}

fn collect_parts(alloc: Global, items: &[Json]) -> Result<Option<Collected>, AllocError>
    ensures { IfOk result (λ found. found ≡ labels_among (length items.now) (trees items.now)) }
{
    let mut found = Collected {
        labels: LabelList::new(alloc),
        past: false,
    };
    let mut output = 0;
    for (i, item) in items.iter().enumerate() {
        if is_label(items.len(), i) {
            match collect_part(found, item, output)? {
                Some(next) => found = next,
                None => return Ok(None),
            }
            output += 1;
        }
    }
    Ok(Some(found))
}

fn collect_part(
    found: Collected,
    part: &Json,
    output: usize,
) -> Result<Option<Collected>, AllocError>
    ensures { IfOk result (λ next. next ≡ collect_part output (tree_of part.now) found) }
{
    match part {
        Json::List(items) => collect_some(found, items.as_slice(), output),
        label => collect_label(found, label, output),
    }
}

#[tactic(auto, using(crate::proofs::LabelLaws::some_labels))]
fn collect_some(
    found: Collected,
    labels: &[Json],
    output: usize,
) -> Result<Option<Collected>, AllocError>
    ensures { IfOk result (λ next. next ≡ collect_some output (trees labels.now) found) }
{
    match labels {
        [] => Ok(None),
        [_, ..] => {
            let collected = collect_labels(found, labels, output)?;
            Ok(collected)
        }
    }
}

fn collect_labels(
    found: Collected,
    labels: &[Json],
    output: usize,
) -> Result<Option<Collected>, AllocError>
    ensures { IfOk result (λ next. next ≡ collect_labels output (trees labels.now) found) }
{
    let mut found = found;
    for label in labels {
        match collect_label(found, label, output)? {
            Some(next) => found = next,
            None => return Ok(None),
        }
    }
    Ok(Some(found))
}

fn collect_label(
    found: Collected,
    label: &Json,
    output: usize,
) -> Result<Option<Collected>, AllocError>
    ensures { IfOk result (λ next. next ≡ collect_label output (tree_of label.now) found) }
{
    match label {
        Json::Text(text) => {
            let label = Label::Text(text.share()?);
            Ok(Some(with_label(found, label, output)?))
        }
        Json::Num(number) => {
            collect_number(found, read_decimal(number.as_str().as_bytes()), output)
        }
        _ => Ok(None),
    }
}

fn collect_number(
    found: Collected,
    number: Result<Fixed, NumFault>,
    output: usize,
) -> Result<Option<Collected>, AllocError>
    ensures { IfOk result (λ next. next ≡ collect_number output number found) }
{
    match number {
        Ok(number) if number.millionths().unsigned_abs() % 1_000_000 == 0 => {
            Ok(Some(with_label(found, Label::Number(number), output)?))
        }
        Ok(_) => Ok(None),
        Err(_) => Ok(Some(Collected {
            past: true,
            ..found
        })),
    }
}

fn with_label(found: Collected, label: Label, output: usize) -> Result<Collected, AllocError>
    ensures { IfOk result (λ next. next ≡ with_label output label found) }
{
    let mut found = found;
    found.labels.push(Labelled { label, output })?;
    Ok(found)
}

fn are_of_one_type(found: &Collected) -> bool
    ensures { result ≡ are_of_one_type found.now }
{
    are_numbers(found.labels.as_slice()) || (!found.past && are_texts(found.labels.as_slice()))
}

fn are_numbers(labels: &[Labelled]) -> bool
    ensures { result ≡ list_all is_number labels.now }
{
    for label in labels {
        if !matches!(label.label, Label::Number(_)) {
            return false;
        }
    }
    true
}

fn are_texts(labels: &[Labelled]) -> bool
    ensures { result ≡ list_all is_text labels.now }
{
    for label in labels {
        if matches!(label.label, Label::Number(_)) {
            return false;
        }
    }
    true
}
