//! A `let` without the bindings that its body does not ask for.

ghost use Rattle.std.specs.Prelude.{◌≡◌, IfOk, option_map};
ghost use Rattle.style_simplify.specs.AskedBindings.{unmarked, asked_marks, all_marked, some_marked, is_asked_at};
ghost use Rattle.style_simplify.specs.AskedBindings.{asked_elements, shorter_by_marks, shorter_let};
ghost use Rattle.style_simplify.specs.View.{element_seen, elements_seen};

use crate::element::{SimpleElement, copy_of, let_of};
use decimal_json::Text;
use expr_syntax::Names;
use prop_values::Want;
use std::alloc::{AllocError, Global};

// A mark for each binding, of one that is asked for true.
fn asked_marks(alloc: Global, names: &Names, asks: &[Text]) -> Result<Vec<bool>, AllocError>
    ensures { IfOk result (λ marks. marks.items ≡ asked_marks names.now asks.now) }
{
    let mut marks = unmarked(alloc, names.as_slice())?;
    for asked in asks {
        if let Some(place) = names.last_place(asked.as_str()) {
            marks[place] = true;
        }
    }
    Ok(marks)
}

fn unmarked(alloc: Global, names: &[Text]) -> Result<Vec<bool>, AllocError>
    ensures { IfOk result (λ marks. marks.items ≡ unmarked names.now) }
{
    let mut marks = Vec::new(alloc);
    for _name in names {
        marks.push(false)?;
    }
    Ok(marks)
}

fn all_marked(marks: &[bool]) -> bool
    ensures { result ≡ all_marked marks.now }
{
    for mark in marks {
        if !*mark {
            return false;
        }
    }
    true
}

fn some_marked(marks: &[bool]) -> bool
    ensures { result ≡ some_marked marks.now }
{
    for mark in marks {
        if *mark {
            return true;
        }
    }
    false
}

// Elements 1 and 2 are the name and the expression of the first binding, and so on.
fn is_asked_at(marks: &[bool], at: usize) -> bool
    ensures { result ≡ is_asked_at marks.now at }
{
    if at == 0 {
        return true;
    }
    match marks.get((at - 1) / 2) {
        Some(mark) => *mark,
        None => false,
    }
}

#[tactic(auto, using(crate::proofs::ElementLaws::seen_end, crate::proofs::ElementLaws::seen_more))]
fn asked_elements(
    alloc: Global,
    marks: &[bool],
    bindings: &[SimpleElement],
) -> Result<Vec<SimpleElement>, AllocError>
    ensures { IfOk result (λ made. elements_seen made.items ≡ asked_elements marks.now 0 (elements_seen bindings.now)) }
{
    let mut made = Vec::new(alloc);
    for (at, element) in bindings.iter().enumerate() {
        if is_asked_at(marks, at) {
            made.push(copy_of(alloc, element)?)?;
        }
    }
    Ok(made)
}

fn shorter_by_marks(
    alloc: Global,
    marks: &[bool],
    names: &Names,
    want: &Want,
    bindings: &[SimpleElement],
    body: &SimpleElement,
) -> Result<Option<SimpleElement>, AllocError>
    ensures { IfOk result (λ made. option_map element_seen made
        ≡ shorter_by_marks marks.now names.now want.now (elements_seen bindings.now) (element_seen body.now)) }
{
    if all_marked(marks) {
        return Ok(None);
    }
    let body = copy_of(alloc, body)?;
    if some_marked(marks) {
        let left = asked_elements(alloc, marks, bindings)?;
        Ok(Some(let_of(alloc, names, want, left, body)?))
    } else {
        Ok(Some(body))
    }
}

/// What a `let` becomes, by the elements before its body and its body, or `None` exactly where the body asks for
/// each binding.
pub(crate) fn shorter_let(
    alloc: Global,
    names: &Names,
    want: &Want,
    bindings: &[SimpleElement],
    body: &SimpleElement,
) -> Result<Option<SimpleElement>, AllocError>
    ensures { IfOk result (λ made. option_map element_seen made
        ≡ shorter_let names.now want.now (elements_seen bindings.now) (element_seen body.now)) }
{
    let marks = asked_marks(alloc, names, body.asks.as_slice())?;
    shorter_by_marks(alloc, marks.as_slice(), names, want, bindings, body)
}
