//! What the lines of a desk are answered, and in which texts.

ghost use Rattle.std.specs.Prelude.{◌≡◌, ◌++◌, IfOk};
ghost use Rattle.view_desk.specs.DeskRun.{desk_refusal_name, desk_text, is_desk_refused, view_line};
ghost use Rattle.view_desk.specs.View.{answer_seen};

use crate::script::DeskLineAnswer;
use decimal_json::{Text, write_text};
use edit_script::LineFault;
use edit_session::Answer;
use script_runs::{LineAnswer, answer_of, fault_answer, ok_answer, refused_answer};
use std::alloc::{AllocError, Global};

/// Why a line of views is refused.
#[derive(Clone, Copy, Debug, PartialEq, Eq)]
pub enum DeskRefusal {
    /// No view of this name is open.
    UnknownView,
    /// A view of this name is open.
    ViewTaken,
    /// The zoom is not from 0 to 24.
    ZoomRange,
    /// Eight views are open.
    ViewLimit,
}

/// What a line of a desk is answered.
#[derive(Drop)]
pub enum DeskAnswer {
    /// It is no line of a desk.
    Fault(LineFault),
    Refused(DeskRefusal),
    /// A view was opened or closed.
    Done,
    /// The answer to a line of the style.
    Style(Answer),
    /// The name of a view, and the answer to a line of it.
    View(Text, Answer),
}

/// The texts of the answer to the line of this number.
pub(crate) fn line_answer(
    alloc: Global,
    number: usize,
    answer: DeskAnswer,
) -> Result<DeskLineAnswer, AllocError>
    ensures text { IfOk result (λ line. line.view.items ++ line.text.items ≡ desk_text number (answer_seen answer)) }
    ensures refused { IfOk result (λ line. line.is_refused ≡ is_desk_refused (answer_seen answer)) }
{
    match answer {
        DeskAnswer::Fault(fault) => alone(alloc, fault_answer(alloc, number, fault)?),
        DeskAnswer::Refused(refusal) => {
            alone(alloc, refused_answer(alloc, number, refusal_name(refusal))?)
        }
        DeskAnswer::Done => alone(alloc, ok_answer(alloc, number)?),
        DeskAnswer::Style(answer) => alone(alloc, answer_of(alloc, number, answer)?),
        DeskAnswer::View(name, answer) => {
            let view = view_line(alloc, name.as_str())?;
            let line = answer_of(alloc, number, answer)?;
            Ok(DeskLineAnswer {
                view,
                text: line.text,
                is_refused: line.is_refused,
            })
        }
    }
}

// An answer without the line of a view.
fn alone(alloc: Global, line: LineAnswer) -> Result<DeskLineAnswer, AllocError>
    ensures text { IfOk result (λ made. made.view.items ++ made.text.items ≡ line.text.items) }
    ensures refused { IfOk result (λ made. made.is_refused ≡ line.is_refused) }
{
    Ok(DeskLineAnswer {
        view: Vec::new(alloc),
        text: line.text,
        is_refused: line.is_refused,
    })
}

// The line that says of which view an answer is.
fn view_line(alloc: Global, name: &str) -> Result<Vec<u8>, AllocError>
    ensures { IfOk result (λ line. line.items ≡ view_line name.now) }
{
    let mut line = Vec::new(alloc);
    line.extend_from_slice(b"view ")?;
    write_text(name, &mut line)?;
    line.push(b'\n')?;
    Ok(line)
}

fn refusal_name(refusal: DeskRefusal) -> &'static str
    ensures { result.now ≡ desk_refusal_name refusal }
{
    match refusal {
        DeskRefusal::UnknownView => "UnknownView",
        DeskRefusal::ViewTaken => "ViewTaken",
        DeskRefusal::ZoomRange => "ZoomRange",
        DeskRefusal::ViewLimit => "ViewLimit",
    }
}
