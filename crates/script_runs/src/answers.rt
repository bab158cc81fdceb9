//! The texts of the answers to the lines of a script.

ghost use Rattle.std.specs.Prelude.{◌≡◌, ◌++◌, codes, decimal, true, false, IfOk, OnOk};
ghost use Rattle.edit_session.specs.View.{reply_seen};
ghost use Rattle.program_runs.specs.Outcome.{line};
ghost use Rattle.script_runs.specs.AnswerTexts.{fault_name, is_refused, ok_line, refusal_text, refused_line};
ghost use Rattle.script_runs.specs.AnswerTexts.{reply_text, stats_line};

use crate::script::LineAnswer;
use decimal_json::write_path;
use edit_script::LineFault;
use edit_session::{Answer, Refusal};
use itoa::Buffer;
use std::alloc::{AllocError, Global};
use style_rules::Finding;

/// What the line of this number is answered, by the answer of a session.
pub fn answer_of(alloc: Global, number: usize, answer: Answer) -> Result<LineAnswer, AllocError>
    ensures text { IfOk result (λ line. line.text.items ≡ reply_text number (reply_seen answer)) }
    ensures refused { IfOk result (λ line. line.is_refused ≡ is_refused (reply_seen answer)) }
{
    match answer {
        Answer::Done => ok_answer(alloc, number),
        Answer::Listing(text) => Ok(LineAnswer {
            text,
            is_refused: false,
        }),
        Answer::Stats(count) => stats_answer(alloc, count),
        Answer::Style(text) => style_answer(text),
        Answer::Refused(refusal) => refusal_answer(alloc, number, &refusal),
    }
}

/// That the line of this number is no command.
pub fn fault_answer(
    alloc: Global,
    number: usize,
    fault: LineFault,
) -> Result<LineAnswer, AllocError>
    ensures text { IfOk result (λ line. line.text.items ≡ refused_line number (fault_name fault)) }
    ensures refused { IfOk result (λ line. line.is_refused ≡ true) }
{
    refused_answer(alloc, number, fault_name(fault))
}

/// That the line of this number is refused, by the name of the cause.
pub fn refused_answer(alloc: Global, number: usize, name: &str) -> Result<LineAnswer, AllocError>
    ensures text { IfOk result (λ line. line.text.items ≡ refused_line number name.now) }
    ensures refused { IfOk result (λ line. line.is_refused ≡ true) }
{
    let mut text = Vec::new(alloc);
    write_refusal_front(number, &mut text)?;
    text.extend_from_slice(name.as_bytes())?;
    text.extend_from_slice(b"\n")?;
    Ok(LineAnswer {
        text,
        is_refused: true,
    })
}

fn refusal_answer(alloc: Global, number: usize, refusal: &Refusal) -> Result<LineAnswer, AllocError>
    ensures text { IfOk result (λ line. line.text.items ≡ refused_line number (refusal_text refusal.now)) }
    ensures refused { IfOk result (λ line. line.is_refused ≡ true) }
{
    let mut text = Vec::new(alloc);
    write_refusal_front(number, &mut text)?;
    write_refusal(refusal, &mut text)?;
    text.extend_from_slice(b"\n")?;
    Ok(LineAnswer {
        text,
        is_refused: true,
    })
}

fn stats_answer(alloc: Global, count: u64) -> Result<LineAnswer, AllocError>
    ensures text { IfOk result (λ answer. answer.text.items ≡ stats_line count) }
    ensures refused { IfOk result (λ answer. answer.is_refused ≡ false) }
{
    let mut digits = Buffer::new();
    let mut text = Vec::new(alloc);
    text.extend_from_slice(b"stats ")?;
    text.extend_from_slice(digits.format(count).as_bytes())?;
    text.extend_from_slice(b"\n")?;
    Ok(LineAnswer {
        text,
        is_refused: false,
    })
}

fn style_answer(text: Vec<u8>) -> Result<LineAnswer, AllocError>
    ensures text { IfOk result (λ answer. answer.text.items ≡ line text.items) }
    ensures refused { IfOk result (λ answer. answer.is_refused ≡ false) }
{
    let mut line = text;
    line.push(b'\n')?;
    Ok(LineAnswer {
        text: line,
        is_refused: false,
    })
}

/// That the line of this number is accepted.
pub fn ok_answer(alloc: Global, number: usize) -> Result<LineAnswer, AllocError>
    ensures text { IfOk result (λ line. line.text.items ≡ ok_line number) }
    ensures refused { IfOk result (λ line. line.is_refused ≡ false) }
{
    let mut digits = Buffer::new();
    let mut text = Vec::new(alloc);
    text.extend_from_slice(b"ok ")?;
    text.extend_from_slice(digits.format(number).as_bytes())?;
    text.extend_from_slice(b"\n")?;
    Ok(LineAnswer {
        text,
        is_refused: false,
    })
}

// What is before the name of a refusal.
fn write_refusal_front(number: usize, out: &mut Vec<u8>) -> Result<(), AllocError>
    ensures { OnOk result (out.new.items ≡ out.old.items ++ (codes "refused " ++ (decimal number ++ codes " "))) }
{
    let mut digits = Buffer::new();
    out.extend_from_slice(b"refused ")?;
    out.extend_from_slice(digits.format(number).as_bytes())?;
    out.extend_from_slice(b" ")?;
    Ok(())
}

fn fault_name(fault: LineFault) -> &'static str
    ensures { result.now ≡ fault_name fault }
{
    match fault {
        LineFault::Json => "Json",
        LineFault::Form => "Form",
        LineFault::Number => "Number",
    }
}

fn write_refusal(refusal: &Refusal, out: &mut Vec<u8>) -> Result<(), AllocError>
    ensures { OnOk result (out.new.items ≡ out.old.items ++ refusal_text refusal.now) }
{
    match refusal {
        Refusal::UnknownLayer => out.extend_from_slice(b"UnknownLayer")?,
        Refusal::UnknownBefore => out.extend_from_slice(b"UnknownBefore")?,
        Refusal::UnknownSource => out.extend_from_slice(b"UnknownSource")?,
        Refusal::ZoomRange => out.extend_from_slice(b"ZoomRange")?,
        Refusal::UnknownProperty => out.extend_from_slice(b"UnknownProperty")?,
        Refusal::Finding(finding) => write_finding(finding, out)?,
        Refusal::CellLimit => out.extend_from_slice(b"CellLimit")?,
        Refusal::FixedImages => out.extend_from_slice(b"FixedImages")?,
    }
    Ok(())
}

fn write_finding(finding: &Finding, out: &mut Vec<u8>) -> Result<(), AllocError>
    ensures { OnOk result (out.new.items ≡ out.old.items ++ refusal_text (Refusal.Finding finding.now)) }
{
    let mut rule = Buffer::new();
    out.extend_from_slice(b"Finding ")?;
    write_path(&finding.path, out)?;
    out.extend_from_slice(b" V")?;
    out.extend_from_slice(rule.format(finding.rule).as_bytes())?;
    Ok(())
}
