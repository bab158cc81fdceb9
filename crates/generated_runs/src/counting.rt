//! A script whose answers are counted and not kept.

ghost use Rattle.std.specs.Prelude.{◌≡◌, ◌+◌, ◌≤◌, ◌⊎◌, ◌∷◌, ◌++◌, ℕ, List, [], false, decimal, ◌^◌, OnErr, OnOk, IfOk};
ghost use Rattle.std.specs.Prelude.{Option};
ghost use Rattle.edit_session.specs.View.{session_state, tiles_of, IsSoundSession};
ghost use Rattle.program_runs.specs.Outcome.{said};
ghost use Rattle.program_runs.specs.Progress.{outcome_of, IsAnswered};
ghost use Rattle.program_runs.specs.Written.{StepsAreDue};
ghost use Rattle.script_runs.specs.ImageReports.{GoesAlong, GoesPartway, ImageReportsOfLine, ImagesOfLine};
ghost use Rattle.script_runs.specs.ScriptRun.{lines_run, ending_by};
ghost use Rattle.generated_runs.specs.Counted.{counted, counts_line, line_count};
ghost use Rattle.generated_runs.specs.Counting.{EndsAs, IsSmall, lines_left};
ghost use Rattle.generated_runs.specs.GeneratedScript.{generated_lines};

use crate::lines::{line_count_of, put_line};
use edit_session::Session;
use host_ops::HostOp;
use itoa::Buffer;
use outside_io::Steps;
use program_runs::{RunOutput, answer_out};
use script_runs::{ScriptLine, answer_line, ending_by};
use std::alloc::{AllocError, Global};
use std::sync::ledger::Ledger;

/// The number of the next line of a script, and the counts of what the lines before it were answered.
#[derive(Drop)]
struct Counting {
    alloc: Global,
    number: usize,
    lines: u128,
    bytes: u128,
    any: bool,
}

/// The counts of what the script of so many features is answered, over a session that was just opened or is sound.
pub fn answer_counted<L: Ledger>(
    session: Session<'_>,
    features: u32,
    images: &mut dyn HostOp,
    scripts: &dyn HostOp,
    steps: &mut Steps<L>,
) -> Result<RunOutput, AllocError>
    requires { IsSoundSession session (test images.old) (test scripts.now) }
    ensures answer { (files : List ℕ → Option (List ℕ)) (asked : List (List ℕ)) → IfOk result (IsAnswered files
        (counted features (lines_run (tiles_of session.entry) (test scripts.now) (changes images.old) 1
        (session_state session.entry (test images.old)) false (generated_lines features)))
        asked asked steps.old steps.new) }
    ensures due { (files : List ℕ → Option (List ℕ)) (asked : List (List ℕ)) → OnErr result (StepsAreDue files
        (counted features (lines_run (tiles_of session.entry) (test scripts.now) (changes images.old) 1
        (session_state session.entry (test images.old)) false (generated_lines features)))
        asked asked steps.old steps.new) }
    ensures changes { changes images.new ≡ changes images.old }
    ensures count { OnOk result (GoesAlong (ImageReportsOfLine (changes images.old)) (generated_lines features)
        (tell_count images.old) (tell_count images.new)) }
    ensures count_failed { OnErr result
        (GoesPartway (ImageReportsOfLine (changes images.old)) (generated_lines features)
        (tell_count images.old) (tell_count images.new)) }
    ensures images { OnOk result (GoesAlong (ImagesOfLine (changes images.old)) (generated_lines features)
        (test images.old) (test images.new)) }
    ensures images_failed { OnErr result (GoesPartway (ImagesOfLine (changes images.old)) (generated_lines features)
        (test images.old) (test images.new)) }
{
    let mut session = session;
    count_answers(&mut session, features, images, scripts, steps)
}

fn count_answers<L: Ledger>(
    session: &mut Session<'_>,
    features: u32,
    images: &mut dyn HostOp,
    scripts: &dyn HostOp,
    steps: &mut Steps<L>,
) -> Result<RunOutput, AllocError>
    requires { IsSoundSession session.old (test images.old) (test scripts.now) }
    ensures answer { (files : List ℕ → Option (List ℕ)) (asked : List (List ℕ)) → IfOk result (IsAnswered files
        (counted features (lines_run (tiles_of session.old) (test scripts.now) (changes images.old) 1
        (session_state session.old (test images.old)) false (generated_lines features)))
        asked asked steps.old steps.new) }
    ensures due { (files : List ℕ → Option (List ℕ)) (asked : List (List ℕ)) → OnErr result (StepsAreDue files
        (counted features (lines_run (tiles_of session.old) (test scripts.now) (changes images.old) 1
        (session_state session.old (test images.old)) false (generated_lines features)))
        asked asked steps.old steps.new) }
    ensures changes { changes images.new ≡ changes images.old }
    ensures count { OnOk result (GoesAlong (ImageReportsOfLine (changes images.old)) (generated_lines features)
        (tell_count images.old) (tell_count images.new)) }
    ensures count_failed { OnErr result
        (GoesPartway (ImageReportsOfLine (changes images.old)) (generated_lines features)
        (tell_count images.old) (tell_count images.new)) }
    ensures images { OnOk result (GoesAlong (ImagesOfLine (changes images.old)) (generated_lines features)
        (test images.old) (test images.new)) }
    ensures images_failed { OnErr result (GoesPartway (ImagesOfLine (changes images.old)) (generated_lines features)
        (test images.old) (test images.new)) }
{
    let mut counting = Counting {
        alloc: session.alloc(),
        number: 1,
        lines: 0,
        bytes: 0,
        any: false,
    };
    counting.answer_all(session, features, images, scripts, steps)?;
    counting.finish(features)
}

impl Counting {
    // Counts what all lines are answered.
    fn answer_all<L: Ledger>(
        &mut self,
        session: &mut Session<'_>,
        features: u32,
        images: &mut dyn HostOp,
        scripts: &dyn HostOp,
        steps: &mut Steps<L>,
    ) -> Result<(), AllocError>
        requires sound { IsSoundSession session.old (test images.old) (test scripts.now) }
        requires small { IsSmall self.old }
        requires first { self.old.number ≡ 1 }
        ensures on { OnOk result (EndsAs steps.old steps.new
            (lines_left features (test scripts.now) (changes images.old) (test images.old) session.old self.old
            (generated_lines features))
            (lines_left features (test scripts.now) (changes images.old) (test images.new) session.new self.new [])) }
        ensures due { (files : List ℕ → Option (List ℕ)) (asked : List (List ℕ)) → OnErr result (StepsAreDue files
            (lines_left features (test scripts.now) (changes images.old) (test images.old) session.old self.old
            (generated_lines features))
            asked asked steps.old steps.new) }
        ensures changes { changes images.new ≡ changes images.old }
        ensures count { OnOk result (GoesAlong (ImageReportsOfLine (changes images.old)) (generated_lines features)
            (tell_count images.old) (tell_count images.new)) }
        ensures count_failed { OnErr result
            (GoesPartway (ImageReportsOfLine (changes images.old)) (generated_lines features)
            (tell_count images.old) (tell_count images.new)) }
        ensures images { OnOk result (GoesAlong (ImagesOfLine (changes images.old)) (generated_lines features)
            (test images.old) (test images.new)) }
        ensures images_failed { OnErr result (GoesPartway (ImagesOfLine (changes images.old)) (generated_lines features)
            (test images.old) (test images.new)) }
    {
        let mut line = Vec::new(self.alloc);
        for place in 0..line_count_of(features) {
            put_line(features, place, &mut line)?;
            self.answer(session, line.as_slice(), images, scripts, steps)?;
        }
        Ok(())
    }

    // Counts what the next line is answered.
    fn answer<L: Ledger>(
        &mut self,
        session: &mut Session<'_>,
        line: &[u8],
        images: &mut dyn HostOp,
        scripts: &dyn HostOp,
        steps: &mut Steps<L>,
    ) -> Result<(), AllocError>
        requires sound { IsSoundSession session.old (test images.old) (test scripts.now) }
        requires small { IsSmall self.old }
        ensures sound { IsSoundSession session.new (test images.new) (test scripts.now) }
        ensures next { OnOk result (self.new.number ≡ self.old.number + 1) }
        ensures small { OnOk result (self.new.number ≤ 2 ^ 33 → IsSmall self.new) }
        ensures changes { changes images.new ≡ changes images.old }
        ensures count { OnOk result
            (ImageReportsOfLine (changes images.old) line.now (tell_count images.old) (tell_count images.new)) }
        ensures count_failed { OnErr result ((tell_count images.new ≡ tell_count images.old)
            ⊎ ImageReportsOfLine (changes images.old) line.now (tell_count images.old) (tell_count images.new)) }
        ensures images { OnOk result (ImagesOfLine (changes images.old) line.now (test images.old) (test images.new)) }
        ensures images_failed { OnErr result ((test images.new ≡ test images.old)
            ⊎ ImagesOfLine (changes images.old) line.now (test images.old) (test images.new)) }
        ensures on { (features : ℕ) (rest : List (List ℕ)) → OnOk result (EndsAs steps.old steps.new
            (lines_left features (test scripts.now) (changes images.old) (test images.old) session.old self.old
            (line.now ∷ rest))
            (lines_left features (test scripts.now) (changes images.old) (test images.new) session.new self.new rest)) }
        ensures due { (features : ℕ) (rest : List (List ℕ)) (files : List ℕ → Option (List ℕ)) (asked : List (List ℕ))
            → OnErr result (StepsAreDue files
            (lines_left features (test scripts.now) (changes images.old) (test images.old) session.old self.old
            (line.now ∷ rest))
            asked asked steps.old steps.new) }
    {
        let line = ScriptLine {
            number: self.number,
            bytes: line,
        };
        let answer = answer_line(session, &line, images, scripts, steps)?;
        self.lines += line_count(answer.text.as_slice()) as u128;
        self.bytes += answer.text.len() as u128;
        self.any = self.any || answer.is_refused;
        self.number += 1;
        Ok(())
    }

    // The line of counts, in the place of what was answered.
    fn finish(&self, features: u32) -> Result<RunOutput, AllocError>
        ensures { IfOk result (λ answer. outcome_of answer
            ≡ said (counts_line features self.now.lines self.now.bytes) (ending_by self.now.any)) }
    {
        let mut out = Vec::new(self.alloc);
        write_count(b"features ", features as u128, &mut out)?;
        write_count(b" lines ", self.lines, &mut out)?;
        write_count(b" bytes ", self.bytes, &mut out)?;
        out.extend_from_slice(b"\n")?;
        Ok(answer_out(self.alloc, out, ending_by(self.any)))
    }
}

fn write_count(name: &[u8], count: u128, out: &mut Vec<u8>) -> Result<(), AllocError>
    ensures { OnOk result (out.new.items ≡ out.old.items ++ (name.now ++ decimal count)) }
{
    let mut digits = Buffer::new();
    out.extend_from_slice(name)?;
    out.extend_from_slice(digits.format(count).as_bytes())?;
    Ok(())
}

fn line_count(text: &[u8]) -> usize
    ensures { result ≡ line_count text.now }
{
    let mut count = 0;
    for byte in text {
        if *byte == b'\n' {
            count += 1;
        }
    }
    count
}
