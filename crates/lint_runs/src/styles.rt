//! The lines of all styles, read one after another.

ghost use Rattle.std.specs.Prelude.{◌≡◌, ◌∷◌, ℕ, List, [], map, string_bytes, OnOk, IfOk, IfErr};
ghost use Rattle.lint_texts.specs.LintedStyle.{linted_seen};
ghost use Rattle.lint_runs.specs.Counting.{HasLines};
ghost use Rattle.lint_runs.specs.LintRun.{and_linted, and_styles, lint_parts, none_linted};
ghost use Rattle.lint_runs.specs.LintRun as runs;
ghost use Rattle.lint_runs.specs.Views.{styles_seen};
ghost use Rattle.program_runs.specs.FailedReads.{NoneFailed};
ghost use Rattle.program_runs.specs.Progress.{ComesTo, GoesOn, Halts};
ghost use Rattle.program_runs.specs.Runs.{Run};

use crate::one_style::{LintedStyles, lint_one};
use lint_texts::{LintForm, Linted};
use outside_io::Files;
use program_runs::RunHalt;
use std::alloc::{AllocError, Global};

/// The most bytes that all styles have together.
const STYLES_LIMIT: usize = 33_554_432;

/// What is written of the styles in these files, in their order.
pub(crate) fn lint_styles<'a, F: Files>(
    alloc: Global,
    form: LintForm,
    names: &'a [String],
    files: &mut F,
) -> Result<LintedStyles, RunHalt<'a>>
    ensures told { F.told files.new ≡ F.told files.old }
    ensures none { names.now ≡ [] → files.new ≡ files.old }
    ensures failed { OnOk result
        (NoneFailed (F.faults files.old) (F.faults files.new) (F.failed files.old) (F.failed files.new)) }
    ensures on { IfOk result
        (λ all. GoesOn (F.told files.old) (lint_parts form none_linted (map string_bytes names.now))
        (F.asked files.old) (F.asked files.new) (styles_seen all)) }
    ensures halt { IfErr result
        (λ halt. Halts (F.told files.old) (lint_parts form none_linted (map string_bytes names.now))
        (F.faults files.old) (F.faults files.new) (F.failed files.old) (F.failed files.new) (F.asked files.old)
        (F.asked files.new) halt) }
{
    let mut all = LintedStyles {
        linted: Linted {
            text: Vec::new(alloc),
            errors: 0,
            warnings: 0,
        },
        left: STYLES_LIMIT,
    };
    for name in names {
        lint_next(alloc, form, name.as_str(), &mut all, files)?;
    }
    Ok(all)
}

// Adds what is written of the next style.
fn lint_next<'a, F: Files>(
    alloc: Global,
    form: LintForm,
    name: &'a str,
    all: &mut LintedStyles,
    files: &mut F,
) -> Result<(), RunHalt<'a>>
    requires { HasLines (linted_seen all.old.linted) }
    ensures told { F.told files.new ≡ F.told files.old }
    ensures failed { OnOk result
        (NoneFailed (F.faults files.old) (F.faults files.new) (F.failed files.old) (F.failed files.new)) }
    ensures lines { OnOk result (HasLines (linted_seen all.new.linted)) }
    ensures on { OnOk result ((names : List (List ℕ)) (after : runs.LintedStyles → Run) → ComesTo (F.told files.old)
        (lint_parts form (styles_seen all.old) (name.now ∷ names) after)
        (lint_parts form (styles_seen all.new) names after)
        (F.asked files.old) (F.asked files.new)) }
    ensures halt { (names : List (List ℕ))
        → IfErr result (λ halt. Halts (F.told files.old) (lint_parts form (styles_seen all.old) (name.now ∷ names))
        (F.faults files.old) (F.faults files.new) (F.failed files.old) (F.failed files.new) (F.asked files.old)
        (F.asked files.new) halt) }
{
    let one = lint_one(alloc, form, all.left, name, files)?;
    Ok(add_styles(&one, all)?)
}

fn add_styles(one: &LintedStyles, all: &mut LintedStyles) -> Result<(), AllocError>
    requires one { HasLines (linted_seen one.now.linted) }
    requires all { HasLines (linted_seen all.old.linted) }
    ensures added { OnOk result (styles_seen all.new ≡ and_styles (styles_seen all.old) (styles_seen one.now)) }
    ensures lines { OnOk result (HasLines (linted_seen all.new.linted)) }
{
    all.left = one.left;
    add_linted(&one.linted, &mut all.linted)
}

// No sum wraps, since each count is within the length of a text.
fn add_linted(one: &Linted, all: &mut Linted) -> Result<(), AllocError>
    requires one { HasLines (linted_seen one.now) }
    requires all { HasLines (linted_seen all.old) }
    ensures added { OnOk result (linted_seen all.new ≡ and_linted (linted_seen all.old) (linted_seen one.now)) }
    ensures lines { OnOk result (HasLines (linted_seen all.new)) }
{
    all.text.extend_from_slice(one.text.as_slice())?;
    all.errors += one.errors;
    all.warnings += one.warnings;
    Ok(())
}
