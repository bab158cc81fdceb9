//! `generate`: how much `replay` writes of a style, a tile and a script that are made from a number of features.

ghost use Rattle.std.specs.Prelude.{◌≡◌, ℕ, List, [], ◌∷◌, map, Option, OnErr, IfOk, IfErr};
ghost use Rattle.decimal_json.specs.View.{tree_of};
ghost use Rattle.generated_runs.specs.GeneratedTile.{generated_tiles};
ghost use Rattle.program_runs.specs.Progress.{HaltSteps, HaltsAt, IsAnswered};
ghost use Rattle.program_runs.specs.Written.{StepsAreDue};
ghost use Rattle.style_layout.specs.CodeView.{tile_seen};
ghost use Rattle.style_program.specs.GenerateRun.{generate_run, opened_run};
ghost use Rattle.style_rules.specs.Findings.{findings};

use crate::loading::refuse_broken;
use crate::refusals::not_opened;
use crate::value_command::zero;
use decimal_json::Json;
use edit_session::{CELL_LIMIT, Session};
use generated_runs::{GENERATED_STYLE, answer_counted, generated_tile};
use host_ops::HostOp;
use outside_io::Steps;
use program_runs::{RunHalt, RunOutput, Subject, parse_json};
use std::alloc::{AllocError, Global};
use std::sync::ledger::Ledger;
use style_layout::SourceTile;

/// The counts of what `replay` writes of the style, the tile and the script of so many features. No file is read; the
/// steps of its evaluations are counted.
pub fn answer_generate<'a, L: Ledger>(
    alloc: Global,
    features: u32,
    images: &mut dyn HostOp,
    scripts: &dyn HostOp,
    steps: &mut Steps<L>,
) -> Result<RunOutput, RunHalt<'a>>
    ensures answer { (files : List ℕ → Option (List ℕ)) (asked : List (List ℕ)) → IfOk result (IsAnswered files
        (generate_run features (test images.old) (test scripts.now) (changes images.old))
        asked asked steps.old steps.new) }
    ensures halt { (files : List ℕ → Option (List ℕ)) (count : ℕ) (failed : Option (List ℕ)) (asked : List (List ℕ))
        → IfErr result (λ halt. HaltsAt files
        (generate_run features (test images.old) (test scripts.now) (changes images.old)) count count failed failed
        asked asked halt) }
    ensures steps { (files : List ℕ → Option (List ℕ)) (asked : List (List ℕ)) → IfErr result (HaltSteps files
        (generate_run features (test images.old) (test scripts.now) (changes images.old))
        asked asked steps.old steps.new) }
{
    let style = parse_json(alloc, &Subject::Style, GENERATED_STYLE)?;
    refuse_broken(alloc, &style)?;
    Ok(answer_opened(alloc, style, features, images, scripts, steps)?)
}

fn answer_opened<L: Ledger>(
    alloc: Global,
    style: Json,
    features: u32,
    images: &mut dyn HostOp,
    scripts: &dyn HostOp,
    steps: &mut Steps<L>,
) -> Result<RunOutput, AllocError>
    requires { findings (tree_of style) ≡ [] }
    ensures answer { (files : List ℕ → Option (List ℕ)) (asked : List (List ℕ)) → IfOk result (IsAnswered files
        (opened_run features (test images.old) (test scripts.now) (changes images.old) (tree_of style)) asked asked
        steps.old steps.new) }
    ensures due { (files : List ℕ → Option (List ℕ)) (asked : List (List ℕ)) → OnErr result (StepsAreDue files
        (opened_run features (test images.old) (test scripts.now) (changes images.old) (tree_of style)) asked asked
        steps.old steps.new) }
{
    let tiles = generated_tiles(alloc, features)?;
    match Session::open_sound(alloc, style, tiles, zero(), CELL_LIMIT)? {
        Ok(session) => answer_counted(session, features, images, scripts, steps),
        Err(fault) => not_opened(alloc, &fault),
    }
}

fn generated_tiles(alloc: Global, features: u32) -> Result<Vec<SourceTile<'static>>, AllocError>
    ensures { IfOk result (λ tiles. map tile_seen tiles.items ≡ generated_tiles features) }
{
    let mut tiles = Vec::new(alloc);
    tiles.push(SourceTile {
        source: "t",
        tile: generated_tile(alloc, features)?,
    })?;
    Ok(tiles)
}
