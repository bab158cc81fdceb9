//! The lines on standard error that say why something is refused.

ghost use Rattle.std.specs.Prelude.{◌≡◌, ◌++◌, codes, decimal, IfOk, OnOk};
ghost use Rattle.edit_session.specs.View.{fault_seen};
ghost use Rattle.style_program.specs.Refusals.{outside, no_expression, no_type, tile_kind_name, no_tile, not_opened};
ghost use Rattle.style_program.specs.Refusals.{open_fault_text};
ghost use Rattle.program_runs.specs.Progress.{outcome_of};

use decimal_json::{write_path, write_text};
use edit_session::OpenFault;
use expr_syntax::SynFault;
use expr_types::TypeFault;
use itoa::Buffer;
use program_runs::{
    RunOutput, Subject, answer_refused, begin_refusal, write_number, write_subject,
};
use proto_wire::WireKind;
use std::alloc::{AllocError, Global};
use tile_reader::{TileFault, TileKind};

/// An expression with a node that is outside of what is evaluated.
pub fn outside(alloc: Global) -> Result<RunOutput, AllocError>
    ensures { IfOk result (λ answer. outcome_of answer ≡ outside) }
{
    let mut line = begin_refusal(alloc)?;
    line.extend_from_slice(b"expr Outside")?;
    answer_refused(alloc, line)
}

/// No expression: the code of its first fault, and the path of its node.
pub fn no_expression(alloc: Global, fault: &SynFault) -> Result<RunOutput, AllocError>
    ensures { IfOk result (λ answer. outcome_of answer ≡ no_expression fault.now) }
{
    let mut line = begin_refusal(alloc)?;
    line.extend_from_slice(b"expr ")?;
    line.extend_from_slice(fault.code.name().as_bytes())?;
    line.extend_from_slice(b" ")?;
    write_path(&fault.path, &mut line)?;
    answer_refused(alloc, line)
}

/// An expression that is not well typed: the code of its first fault, and the path of its node.
pub fn no_type(alloc: Global, fault: &TypeFault) -> Result<RunOutput, AllocError>
    ensures { IfOk result (λ answer. outcome_of answer ≡ no_type fault.now) }
{
    let mut line = begin_refusal(alloc)?;
    line.extend_from_slice(b"expr ")?;
    line.extend_from_slice(fault.code.name().as_bytes())?;
    line.extend_from_slice(b" ")?;
    write_path(&fault.path, &mut line)?;
    answer_refused(alloc, line)
}

/// Bytes that are no tile: of a source, the tile of this number.
pub fn no_tile(
    alloc: Global,
    source: &str,
    number: usize,
    fault: TileFault,
) -> Result<RunOutput, AllocError>
    ensures { IfOk result (λ answer. outcome_of answer ≡ no_tile source.now number fault) }
{
    let what = Subject::Tile(source, number);
    let mut at = Buffer::new();
    let mut line = begin_refusal(alloc)?;
    write_subject(&what, &mut line)?;
    line.extend_from_slice(b" ")?;
    line.extend_from_slice(tile_kind_name(fault.kind))?;
    line.extend_from_slice(b" ")?;
    line.extend_from_slice(at.format(fault.at).as_bytes())?;
    write_number(&what, &mut line)?;
    answer_refused(alloc, line)
}

/// A style that cannot be opened over tiles.
pub fn not_opened(alloc: Global, fault: &OpenFault<'_>) -> Result<RunOutput, AllocError>
    ensures { IfOk result (λ answer. outcome_of answer ≡ not_opened (fault_seen fault.now)) }
{
    let mut line = begin_refusal(alloc)?;
    line.extend_from_slice(b"open ")?;
    write_open_fault(fault, &mut line)?;
    answer_refused(alloc, line)
}

fn write_open_fault(fault: &OpenFault<'_>, line: &mut Vec<u8>) -> Result<(), AllocError>
    ensures { OnOk result (line.new.items ≡ line.old.items ++ open_fault_text (fault_seen fault.now)) }
{
    match fault {
        OpenFault::Findings => line.extend_from_slice(b"Findings")?,
        OpenFault::UnknownSource(source) => {
            line.extend_from_slice(b"UnknownSource ")?;
            write_text(source, line)?;
        }
        OpenFault::NotVector(source) => {
            line.extend_from_slice(b"NotVector ")?;
            write_text(source, line)?;
        }
        OpenFault::CellLimit(count) => write_cell_limit(*count, line)?,
        OpenFault::ZoomRange => line.extend_from_slice(b"ZoomRange")?,
    }
    Ok(())
}

fn write_cell_limit(count: u128, line: &mut Vec<u8>) -> Result<(), AllocError>
    ensures { OnOk result (line.new.items ≡ line.old.items ++ (codes "CellLimit " ++ decimal count)) }
{
    let mut digits = Buffer::new();
    line.extend_from_slice(b"CellLimit ")?;
    line.extend_from_slice(digits.format(count).as_bytes())?;
    Ok(())
}

fn tile_kind_name(kind: TileKind) -> &'static [u8]
    ensures { result.now ≡ tile_kind_name kind }
{
    match kind {
        TileKind::Wire(WireKind::Varint) => b"Varint",
        TileKind::Wire(WireKind::Truncated) => b"Truncated",
        TileKind::Wire(WireKind::WireType) => b"WireType",
        TileKind::Compressed => b"Compressed",
        TileKind::NoName => b"NoName",
        TileKind::NoVersion => b"NoVersion",
        TileKind::Version => b"Version",
        TileKind::RepeatedName => b"RepeatedName",
        TileKind::TagIndex => b"TagIndex",
        TileKind::OddTags => b"OddTags",
        TileKind::ValueKind => b"ValueKind",
        TileKind::FloatValue => b"FloatValue",
        TileKind::Utf8 => b"Utf8",
        TileKind::FieldType => b"FieldType",
        TileKind::GeometryType => b"GeometryType",
    }
}
