ghost use Rattle.std.specs.Prelude.{◌≡◌, ◌++◌, OnOk};
ghost use Rattle.program_runs.specs.Subjects.{subject_text, subject_number};
ghost use Rattle.program_runs.specs.Refusals.{tile_number};

use decimal_json::write_text;
use itoa::Buffer;
use std::alloc::AllocError;

/// What is read, for a refusal.
#[derive(Clone, Copy, Debug)]
pub enum Subject<'a> {
    /// An expression, which is a word.
    Expression,
    Style,
    /// The lines of a script.
    Script,
    /// The tile of this source, and its number among the tiles of the source.
    Tile(&'a str, usize),
}

/// Appends the name of what is read, as a refusal has it: `style`, or `tile "roads"`.
pub fn write_subject(what: &Subject<'_>, line: &mut Vec<u8>) -> Result<(), AllocError>
    ensures { OnOk result (line.new.items ≡ line.old.items ++ subject_text what.now) }
{
    match what {
        Subject::Expression => line.extend_from_slice(b"expr")?,
        Subject::Style => line.extend_from_slice(b"style")?,
        Subject::Script => line.extend_from_slice(b"script")?,
        Subject::Tile(source, _) => {
            line.extend_from_slice(b"tile ")?;
            write_text(source, line)?;
        }
    }
    Ok(())
}

/// Appends which of several it is, as a refusal has it at its end: ` tile 1` of the second tile of a source,
/// and nothing of the first.
pub fn write_number(what: &Subject<'_>, line: &mut Vec<u8>) -> Result<(), AllocError>
    ensures { OnOk result (line.new.items ≡ line.old.items ++ subject_number what.now) }
{
    match what {
        Subject::Tile(_, number) => write_tile_number(*number, line),
        _ => Ok(()),
    }
}

fn write_tile_number(number: usize, line: &mut Vec<u8>) -> Result<(), AllocError>
    ensures { OnOk result (line.new.items ≡ line.old.items ++ tile_number number) }
{
    if number == 0 {
        return Ok(());
    }
    let mut digits = Buffer::new();
    line.extend_from_slice(b" tile ")?;
    line.extend_from_slice(digits.format(number).as_bytes())?;
    Ok(())
}
