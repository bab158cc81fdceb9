//! Pieces of a text.

ghost use Rattle.std.specs.Prelude.{◌≡◌, [], OnOk};
ghost use Rattle.text_pieces.specs.Adding.{Adds};

use halts::Halt;
use outside_io::{Sink, SinkFailed};

/// How many bytes are a piece.
const PIECE: usize = 65_536;

/// The bytes of a text that wait to be written out, and where they go.
pub struct TextPieces<'a, O: Sink> {
    pub text: Vec<u8>,
    pub out: &'a mut O,
}

impl<O: Sink> TextPieces<'_, O> {
    /// Writes out what waits, where it is a piece or more.
    #[inline(always)]
    pub fn pour_piece(&mut self) -> Result<(), Halt<SinkFailed>>
        ensures { Adds O.held O.faults result self.old self.new [] }
    {
        if self.text.len() < PIECE {
            return Ok(());
        }
        self.pour()
    }

    /// Writes out what waits.
    pub fn pour(&mut self) -> Result<(), Halt<SinkFailed>>
        ensures adds { Adds O.held O.faults result self.old self.new [] }
        ensures all { OnOk result (self.new.text.items ≡ []) }
    {
        match self.out.write(self.text.as_slice()) {
            Ok(()) => {
                self.text.clear();
                Ok(())
            }
            Err(fault) => Err(Halt::Fault(fault)),
        }
    }
}
