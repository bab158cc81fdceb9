ghost use Rattle.std.specs.Prelude.{◌≡◌, ◌≤◌, length, IfOk};
ghost use Rattle.shared_text.specs.Ranges.{LONGEST};

use std::alloc::{AllocError, Global};
use std::marker::Model;
use std::rc::RcSlice;

/// The most bytes that a document may have: texts keep their places in 32 bits.
pub const LONGEST: usize = 4_294_967_295;

/// Bytes that texts may be ranges of, which clauses see as a list.
#[derive(Drop)]
pub struct Document {
    pub(crate) bytes: RcSlice<u8>,
}

impl Model for Document {
    ghost use Rattle.std.specs.Prelude.{ℕ, List, ◌≤◌, length};
    ghost use Rattle.std.specs.Rc.{rc_slice_items};
    ghost use Rattle.shared_text.specs.Ranges.{LONGEST};

    ghost Value = { List ℕ };

    ghost view = { λ a. rc_slice_items a.bytes };

    ghost invariant = { λ a. length (rc_slice_items a.bytes) ≤ LONGEST };
}

impl Document {
    /// A document with a copy of these bytes.
    pub fn copy_of(alloc: Global, bytes: &[u8]) -> Result<Document, AllocError>
        ensures { IfOk result (λ copy. copy ≡ bytes.now) }
    {
        if bytes.len() > LONGEST {
            return Err(AllocError);
        }
        Ok(Document {
            bytes: RcSlice::from_slice(alloc, bytes)?,
        })
    }

    /// A document that takes these bytes as they are.
    pub fn of(bytes: Vec<u8>) -> Result<Document, AllocError>
        ensures { IfOk result (λ made. made ≡ bytes.items) }
    {
        if bytes.len() > LONGEST {
            return Err(AllocError);
        }
        Ok(Document {
            bytes: RcSlice::from_vec(bytes)?,
        })
    }

    pub fn as_slice(&self) -> &[u8]
        ensures bytes { result.now ≡ self.now }
        ensures short { length self.now ≤ LONGEST }
    {
        self.bytes.as_slice()
    }
}
