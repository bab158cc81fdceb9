ghost use Rattle.std.specs.Prelude.{◌≡◌, ◌≤◌, length, take, IfOk, IsUtf8, string_bytes, nat_eq, Some};
ghost use Rattle.std.specs.Rc.{rc_slice_items};
ghost use Rattle.std.specs.Ordering.{nat_cmp};
ghost use Rattle.std.specs.Cmp.{partial_equiv_from_equiv};
ghost use Rattle.std.specs.Cmp.Lexicographic.{pointwise, slice_cmp, nat_list_eq_equiv, nat_list_cmp_total, texts_ties};
ghost use Rattle.std.specs.Cmp.Lexicographic.{texts_po};
ghost use Rattle.std.proofs.Common.{refl};
ghost use Rattle.shared_text.specs.Ranges.{part, IsRest};

use crate::document::{Document, LONGEST};
use std::alloc::{AllocError, Global};
use std::cmp::Ordering;
use std::marker::Model;
use std::rc::RcSlice;

/// A text, which clauses see as the list of its UTF-8 bytes. Texts of one document have its bytes in common.
#[derive(Drop)]
pub struct Text {
    document: RcSlice<u8>,
    from: u32,
    to: u32,
}

impl Model for Text {
    ghost use Rattle.std.specs.Prelude.{ℕ, List, ◌≤◌, length, IsUtf8};
    ghost use Rattle.std.specs.Rc.{rc_slice_items};
    ghost use Rattle.shared_text.specs.Ranges.{part};

    ghost Value = { List ℕ };

    ghost view = { λ a. part a.from a.to (rc_slice_items a.document) };

    ghost invariant = { λ a. (a.from ≤ a.to) × (a.to ≤ length (rc_slice_items a.document))
        × IsUtf8 (part a.from a.to (rc_slice_items a.document)) };
}

impl Text {
    /// A text of its own with the same bytes.
    pub fn copy_of(alloc: Global, text: &str) -> Result<Text, AllocError>
        ensures { IfOk result (λ copy. copy ≡ text.now) }
    {
        let count = text.len();
        if count > LONGEST {
            return Err(AllocError);
        }
        Ok(Text {
            document: RcSlice::from_slice(alloc, text.as_bytes())?,
            from: 0,
            to: count as u32,
        })
    }

    /// The text of a string, which becomes its document.
    pub fn of(text: String) -> Result<Text, AllocError>
        ensures { IfOk result (λ made. made ≡ string_bytes text) }
    {
        let count = text.as_str().len();
        if count > LONGEST {
            return Err(AllocError);
        }
        Ok(Text {
            document: RcSlice::from_vec(text.into_bytes())?,
            from: 0,
            to: count as u32,
        })
    }

    /// The bytes of a document from one place to another. No byte is copied.
    #[inline(always)]
    pub fn of_range(document: &Document, from: usize, to: usize) -> Result<Text, AllocError>
        requires order { from ≤ to }
        requires within { to ≤ length document.now }
        requires utf8 { IsUtf8 (part from to document.now) }
        ensures { IfOk result (λ text. text ≡ part from to document.now) }
    {
        Ok(Text {
            document: document.bytes.clone()?,
            from: from as u32,
            to: to as u32,
        })
    }

    /// The first bytes of what is left of a document. No byte is copied.
    #[inline(always)]
    #[tactic(auto, using(crate::proofs::Rests::part_of_rest, crate::proofs::Rests::rest_is_short))]
    pub fn of_rest(document: &Document, rest: &[u8], count: usize) -> Result<Text, AllocError>
        requires left { IsRest rest.now document.now }
        requires within { count ≤ length rest.now }
        requires utf8 { IsUtf8 (take count rest.now) }
        ensures { IfOk result (λ text. text ≡ take count rest.now) }
    {
        let from = document.as_slice().len() - rest.len();
        Text::of_range(document, from, from + count)
    }

    /// The same text, in constant time: no byte is copied.
    pub fn share(&self) -> Result<Text, AllocError>
        ensures same { IfOk result (λ same. same ≡ self.now) }
        ensures utf8 { IsUtf8 self.now }
    {
        Ok(Text {
            document: self.document.clone()?,
            from: self.from,
            to: self.to,
        })
    }

    pub fn as_str(&self) -> &str
        ensures { result.now ≡ self.now }
    {
        unsafe {
            str::from_utf8_unchecked(
                &self.document.as_slice()[self.from as usize..self.to as usize],
            )
        }
    }

    /// The bytes of its document from the text's first one on: the text, and what follows it there. So the
    /// bytes of a short text can be taken a block at a time.
    pub fn onward(&self) -> &[u8]
        ensures { take (length self.now) result.now ≡ self.now }
    {
        &self.document.as_slice()[self.from as usize..]
    }
}

impl PartialEq for Text {
    ghost eq = { pointwise nat_eq };

    ghost laws = { partial_equiv_from_equiv nat_list_eq_equiv };

    fn eq(&self, other: &Text) -> bool {
        self.as_str() == other.as_str()
    }
}

impl Eq for Text {
    ghost laws = { nat_list_eq_equiv };
}

impl PartialOrd for Text {
    ghost partial_cmp = { λ x y. Some (slice_cmp nat_cmp x y) };

    ghost laws = { texts_po };

    fn partial_cmp(&self, other: &Text) -> Option<Ordering> {
        Some(self.cmp(other))
    }
}

impl Ord for Text {
    ghost cmp = { slice_cmp nat_cmp };

    ghost total = { nat_list_cmp_total };

    ghost matches_partial_cmp = { λ x y. refl };

    ghost matches_eq = { texts_ties };

    fn cmp(&self, other: &Text) -> Ordering {
        self.as_str().cmp(other.as_str())
    }
}
