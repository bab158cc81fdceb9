ghost use Rattle.std.specs.Prelude.{◌≡◌, ◌≤◌, [], ◌∷◌, ◌++◌, ℕ, List, length, take, drop, Some, None, IfOk, IsUtf8};
ghost use Rattle.std.specs.Bool.{OnTrue, OnFalse};
ghost use Rattle.json_tokens.specs.RunLengths.{first_of};
ghost use Rattle.json_tokens.specs.SequenceReaders.{IsSkipped};

use crate::runs::{Spaces, run_length};
use shared_text::{Document, Text};
use std::alloc::AllocError;
use std::marker::Model;

/// A place in a document, which clauses see as the bytes that are left.
#[derive(Drop)]
pub struct Cursor<'a> {
    document: &'a Document,
    rest: &'a [u8],
}

impl<'a> Model for Cursor<'a> {
    ghost use Rattle.std.specs.Prelude.{ℕ, List};

    ghost Value = { List ℕ };

    ghost view = { λ a. a.rest.now };

    ghost use Rattle.shared_text.specs.Ranges.{IsRest};

    ghost invariant = { λ a. IsRest a.rest.now a.document.now };
}

impl<'a> Cursor<'a> {
    /// The start of a document.
    pub fn new(document: &'a Document) -> Cursor<'a>
        ensures { result ≡ document.now }
    {
        Cursor {
            document,
            rest: document.as_slice(),
        }
    }

    /// The same place.
    pub fn fork(&self) -> Cursor<'a>
        ensures { result ≡ self.now }
    {
        Cursor {
            document: self.document,
            rest: self.rest,
        }
    }

    /// The next bytes as a text. No byte is copied.
    #[inline(always)]
    pub fn text(&self, count: usize) -> Result<Text, AllocError>
        requires within { count ≤ length self.now }
        requires utf8 { IsUtf8 (take count self.now) }
        ensures { IfOk result (λ text. text ≡ take count self.now) }
    {
        Text::of_rest(self.document, self.rest, count)
    }

    /// The bytes that are left.
    pub fn rest(&self) -> &'a [u8]
        ensures { result.now ≡ self.now }
    {
        self.rest
    }

    /// The next byte, or `None` at the end.
    pub fn peek(&self) -> Option<u8>
        ensures { result ≡ first_of self.now }
    {
        match self.rest {
            [first, ..] => Some(*first),
            [] => None,
        }
    }

    /// Takes the next byte where it is this one, and else stays.
    pub fn take_if(&mut self, byte: u8) -> bool
        ensures taken { OnTrue result (self.old ≡ byte ∷ self.new) }
        ensures stays { OnFalse result (self.new ≡ self.old) }
        ensures other { OnFalse result ((rest : List ℕ) → self.old ≡ byte ∷ rest → ⊥) }
        ensures shorter { length self.new ≤ length self.old }
    {
        match self.rest {
            [first, others @ ..] if *first == byte => {
                self.rest = others;
                true
            }
            _ => false,
        }
    }

    /// Passes the white space at the cursor.
    #[inline(always)]
    pub fn skip_spaces(&mut self)
        ensures skipped { IsSkipped self.old self.new }
        ensures shorter { length self.new ≤ length self.old }
    {
        if may_be_space(self.rest) {
            self.take_front(run_length::<Spaces>(self.rest));
        }
    }

    /// Takes `count` bytes.
    pub fn take_front(&mut self, count: usize) -> &'a [u8]
        requires { count ≤ length self.old }
        ensures split { self.old ≡ result.now ++ self.new }
        ensures front { result.now ≡ take count self.old }
        ensures back { self.new ≡ drop count self.old }
        ensures shorter { length self.new ≤ length self.old }
    {
        let (taken, others) = self.rest.split_at(count);
        self.rest = others;
        taken
    }
}

// Whether white space may be at the front. Most often there is another byte, and nothing to be passed.
fn may_be_space(bytes: &[u8]) -> bool
    ensures { OnFalse result (IsSkipped bytes.now bytes.now) }
{
    match bytes {
        [first, ..] => *first <= b' ',
        [] => false,
    }
}
