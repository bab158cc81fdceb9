ghost use Rattle.std.specs.Prelude.{◌≡◌, ◌+◌, ◌^◌, ◌<◌, ◌↔◌, length, false, IfSome, IfOk, OnOk, IsNone};
ghost use Rattle.proto_wire.specs.View.{content_length};
ghost use Rattle.proto_wire.specs.Reading.{NextGives, IsOver};

use crate::field::{Field, WireFault, read_field};
use std::marker::Model;

/// Reads the fields of a message one after the other.
///
/// Contracts see what is left: `bytes`, the offset `at` of their first byte, and whether a fault came,
/// `failed`.
#[derive(Drop)]
pub struct Fields<'a> {
    rest: &'a [u8],
    offset: usize,
    over: bool,
}

impl<'a> Model for Fields<'a> {
    ghost use Rattle.std.specs.Prelude.{◌+◌, ◌^◌, ◌<◌, length};
    ghost use Rattle.proto_wire.specs.Reading.{ReaderState};

    ghost Value = { ReaderState };

    ghost view = { λ fields. record { at = fields.offset; bytes = fields.rest.now; failed = fields.over } };

    ghost invariant = { λ fields. fields.offset + length fields.rest.now < 2 ^ 64 };
}

impl<'a> Fields<'a> {
    /// The fields of `bytes`, the first of which is at the offset `base` of something larger.
    pub fn new(bytes: &'a [u8], base: usize) -> Fields<'a>
        requires { base + length bytes.now < 2 ^ 64 }
        ensures { result ≡ record { at = base; bytes = bytes.now; failed = false } }
    {
        Fields {
            rest: bytes,
            offset: base,
            over: false,
        }
    }

    /// The offset of the first byte that is not yet read, the base included: where the next field begins and
    /// the last one ended, or where the tag of the faulty field begins.
    pub fn offset(&self) -> usize
        ensures offset { result ≡ self.now.at }
        ensures within { self.now.at + length self.now.bytes < 2 ^ 64 }
    {
        let _rest = &self.rest;
        self.offset
    }

    /// The next field, or the first fault. After a fault there is nothing more.
    #[inline(always)]
    pub fn next(&mut self) -> Option<Result<Field<'a>, WireFault>>
        ensures next { NextGives self.old result self.new }
        ensures end { IsNone result ↔ IsOver self.old }

        // Each field takes bytes, and its content is among them.
        ensures taken { IfSome result (λ read. OnOk read (length self.new.bytes < length self.old.bytes)) }
        ensures inside { IfSome result (λ read. IfOk read (λ field.
            self.old.at + content_length field.wire < self.new.at)) }
    {
        if self.over || self.rest.is_empty() {
            return None;
        }
        let at = self.offset;
        match read_field(self.rest, at) {
            Ok((field, rest)) => {
                self.offset = at + (self.rest.len() - rest.len());
                self.rest = rest;
                Some(Ok(field))
            }
            Err(kind) => {
                self.over = true;
                Some(Err(WireFault { kind, at }))
            }
        }
    }
}
