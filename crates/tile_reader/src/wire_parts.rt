ghost use Rattle.std.specs.Prelude.{◌≡◌, false, OnOk, IfOk, IfSome, ◌+◌, ◌<◌, ◌^◌, length};
ghost use Rattle.proto_wire.specs.View.{payload_seen, content_length};
ghost use Rattle.tile_reader.specs.Read.{number_in, bytes_in, bits64_in, bits32_in, text_of, text_in};
ghost use Rattle.tile_reader.specs.View.{GivesRead, TakesFront};

use crate::fault::{TileFault, TileKind};
use proto_wire::{Field, Fields, Wire};

/// The next field, or `None` at the end of the message.
#[inline(always)]
pub(crate) fn next_field<'a>(fields: &mut Fields<'a>) -> Result<Option<Field<'a>>, TileFault>
    requires { fields.old.failed ≡ false }
    ensures front { TakesFront fields.old result fields.new }
    ensures going { OnOk result (fields.new.failed ≡ false) }
    ensures taken { IfOk result (λ read. IfSome read (λ _. length fields.new.bytes < length fields.old.bytes)) }
    ensures inside { IfOk result (λ read. IfSome read (λ field. content_length field.wire < fields.new.at)) }
{
    match fields.next() {
        None => Ok(None),
        Some(Ok(field)) => Ok(Some(field)),
        Some(Err(fault)) => Err(TileFault::from(fault)),
    }
}

/// The fault of a known field of another wire type, whose tag is at `at`.
pub(crate) fn wrong_type(at: usize) -> TileFault
    ensures { result ≡ record { kind = TileKind.FieldType; at = at } }
{
    TileFault {
        kind: TileKind::FieldType,
        at,
    }
}

/// The number of a field of wire type 0.
#[inline(always)]
pub(crate) fn number_in(at: usize, wire: Wire<'_>) -> Result<u64, TileFault>
    ensures { GivesRead (λ n. n) result (number_in at (payload_seen wire.entry)) }
{
    match wire {
        Wire::Varint(number) => Ok(number),
        Wire::Bits64(_) | Wire::Bytes(_) | Wire::Bits32(_) => Err(wrong_type(at)),
    }
}

/// The content of a field of wire type 2.
#[inline(always)]
pub(crate) fn bytes_in(at: usize, wire: Wire<'_>) -> Result<&[u8], TileFault>
    ensures content { GivesRead (λ b. b.now) result (bytes_in at (payload_seen wire.entry)) }
    ensures length { IfOk result (λ b. length b.now ≡ content_length wire.entry) }
{
    match wire {
        Wire::Bytes(content) => Ok(content),
        Wire::Varint(_) | Wire::Bits64(_) | Wire::Bits32(_) => Err(wrong_type(at)),
    }
}

/// The bits of a field of wire type 1.
pub(crate) fn bits64_in(at: usize, wire: Wire<'_>) -> Result<u64, TileFault>
    ensures { GivesRead (λ n. n) result (bits64_in at (payload_seen wire.entry)) }
{
    match wire {
        Wire::Bits64(bits) => Ok(bits),
        Wire::Varint(_) | Wire::Bytes(_) | Wire::Bits32(_) => Err(wrong_type(at)),
    }
}

/// The bits of a field of wire type 5.
pub(crate) fn bits32_in(at: usize, wire: Wire<'_>) -> Result<u32, TileFault>
    ensures { GivesRead (λ n. n) result (bits32_in at (payload_seen wire.entry)) }
{
    match wire {
        Wire::Bits32(bits) => Ok(bits),
        Wire::Varint(_) | Wire::Bits64(_) | Wire::Bytes(_) => Err(wrong_type(at)),
    }
}

/// The text that these bytes are.
pub(crate) fn text_of(at: usize, bytes: &[u8]) -> Result<&str, TileFault>
    ensures { GivesRead (λ s. s.now) result (text_of at bytes.now) }
{
    match str::from_utf8(bytes) {
        Ok(text) => Ok(text),
        Err(_) => Err(TileFault {
            kind: TileKind::Utf8,
            at,
        }),
    }
}

/// The text of a field of wire type 2.
pub(crate) fn text_in(at: usize, wire: Wire<'_>) -> Result<&str, TileFault>
    ensures { GivesRead (λ s. s.now) result (text_in at (payload_seen wire.entry)) }
{
    let bytes = bytes_in(at, wire)?;
    text_of(at, bytes)
}
