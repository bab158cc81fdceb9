ghost use Rattle.std.specs.Prelude.{◌≡◌, ◌+◌, ◌-◌, ◌<◌, ◌≤◌, length, IfOk, Result, Ok, Err};
ghost use Rattle.proto_wire.specs.Varint.{varint_at};
ghost use Rattle.proto_wire.specs.Message.{front_of, wire_type_of, tag_of, tag_at, payload_at, field_at};
ghost use Rattle.proto_wire.specs.View.{GivesWire, payload_seen, content_length, field_seen};

use crate::wire::{WireKind, varint};

/// What a field holds, by its wire type.
#[derive(Clone, Copy, Debug, PartialEq, Eq)]
pub enum Wire<'a> {
    /// Wire type 0: a number of variable length.
    Varint(u64),
    /// Wire type 1: eight bytes, the lowest first.
    Bits64(u64),
    /// Wire type 2: a text, a message or packed numbers.
    Bytes(&'a [u8]),
    /// Wire type 5: four bytes, the lowest first.
    Bits32(u32),
}

#[derive(Clone, Copy, Debug, PartialEq, Eq)]
pub struct Field<'a> {
    /// From 1 to 2^29 - 1.
    pub number: u32,
    /// The offset of the field's tag, in bytes, the reader's base included.
    pub at: usize,
    /// What it holds; contents are part of the bytes that were read.
    pub wire: Wire<'a>,
}

/// The fault at which reading ends.
#[derive(Clone, Copy, Debug, PartialEq, Eq)]
pub struct WireFault {
    pub kind: WireKind,
    /// The offset at which the tag of the faulty field begins, in bytes, the reader's base included.
    pub at: usize,
}

/// The wire types that have a meaning.
#[derive(Clone, Copy)]
enum WireType {
    Varint,
    Bits64,
    Bytes,
    Bits32,
}

/// The field at the front of bytes that are at the offset `at`, and the bytes after it.
#[tactic(auto, unfolding(crate::specs::Message::field_at))]
#[inline(always)]
pub(crate) fn read_field(bytes: &[u8], at: usize) -> Result<(Field<'_>, &[u8]), WireKind>
    ensures field { GivesWire (λ read. (field_seen read.0 (at + (length bytes.now - length read.1.now)), read.1.now))
        result (field_at at bytes.now) }
    ensures taken { IfOk result (λ read. content_length read.0.wire + length read.1.now < length bytes.now) }
{
    let ((number, wire_type), rest) = tag(bytes)?;
    let (wire, rest) = payload(wire_type, rest)?;
    Ok((Field { number, at, wire }, rest))
}

// The field number and the wire type at the front.
#[tactic(auto, unfolding(crate::specs::Message::tag_at))]
#[inline(always)]
fn tag(bytes: &[u8]) -> Result<((u32, WireType), &[u8]), WireKind>
    ensures tag { GivesWire (λ read. ((read.0.0, read.0.1), read.1.now)) result (tag_at bytes.now) }
    ensures taken { IfOk result (λ read. length read.1.now < length bytes.now) }
{
    let (tag, rest) = number(bytes)?;
    let Ok(tag) = u32::try_from(tag) else {
        return Err(WireKind::Varint);
    };
    if tag < 8 {
        return Err(WireKind::WireType);
    }
    let wire_type = wire_type(tag % 8)?;
    Ok(((tag / 8, wire_type), rest))
}

#[inline(always)]
fn wire_type(code: u32) -> Result<WireType, WireKind>
    ensures { result ≡ wire_type_of code }
{
    match code {
        0 => Ok(WireType::Varint),
        1 => Ok(WireType::Bits64),
        2 => Ok(WireType::Bytes),
        5 => Ok(WireType::Bits32),
        _ => Err(WireKind::WireType),
    }
}

// What a field of this wire type holds, at the front.
#[tactic(auto, unfolding(crate::specs::Message::payload_at))]
#[inline(always)]
fn payload(wire_type: WireType, bytes: &[u8]) -> Result<(Wire<'_>, &[u8]), WireKind>
    ensures payload { GivesWire (λ read. (payload_seen read.0, read.1.now)) result (payload_at wire_type bytes.now) }
    ensures taken { IfOk result (λ read. content_length read.0 + length read.1.now ≤ length bytes.now) }
{
    match wire_type {
        WireType::Varint => {
            let (number, rest) = number(bytes)?;
            Ok((Wire::Varint(number), rest))
        }
        WireType::Bits64 => {
            let (held, rest) = front(bytes, 8)?;
            let number = u64::from_le_bytes([
                held[0], held[1], held[2], held[3], held[4], held[5], held[6], held[7],
            ]);
            Ok((Wire::Bits64(number), rest))
        }
        WireType::Bytes => {
            let (count, rest) = number(bytes)?;
            let (content, rest) = front(rest, count)?;
            Ok((Wire::Bytes(content), rest))
        }
        WireType::Bits32 => {
            let (held, rest) = front(bytes, 4)?;
            let number = u32::from_le_bytes([held[0], held[1], held[2], held[3]]);
            Ok((Wire::Bits32(number), rest))
        }
    }
}

// The number at the front, and the bytes after it.
#[inline(always)]
fn number(bytes: &[u8]) -> Result<(u64, &[u8]), WireKind>
    ensures number { GivesWire (λ read. (read.0, read.1.now)) result (varint_at bytes.now) }
    ensures taken { IfOk result (λ read. length read.1.now < length bytes.now) }
{
    let mut rest = bytes;
    let number = varint(&mut rest)?;
    Ok((number, rest))
}

// The first `count` bytes, and those after them.
#[inline(always)]
fn front(bytes: &[u8], count: u64) -> Result<(&[u8], &[u8]), WireKind>
    ensures front { GivesWire (λ read. (read.0.now, read.1.now)) result (front_of count bytes.now) }
    ensures length { IfOk result (λ read. length read.0.now ≡ count) }
    ensures taken { IfOk result (λ read. length read.0.now + length read.1.now ≡ length bytes.now) }
{
    if count > bytes.len() as u64 {
        return Err(WireKind::Truncated);
    }
    Ok(bytes.split_at(count as usize))
}
