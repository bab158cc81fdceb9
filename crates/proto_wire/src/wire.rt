ghost use Rattle.std.specs.Prelude.{◌≡◌, ◌<◌, ◌^◌, length, OnOk, OnErr, IfOk, IfErr, Ok, Err};
ghost use Rattle.proto_wire.specs.Varint.{varint_at, number_of, within_64_bits};
ghost use Rattle.proto_wire.specs.Reading.{onto};
ghost use Rattle.proto_wire.specs.View.{GivesWire};

/// What is wrong with the bytes of a field.
#[derive(Clone, Copy, Debug, PartialEq, Eq)]
pub enum WireKind {
    /// A number of more than ten bytes or 64 bits, or a tag of more than 32 bits.
    Varint,
    /// A number or a content goes on past the end of the bytes.
    Truncated,
    /// A wire type with no meaning (3, 4, 6 or 7), or the field number 0.
    WireType,
}

/// Takes the number at the front of `bytes`, as in a packed field: base-128 digits, the lowest first, each
/// but the last with the high bit (Protocol Buffers, "Encoding"). Spellings with more bytes than are needed
/// are read too.
///
/// The fault is `Varint` where the tenth byte has the high bit or the number passes 64 bits, and `Truncated`
/// where `bytes` end first. It leaves `bytes` as they were.
#[inline(always)]
pub fn varint(bytes: &mut &[u8]) -> Result<u64, WireKind>
    ensures ok { IfOk result (λ number. varint_at bytes.old.now ≡ Ok (number, bytes.new.now)) }
    ensures taken { OnOk result (length bytes.new.now < length bytes.old.now) }

    ensures fault { IfErr result (λ kind. varint_at bytes.old.now ≡ Err kind) }
    ensures unchanged { OnErr result (bytes.new.now ≡ bytes.old.now) }
{
    // Most numbers have one byte.
    if let Some((first, rest)) = bytes.split_first() {
        if *first < 128 {
            *bytes = rest;
            return Ok(u64::from(*first));
        }
    }
    let (number, rest) = digits(bytes)?;
    *bytes = rest;
    Ok(number)
}

// The number at the front in whatever spelling, and the bytes after it. Nine digits fit 63 bits.
#[inline(never)]
fn digits(bytes: &[u8]) -> Result<(u64, &[u8]), WireKind>
    ensures number { GivesWire (λ read. (read.0, read.1.now)) result (varint_at bytes.now) }
    ensures taken { IfOk result (λ read. length read.1.now < length bytes.now) }
{
    let mut value = 0u64;
    let mut weight = 1u64;
    let mut rest = bytes;
    for index in 0..9u32 {
        let Some((first, others)) = rest.split_first() else {
            return Err(WireKind::Truncated);
        };
        rest = others;
        if *first < 128 {
            return Ok((value + weight * u64::from(*first), rest));
        }
        value += weight * u64::from(*first % 128);
        weight *= 128;
    }
    tenth_digit(value, rest)
}

// The number whose first nine digits are `value`, of which the tenth is the highest bit of 64.
fn tenth_digit(value: u64, bytes: &[u8]) -> Result<(u64, &[u8]), WireKind>
    requires { value < 2 ^ 63 }
    ensures number { GivesWire (λ read. (read.0, read.1.now)) result
        (within_64_bits (onto value (2 ^ 63) (number_of 1 bytes.now))) }
    ensures taken { IfOk result (λ read. length read.1.now < length bytes.now) }
{
    match bytes.split_first() {
        None => Err(WireKind::Truncated),
        Some((0, rest)) => Ok((value, rest)),
        Some((1, rest)) => Ok((value + (1 << 63), rest)),
        Some(_) => Err(WireKind::Varint),
    }
}
