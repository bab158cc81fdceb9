//! Contents: bytes that a row gives as texts, as hexadecimal digits, or as either several times.

use crate::members::{member, size_of, text_of};
use anyhow::{Context, Result, bail, ensure};
use decimal_json::{Json, Members};
use std::alloc::Global;

pub fn content(alloc: Global, json: &Json) -> Result<Vec<u8>> {
    let mut bytes = Vec::new(alloc);
    match json {
        Json::List(pieces) => {
            for piece in pieces.as_slice() {
                append_piece(alloc, piece, &mut bytes)?;
            }
        }
        piece => append_piece(alloc, piece, &mut bytes)?,
    }
    Ok(bytes)
}

fn append_piece(alloc: Global, piece: &Json, into: &mut Vec<u8>) -> Result<()> {
    let Json::Object(members) = piece else {
        return append_plain(piece, into);
    };
    let Some(times) = members.get("times") else {
        return append_hex(members, into);
    };
    let mut once = Vec::new(alloc);
    append_plain(member(members, "of")?, &mut once)?;
    for _ in 0..size_of(times)? {
        into.extend_from_slice(once.as_slice())?;
    }
    Ok(())
}

/// Appends the bytes of a text or of hexadecimal digits.
fn append_plain(piece: &Json, into: &mut Vec<u8>) -> Result<()> {
    match piece {
        Json::Text(text) => Ok(into.extend_from_slice(text.as_str().as_bytes())?),
        Json::Object(members) => append_hex(members, into),
        _ => bail!("no piece of a content"),
    }
}

/// Appends the bytes of `{"hex":".."}`, two digits a byte.
fn append_hex(members: &Members, into: &mut Vec<u8>) -> Result<()> {
    let digits = text_of(member(members, "hex")?)?.as_bytes();
    ensure!(digits.len() % 2 == 0, "half a byte");
    for pair in digits.chunks(2) {
        let &[high, low] = pair else {
            bail!("half a byte");
        };
        // Both digits are below 16, so nothing wraps.
        into.push(
            digit_of(high)?
                .wrapping_mul(16)
                .wrapping_add(digit_of(low)?),
        )?;
    }
    Ok(())
}

fn digit_of(byte: u8) -> Result<u8> {
    let digit = char::from(byte)
        .to_digit(16)
        .context("no hexadecimal digit")?;
    Ok(u8::try_from(digit)?)
}
