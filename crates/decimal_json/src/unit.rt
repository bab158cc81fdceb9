ghost use Rattle.std.specs.Prelude.{◌≡◌, ◌<◌, List, ℕ, ◌++◌, OnOk, IfOk, encode_utf8};
ghost use Rattle.std.specs.Char.{IsScalar};
ghost use Rattle.json_tokens.specs.TextToken.{is_low};
ghost use Rattle.decimal_json.specs.Follows.{is_due, IsDueHigh};
ghost use Rattle.decimal_json.specs.TextParts.{IsWritten};

use std::alloc::AllocError;

// Writes the character after the text.
fn push_char(text: &mut Vec<u8>, code: u32) -> Result<(), AllocError>
    requires { IsScalar code }
    ensures { OnOk result (text.new.items ≡ text.old.items ++ encode_utf8 code) }
{
    let Some(character) = char::from_u32(code) else {
        unreachable!();
    };
    let mut buffer = [0u8; 4];
    text.extend_from_slice(character.encode_utf8(&mut buffer).as_bytes())
}

// Writes what a code unit means after the text; a first surrogate is then due to be completed.
pub fn push_unit(text: &mut Vec<u8>, due: Option<u32>, unit: u32) -> Result<Option<u32>, AllocError>
    requires small { unit < 65536 }
    requires fits { is_low unit ≡ is_due due }
    requires high { IsDueHigh due }
    ensures { IfOk result
        (λ next_due. (out : List ℕ) × (text.new.items ≡ text.old.items ++ out) × IsWritten due unit out next_due) }
{
    match due {
        Some(high) => {
            push_char(text, 0x10000 + (high - 0xD800) * 0x400 + (unit - 0xDC00))?;
            Ok(None)
        }
        None => {
            if unit >= 0xD800 && unit < 0xDC00 {
                return Ok(Some(unit));
            }
            push_char(text, unit)?;
            Ok(None)
        }
    }
}
