//! The words of which sentences are made.

ghost use Rattle.std.specs.Prelude.{◌≡◌, ◌++◌, decimal, OnOk};
ghost use Rattle.std.specs.List.{list_all};
ghost use Rattle.decimal_json.specs.View.{tree_of};
ghost use Rattle.finding_sentences.specs.Words.{array_text, counted, found_text, is_plain, lacks, member_unlike};
ghost use Rattle.finding_sentences.specs.Words.{name_text, shown_text, unlike};

use decimal_json::{Json, write_text};
use itoa::Buffer;
use std::alloc::AllocError;

/// What is said where nothing more is known.
pub(crate) const BREAKS_RULE: &[u8] = b"does not keep this rule";

/// A number within it is past the bound of numbers.
pub(crate) const PAST_BOUND: &[u8] = b"a number is past 100000000000000000000";

/// How many bytes of a text are shown.
const SHOWN_BYTES: usize = 200;

/// Appends a name as it is where it has plain characters alone, and as a JSON string where it has others or none.
pub(crate) fn write_name(name: &str, out: &mut Vec<u8>) -> Result<(), AllocError>
    ensures { OnOk result (out.new.items ≡ out.old.items ++ name_text name.now) }
{
    if !name.is_empty() && is_plain_name(name.as_bytes()) {
        return out.extend_from_slice(name.as_bytes());
    }
    write_text(name, out)
}

fn is_plain_name(name: &[u8]) -> bool
    ensures { result ≡ list_all is_plain name.now }
{
    for byte in name {
        if !is_plain(*byte) {
            return false;
        }
    }
    true
}

fn is_plain(byte: u8) -> bool
    ensures { result ≡ is_plain byte }
{
    byte >= b'a' && byte <= b'z'
        || byte >= b'A' && byte <= b'Z'
        || byte >= b'0' && byte <= b'9'
        || byte == b'-'
        || byte == b'_'
}

/// Appends a text as a JSON string, or its length where it is long.
pub(crate) fn write_shown(text: &str, out: &mut Vec<u8>) -> Result<(), AllocError>
    ensures { OnOk result (out.new.items ≡ out.old.items ++ shown_text text.now) }
{
    if text.len() <= SHOWN_BYTES {
        return write_text(text, out);
    }
    out.extend_from_slice(b"a text of ")?;
    write_count(text.len(), out)?;
    out.extend_from_slice(b" bytes")
}

/// Appends a number in decimal.
pub(crate) fn write_count(count: usize, out: &mut Vec<u8>) -> Result<(), AllocError>
    ensures { OnOk result (out.new.items ≡ out.old.items ++ decimal count) }
{
    let mut digits = Buffer::new();
    out.extend_from_slice(digits.format(count).as_bytes())
}

/// Appends how many things of a kind there are.
pub(crate) fn write_counted(
    count: usize,
    one: &[u8],
    more: &[u8],
    out: &mut Vec<u8>,
) -> Result<(), AllocError>
    ensures { OnOk result (out.new.items ≡ out.old.items ++ counted count one.now more.now) }
{
    write_count(count, out)?;
    out.extend_from_slice(b" ")?;
    if count == 1 {
        out.extend_from_slice(one)
    } else {
        out.extend_from_slice(more)
    }
}

/// Appends what a value is: the value itself, or what it is made of.
#[tactic(auto, using(crate::proofs::TreeLaws::counts_items))]
pub(crate) fn write_found(json: &Json, out: &mut Vec<u8>) -> Result<(), AllocError>
    ensures { OnOk result (out.new.items ≡ out.old.items ++ found_text (tree_of json.now)) }
{
    match json {
        Json::Null => out.extend_from_slice(b"null"),
        Json::Bool(true) => out.extend_from_slice(b"true"),
        Json::Bool(false) => out.extend_from_slice(b"false"),
        Json::Num(number) => out.extend_from_slice(number.as_str().as_bytes()),
        Json::Text(text) => write_shown(text.as_str(), out),
        Json::List(items) => write_array(items.as_slice().len(), out),
        Json::Object(_) => out.extend_from_slice(b"an object"),
    }
}

#[tactic(auto, using(crate::proofs::Appending::nothing_after))]
fn write_array(count: usize, out: &mut Vec<u8>) -> Result<(), AllocError>
    ensures { OnOk result (out.new.items ≡ out.old.items ++ array_text count) }
{
    out.extend_from_slice(b"an array of ")?;
    write_counted(count, b"item", b"items", out)?;
    Ok(())
}

/// Appends that a value has another form than these words say.
pub(crate) fn write_unlike(wanted: &[u8], json: &Json, out: &mut Vec<u8>) -> Result<(), AllocError>
    ensures { OnOk result (out.new.items ≡ out.old.items ++ unlike wanted.now (tree_of json.now)) }
{
    out.extend_from_slice(b"must be ")?;
    out.extend_from_slice(wanted)?;
    out.extend_from_slice(b", found ")?;
    write_found(json, out)
}

/// Appends that a member has another form.
pub(crate) fn write_member_unlike(
    key: &str,
    wanted: &[u8],
    json: &Json,
    out: &mut Vec<u8>,
) -> Result<(), AllocError>
    ensures { OnOk result (out.new.items ≡ out.old.items ++ member_unlike key.now wanted.now (tree_of json.now)) }
{
    write_text(key, out)?;
    out.extend_from_slice(b" ")?;
    write_unlike(wanted, json, out)
}

/// Appends that a member that has to be there is missing.
pub(crate) fn write_lacks(key: &str, out: &mut Vec<u8>) -> Result<(), AllocError>
    ensures { OnOk result (out.new.items ≡ out.old.items ++ lacks key.now) }
{
    write_text(key, out)?;
    out.extend_from_slice(b" is missing")?;
    Ok(())
}
