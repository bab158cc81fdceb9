ghost use Rattle.std.specs.Prelude.{◌≡◌};
ghost use Rattle.finding_sentences.specs.TextSentence.{byte_sentence, has_mark, syntax_sentence, text_sentence};

use decimal_json::JsonKind;

/// Why bytes are no JSON text, by the kind of the fault and the bytes from its place on.
pub fn text_sentence(kind: JsonKind, rest: &[u8]) -> &'static str
    ensures { result.now ≡ text_sentence kind rest.now }
{
    match kind {
        JsonKind::Syntax => syntax_sentence(rest),
        JsonKind::Utf8 => "this is no UTF-8",
        JsonKind::DuplicateKey => "a key is given twice in one object",
        JsonKind::Depth => "more than 64 arrays and objects are open at once",
        JsonKind::NumberLength => "a number is longer than 64 bytes",
        JsonKind::LoneSurrogate => "half of an escaped pair is missing",
    }
}

fn syntax_sentence(rest: &[u8]) -> &'static str
    ensures { result.now ≡ syntax_sentence rest.now }
{
    if has_mark(rest) {
        return "there is a byte order mark, which JSON does not have";
    }
    match rest {
        [] => "the text ends before the value does",
        [byte, ..] => byte_sentence(*byte),
    }
}

// A byte order mark, U+FEFF.
fn has_mark(rest: &[u8]) -> bool
    ensures { result ≡ has_mark rest.now }
{
    match rest {
        [a, b, c, ..] => *a == 239 && *b == 187 && *c == 191,
        _ => false,
    }
}

fn byte_sentence(byte: u8) -> &'static str
    ensures { result.now ≡ byte_sentence byte }
{
    match byte {
        b'/' | b'#' => "JSON cannot go on so, and has no comments",
        b'\'' => "JSON cannot go on so: a text is in \", not in '",
        b']' => "an array cannot end here: is there a comma before it, or is an object open?",
        b'}' => "an object cannot end here: is there a comma before it, or is an array open?",
        _ => "JSON cannot go on so: is a comma, a colon or a quotation mark missing before it?",
    }
}
