ghost use Rattle.std.specs.Prelude.{◌≡◌, ◌≤◌, ◌<◌, IsUtf8, [], Some, length, IfOk};
ghost use Rattle.json_tokens.specs.Readers.{Gives};
ghost use Rattle.json_tokens.specs.RunLengths.{first_of};
ghost use Rattle.json_tokens.specs.SequenceReaders.{BehindByte};
ghost use Rattle.decimal_json.specs.Grammar.{IsNew, SpellsKey, SpellsValue, SpellsItems, SpellsMembers};
ghost use Rattle.decimal_json.specs.Parsed.{Parses};
ghost use Rattle.decimal_json.specs.Reading.{AreUtf8, GivesItem, GivesTurn, SpellsMembersOn, SpellsNamed, SpellsPair, SpellsSome};
ghost use Rattle.decimal_json.specs.Reading.{GivesWhole, keys_of, pair_of};
ghost use Rattle.decimal_json.specs.Tree.{trees_of, fields_of};
ghost use Rattle.decimal_json.specs.View.{tree_of};

use crate::fault::JsonFault;
use crate::tokens::{read_number, read_string, read_text, read_word};
use crate::tree::{EXPRESSION_ROOM, Items, Json, Member, Members, PAIR_ROOM};
use halts::Halt;
use json_tokens::{Cursor, JsonKind};
use shared_text::{Document, Text};
use std::alloc::{AllocError, Global};

/// How many arrays and objects may be open at one place.
const MAX_OPEN: usize = 64;

/// The tree that the bytes spell; or, where they spell none, the fault's place and kind. The bytes are copied
/// once: texts without escapes, keys and numbers are ranges of that copy.
pub fn parse(alloc: Global, bytes: &[u8]) -> Result<Result<Json, JsonFault>, AllocError>
    ensures { IfOk result (Parses bytes.now) }
{
    let document = Document::copy_of(alloc, bytes)?;
    read_document(alloc, &document)
}

/// The same of bytes that the tree takes over, as those of a file: they are not copied.
pub fn parse_owned(alloc: Global, bytes: Vec<u8>) -> Result<Result<Json, JsonFault>, AllocError>
    ensures { IfOk result (Parses bytes.items) }
{
    let document = Document::of(bytes)?;
    read_document(alloc, &document)
}

// The tree that a document spells, or the fault.
fn read_document(alloc: Global, document: &Document) -> Result<Result<Json, JsonFault>, AllocError>
    ensures { IfOk result (Parses document.now) }
{
    let mut cursor = Cursor::new(document);
    match read_whole(alloc, &mut cursor) {
        Ok(json) => Ok(Ok(json)),
        Err(Halt::Fault(kind)) => Ok(Err(JsonFault {
            kind,
            at: document.as_slice().len() - cursor.rest().len(),
        })),
        Err(Halt::NoMemory) => Err(AllocError),
    }
}

// Reads a value with the white space round it, to the end.
fn read_whole(alloc: Global, cursor: &mut Cursor<'_>) -> Result<Json, Halt<JsonKind>>
    ensures gives { GivesWhole cursor.old result cursor.new }
    ensures shorter { length cursor.new ≤ length cursor.old }
{
    cursor.skip_spaces();
    let json = match read_value(alloc, cursor, 0) {
        Ok(json) => json,
        Err(halt) => return Err(halt),
    };
    cursor.skip_spaces();
    match cursor.peek() {
        None => Ok(json),
        Some(_) => Err(Halt::Fault(JsonKind::Syntax)),
    }
}

#[inline(always)]
#[cycle(read)]
fn read_value(alloc: Global, cursor: &mut Cursor<'_>, depth: usize) -> Result<Json, Halt<JsonKind>>
    requires { depth ≤ MAX_OPEN }
    ensures gives { Gives (SpellsValue depth) tree_of cursor.old result cursor.new }
    ensures shorter { length cursor.new ≤ length cursor.old }
{
    match cursor.peek() {
        Some(b'[') => read_list(alloc, cursor, depth),
        Some(b'{') => read_object(alloc, cursor, depth),
        Some(b'"') => read_text(alloc, cursor),
        Some(b't') => read_word(cursor, "true", Json::Bool(true)),
        Some(b'f') => read_word(cursor, "false", Json::Bool(false)),
        Some(b'n') => read_word(cursor, "null", Json::Null),
        Some(byte) if byte == b'-' || byte.is_ascii_digit() => read_number(cursor),
        _ => Err(Halt::Fault(JsonKind::Syntax)),
    }
}

#[inline(never)]
#[cycle(read)]
fn read_list(alloc: Global, cursor: &mut Cursor<'_>, depth: usize) -> Result<Json, Halt<JsonKind>>
    requires within { depth ≤ MAX_OPEN }
    requires bracket { first_of cursor.old ≡ Some 91 }
    ensures gives { Gives (SpellsValue depth) tree_of cursor.old result cursor.new }
    ensures shorter { length cursor.new ≤ length cursor.old }
{
    if depth >= MAX_OPEN {
        return Err(Halt::Fault(JsonKind::Depth));
    }
    cursor.take_front(1);
    cursor.skip_spaces();
    match read_items(alloc, cursor, depth + 1) {
        Ok(items) => Ok(Json::List(items)),
        Err(halt) => Err(halt),
    }
}

// Reads the items of an array whose bracket is open, and the bracket that closes it.
#[inline(always)]
#[cycle(read)]
fn read_items(alloc: Global, cursor: &mut Cursor<'_>, depth: usize) -> Result<Items, Halt<JsonKind>>
    requires { depth ≤ MAX_OPEN }
    ensures gives { Gives (SpellsItems depth) trees_of cursor.old result cursor.new }
    ensures shorter { length cursor.new ≤ length cursor.old }
{
    if cursor.take_if(b']') {
        return Ok(Items::new(alloc));
    }
    read_elements(alloc, cursor, depth)
}

// How many items an array has room for when its first item is read.
#[inline(always)]
fn first_room(cursor: &Cursor<'_>) -> usize {
    match cursor.peek() {
        Some(b'"') => EXPRESSION_ROOM,
        _ => PAIR_ROOM,
    }
}

// Reads at least one item, and the bracket that closes the array.
#[inline(always)]
#[cycle(read)]
fn read_elements(
    alloc: Global,
    cursor: &mut Cursor<'_>,
    depth: usize,
) -> Result<Items, Halt<JsonKind>>
    requires { depth ≤ MAX_OPEN }
    ensures gives { Gives (SpellsSome depth) trees_of cursor.old result cursor.new }
    ensures shorter { length cursor.new ≤ length cursor.old }
{
    let mut items = Items::with_room(alloc, first_room(cursor))?;
    loop {
        match read_item(alloc, cursor, depth, &mut items) {
            Ok(()) => match read_turn(cursor, b']') {
                Ok(true) => return Ok(items),
                Ok(false) => {}
                Err(kind) => return Err(Halt::Fault(kind)),
            },
            Err(halt) => return Err(halt),
        }
    }
}

// Reads an item and puts it behind these. A number goes there at once, since arrays of many items are of numbers:
// a value that any of the readers may have given is moved through memory some four times.
#[inline(always)]
#[cycle(read)]
fn read_item(
    alloc: Global,
    cursor: &mut Cursor<'_>,
    depth: usize,
    items: &mut Items,
) -> Result<(), Halt<JsonKind>>
    requires { depth ≤ MAX_OPEN }
    ensures gives { GivesItem depth items.old cursor.old result items.new cursor.new }
    ensures shorter { length cursor.new ≤ length cursor.old }
{
    match cursor.peek() {
        Some(byte) if byte == b'-' || byte.is_ascii_digit() => match read_number(cursor) {
            Ok(item) => Ok(items.push(item)?),
            Err(halt) => Err(halt),
        },
        _ => match read_value(alloc, cursor, depth) {
            Ok(item) => Ok(items.push(item)?),
            Err(halt) => Err(halt),
        },
    }
}

#[inline(never)]
#[cycle(read)]
fn read_object(alloc: Global, cursor: &mut Cursor<'_>, depth: usize) -> Result<Json, Halt<JsonKind>>
    requires within { depth ≤ MAX_OPEN }
    requires brace { first_of cursor.old ≡ Some 123 }
    ensures gives { Gives (SpellsValue depth) tree_of cursor.old result cursor.new }
    ensures shorter { length cursor.new ≤ length cursor.old }
{
    if depth >= MAX_OPEN {
        return Err(Halt::Fault(JsonKind::Depth));
    }
    cursor.take_front(1);
    cursor.skip_spaces();
    match read_members(alloc, cursor, depth + 1) {
        Ok(members) => Ok(Json::Object(members)),
        Err(halt) => Err(halt),
    }
}

// Reads the members of an object whose brace is open, and the brace that closes it.
#[cycle(read)]
fn read_members(
    alloc: Global,
    cursor: &mut Cursor<'_>,
    depth: usize,
) -> Result<Members, Halt<JsonKind>>
    requires { depth ≤ MAX_OPEN }
    ensures gives { Gives (SpellsMembers depth) fields_of cursor.old result cursor.new }
    ensures shorter { length cursor.new ≤ length cursor.old }
{
    if cursor.take_if(b'}') {
        return Ok(Members::new(alloc));
    }
    read_pairs(alloc, cursor, depth)
}

// Reads at least one member, and the brace that closes the object.
#[cycle(read)]
fn read_pairs(
    alloc: Global,
    cursor: &mut Cursor<'_>,
    depth: usize,
) -> Result<Members, Halt<JsonKind>>
    requires { depth ≤ MAX_OPEN }
    ensures gives { Gives (SpellsMembersOn depth []) fields_of cursor.old result cursor.new }
    ensures shorter { length cursor.new ≤ length cursor.old }
{
    let mut members = Members::with_room(alloc)?;
    loop {
        let member = match read_pair(alloc, cursor, depth, &members) {
            Ok(member) => member,
            Err(halt) => return Err(halt),
        };
        members.push(member.key, member.value)?;
        match read_turn(cursor, b'}') {
            Ok(true) => return Ok(members),
            Ok(false) => {}
            Err(kind) => return Err(Halt::Fault(kind)),
        }
    }
}

// Reads a member whose key none of these members has.
#[cycle(read)]
fn read_pair(
    alloc: Global,
    cursor: &mut Cursor<'_>,
    depth: usize,
    members: &Members,
) -> Result<Member, Halt<JsonKind>>
    requires within { depth ≤ MAX_OPEN }
    requires utf8 { AreUtf8 (keys_of members.now) }
    ensures gives { Gives (SpellsPair depth (keys_of members.now)) pair_of cursor.old result cursor.new }
    ensures fresh { IfOk result (λ member. IsNew member.key (keys_of members.now) × IsUtf8 member.key) }
    ensures shorter { length cursor.new ≤ length cursor.old }
{
    let key = match read_key(alloc, cursor, members) {
        Ok(key) => key,
        Err(halt) => return Err(halt),
    };
    match read_named(alloc, cursor, depth) {
        Ok(value) => Ok(Member { key, value }),
        Err(halt) => Err(halt),
    }
}

// Reads the colon after a key, and the value.
#[cycle(read)]
fn read_named(alloc: Global, cursor: &mut Cursor<'_>, depth: usize) -> Result<Json, Halt<JsonKind>>
    requires { depth ≤ MAX_OPEN }
    ensures gives { Gives (SpellsNamed depth) tree_of cursor.old result cursor.new }
    ensures shorter { length cursor.new ≤ length cursor.old }
{
    cursor.skip_spaces();
    if !cursor.take_if(b':') {
        return Err(Halt::Fault(JsonKind::Syntax));
    }
    cursor.skip_spaces();
    read_value(alloc, cursor, depth)
}

// Reads a key that none of these members has, its marks included.
fn read_key(
    alloc: Global,
    cursor: &mut Cursor<'_>,
    members: &Members,
) -> Result<Text, Halt<JsonKind>>
    requires { AreUtf8 (keys_of members.now) }
    ensures gives { Gives (BehindByte 34 (SpellsKey (keys_of members.now))) (λ key. key) cursor.old result cursor.new }
    ensures fresh { IfOk result (λ key. IsNew key (keys_of members.now) × IsUtf8 key) }
    ensures shorter { length cursor.new ≤ length cursor.old }
{
    if !cursor.take_if(b'"') {
        return Err(Halt::Fault(JsonKind::Syntax));
    }
    let start = cursor.fork();
    let key = match read_string(alloc, cursor) {
        Ok(key) => key,
        Err(halt) => return Err(halt),
    };
    match members.get(key.as_str()) {
        None => Ok(key),
        Some(_value) => {
            // The fault is at the mark that closes the key.
            let taken = start.rest().len() - cursor.rest().len();
            *cursor = start;
            cursor.take_front(taken - 1);
            Err(Halt::Fault(JsonKind::DuplicateKey))
        }
    }
}

// Reads what follows an item or a member: true at the end, false at the next one.
#[inline(always)]
fn read_turn(cursor: &mut Cursor<'_>, close: u8) -> Result<bool, JsonKind>
    ensures gives { GivesTurn close cursor.old result cursor.new }
    ensures taken { IfOk result (λ _. length cursor.new < length cursor.old) }
    ensures shorter { length cursor.new ≤ length cursor.old }
{
    cursor.skip_spaces();
    if cursor.take_if(close) {
        return Ok(true);
    }
    if !cursor.take_if(b',') {
        return Err(JsonKind::Syntax);
    }
    cursor.skip_spaces();
    Ok(false)
}
