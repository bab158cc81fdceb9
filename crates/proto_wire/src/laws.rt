//! What the definitions mean, each law on a function that does nothing.
ghost use Rattle.proto_wire.specs.Laws.{VarintsAreSpelled, FieldsStand, SomeFields, NoOtherFields};

/// A varint is read exactly as its spelling says: digits to the base 128, the lowest first, in at most ten
/// bytes and 64 bits, each byte but the last with the high bit. It is cut short exactly where there are fewer
/// than ten bytes and all of them have that bit.
pub fn varints_are_spelled()
    ensures { VarintsAreSpelled }
{}

/// A field takes at least one byte, and its content is right before its end. All bytes have a list of fields,
/// with a fault or none, and no two.
pub fn messages_are_fields()
    ensures stand { FieldsStand }
    ensures some { SomeFields }
    ensures only { NoOtherFields }
{}
