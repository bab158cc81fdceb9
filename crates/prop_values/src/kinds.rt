use crate::choice::Choice;

/// What the items of a list are.
#[derive(Clone, Copy, Debug, PartialEq, Eq)]
pub enum Item {
    Any,
    Boolean,
    Number,
    Text,
}

/// What is known of the values of an expression. A value of kind `Image` is a text or null, and one of
/// kind `List` has so many items where a number is given.
#[derive(Clone, Copy, Debug, PartialEq, Eq)]
pub enum Kind {
    Any,
    Boolean,
    Number,
    Text,
    Color,
    Object,
    Image,
    List(Item, Option<u32>),
}

/// What a value is fitted to. `Shown` takes the text of any value, `Color` a color or its text, `Image`
/// a text or null, `Enum` a text of the set, and `EnumList` a list of such texts.
#[derive(Clone, Copy, Debug, PartialEq, Eq)]
pub enum Want {
    Any,
    Shown,
    Boolean,
    Number,
    Text,
    Color,
    Object,
    Image,
    List(Item, Option<u32>),
    Enum(Choice),
    EnumList(Choice),
}
