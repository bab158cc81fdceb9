//! Legacy filters as they are read, and why a tree is none.

use crate::scalars::{Scalar, Scalars};
use decimal_json::{Path, Text};

/// What a test looks at: the shape of a feature, which `$type` names; its id, which `$id` names; or the
/// property of a key.
#[derive(Drop)]
pub enum Key {
    Shape,
    Id,
    Property(Text),
}

#[derive(Clone, Copy, Debug, PartialEq, Eq)]
pub enum Order {
    Below,
    AtMost,
    Above,
    AtLeast,
}

/// What is said of the value of a key.
#[derive(Drop)]
pub enum Test {
    Has,
    HasNot,
    Equal(Scalar),
    NotEqual(Scalar),
    Ordered(Order, Scalar),
    Among(Scalars),
    NotAmong(Scalars),
}

/// How filters make one.
#[derive(Clone, Copy, Debug, PartialEq, Eq)]
pub enum Group {
    All,
    Any,
    None,
}

// A filter or a part of one.
#[derive(Drop)]
pub(crate) enum Part {
    Flag(bool),
    Test(Key, Test),
    Group(Group, Vec<Part>),
}

/// A legacy filter. `filter_of` says which filter it is to a clause.
#[derive(Drop)]
pub struct LegacyFilter {
    pub(crate) whole: Part,
}

/// That a tree is no legacy filter: the path of its innermost ill-formed part, the first in order.
#[derive(Drop)]
pub struct FilterFault {
    pub path: Path,
}
