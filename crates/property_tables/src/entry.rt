//! The table's own form of a row, which a `static` can hold.

use crate::property_row::Place;
use prop_values::Want;

/// The default of a property without a value of its own: `Amount` is in millionths.
#[derive(Clone, Copy)]
pub(crate) enum Given {
    Absent,
    Flag(bool),
    Amount(i64),
    Word(&'static str),
    Zeros(u32),
    Fonts,
}

/// The least and the most number, in millionths.
#[derive(Clone, Copy)]
pub(crate) struct Limits {
    pub least: Option<i64>,
    pub most: Option<i64>,
}

/// What a value may read, and whether a function on it ramps.
#[derive(Clone, Copy)]
pub(crate) struct AllowedReads {
    pub zoom: bool,
    pub feature: bool,
    pub state: bool,
    pub ramps: bool,
}

#[derive(Clone, Copy)]
pub(crate) struct TableEntry {
    pub name: &'static str,
    pub place: Place,
    pub want: Want,
    pub given: Given,
    pub limits: Limits,
    pub reads: AllowedReads,
    pub takes_tokens: bool,
}
