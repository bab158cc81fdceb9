//! What a session answers.

use style_rules::Finding;

/// The answer to a command.
#[derive(Drop)]
pub enum Answer {
    /// It is accepted.
    Done,
    /// The text of the listing.
    Listing(Vec<u8>),
    /// The number of evaluations of the last listing; 0 before the first.
    Stats(u64),
    /// The text of the style as it is then, as JSON.
    Style(Vec<u8>),
    /// It is refused, and nothing changed.
    Refused(Refusal),
}

/// Why an edit is refused, in the order in which the causes are looked for.
#[derive(Drop)]
pub enum Refusal {
    /// The layer that it changes, removes or moves is not there.
    UnknownLayer,
    /// The layer before which it puts another is not there.
    UnknownBefore,
    /// Its source is not there.
    UnknownSource,
    /// A zoom of it is not from 0 to 24.
    ZoomRange,
    /// It takes away a property that is not set.
    UnknownProperty,
    /// The edited document breaks a rule. This is its first finding.
    Finding(Finding),
    /// The edited document has too many cells.
    CellLimit,
    /// The test of images cannot change.
    FixedImages,
}
