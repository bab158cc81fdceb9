//! The limit of the file of a style.

/// The longest style, in bytes.
pub(crate) const STYLE_LIMIT: usize = 4_194_304;
