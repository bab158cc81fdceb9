/// How a layer is shown.
#[derive(Clone, Copy, Debug, PartialEq, Eq)]
pub enum Show {
    /// With its values and features.
    Plain,
    /// Not at this zoom, or not visible.
    Hidden,
    /// A layer of a type whose properties are not read.
    Unread,
    /// With its values alone: its filter is outside of what is evaluated.
    OutsideFilter,
}
