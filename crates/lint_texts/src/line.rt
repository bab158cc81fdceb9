use text_places::TextPlace;

/// How severe a line is.
#[derive(Clone, Copy, Debug, PartialEq, Eq)]
pub enum Severity {
    Error,
    Warning,
    Note,
}

/// A line before it is written in a form.
#[derive(Clone, Copy)]
pub(crate) struct LintLine<'a> {
    pub(crate) severity: Severity,
    pub(crate) place: TextPlace,
    pub(crate) message: &'a [u8],
}
