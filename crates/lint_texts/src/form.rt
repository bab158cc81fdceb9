/// How lines are written.
#[derive(Clone, Copy, Debug, PartialEq, Eq)]
pub enum LintForm {
    /// As compilers write: `FILE:LINE:COLUMN: error: MESSAGE`.
    Plain,
    /// As annotations of GitHub: `::error file=FILE,line=LINE,col=COLUMN::MESSAGE`.
    Annotations,
}
