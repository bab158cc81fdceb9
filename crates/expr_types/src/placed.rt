use prop_values::{FaultSet, Kind, Want};

/// What is known of a node: the want under which it was checked, and whether what it gives always fits that
/// want.
#[derive(Clone, Copy, Debug, PartialEq, Eq)]
pub struct Placed {
    pub want: Want,
    pub always: bool,
}

/// What is known of a node: its kind, the faults that it and the nodes below it may give, and its place under
/// its want.
#[derive(Clone, Copy, Debug, PartialEq, Eq)]
pub(crate) struct Kinded {
    pub(crate) kind: Kind,
    pub(crate) may: FaultSet,
    pub(crate) root: Placed,
}
