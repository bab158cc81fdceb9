//! Cells, what they are evaluated by, and why their values are dropped.

use expr_syntax::Mentions;

/// What a cell is a value of: a property of its layer, by the number of its row, or the filter.
#[derive(Clone, Copy, Debug, PartialEq, Eq)]
pub enum CellItem {
    Filter,
    Property(u16),
}

/// One value of a layer: for a feature, or for all.
#[derive(Clone, Copy, Debug, PartialEq, Eq)]
pub struct Cell {
    pub layer: u32,
    pub feature: Option<u32>,
    pub item: CellItem,
}

/// What gives the values of an item: an expression of the evaluator.
#[derive(Clone, Copy, Debug, PartialEq, Eq)]
pub struct Source {
    pub item: CellItem,
    /// The number of the expression.
    pub slot: u32,
    pub mentions: Mentions,
    /// Paint values see the zoom, the others its floor.
    pub paint: bool,
    /// Whether the expression was read by the values of the global state.
    pub globals: bool,
}

/// Why kept values are dropped.
#[derive(Clone, Copy, Debug, PartialEq, Eq)]
pub enum Stale {
    /// The item of this layer changed.
    Item(u32, CellItem),
    /// The layer changed.
    Layer(u32),
    /// The zoom changed: whether its floor did.
    Zoom(bool),
    /// The state of a feature of this layer changed.
    State(u32, u32),
    Images,
    /// The global state changed.
    Globals,
}
