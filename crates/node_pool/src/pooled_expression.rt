//! Where the nodes of an expression are.

ghost use Rattle.std.specs.Prelude.{◌≡◌, ◌<◌, ◌^◌};
ghost use Rattle.node_pool.specs.Blocks.{begins_at, length_of};

/// An expression of a pool. Its nodes are one block of those of the pool: the nodes that others have as arguments, then
/// the bindings in order, then the root.
#[derive(Clone, Copy)]
pub(crate) struct PooledExpression {
    /// The number of the block's first node in the pool.
    pub(crate) start: usize,
    /// The number of the first binding in the block.
    pub(crate) first: usize,
    pub(crate) bindings: usize,
    /// How many nodes the expression has, literals counted.
    pub(crate) nodes: u64,
    /// Whether its bindings are evaluated in turn.
    pub(crate) chained: bool,
}

impl PooledExpression {
    /// How many nodes its block has.
    pub(crate) fn length(&self) -> usize
        requires { length_of self.now < 2 ^ 63 }
        ensures { result ≡ length_of self.now }
    {
        self.first + self.bindings + 1
    }

    /// The same with a block elsewhere.
    pub(crate) fn begins_at(&self, start: usize) -> PooledExpression
        ensures { result ≡ begins_at start self.now }
    {
        PooledExpression {
            start,
            first: self.first,
            bindings: self.bindings,
            nodes: self.nodes,
            chained: self.chained,
        }
    }
}
