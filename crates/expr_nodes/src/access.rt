//! What is read of a node, wherever it is kept.

ghost use Rattle.std.specs.Prelude.{◌≡◌, ◌<◌, List, IfSome, Ok, Some, length};
ghost use Rattle.std.specs.List.{slice_get};
ghost use Rattle.prop_values.specs.Data.{items_of, list};
ghost use Rattle.expr_nodes.specs.Node.{Node, children, constant};
ghost use Rattle.expr_nodes.specs.NodeForms.{IsForm};

use decimal_json::Text;
use expr_syntax::Operator;
use item_index::IndexedList;
use prop_values::{EvalFault, Value, Want};

/// A node as it is read, without its arguments.
#[derive(Drop)]
pub enum NodeForm<'a> {
    /// A literal that is fitted already.
    Constant(&'a Value),
    /// A value that is known already, and what it is wanted as.
    Given(&'a Value, Want),
    /// A literal that cannot be fitted, or a fault that is known already.
    Faulty(EvalFault),
    /// The binding of a number, and what it is wanted as.
    Asked(usize, Want),
    /// The feature's property of a key, and what it is wanted as.
    Property(&'a Text, Want),
    /// An operator over the arguments of the node, and what it is wanted as.
    Inner(&'a Operator, Want),
}

/// A node, by a handle that is copied.
pub trait NodeHandle: Copy {
    /// The node of the handle.
    ghost node: { Self → Node };

    fn form(&self) -> NodeForm<'_>
        ensures { IsForm result (node self.now) };

    /// The literal list that the node is, where it is kept to be searched.
    fn indexed(&self) -> Option<&IndexedList>
        ensures { IfSome result (λ items. node self.now ≡ constant (Ok (list (items_of items.now)))) };

    /// How many arguments the node has.
    fn count(&self) -> usize
        ensures { result ≡ length (children (node self.now)) };

    /// The argument of a place from 0.
    fn child(&self, place: usize) -> Self
        requires { place < length (children (node self.now)) }
        ensures { slice_get (children (node self.now)) place ≡ Some (node result) };
}

/// The bindings of an expression, by their numbers.
pub trait Bindings<N: NodeHandle> {
    /// The bindings, each after those that it asks for.
    ghost listed: { Self → List Node };

    fn count(&self) -> usize
        ensures { result ≡ length (listed self.now) };

    fn binding(&self, slot: usize) -> N
        requires { slot < length (listed self.now) }
        ensures { slice_get (listed self.now) slot ≡ Some (N.node result) };

    /// Whether so many of them ask for others that they are evaluated in turn. The value is the same either way.
    fn are_chained(&self) -> bool;
}
