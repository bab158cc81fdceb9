//! The bindings around an expression.

ghost use Rattle.std.specs.Prelude.{◌≡◌, ◌+◌, ◌<◌, length};
ghost use Rattle.std.proofs.Common.{get_or};
ghost use Rattle.expr_plain.specs.Frames.{IsWithin, Finds};

use decimal_json::Text;
use expr_syntax::{Expr, Names};

/// The `let`s around an expression: the names of each, their bindings, the place of the first one's slot, the `let`s
/// around it, and the one that was entered before.
#[derive(Drop)]
pub(crate) enum BindingScope<'a> {
    Empty,
    Frame(&'a Names, &'a [Expr], usize, &'a BindingScope<'a>, &'a BindingScope<'a>),
}

/// The frames that an expression sees, and all that were entered and not left.
#[derive(Drop)]
pub(crate) struct Frames<'x> {
    pub(crate) scope: &'x BindingScope<'x>,
    pub(crate) entered: &'x BindingScope<'x>,
}

/// How many nodes are evaluated inside one another at most. Bindings that ask one another crosswise go deeper than the
/// expression is, and with no bound a hostile one would overflow the stack. A deeper evaluation ends as one does for
/// which there is no memory.
pub(crate) const MOST_UNDER_WAY: u16 = 2_400;

/// What an expression is evaluated in: the world, and the frames around it.
#[derive(Drop)]
pub(crate) struct Environment<'x, W> {
    pub(crate) world: &'x W,
    pub(crate) frames: Frames<'x>,
    /// How many more nodes are evaluated inside one another at most.
    pub(crate) depth_left: u16,
}

/// What a name represents: its binding, the place of its slot, and the frames that the binding sees.
#[derive(Drop)]
pub(crate) struct Binding<'x> {
    pub(crate) expression: &'x Expr,
    pub(crate) slot: usize,
    pub(crate) outer: &'x BindingScope<'x>,
}

/// The binding of a name: of a repeated name the last, in the innermost frame that has it. `slots` counts the slots.
pub(crate) fn binding_of<'x>(
    name: &Text,
    scope: &'x BindingScope<'x>,
    slots: usize,
) -> Option<Binding<'x>>
    requires { IsWithin slots scope.now }
    ensures { Finds name.now scope.now result }
{
    match scope {
        BindingScope::Empty => None,
        BindingScope::Frame(names, bindings, first, outer, _) => match names.last_place(
            name.as_str(),
        ) {
            Some(k) => Some(bound_at(bindings, k, *first, outer, slots)),
            None => binding_of(name, outer, slots),
        },
    }
}

// The binding of a number from 0 in a frame whose first slot has a place.
fn bound_at<'x>(
    bindings: &'x [Expr],
    k: usize,
    first: usize,
    outer: &'x BindingScope<'x>,
    slots: usize,
) -> Binding<'x>
    requires number { k < length bindings.now }
    requires room { first + k < slots }
    ensures expression { result.expression.now ≡ get_or bindings.entry.now k result.expression.now }
    ensures slot { result.slot ≡ first + k }
    ensures outer { result.outer.now ≡ outer.entry.now }
{
    let _room = slots;
    Binding {
        expression: &bindings[k],
        slot: first + k,
        outer,
    }
}
