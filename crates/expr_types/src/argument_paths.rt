//! The places of the arguments of a node among its elements.

ghost use Rattle.std.specs.Prelude.{◌≡◌, ◌<◌, ◌^◌, option_map};
ghost use Rattle.expr_types.specs.ArgumentPaths.{element_of, element_at, key_at, role_key};

use expr_syntax::{ElementLayout, Operator, Role};

// The element that is an argument, counted from 0, of so many, by the layout of the elements.
fn element_of(layout: ElementLayout, count: usize, argument: usize) -> usize
    requires { argument < 2 ^ 60 }
    ensures { result ≡ element_of layout count argument }
{
    let is_last = argument + 1 == count;
    match layout {
        ElementLayout::Labels | ElementLayout::Stops if argument == 0 => 1,
        ElementLayout::Labels if is_last => 2 * argument,
        ElementLayout::Labels => 2 * argument + 1,
        ElementLayout::Stops => 2 * argument,
        ElementLayout::Ramp => 2 * argument + 2,
        ElementLayout::Bindings if is_last => 2 * argument + 1,
        ElementLayout::Bindings => 2 * argument + 2,
        _ => argument + 1,
    }
}

/// The element that is an argument, counted from 0, of so many, or that has it in it.
pub(crate) fn element_at(op: &Operator, count: usize, argument: usize) -> usize
    requires { argument < 2 ^ 60 }
    ensures { result ≡ element_at op.now count argument }
{
    match op {
        Operator::Array(item, length) => argument
            + (1 + (item.is_some() as usize + length.is_some() as usize)),
        Operator::Format(pieces) => match pieces.as_slice().get(argument) {
            Some(piece) => piece.at,
            None => 0,
        },
        _ => element_of(op.row().layout, count, argument),
    }
}

fn role_key(role: Role) -> Option<&'static str>
    ensures { option_map (λ key. key.now) result ≡ role_key role }
{
    match role {
        Role::Content => None,
        Role::Scale => Some("font-scale"),
        Role::Font => Some("text-font"),
        Role::Color => Some("text-color"),
    }
}

/// The key of an argument that is an option of `format`.
pub(crate) fn key_at(op: &Operator, argument: usize) -> Option<&'static str>
    ensures { option_map (λ key. key.now) result ≡ key_at op.now argument }
{
    match op {
        Operator::Format(pieces) => match pieces.as_slice().get(argument) {
            Some(piece) => role_key(piece.role),
            None => None,
        },
        _ => None,
    }
}
