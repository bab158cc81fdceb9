//! The names around an expression, each with the number of its binding.

ghost use Rattle.std.specs.Prelude.{◌≡◌, ◌<◌, length, slice_index};
ghost use Rattle.expr_resolving.specs.NumberScopes.{HasNumbers, numbered_scope};
ghost use Rattle.expr_nodes.specs.Resolving.{number_of};

use decimal_json::Text;
use expr_syntax::Names;

/// The `let`s around an expression, the innermost first: the names of each, and the number of each name's binding.
#[derive(Drop)]
pub(crate) enum NumberScope<'a> {
    Empty,
    Frame(&'a Names, &'a [usize], &'a NumberScope<'a>),
}

/// The number of a name: of a repeated name the last, in the innermost `let` that has it.
pub(crate) fn number_of<'x>(name: &Text, scope: &'x NumberScope<'x>) -> Option<usize>
    requires { HasNumbers scope.now }
    ensures { result ≡ number_of (numbered_scope scope.now) name.now }
{
    match scope {
        NumberScope::Empty => None,
        NumberScope::Frame(names, numbers, outer) => match names.last_place(name.as_str()) {
            Some(place) => Some(number_at(numbers, place)),
            None => number_of(name, outer),
        },
    }
}

fn number_at(numbers: &[usize], place: usize) -> usize
    requires { place < length numbers.now }
    ensures { result ≡ slice_index numbers.now place }
{
    numbers[place]
}
