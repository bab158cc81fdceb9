//! The kinds of the names that one `let` binds.

ghost use Rattle.std.specs.Prelude.{◌≡◌, length};
ghost use Rattle.expr_types.specs.Typing.{frame, last_kind};

use expr_syntax::Names;
use prop_values::Kind;

/// The names that a `let` binds, each with the kind of its binding.
#[derive(Drop)]
pub struct Bound<'a> {
    pub names: &'a Names,
    pub kinds: &'a [Kind],
    ghost each: { length names.now ≡ length kinds.now },
}

/// The kind of the last of equal names, in logarithmic time.
#[tactic(auto, using(crate::proofs::NameLaws::no_kind))]
pub(crate) fn last_kind(bound: &Bound<'_>, asked: &str) -> Option<Kind>
    ensures { result ≡ last_kind (frame bound.now.names.now bound.now.kinds.now) asked.now }
{
    match bound.names.last_place(asked) {
        Some(place) => Some(bound.kinds[place]),
        None => None,
    }
}
