//! Elements of a list: how many there are, and the two where there are just two.

ghost use Rattle.std.specs.Prelude.{◌≡◌, length, option_map};
ghost use Rattle.decimal_json.specs.View.{tree_of, trees};
ghost use Rattle.style_rules.specs.Rules.{count_of};
ghost use Rattle.finding_sentences.specs.FunctionSentence.{pair_in};
ghost use Rattle.finding_sentences.specs.Pairs.{pair_of};

use decimal_json::Json;

#[tactic(auto, using(crate::proofs::PairLaws::none_of_one, crate::proofs::PairLaws::none_of_many, crate::proofs::PairLaws::both_of_two))]
pub(crate) fn pair_of(items: &[Json]) -> Option<(&Json, &Json)>
    ensures { option_map (λ p. (tree_of p.0.now, tree_of p.1.now)) result ≡ pair_of (trees items.now) }
{
    match items {
        [] => None,
        [_] => None,
        [first, second] => Some((first, second)),
        [_, _, _, ..] => None,
    }
}

pub(crate) fn pair_in(json: &Json) -> Option<(&Json, &Json)>
    ensures { option_map (λ p. (tree_of p.0.now, tree_of p.1.now)) result ≡ pair_in (tree_of json.now) }
{
    match json {
        Json::List(items) => pair_of(items.as_slice()),
        _ => None,
    }
}

/// How many there are.
#[tactic(auto, using(crate::proofs::TreeLaws::counts_items))]
pub(crate) fn count_of(items: &[Json]) -> usize
    ensures count { result ≡ count_of (trees items.now) }
    ensures length { result ≡ length items.now }
{
    items.len()
}
