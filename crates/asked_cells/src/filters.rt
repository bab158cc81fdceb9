//! What filters answer.

ghost use Rattle.std.specs.Prelude.{◌≡◌, ◌+◌, ℕ, List, IfOk};
ghost use Rattle.decimal_json.specs.Tree.{Tree};
ghost use Rattle.prop_values.specs.Data.{Data};
ghost use Rattle.layer_buckets.specs.Outcomes.{seen_outcome};
ghost use Rattle.style_layout.specs.CodeView.{filled_filter};
ghost use Rattle.asked_cells.specs.Asked.{constant_answer};
ghost use Rattle.asked_cells.specs.Asking.{has_feature_cells, passes_by};

use layer_buckets::Source;
use prop_values::{EvalFault, Value};
use std::alloc::AllocError;
use style_layout::LayerFilter;

/// What a filter that has no cell answers of every feature: a truth value, or true where there is no filter.
#[tactic(auto, using(crate::proofs::FilterLaws::evaluated_answer))]
pub fn constant_answer(filter: &LayerFilter) -> bool
    ensures { (globals : List (List ℕ × Data)) (layer : Tree) →
        result ≡ constant_answer (filled_filter globals layer filter.now) }
{
    match filter {
        LayerFilter::Every => true,
        LayerFilter::Fixed(answer) => *answer,
        _ => false,
    }
}

/// Whether a filter has a cell for each feature: where it reads one or its state.
pub fn has_feature_cells(source: Option<Source>) -> bool
    ensures { result ≡ has_feature_cells source }
{
    match source {
        Some(source) => source.mentions.feature || source.mentions.state,
        None => false,
    }
}

/// Whether the value of a filter lets a feature pass. A fault is false.
pub fn is_passed(value: Option<Result<&Value, EvalFault>>) -> bool
    ensures { result ≡ passes_by (seen_outcome value.entry) }
{
    match value {
        Some(Ok(Value::Bool(passes))) => *passes,
        _ => false,
    }
}

/// A sum of evaluations. One beyond `u64::MAX`, for which no run lasts long enough, is refused as a failed allocation
/// is.
#[inline(always)]
pub fn sum_of(first: u64, second: u64) -> Result<u64, AllocError>
    ensures { IfOk result (λ sum. sum ≡ first + second) }
{
    match first.checked_add(second) {
        Some(sum) => Ok(sum),
        None => Err(AllocError),
    }
}
