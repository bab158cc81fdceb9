//! What is reported of a filter.

ghost use Rattle.std.specs.Prelude.{◌≡◌, IfOk};
ghost use Rattle.decimal_json.specs.View.{tree_of};
ghost use Rattle.style_rules.specs.Values.{filter_mark};

use crate::diagnostics::Mark;
use crate::possible_faults::PossibleFaults;
use crate::values::expression_mark;
use decimal_json::Json;
use legacy_filters::{is_legacy, read};
use prop_values::Want;
use std::alloc::{AllocError, Global};

/// What is reported of the filter of a layer.
pub(crate) fn filter_mark(alloc: Global, filter: &Json) -> Result<Mark, AllocError>
    ensures { IfOk result (λ mark. mark ≡ filter_mark (tree_of filter.now)) }
{
    if !is_legacy(filter) {
        return expression_mark(alloc, &Want::Boolean, None, filter);
    }
    match read(alloc, filter)? {
        Ok(_) => Ok(Mark::Sound(PossibleFaults::none())),
        Err(fault) => Ok(Mark::Broken(fault.path, 20)),
    }
}
