//! Stops over numbers and rules of zooms, each with its inputs once more, which ascend.

ghost use Rattle.std.specs.Prelude.{◌≡◌, IfOk};
ghost use Rattle.legacy_functions.specs.Stops.{inputs_in};
ghost use Rattle.legacy_functions.specs.Zooms.{zooms_seen};

use crate::function::{NumberStop, Spelled, ZoomRule};
use decimal_json::NumText;
use fixed_num::Fixed;
use std::alloc::{AllocError, Global};
use std::marker::Model;

/// A base that is above 0.
#[derive(Drop)]
pub(crate) struct Base {
    number: Spelled,
}

impl Model for Base {
    ghost use Rattle.std.specs.Prelude.{pos, ◌<ℤ◌};
    ghost use Rattle.legacy_functions.specs.declared.function.Spelled.{Spelled};

    ghost Value = { Spelled };

    ghost view = { λ a. a.number };

    ghost invariant = { λ a. pos 0 <ℤ a.number.value };
}

impl Base {
    ghost use Rattle.std.specs.Prelude.{◌≡◌, pos, ◌<ℤ◌, int_lt};
    ghost use Rattle.legacy_functions.specs.Form.{where_true};
    ghost use Rattle.std.specs.Prelude.{Some};

    /// The number as a base, or none where it is not above 0.
    pub(crate) fn of(number: Spelled) -> Option<Base>
        ensures { result ≡ where_true (int_lt (pos 0) number.value) (Some number) }
    {
        if number.value.millionths() > 0 {
            Some(Base { number })
        } else {
            None
        }
    }

    pub(crate) fn value(&self) -> Fixed
        ensures value { result ≡ self.now.value }
        ensures positive { pos 0 <ℤ result }
    {
        self.number.value
    }

    pub(crate) fn spelled(&self) -> &NumText
        ensures { result.now ≡ self.now.spelled }
    {
        &self.number.spelled
    }
}

/// Stops over a number, at least one, each of whose inputs is below the next. Clauses see the list of stops.
#[derive(Drop)]
pub(crate) struct NumberStops {
    inputs: Vec<Fixed>,
    stops: Vec<NumberStop>,
}

impl Model for NumberStops {
    ghost use Rattle.std.specs.Prelude.{◌≡◌, ◌<◌, List, length};
    ghost use Rattle.legacy_functions.specs.declared.function.NumberStop.{NumberStop};

    ghost Value = { List NumberStop };

    ghost use Rattle.legacy_functions.specs.contracts.function.NumberStop as row;
    ghost use Rattle.std.specs.Coded.{coded_list};

    ghost coded = { coded_list row.the_row.coded };

    ghost use Rattle.interpolate_fixed.specs.PlaceFacts.{IsAscending};
    ghost use Rattle.legacy_functions.specs.Stops.{inputs_in};

    ghost view = { λ a. a.stops.items };

    ghost invariant = { λ a.
        (a.inputs.items ≡ inputs_in a.stops.items)
        × (0 < length a.stops.items)
        × IsAscending a.inputs.items };
}

impl NumberStops {
    ghost use Rattle.std.specs.Prelude.{◌≡◌, ◌<◌, length, IfOk};
    ghost use Rattle.interpolate_fixed.specs.PlaceFacts.{IsAscending};
    ghost use Rattle.legacy_functions.specs.Form.{some_of};
    ghost use Rattle.legacy_functions.specs.Stops.{inputs_in};

    /// Stops, of which there has to be one.
    pub(crate) fn of(
        alloc: Global,
        stops: Vec<NumberStop>,
    ) -> Result<Option<NumberStops>, AllocError>
        requires { IsAscending (inputs_in stops.items) }
        ensures { IfOk result (λ made. made ≡ some_of stops.items) }
    {
        if stops.is_empty() {
            return Ok(None);
        }
        let inputs = stop_inputs(alloc, stops.as_slice())?;
        Ok(Some(NumberStops { inputs, stops }))
    }

    pub(crate) fn as_slice(&self) -> &[NumberStop]
        ensures stops { result.now ≡ self.now }
        ensures some { 0 < length result.now }
    {
        self.stops.as_slice()
    }

    pub(crate) fn inputs(&self) -> &[Fixed]
        ensures inputs { result.now ≡ inputs_in self.now }
        ensures some { 0 < length self.now }
        ensures ascending { IsAscending result.now }
    {
        self.inputs.as_slice()
    }
}

/// Rules of zooms, at least one, each of whose zooms is below the next. Clauses see the list of rules.
#[derive(Drop)]
pub(crate) struct ZoomRules {
    zooms: Vec<Fixed>,
    rules: Vec<ZoomRule>,
}

impl Model for ZoomRules {
    ghost use Rattle.std.specs.Prelude.{◌≡◌, ◌<◌, List, length};
    ghost use Rattle.legacy_functions.specs.declared.function.ZoomRule.{ZoomRule};

    ghost Value = { List ZoomRule };

    ghost use Rattle.legacy_functions.specs.contracts.function.ZoomRule as row;
    ghost use Rattle.std.specs.Coded.{coded_list};

    ghost coded = { coded_list row.the_row.coded };

    ghost use Rattle.interpolate_fixed.specs.PlaceFacts.{IsAscending};
    ghost use Rattle.legacy_functions.specs.Zooms.{zooms_seen};

    ghost view = { λ a. a.rules.items };

    ghost invariant = { λ a.
        (a.zooms.items ≡ zooms_seen a.rules.items)
        × (0 < length a.rules.items)
        × IsAscending a.zooms.items };
}

impl ZoomRules {
    ghost use Rattle.std.specs.Prelude.{◌≡◌, ◌<◌, length, IfOk};
    ghost use Rattle.interpolate_fixed.specs.PlaceFacts.{IsAscending};
    ghost use Rattle.legacy_functions.specs.Form.{some_of};
    ghost use Rattle.legacy_functions.specs.Zooms.{zooms_seen};

    /// Rules, of which there has to be one.
    pub(crate) fn of(alloc: Global, rules: Vec<ZoomRule>) -> Result<Option<ZoomRules>, AllocError>
        requires { IsAscending (zooms_seen rules.items) }
        ensures { IfOk result (λ made. made ≡ some_of rules.items) }
    {
        if rules.is_empty() {
            return Ok(None);
        }
        let zooms = rule_zooms(alloc, rules.as_slice())?;
        Ok(Some(ZoomRules { zooms, rules }))
    }

    pub(crate) fn as_slice(&self) -> &[ZoomRule]
        ensures rules { result.now ≡ self.now }
        ensures some { 0 < length result.now }
    {
        self.rules.as_slice()
    }

    pub(crate) fn zooms(&self) -> &[Fixed]
        ensures zooms { result.now ≡ zooms_seen self.now }
        ensures some { 0 < length self.now }
        ensures ascending { IsAscending result.now }
    {
        self.zooms.as_slice()
    }
}

fn stop_inputs(alloc: Global, stops: &[NumberStop]) -> Result<Vec<Fixed>, AllocError>
    ensures { IfOk result (λ inputs. inputs.items ≡ inputs_in stops.now) }
{
    let mut inputs = Vec::with_capacity(alloc, stops.len())?;
    for stop in stops {
        inputs.push(stop.input.value)?;
    }
    Ok(inputs)
}

fn rule_zooms(alloc: Global, rules: &[ZoomRule]) -> Result<Vec<Fixed>, AllocError>
    ensures { IfOk result (λ zooms. zooms.items ≡ zooms_seen rules.now) }
{
    let mut zooms = Vec::with_capacity(alloc, rules.len())?;
    for rule in rules {
        zooms.push(rule.zoom.value)?;
    }
    Ok(zooms)
}
