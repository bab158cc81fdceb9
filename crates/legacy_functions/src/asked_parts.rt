//! Which parts of the world a function asks for.

ghost use Rattle.std.specs.Prelude.{◌≡◌, map};
ghost use Rattle.legacy_functions.specs.AskedParts.{asks_feature, asks_input, asks_zoom, output_asks_feature};
ghost use Rattle.legacy_functions.specs.AskedParts.{outputs_ask_feature, stops_ask_feature};
ghost use Rattle.legacy_functions.specs.Parts.{output_seen, stop_seen};
ghost use Rattle.legacy_functions.specs.View.{body_seen, function_of, row_of, way_seen};

use crate::function::{Body, Function, NumberStop, Output, PropertyRule, Way};
use crate::tokens::has_tokens;

impl Function {
    /// Whether its stops ask for the zoom. One stop without a ramp does not: it gives its output at each zoom.
    pub fn asks_zoom(&self) -> bool
        ensures { result ≡ asks_zoom (row_of self.now) (function_of self.now) }
    {
        match &self.body {
            Body::Plain(PropertyRule::Numeric(stops)) => {
                self.property.is_none() && asks_input(&self.way, stops.as_slice())
            }
            Body::Zoomed(rules) => self.row.ramps || rules.as_slice().len() > 1,
            _ => false,
        }
    }

    /// Whether it asks for the feature: by its property, or by tokens of an output.
    pub fn asks_feature(&self) -> bool
        ensures { result ≡ asks_feature (function_of self.now) }
    {
        self.property.is_some() || outputs_ask_feature(&self.way, &self.body)
    }
}

fn asks_input(way: &Way, stops: &[NumberStop]) -> bool
    ensures { result ≡ asks_input (way_seen way.now) (map stop_seen stops.now) }
{
    match way {
        Way::Even => true,
        Way::Curved(_) => true,
        Way::Stepped => stops.len() > 1,
    }
}

fn outputs_ask_feature(way: &Way, body: &Body) -> bool
    ensures { result ≡ outputs_ask_feature (body_seen (way_seen way.now) body.now) }
{
    match body {
        Body::Plain(PropertyRule::Numeric(stops)) => stops_ask_feature(stops.as_slice()),
        _ => false,
    }
}

fn stops_ask_feature(stops: &[NumberStop]) -> bool
    ensures { result ≡ stops_ask_feature (map stop_seen stops.now) }
{
    for stop in stops {
        if output_asks_feature(&stop.output) {
            return true;
        }
    }
    false
}

fn output_asks_feature(output: &Output) -> bool
    ensures { result ≡ output_asks_feature (output_seen output.now) }
{
    match output {
        Output::Literal(_, _) => false,
        Output::Tokens(text) => has_tokens(text.as_str()),
    }
}
