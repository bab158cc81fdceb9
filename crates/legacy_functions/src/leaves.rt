//! The leaves of a legacy function: numbers, outputs and inputs.

ghost use Rattle.std.specs.Prelude.{◌≡◌, option_map, IfOk};
ghost use Rattle.fixed_num.specs.Decimal.{read_text};
ghost use Rattle.decimal_json.specs.View.{tree_of};
ghost use Rattle.property_tables.specs.RowView.{row_seen};
ghost use Rattle.legacy_functions.specs.Form.{number_form, output_form, spelled_number, input_form};
ghost use Rattle.legacy_functions.specs.Parts.{spelled_seen, output_seen, input_seen};

use crate::function::{Input, Output, Spelled};
use crate::tokens::has_tokens;
use decimal_json::{Json, NumText};
use fixed_num::read_decimal;
use property_tables::{Row, literal};
use std::alloc::{AllocError, Global};

pub(crate) fn number_form(json: &Json) -> Result<Option<Spelled>, AllocError>
    ensures { IfOk result (λ found. option_map spelled_seen found ≡ number_form (tree_of json.now)) }
{
    match json {
        Json::Num(number) => spelled_number(number),
        _ => Ok(None),
    }
}

fn spelled_number(number: &NumText) -> Result<Option<Spelled>, AllocError>
    ensures { IfOk result (λ found. option_map spelled_seen found ≡ spelled_number number.now (read_text number.now)) }
{
    match read_decimal(number.as_str().as_bytes()) {
        Ok(value) => Ok(Some(Spelled {
            spelled: number.share()?,
            value,
        })),
        Err(_) => Ok(None),
    }
}

// A literal of the row, or a token text.
pub(crate) fn output_form(
    alloc: Global,
    json: &Json,
    row: &Row,
) -> Result<Option<Output>, AllocError>
    ensures { IfOk result (λ found. option_map output_seen found ≡ output_form (row_seen row.now) (tree_of json.now)) }
{
    let Some(value) = literal(alloc, json, row)? else {
        return Ok(None);
    };
    if let Json::Text(text) = json {
        if row.takes_tokens && has_tokens(text.as_str()) {
            return Ok(Some(Output::Tokens(text.share()?)));
        }
    }
    Ok(Some(Output::Literal(decimal_json::copy(alloc, json)?, value)))
}

pub(crate) fn input_form(any: bool, json: &Json) -> Result<Option<Input>, AllocError>
    ensures { IfOk result (λ found. option_map input_seen found ≡ input_form any (tree_of json.now)) }
{
    match json {
        Json::Num(number) => match spelled_number(number)? {
            Some(number) => Ok(Some(Input::Number(number))),
            None => Ok(None),
        },
        Json::Text(text) if any => Ok(Some(Input::Word(text.share()?))),
        Json::Bool(flag) if any => Ok(Some(Input::Flag(*flag))),
        _ => Ok(None),
    }
}
