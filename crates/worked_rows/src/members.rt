//! Members of a row, and the forms that their values may have.

use anyhow::{Context, Result, bail};
use decimal_json::{Json, Members};

pub fn member<'a>(object: &'a Members, name: &str) -> Result<&'a Json> {
    object.get(name).context(format_args!("no {name}"))
}

pub fn text_of(json: &Json) -> Result<&str> {
    match json {
        Json::Text(text) => Ok(text.as_str()),
        _ => bail!("no text"),
    }
}

pub fn items_of(json: &Json) -> Result<&[Json]> {
    match json {
        Json::List(items) => Ok(items.as_slice()),
        _ => bail!("no array"),
    }
}

pub fn object_of(json: &Json) -> Result<&Members> {
    match json {
        Json::Object(members) => Ok(members),
        _ => bail!("no object"),
    }
}

/// A number that is written with digits alone.
pub fn number_of(json: &Json) -> Result<u64> {
    match json {
        Json::Num(number) => Ok(number.as_str().parse::<u64>()?),
        _ => bail!("no number"),
    }
}

/// The number of a size in bytes.
pub fn size_of(json: &Json) -> Result<usize> {
    Ok(usize::try_from(number_of(json)?)?)
}
