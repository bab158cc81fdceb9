//! Calls of `prop_values` on maps and lists that are shared.

use decimal_json::Text;
use prop_values::{Entries, SharedEntries, Value, Values, to_text};
use std::alloc::{AllocError, Global};
use std::test::Fail;

// The keys k0 to k19 with the value true: more than are looked through one by one.
fn twenty(alloc: Global) -> Result<Entries, AllocError> {
    let mut entries = Entries::with_capacity(alloc, 20)?;
    for i in 0..20 {
        let key = format!(in alloc; "k{i}")?;
        entries.set(Text::of(key)?, Value::Bool(true))?;
    }
    Ok(entries)
}

// Entries taken out of a map that is shared leave the map as it was.
#[test]
fn maps_shared(rt: HostRuntime) -> Result<(), Fail> {
    let map = SharedEntries::of(rt.alloc(), twenty(rt.alloc())?)?;
    let mut entries = map.share()?.into_entries(rt.alloc())?;
    entries.remove("k0");
    assert!(rt; entries.as_slice().len() == 19);
    assert!(rt; map.as_entries().get("k0").is_some());
    Ok(())
}

// A list that is shared is taken apart by a push, and the other stays as it was.
#[test]
fn lists_shared(rt: HostRuntime) -> Result<(), Fail> {
    let mut values = Values::with_capacity(rt.alloc(), 1)?;
    values.push(Value::Bool(true))?;
    let first = Value::List(values.share()?);
    values.push(Value::Null)?;
    let second = Value::List(values);
    assert!(rt; to_text(rt.alloc(), &first)?.as_str() == "[true]");
    assert!(rt; to_text(rt.alloc(), &second)?.as_str() == "[true,null]");
    Ok(())
}
