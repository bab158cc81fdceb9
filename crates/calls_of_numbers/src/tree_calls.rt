//! Calls of `decimal_json` on objects.

use decimal_json::{Json, Members, Text, write};
use std::test::Fail;

#[test]
fn a_member_is_put_before_another(rt: HostRuntime) -> Result<(), Fail> {
    let mut members = Members::new(rt.alloc());
    members.push(Text::copy_of(rt.alloc(), "b")?, Json::Bool(true))?;
    members.insert_at(0, Text::copy_of(rt.alloc(), "a")?, Json::Null)?;
    let mut out = Vec::new(rt.alloc());
    write(&Json::Object(members), &mut out)?;
    assert!(rt; out.as_slice() == b"{\"a\":null,\"b\":true}".as_slice());
    Ok(())
}
