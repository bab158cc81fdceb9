//! Calls of `decimal_json` on bytes.

use decimal_json::Bytes;
use std::test::Fail;

#[test]
fn bytes(rt: HostRuntime) -> Result<(), Fail> {
    let mut bytes = Bytes::new(rt.alloc());
    bytes.push(200)?;
    assert!(rt; bytes.as_slice() == [200].as_slice());
    Ok(())
}
