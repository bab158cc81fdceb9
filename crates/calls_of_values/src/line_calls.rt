//! Calls of `interpolate_fixed` on lists.

use fixed_num::{Fixed, read_decimal};
use interpolate_fixed::linear_list;
use std::alloc::{AllocError, Global};
use std::test::Fail;

// The number of a text, where it is one.
fn number(text: &str) -> Option<Fixed> {
    read_decimal(text.as_bytes()).ok()
}

// The list between 0 and 255 and these two in the other order.
fn crossed(alloc: Global, middle: Fixed) -> Result<Option<Vec<Fixed>>, AllocError> {
    let (Some(zero), Some(end)) = (number("0"), number("255")) else {
        return Ok(None);
    };
    let is_inside = zero.millionths() <= middle.millionths()
        && middle.millionths() <= end.millionths()
        && zero.millionths() < end.millionths();
    if !is_inside {
        return Ok(None);
    }
    Ok(linear_list(alloc, middle, zero, &[zero, end], end, &[end, zero])?.ok())
}

#[test]
fn lists(rt: HostRuntime) -> Result<(), Fail> {
    let Some(middle) = number("127.5") else {
        return Err(Fail::new("no number"));
    };
    let Some(items) = crossed(rt.alloc(), middle)? else {
        return Err(Fail::new("no list"));
    };
    assert!(rt; items.as_slice() == [middle, middle].as_slice());
    Ok(())
}
