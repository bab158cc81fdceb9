ghost use Rattle.std.specs.Prelude.{◌≡◌, ◌≤ℤ◌, ◌<ℤ◌, length, IfOk};
ghost use Rattle.interpolate_fixed.specs.LinearLists.{list_of};
ghost use Rattle.interpolate_fixed.specs.Items.{items_of};

use crate::line::linear;
use fixed_num::{Arith, Fixed};
use std::alloc::{AllocError, Global};

/// The list at `x` on the line from `a` at `x0` to `b` at `x1`, which are equally long, item by item. Its
/// fault is that of the first item that has one.
pub fn linear_list(
    alloc: Global,
    x: Fixed,
    x0: Fixed,
    a: &[Fixed],
    x1: Fixed,
    b: &[Fixed],
) -> Result<Result<Vec<Fixed>, Arith>, AllocError>
    requires from { x0 ≤ℤ x }
    requires to { x ≤ℤ x1 }
    requires apart { x0 <ℤ x1 }
    requires lengths { length a.now ≡ length b.now }
    ensures { IfOk result (λ found. items_of found ≡ list_of x x0 a.now x1 b.now) }
{
    let mut items = Vec::new(alloc);
    for i in 0..a.len() {
        match linear(x, x0, a[i], x1, b[i]) {
            Ok(item) => items.push(item)?,
            Err(fault) => return Ok(Err(fault)),
        }
    }
    Ok(Ok(items))
}
