//! Calls of `index_lists`.

ghost use Rattle.std.specs.Prelude.{◌<◌, length};

use index_lists::Links;
use std::test::Fail;

// The first three slots of a list.
fn begin(links: &Links, list: u32) -> [Option<u32>; 3]
    requires { list < length links.now.lists }
{
    let Some(first) = links.first(list) else {
        return [None, None, None];
    };
    let Some(second) = links.next(first) else {
        return [Some(first), None, None];
    };
    [Some(first), Some(second), links.next(second)]
}

#[test]
fn slots_move(rt: HostRuntime) -> Result<(), Fail> {
    let mut links = Links::new(rt.alloc(), 5, 2)?;
    assert!(rt; begin(&links, 1) == [None, None, None]);
    links.push_last(0, 0);
    links.push_last(0, 1);
    links.push_last(0, 2);
    links.push_last(1, 3);
    links.move_before(2, 0);
    assert!(rt; begin(&links, 0) == [Some(2), Some(0), Some(1)]);
    links.unlink(1);
    assert!(rt; begin(&links, 0) == [Some(2), Some(0), None]);
    assert!(rt; begin(&links, 1) == [Some(3), None, None]);
    Ok(())
}

#[test]
fn lists_grow(rt: HostRuntime) -> Result<(), Fail> {
    let mut links = Links::new(rt.alloc(), 4, 2)?;
    links.push_last(1, 3);
    links.grow(7, 3)?;
    links.push_last(2, 6);
    links.insert_before(5, 3);
    links.move_before(3, 3);
    links.move_before(6, 3);
    assert!(rt; begin(&links, 1) == [Some(5), Some(6), Some(3)]);
    assert!(rt; begin(&links, 2) == [None, None, None]);
    Ok(())
}
