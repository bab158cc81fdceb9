//! Moves of one element of a slice to another place.
//!
//! ```text
//! let mut items = ["a", "b", "c", "d"];
//! move_element(&mut items, 0, 2);         // ["b", "c", "a", "d"]
//! ```
//!
//! What is promised: after `move_element` the slice is as if the element had been taken out and put in again
//! (`IsMoved` in `specs/Moved.antt`). No other element than those in between changes its place, and it takes time
//! linear in how many these are, and no memory.
//!
//! The text to believe is in `specs/`: `Moved`.
#![tactic(auto)]

ghost use Rattle.std.specs.Prelude.{◌≡◌, ◌<◌, ◌≤◌, length};
ghost use Rattle.moved_slices.specs.Moved.{IsMoved};

/// Moves the element at a place to another, and the elements in between by one place. Takes time linear in how many
/// these are, and no memory.
pub fn move_element<T>(items: &mut [T], from: usize, to: usize)
    requires from { from < length items.old }
    requires to { to < length items.old }
    ensures moved { IsMoved from to items.old items.new }
    ensures len { length items.new ≡ length items.old }
{
    if from <= to {
        move_up(items, from, to);
    } else {
        move_down(items, from, to);
    }
}

fn move_up<T>(items: &mut [T], from: usize, to: usize)
    requires to { to < length items.old }
    requires order { from ≤ to }
    ensures moved { IsMoved from to items.old items.new }
    ensures len { length items.new ≡ length items.old }
{
    items[from..to + 1].rotate_left(1);
}

fn move_down<T>(items: &mut [T], from: usize, to: usize)
    requires from { from < length items.old }
    requires order { to ≤ from }
    ensures moved { IsMoved from to items.old items.new }
    ensures len { length items.new ≡ length items.old }
{
    items[to..from + 1].rotate_right(1);
}
