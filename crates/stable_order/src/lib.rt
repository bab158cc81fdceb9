//! The order that a stable sort gives, as a definition.
//!
//! What is promised, for any type and any strict weak order: a list in order has the same elements, ascends,
//! and keeps the order of equal elements (`each_order_is_lawful`), and no other list does
//! (`only_one_list_is_in_order`). Keys, of which none is the first, are such an order (`keys_are_ordered`).
//!
//! The text to believe is in `specs/`: `InOrder`, `Keys`. Laws of it: `Laws`.
#![tactic(auto)]

ghost use Rattle.stable_order.specs.Laws.{EachOrderIsLawful, OnlyOneListIsInOrder, KeysAreOrdered};

/// A list in order has the same elements, which ascend, and equal elements keep their order.
pub fn each_order_is_lawful<X>()
    ensures { EachOrderIsLawful X }
{}

/// No other list ascends and keeps ties.
pub fn only_one_list_is_in_order<X>()
    ensures { OnlyOneListIsInOrder X }
{}

/// Keys are ordered, one that is missing first.
#[tactic(auto, using(crate::proofs::KeyOrder::keys_are_ordered))]
pub fn keys_are_ordered<X>()
    ensures { KeysAreOrdered X }
{}
