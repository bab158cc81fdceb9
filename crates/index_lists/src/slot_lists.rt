ghost use Rattle.std.specs.Prelude.{◌≡◌, ℕ, ◌<◌, ◌≤◌, [], length, replicate, slice_get, IfOk, IfSome, OnOk, OnErr};
ghost use Rattle.index_lists.specs.SlotLists.{IsListed, IsFree, AreDisjoint, list_at, after_push, after_insert};
ghost use Rattle.index_lists.specs.SlotLists.{after_unlink, after_move, after_grow, next_of};

use crate::nodes::Nodes;
use std::alloc::{AllocError, Global};
use std::marker::Model;

/// Disjoint lists of slots. Slots and lists go by their numbers, from 0.
///
/// Every call but `new` and `grow` takes constant time and no memory, however long the lists are. A slot
/// takes 8 bytes, and so does a list.
#[derive(Drop)]
pub struct Links {
    nodes: Nodes,
}

impl Model for Links {
    ghost use Rattle.index_lists.specs.SlotLists.{SlotLists};
    ghost use Rattle.index_lists.specs.Rounds.{seen, KeepsLists};

    ghost Value = { SlotLists };

    ghost view = { λ s. seen s.nodes };

    ghost invariant = { λ s. KeepsLists s.nodes };
}

impl Links {
    /// So many slots, each in no list, and so many empty lists. There can be at most 2^32 of both together;
    /// more are answered as a failed allocation.
    pub fn new(alloc: Global, slots: u32, lists: u32) -> Result<Links, AllocError>
        ensures { IfOk result (λ links. links ≡ record { slots = slots; lists = replicate lists [] }) }
    {
        let mut nodes = Nodes::new(alloc);
        nodes.grow(slots, lists)?;
        Ok(Links { nodes })
    }

    /// Puts a slot that is in no list at the end of a list.
    pub fn push_last(&mut self, list: u32, slot: u32)
        requires list { list < length self.old.lists }
        requires slot { slot < self.old.slots }
        requires free { IsFree self.old slot }
        ensures { self.new ≡ after_push self.old list slot }
    {
        // Before the node of the list is its end.
        self.nodes.link(slot, u32::MAX - list);
    }

    /// Puts a slot that is in no list just before a slot that is in one.
    pub fn insert_before(&mut self, slot: u32, before: u32)
        requires slot { slot < self.old.slots }
        requires free { IsFree self.old slot }
        requires listed { IsListed self.old before }
        ensures { self.new ≡ after_insert self.old slot before }
    {
        self.nodes.link(slot, before);
    }

    /// Takes a slot out of the list that it is in.
    pub fn unlink(&mut self, slot: u32)
        requires { IsListed self.old slot }
        ensures lists { self.new ≡ after_unlink self.old slot }
        ensures free { IsFree self.new slot }
        ensures within { slot < self.new.slots }
    {
        self.nodes.unlink(slot);
    }

    /// Moves a slot to just before another, where both are in a list. A slot moved before itself stays.
    pub fn move_before(&mut self, slot: u32, before: u32)
        requires slot { IsListed self.old slot }
        requires before { IsListed self.old before }
        ensures { self.new ≡ after_move self.old slot before }
    {
        if slot != before {
            self.unlink(slot);
            self.insert_before(slot, before);
        }
    }

    /// More slots, each in no list, and more empty lists. The old lists stay.
    pub fn grow(&mut self, slots: u32, lists: u32) -> Result<(), AllocError>
        requires slots { self.old.slots ≤ slots }
        requires lists { length self.old.lists ≤ lists }
        ensures ok { OnOk result (self.new ≡ after_grow self.old slots lists) }
        ensures err { OnErr result (self.new ≡ self.old) }
    {
        self.nodes.grow(slots, lists)
    }

    /// The first slot of a list: none where the list is empty.
    pub fn first(&self, list: u32) -> Option<u32>
        requires { list < length self.now.lists }
        ensures slot { result ≡ slice_get (list_at self.now list) 0 }
        ensures listed { IfSome result (IsListed self.now) }
        ensures within { IfSome result (λ slot. slot < self.now.slots) }
    {
        let first = self.nodes.after(u32::MAX - list);
        if self.nodes.is_slot(first) {
            Some(first)
        } else {
            None
        }
    }

    /// The slot after a slot in its list: none where it is the last, or in no list.
    pub fn next(&self, slot: u32) -> Option<u32>
        requires { slot < self.now.slots }
        ensures slot { result ≡ next_of slot self.now.lists }
        ensures listed { IfSome result (IsListed self.now) }
        ensures within { IfSome result (λ next. next < self.now.slots) }
    {
        let next = self.nodes.after(slot);
        if self.nodes.is_slot(next) && next != slot {
            Some(next)
        } else {
            None
        }
    }

    /// The lists are disjoint. For contracts alone: it does nothing.
    pub fn are_disjoint(&self)
        ensures { AreDisjoint self.now }
    {
        let _nodes = &self.nodes;
    }
}
