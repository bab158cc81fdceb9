//! The lists in which slots are, one of each kind, by what their values may be dropped for.

ghost use Rattle.std.specs.Prelude.{◌≡◌, ◌+◌, ◌<◌, ◌≤◌, ◌&&◌, ℕ, Option, None, length, is_some, true, IfOk, IfSome};
ghost use Rattle.std.specs.Prelude.{OnErr, OnOk, false, slice_get};
ghost use Rattle.index_lists.specs.SlotLists.{IsFree, IsListed};
ghost use Rattle.index_lists.specs.Holds.{Holds, MovesSlot};
ghost use Rattle.layer_buckets.specs.Listing.{Alike, AreAlike, AreCounted, AreGrown, AreThere, AreWider, Grows};
ghost use Rattle.layer_buckets.specs.Listing.{HaveSlots, HoldAll, IsListedIn, IsThere, IsUnlisted, MovesNumbers};
ghost use Rattle.layer_buckets.specs.Listing.{Widens, list_named, no_lists};
ghost use Rattle.layer_buckets.specs.declared.lists.ListNumbers.{ListNumbers};

use index_lists::Links;
use std::alloc::{AllocError, Global};

/// The numbers of the lists in which a slot is, of each kind one or none.
#[derive(Clone, Copy, Debug, PartialEq, Eq)]
pub struct ListNumbers {
    pub item: Option<u32>,
    pub zoom: Option<u32>,
    pub image: Option<u32>,
    pub state: Option<u32>,
}

/// One list.
#[derive(Clone, Copy, Debug, PartialEq, Eq)]
pub enum ListName {
    /// The cells of a column.
    Item(u32),
    /// The cells that mention the zoom: 0 those of paint, 1 the others.
    Zoom(u32),
    /// The cells that mention images: 0 those alone, 1 those that read the global state as well; 2 those that
    /// read the global state alone.
    Image(u32),
    /// The cells of a feature of a layer that mention its state.
    State(u32),
}

/// Lists of slots, of four kinds.
#[derive(Drop)]
pub struct CauseLists {
    pub items: Links,
    pub zooms: Links,
    pub images: Links,
    pub states: Links,
    /// The most slots that were asked for.
    pub slots: u32,
    pub item_lists: u32,
    pub state_lists: u32,
}

impl CauseLists {
    /// No slots, no lists of items and of states.
    pub fn new(alloc: Global) -> Result<CauseLists, AllocError>
        ensures counted { IfOk result AreCounted }
        ensures hold { IfOk result (λ lists. HoldAll lists (λ _. no_lists)) }
        ensures items { IfOk result (λ lists. lists.item_lists ≡ 0) }
        ensures states { IfOk result (λ lists. lists.state_lists ≡ 0) }
    {
        Ok(CauseLists {
            items: Links::new(alloc, 0, 0)?,
            zooms: Links::new(alloc, 0, 2)?,
            images: Links::new(alloc, 0, 3)?,
            states: Links::new(alloc, 0, 0)?,
            slots: 0,
            item_lists: 0,
            state_lists: 0,
        })
    }

    /// Puts a slot that is in no list in these.
    pub fn put(&mut self, numbers: ListNumbers, slot: u32)
        requires there { AreThere self.old numbers }
        requires slot { (slot < self.old.items.slots) × (slot < self.old.zooms.slots)
            × (slot < self.old.images.slots) × (slot < self.old.states.slots) }
        requires free { IsUnlisted self.old slot }
        ensures alike { AreAlike self.old self.new }
        ensures hold { (h g : ℕ → ListNumbers) → HoldAll self.old h → h slot ≡ no_lists →
            MovesNumbers slot numbers h g → HoldAll self.new g }
    {
        put_in(&mut self.items, numbers.item, slot);
        let more = has_causes(numbers);
        if more {
            put_in(&mut self.zooms, numbers.zoom, slot);
            put_in(&mut self.images, numbers.image, slot);
            put_in(&mut self.states, numbers.state, slot);
        }
    }

    /// Takes a slot out of these lists, all that it is in.
    pub fn take(&mut self, numbers: ListNumbers, slot: u32)
        requires { IsListedIn self.old numbers slot }
        ensures alike { AreAlike self.old self.new }
        ensures hold { (h g : ℕ → ListNumbers) → HoldAll self.old h → h slot ≡ numbers →
            MovesNumbers slot no_lists h g → HoldAll self.new g }
    {
        take_out(&mut self.items, numbers.item, slot);
        let more = has_causes(numbers);
        if more {
            take_out(&mut self.zooms, numbers.zoom, slot);
            take_out(&mut self.images, numbers.image, slot);
            take_out(&mut self.states, numbers.state, slot);
        }
    }

    /// Makes slots until there are so many. Whether it could.
    pub fn reserve(&mut self, slots: u32) -> bool
        requires { AreCounted self.old }
        ensures counted { AreCounted self.new }
        ensures grown { AreGrown self.old self.new }
        ensures done { result ≡ true → HaveSlots self.new slots }
    {
        let most = self.slots.max(slots);
        self.slots = most;
        let items = grow_slots(&mut self.items, most, self.item_lists);
        let zooms = grow_slots(&mut self.zooms, most, 2);
        let images = grow_slots(&mut self.images, most, 3);
        let states = grow_slots(&mut self.states, most, self.state_lists);
        all(items, zooms, images, states)
    }

    /// Adds a list of an item.
    pub fn add_item(&mut self) -> Result<(), AllocError>
        requires { AreCounted self.old }
        ensures counted { AreCounted self.new }
        ensures wider { AreWider self.old self.new }
        ensures states { self.new.state_lists ≡ self.old.state_lists }
        ensures ok { OnOk result (self.new.item_lists ≡ self.old.item_lists + 1) }
        ensures err { OnErr result (self.new.item_lists ≡ self.old.item_lists) }
    {
        if self.item_lists == u32::MAX {
            return Err(AllocError);
        }
        grow_lists(&mut self.items, self.slots, self.item_lists + 1)?;
        self.item_lists += 1;
        Ok(())
    }

    /// Adds so many lists of states.
    pub fn add_states(&mut self, count: u32) -> Result<(), AllocError>
        requires { AreCounted self.old }
        ensures counted { AreCounted self.new }
        ensures wider { AreWider self.old self.new }
        ensures items { self.new.item_lists ≡ self.old.item_lists }
        ensures ok { OnOk result (self.new.state_lists ≡ self.old.state_lists + count) }
        ensures small { OnOk result (self.new.state_lists < 4294967296) }
        ensures err { OnErr result (self.new.state_lists ≡ self.old.state_lists) }
    {
        if u32::MAX - self.state_lists < count {
            return Err(AllocError);
        }
        grow_lists(&mut self.states, self.slots, self.state_lists + count)?;
        self.state_lists += count;
        Ok(())
    }

    /// The first slot of a list.
    pub fn first(&self, name: ListName) -> Option<u32>
        requires { IsThere self.now name }
        ensures { result ≡ slice_get (list_named self.now name) 0 }
    {
        match name {
            ListName::Item(list) => self.items.first(list),
            ListName::Zoom(list) => self.zooms.first(list),
            ListName::Image(list) => self.images.first(list),
            ListName::State(list) => self.states.first(list),
        }
    }
}

/// Gives lists so many slots. Whether it could.
#[tactic(auto, using(crate::proofs::Listings::grows))]
fn grow_slots(links: &mut Links, slots: u32, lists: u32) -> bool
    requires slots { links.old.slots ≤ slots }
    requires lists { length links.old.lists ≡ lists }
    ensures grown { Grows links.old links.new slots }
    ensures done { result ≡ true → slots ≤ links.new.slots }
{
    links.grow(slots, lists).is_ok()
}

/// Adds lists until there are so many.
#[tactic(auto, using(crate::proofs::Listings::widens))]
fn grow_lists(links: &mut Links, slots: u32, lists: u32) -> Result<(), AllocError>
    requires slots { links.old.slots ≤ slots }
    requires lists { length links.old.lists ≤ lists }
    ensures wider { Widens links.old links.new slots }
    ensures ok { OnOk result (length links.new.lists ≡ lists) }
    ensures err { OnErr result (length links.new.lists ≡ length links.old.lists) }
{
    links.grow(slots, lists)
}

fn all(a: bool, b: bool, c: bool, d: bool) -> bool
    ensures { result ≡ ((a && b) && (c && d)) }
{
    (a && b) && (c && d)
}

/// Whether there is a list beside that of the item. Most cells have none.
fn has_causes(numbers: ListNumbers) -> bool
    ensures { result ≡ false → (numbers.zoom ≡ None) × (numbers.image ≡ None) × (numbers.state ≡ None) }
{
    match (numbers.zoom, numbers.image, numbers.state) {
        (None, None, None) => false,
        _ => true,
    }
}

/// Puts a slot in a list, or in none.
fn put_in(links: &mut Links, list: Option<u32>, slot: u32)
    requires list { IfSome list (λ l. l < length links.old.lists) }
    requires slot { slot < links.old.slots }
    requires free { IsFree links.old slot }
    ensures alike { Alike links.old links.new }
    ensures holds { (h g : ℕ → Option ℕ) → Holds links.old h → h slot ≡ None →
        MovesSlot slot list h g → Holds links.new g }
{
    if let Some(list) = list {
        links.push_last(list, slot);
    }
}

/// Takes a slot out of the list that it is in, or of none.
fn take_out(links: &mut Links, list: Option<u32>, slot: u32)
    requires { is_some list ≡ true → IsListed links.old slot }
    ensures alike { Alike links.old links.new }
    ensures holds { (h g : ℕ → Option ℕ) → Holds links.old h → h slot ≡ list →
        MovesSlot slot None h g → Holds links.new g }
{
    if let Some(_list) = list {
        links.unlink(slot);
    }
}
