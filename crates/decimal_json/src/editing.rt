ghost use Rattle.std.specs.Prelude.{◌≡◌, ◌<◌, ◌≤◌, length, insert, remove, slice_set, slice_index_or, OnOk, OnErr};
ghost use Rattle.std.specs.Prelude.{option_map};
ghost use Rattle.decimal_json.specs.Editing.{members_with, replaced_members, members_without};
ghost use Rattle.decimal_json.specs.View.{moved_items, tree_of};
ghost use Rattle.decimal_json.specs.Tree.{field_at, fields_of};
ghost use Rattle.decimal_json.specs.Sound.{LacksKey};
ghost use Rattle.decimal_json.specs.declared.tree.Member.{Member};

use crate::tree::{Items, Json, Member, Members};
use moved_slices::move_element;
use shared_text::Text;
use std::alloc::AllocError;
use std::mem;

impl Items {
    /// Puts an item before the one at a place, or last where the place is the number of items. Takes time
    /// linear in the items.
    pub fn insert(&mut self, place: usize, item: Json) -> Result<(), AllocError>
        requires { place ≤ length self.old }
        ensures ok { OnOk result (self.new ≡ insert self.old place (tree_of item)) }
        ensures err { OnErr result (self.new ≡ self.old) }
    {
        let Ok(()) = self.items.insert(place, item) else {
            return Err(AllocError);
        };
        Ok(())
    }

    /// Takes the item at a place out and gives it. Takes time linear in the items.
    pub fn remove(&mut self, place: usize) -> Json
        requires { place < length self.old }
        ensures item { tree_of result ≡ slice_index_or self.old place (tree_of result) }
        ensures left { self.new ≡ remove self.old place }
    {
        self.items.remove(place)
    }

    /// Moves the item at a place to another, and the items in between by one place. Takes time linear in how many
    /// these are.
    pub fn move_item(&mut self, from: usize, to: usize)
        requires from { from < length self.old }
        requires to { to < length self.old }
        ensures { self.new ≡ moved_items from to self.old }
    {
        move_element(self.items.as_mut_slice(), from, to);
    }

    /// Puts an item in place of the one at a place, which it gives. Takes constant time. An item is changed
    /// in place thus: replaced by a null, changed, and put back.
    pub fn replace(&mut self, place: usize, item: Json) -> Json
        requires { place < length self.old }
        ensures item { tree_of result ≡ slice_index_or self.old place (tree_of result) }
        ensures put { self.new ≡ slice_set self.old place (tree_of item) }
    {
        mem::replace(&mut self.items[place], item)
    }
}

impl Members {
    /// Puts a value at a key: in place of the one that is there, else in a new last member. Takes time as
    /// `get` does.
    pub fn put(&mut self, key: Text, value: Json) -> Result<(), AllocError>
        ensures ok { OnOk result (self.new ≡ members_with key (tree_of value) self.old) }
        ensures err { OnErr result (self.new ≡ self.old) }
    {
        match self.index.find(self.members.as_slice(), key.as_str()) {
            None => self.push(key, value),
            Some(place) => {
                put_value(&mut self.members, place, value);
                Ok(())
            }
        }
    }

    /// Puts a value in place of the one at a key, which it gives, or gives `None` exactly where no member has
    /// the key: then nothing changes. Takes time as `get` does. A value is changed in place thus: replaced by
    /// a null, changed, and put back.
    pub fn replace(&mut self, key: &str, value: Json) -> Option<Json>
        ensures value { option_map tree_of result ≡ field_at key.now (fields_of self.old) }
        ensures put { self.new ≡ replaced_members key.now (tree_of value) self.old }
    {
        match self.index.find(self.members.as_slice(), key) {
            None => None,
            Some(place) => Some(put_value(&mut self.members, place, value)),
        }
    }

    /// Takes the member of a key out and gives its value, or gives `None` exactly where no member has the
    /// key: then nothing changes. Takes time linear in the members. It needs no memory: when allocation
    /// fails, keys are looked for one by one until the next member is added.
    pub fn remove(&mut self, key: &str) -> Option<Json>
        ensures value { option_map tree_of result ≡ field_at key.now (fields_of self.old) }
        ensures left { self.new ≡ members_without key.now self.old }
    {
        match self.index.find(self.members.as_slice(), key) {
            None => None,
            Some(place) => {
                let alloc = *self.members.allocator();
                let Member { key: _, value } = self.members.remove(place);
                self.index.renew(alloc, self.members.as_slice());
                Some(value)
            }
        }
    }

    /// Puts a member before the one at a place, or last where the place is the number of members. No member
    /// may have its key. Takes time linear in the members. An index for which there is no memory is made when
    /// the next member is added; until then keys are looked for one by one.
    pub fn insert_at(&mut self, place: usize, key: Text, value: Json) -> Result<(), AllocError>
        requires within { place ≤ length self.old }
        requires lacks { LacksKey key self.old }
        ensures ok { OnOk result (self.new ≡ insert self.old place (key, tree_of value)) }
        ensures err { OnErr result (self.new ≡ self.old) }
    {
        let Ok(()) = self.members.insert(place, Member { key, value }) else {
            return Err(AllocError);
        };
        let alloc = *self.members.allocator();
        self.index.renew(alloc, self.members.as_slice());
        Ok(())
    }
}

// Puts a value into the member at a place, and gives the one that was there.
fn put_value(members: &mut Vec<Member>, place: usize, value: Json) -> Json
    requires { place < length members.old.items }
    ensures old { (m : Member) → result ≡ (slice_index_or members.old.items place m).value }
    ensures put { (m : Member) → members.new.items
        ≡ slice_set members.old.items place (record (slice_index_or members.old.items place m) { value = value }) }
{
    mem::replace(&mut members[place].value, value)
}
