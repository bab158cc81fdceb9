//! What a tree holds, by its form.

ghost use Rattle.std.specs.Prelude.{◌≡◌, option_map};
ghost use Rattle.decimal_json.specs.Accessors.{is_text, is_object, text_in, fields_in, member};
ghost use Rattle.decimal_json.specs.View.{items_in, tree_of, trees, tree_at};
ghost use Rattle.decimal_json.specs.Tree.{fields_of};

use crate::tree::{Json, Members};

impl Json {
    pub fn is_text(&self) -> bool
        ensures { result ≡ is_text (tree_of self.now) }
    {
        matches!(self, Json::Text(_))
    }

    pub fn is_object(&self) -> bool
        ensures { result ≡ is_object (tree_of self.now) }
    {
        matches!(self, Json::Object(_))
    }

    /// The text, or `None` exactly where the tree is none.
    pub fn as_text(&self) -> Option<&str>
        ensures { option_map (λ text. text.now) result ≡ text_in (tree_of self.now) }
    {
        match self {
            Json::Text(text) => Some(text.as_str()),
            _ => None,
        }
    }

    /// The items, or `None` exactly where the tree is no array.
    pub fn as_items(&self) -> Option<&[Json]>
        ensures { option_map (λ items. trees items.now) result ≡ items_in (tree_of self.now) }
    {
        match self {
            Json::List(items) => Some(items.as_slice()),
            _ => None,
        }
    }

    /// The members, or `None` exactly where the tree is no object.
    pub fn as_members(&self) -> Option<&Members>
        ensures { option_map (λ members. fields_of members.now) result ≡ fields_in (tree_of self.now) }
    {
        match self {
            Json::Object(members) => Some(members),
            _ => None,
        }
    }

    /// The member at a key, or `None` exactly where the tree is no object or lacks the key. Takes the time of
    /// `Members::get`.
    pub fn get(&self, key: &str) -> Option<&Json>
        ensures { tree_at result ≡ member key.now (tree_of self.now) }
    {
        match self {
            Json::Object(members) => members.get(key),
            _ => None,
        }
    }
}
