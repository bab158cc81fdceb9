//! A layer whose `layout` and `paint` are looked up once.

ghost use Rattle.std.specs.Prelude.{◌≡◌};
ghost use Rattle.std.specs.Str.{bytes_eq};
ghost use Rattle.decimal_json.specs.Tree.{object, fields_of, field_at};
ghost use Rattle.decimal_json.specs.Accessors.{member};
ghost use Rattle.decimal_json.specs.View.{fields, tree_at, tree_of};
ghost use Rattle.style_layout.specs.Layers.{place_key, set_value};

use decimal_json::{Json, Member, Members};
use property_tables::Place;
use std::marker::Model;

/// How many members are compared one by one, by the lengths of their keys first.
const FEW: usize = 16;

/// A layer whose `layout` and `paint` are looked up once. Clauses see it as the layer's members.
#[derive(Drop)]
pub struct PlacedLayer<'a> {
    members: &'a Members,
    layout: Option<&'a Json>,
    paint: Option<&'a Json>,
}

impl<'a> Model for PlacedLayer<'a> {
    ghost use Rattle.std.specs.Prelude.{List, ℕ};
    ghost use Rattle.decimal_json.specs.Tree.{Tree};
    ghost use Rattle.decimal_json.specs.TreeCode.{fields_code};

    ghost Value = { List (List ℕ × Tree) };

    ghost coded = { fields_code };

    ghost use Rattle.decimal_json.specs.View.{tree_at};
    ghost use Rattle.style_layout.specs.PlacedLayer.{IsPlaced};

    ghost view = { λ a. a.members.now };

    ghost invariant = { λ a. IsPlaced a.members.now (tree_at a.layout) (tree_at a.paint) };
}

impl<'a> PlacedLayer<'a> {
    pub fn of(members: &'a Members) -> PlacedLayer<'a>
        ensures { result ≡ members.now }
    {
        PlacedLayer {
            members,
            layout: members.get("layout"),
            paint: members.get("paint"),
        }
    }

    /// The value of a name in `layout` or `paint`.
    pub fn get(&self, place: Place, name: &str) -> Option<&'a Json>
        ensures { tree_at result ≡ set_value (object (fields_of self.now)) place name.now }
    {
        value_named(self.placed(place)?, name)
    }

    fn placed(&self, place: Place) -> Option<&'a Json>
        ensures { tree_at result ≡ member (place_key place) (object (fields_of self.now)) }
    {
        match place {
            Place::Layout => self.layout,
            Place::Paint => self.paint,
        }
    }
}

fn value_named<'a>(properties: &'a Json, name: &str) -> Option<&'a Json>
    ensures { tree_at result ≡ member name.now (tree_of properties.now) }
{
    match properties {
        Json::Object(members) if members.as_slice().len() <= FEW => {
            value_among(members.as_slice(), name)
        }
        Json::Object(members) => members.get(name),
        _ => None,
    }
}

fn value_among<'a>(members: &'a [Member], name: &str) -> Option<&'a Json>
    ensures { tree_at result ≡ field_at name.now (fields members.now) }
{
    for member in members {
        if is_named(member, name) {
            return Some(&member.value);
        }
    }
    None
}

fn is_named(member: &Member, name: &str) -> bool
    ensures { result ≡ bytes_eq member.now.key name.now }
{
    let key = member.key.as_str();
    key.len() == name.len() && key == name
}
