//! Objects that get, change or lose a member.

ghost use Rattle.std.specs.Prelude.{◌≡◌, IfOk, option_map};
ghost use Rattle.decimal_json.specs.Accessors.{member};
ghost use Rattle.decimal_json.specs.View.{tree_of};
ghost use Rattle.style_edits.specs.Objects.{object_with, object_replacing, object_without};

use decimal_json::{Json, Members, Text};
use std::alloc::{AllocError, Global};

/// An object with a value at a key: in place of the one that is there, or last. What is no object becomes the object of
/// this member alone.
#[tactic(auto, using(crate::proofs::ObjectLaws::with_object))]
pub(crate) fn object_with(
    alloc: Global,
    object: Json,
    key: Text,
    value: Json,
) -> Result<Json, AllocError>
    ensures { IfOk result (λ made. tree_of made ≡ object_with key (tree_of value) (tree_of object)) }
{
    match object {
        Json::Object(mut members) => {
            members.put(key, value)?;
            Ok(Json::Object(members))
        }
        _ => {
            let mut members = Members::new(alloc);
            members.push(key, value)?;
            Ok(Json::Object(members))
        }
    }
}

/// An object without the member of a key. What is no object stays.
#[tactic(auto, using(crate::proofs::ObjectLaws::without_object))]
pub(crate) fn object_without(object: Json, key: &str) -> Json
    ensures { tree_of result ≡ object_without key.now (tree_of object) }
{
    match object {
        Json::Object(mut members) => {
            let _ = members.remove(key);
            Json::Object(members)
        }
        other => other,
    }
}

/// Puts a value in place of the one at a key, which it gives. Without the key nothing changes.
#[tactic(auto, using(crate::proofs::ObjectLaws::replacing_object))]
pub(crate) fn replace_member(object: &mut Json, key: &str, value: Json) -> Option<Json>
    ensures value { option_map tree_of result ≡ member key.now (tree_of object.old) }
    ensures put { tree_of object.new ≡ object_replacing key.now (tree_of value) (tree_of object.old) }
{
    match object {
        Json::Object(members) => members.replace(key, value),
        _ => None,
    }
}
