//! The path of a place, which is made where it is asked for: most values have no faults, and no line.

ghost use Rattle.std.specs.Prelude.{◌≡◌, [], ◌∷◌, ◌++◌, codes, true, IfOk, IfSome};
ghost use Rattle.decimal_json.specs.View.{path_of};
ghost use Rattle.decimal_json.specs.declared.paths.PathPart.TheVariants.{Key, Index};
ghost use Rattle.style_rules.specs.LatePaths.{place_name, properties_path, filter_path};

use decimal_json::{Here, Path, PathPart, Text, path_to};
use property_tables::Place;
use std::alloc::{AllocError, Global};
use std::marker::Model;

/// A path that may not be made yet.
#[derive(Drop)]
pub(crate) struct LatePath {
    place: LatePlace,
}

#[derive(Drop)]
enum LatePlace {
    Made(Path),
    /// The filter of the layer of a number.
    Filter(usize),
    /// A property of the layer of a number, by its name.
    Property(usize, Place, Text),
}

impl Model for LatePath {
    ghost use Rattle.std.specs.Prelude.{List};
    ghost use Rattle.decimal_json.specs.declared.paths.PathPart.{PathPart};
    ghost use Rattle.style_rules.specs.LatePaths.{late_path};

    ghost Value = { List PathPart };

    ghost view = { λ a. late_path a.place };
}

impl LatePath {
    /// The path of a place. That of the filter of a layer is not made.
    pub(crate) fn of(alloc: Global, here: &Here<'_>) -> Result<LatePath, AllocError>
        ensures { IfOk result (λ path. path ≡ path_of here.now) }
    {
        let place = match filter_layer(here) {
            Some(layer) => LatePlace::Filter(layer),
            None => LatePlace::Made(path_to(alloc, here)?),
        };
        Ok(LatePath { place })
    }

    /// The path of the member of a name below a place. That of a property of a layer is not made.
    pub(crate) fn of_member<'x>(
        alloc: Global,
        name: &'x Text,
        outer: &'x Here<'x>,
    ) -> Result<LatePath, AllocError>
        ensures { IfOk result (λ path. path ≡ path_of outer.now ++ Key name.now ∷ []) }
    {
        let place = match properties_at(outer) {
            Some((layer, place)) => LatePlace::Property(layer, place, name.share()?),
            None => LatePlace::Made(path_to(alloc, &Here::Key(name.as_str(), outer))?),
        };
        Ok(LatePath { place })
    }

    /// The path.
    pub(crate) fn made(self, alloc: Global) -> Result<Path, AllocError>
        ensures { IfOk result (λ path. path ≡ self) }
    {
        match self.place {
            LatePlace::Made(path) => Ok(path),
            LatePlace::Filter(layer) => member_path(alloc, layer, "filter"),
            LatePlace::Property(layer, place, name) => {
                let mut path = member_path(alloc, layer, place_name(place))?;
                path.push(PathPart::Key(name))?;
                Ok(path)
            }
        }
    }
}

/// The number of the layer whose filter is at a place.
#[tactic(auto, using(crate::proofs::LatePathLaws::same_key))]
fn filter_layer(here: &Here<'_>) -> Option<usize>
    ensures { IfSome result (λ layer. path_of here.now ≡ filter_path layer) }
{
    match here {
        Here::Key(name, outer) if *name == "filter" => layer_at(outer),
        _ => None,
    }
}

/// The number of the layer whose `layout` or `paint` is at a place, and which of them it is.
fn properties_at(here: &Here<'_>) -> Option<(usize, Place)>
    ensures { IfSome result (λ at. path_of here.now ≡ properties_path at.0 at.1) }
{
    let Here::Key(name, outer) = here else {
        return None;
    };
    let place = place_named(name)?;
    let layer = layer_at(outer)?;
    Some((layer, place))
}

/// The number of the layer at a place.
fn layer_at(here: &Here<'_>) -> Option<usize>
    ensures { IfSome result (λ layer. path_of here.now ≡ Key (codes "layers") ∷ Index layer ∷ []) }
{
    match here {
        Here::Index(number, outer) if are_layers(outer) => Some(*number),
        _ => None,
    }
}

/// Whether a place is that of the layers of a document.
#[tactic(auto, using(crate::proofs::LatePathLaws::same_key))]
fn are_layers(here: &Here<'_>) -> bool
    ensures { result ≡ true → path_of here.now ≡ Key (codes "layers") ∷ [] }
{
    match here {
        Here::Key(name, Here::Root) => *name == "layers",
        _ => false,
    }
}

#[tactic(auto, using(crate::proofs::LatePathLaws::same_key))]
fn place_named(name: &str) -> Option<Place>
    ensures { IfSome result (λ place. name.now ≡ place_name place) }
{
    match name {
        "paint" => Some(Place::Paint),
        "layout" => Some(Place::Layout),
        _ => None,
    }
}

fn place_name(place: Place) -> &'static str
    ensures { result.now ≡ place_name place }
{
    match place {
        Place::Layout => "layout",
        Place::Paint => "paint",
    }
}

fn member_path(alloc: Global, layer: usize, member: &str) -> Result<Path, AllocError>
    ensures { IfOk result (λ path. path ≡ Key (codes "layers") ∷ Index layer ∷ Key member.now ∷ []) }
{
    let layers = Here::Key("layers", &Here::Root);
    let there = Here::Index(layer, &layers);
    path_to(alloc, &Here::Key(member, &there))
}
