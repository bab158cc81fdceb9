//! The tile of the generator.

ghost use Rattle.std.specs.Prelude.{◌≡◌, ◌<◌, codes, IfOk};
ghost use Rattle.generated_runs.specs.GeneratedTile.{generated_tile, ranked_point, ranked_points};

use crate::ranks::{next, rank};
use decimal_json::Text;
use fixed_num::Fixed;
use prop_values::Value;
use std::alloc::{AllocError, Global};
use tile_reader::{Feature, FeatureId, FeatureProperties, Features, Shape, Tile, TileLayer};

/// The tile of so many features.
pub fn generated_tile(alloc: Global, count: u32) -> Result<Tile, AllocError>
    ensures { IfOk result (λ tile. tile ≡ generated_tile count) }
{
    let layer = TileLayer {
        name: Text::copy_of(alloc, "p")?,
        features: ranked_points(alloc, count)?,
    };
    let mut tile = Tile::new(alloc);
    tile.push(layer)?;
    Ok(tile)
}

fn ranked_points(alloc: Global, count: u32) -> Result<Features, AllocError>
    ensures { IfOk result (λ features. features ≡ ranked_points count 1 count) }
{
    let key = Text::copy_of(alloc, "r")?;
    let mut features = Features::with_capacity(alloc, count as usize)?;
    let mut x = count as u64;
    for place in 0..count {
        x = next(x);
        let feature = ranked_point(alloc, &key, place as u64 + 1, rank(x))?;
        features.push(feature)?;
    }
    Ok(features)
}

// A point of this id, with its rank. All points share the text of the key.
fn ranked_point(alloc: Global, key: &Text, id: u64, rank: u64) -> Result<Feature, AllocError>
    requires key { key.now ≡ codes "r" }
    requires rank { rank < 100 }
    ensures { IfOk result (λ feature. feature ≡ ranked_point id rank) }
{
    let number = Fixed::from_millionths(rank as i128 * 1_000_000).unwrap();
    Ok(Feature {
        id: FeatureId::of(Some(id)),
        shape: Shape::Point,
        properties: FeatureProperties::one(alloc, key.share()?, Value::Num(number))?,
    })
}
