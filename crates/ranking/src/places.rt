//! Ranked candidates by rising score.
ghost use Rattle.std.specs.Prelude.{◌≡◌, IfOk, map};
ghost use Rattle.ranking.specs.Places.{keys_of, places_of};

use crate::ranked::Ranked;
use std::alloc::{AllocError, Global};

/// The places, from 0 on, of ranked candidates by rising score, ties by rising place. It fails only for want of
/// memory.
pub fn in_places(alloc: Global, found: &[Ranked]) -> Result<Vec<usize>, AllocError>
    ensures { IfOk result (λ places. places.items ≡ places_of found.now) }
{
    let mut keys = keys_of(alloc, found)?;
    keys.sort_unstable();
    let places: Vec<usize> = keys.iter().map(|key| key.1).collect(alloc)?;
    Ok(places)
}

/// The score of each, with its place.
fn keys_of(alloc: Global, found: &[Ranked]) -> Result<Vec<(u64, usize)>, AllocError>
    ensures { IfOk result (λ keys. keys.items ≡ keys_of found.now) }
{
    found
        .iter()
        .enumerate()
        .map(|(place, ranked)| (ranked.score, place))
        .collect(alloc)
}
