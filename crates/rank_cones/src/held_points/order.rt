//! The order of keys, and where each of them goes.

ghost use Rattle.std.specs.Prelude.{◌≡◌, ◌<◌, ◌≤◌, ◌^◌, map, length, IfOk};
ghost use Rattle.rank_cones.specs.held_points.Order.{IsOrder, AreMoves, placed};

use plex_base::NoMemory;
use std::alloc::Global;

/// The places of these keys in rising order of the keys; equal keys stay in their order.
pub(crate) fn order_of(alloc: Global, keys: &[u64]) -> Result<Vec<u32>, NoMemory>
    requires { length keys.now < 2 ^ 32 }
    ensures { IfOk result (λ order. IsOrder keys.now order.items) }
{
    let mut pairs = pairs_of(alloc, keys)?;
    pairs.sort_unstable();
    places_of(alloc, &pairs)
}

/// Each key with its place.
fn pairs_of(alloc: Global, keys: &[u64]) -> Result<Vec<(u64, u32)>, NoMemory>
    requires { length keys.now < 2 ^ 32 }
    ensures { IfOk result (λ pairs. pairs.items ≡ placed keys.now) }
{
    let mut pairs = Vec::with_capacity(alloc, keys.len())?;
    for k in 0..keys.len() {
        pairs.push((keys[k], k as u32))?;
    }
    Ok(pairs)
}

/// The places of these pairs.
fn places_of(alloc: Global, pairs: &[(u64, u32)]) -> Result<Vec<u32>, NoMemory>
    ensures { IfOk result (λ places. places.items ≡ map (λ p. p.1) pairs.now) }
{
    let mut places = Vec::with_capacity(alloc, pairs.len())?;
    for pair in pairs {
        places.push(pair.1)?;
    }
    Ok(places)
}

/// Where each place stands in an order of places.
pub(crate) fn moves_of(alloc: Global, keys: &[u64], order: &[u32]) -> Result<Vec<u32>, NoMemory>
    requires order { IsOrder keys.now order.now }
    requires few { length keys.now < 2 ^ 32 }
    ensures { IfOk result (λ moves. AreMoves order.now moves.items) }
{
    let mut moves = vec![in alloc; 0; order.len()]?;
    for k in 0..order.len() {
        moves[order[k] as usize] = k as u32;
    }
    Ok(moves)
}
