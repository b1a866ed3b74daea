//! Lists that have values at places, and the keys under which ranks see their points.
ghost use Rattle.std.specs.Prelude.{◌≡◌, ℕ, ◌*◌, ◌^◌, ◌++◌, ◌<◌, length, map, get_or, IfOk, OnOk};
ghost use Rattle.std.specs.List.{AllByRecursion};
ghost use Rattle.mesh_defs.specs.Points.{Sight};
ghost use Rattle.plain_lists.specs.Lists.{below, picked};
ghost use Rattle.plain_lists.specs.Vectors.{lists_of};
ghost use Rattle.rank_chart_laws.specs.key_laws.Places.{part_keys, put};
ghost use Rattle.rank_chart_laws.specs.key_laws.Words.{part, seen_keys};

use dist_state::shared_state::Shared;
use local_points::LocalPoints;
use plex_base::{NoMemory, PointKey};
use std::alloc::Global;

/// Puts values at places of a list.
pub(crate) fn put(own: &mut Vec<u64>, places: &[u32], values: &[u64])
    requires count { length values.now ≡ length places.now }
    requires inside { AllByRecursion (λ p. p < length own.old.items) places.now }
    ensures { own.new.items ≡ put own.old.items places.now values.now }
{
    for k in 0..places.len() {
        own[places[k] as usize] = values[k];
    }
}

/// The values at places of a list.
pub(crate) fn picked(alloc: Global, own: &[u64], places: &[u32]) -> Result<Vec<u64>, NoMemory>
    requires { AllByRecursion (λ p. p < length own.now) places.now }
    ensures values { IfOk result (λ values. values.items ≡ picked own.now places.now) }
    ensures low { IfOk result (λ values. (k : ℕ) → get_or values.items k 0 < 2 ^ 64) }
{
    let mut values = Vec::with_capacity(alloc, places.len())?;
    for place in places {
        values.push(own[*place as usize])?;
    }
    words_fit(&values);
    Ok(values)
}

/// Words are below 2^64. Does nothing.
fn words_fit(words: &[u64])
    ensures { (k : ℕ) → get_or words.now k 0 < 2 ^ 64 }
{}

/// The numbers below `count`.
pub(crate) fn below(alloc: Global, count: usize) -> Result<Vec<u64>, NoMemory>
    ensures { IfOk result (λ numbers. numbers.items ≡ below count) }
{
    let mut numbers = Vec::with_capacity(alloc, count)?;
    for k in 0..count {
        numbers.push(k as u64)?;
    }
    Ok(numbers)
}

/// The keys under which each rank sees its points.
pub(crate) fn seen_keys(alloc: Global, shared: &Shared) -> Result<Vec<Vec<u64>>, NoMemory>
    ensures { IfOk result (λ keys. lists_of keys.items ≡ seen_keys shared.now) }
{
    let mut keys = Vec::with_capacity(alloc, shared.ranks() as usize)?;
    for rank in 0..shared.ranks() {
        keys.push(part_keys(alloc, shared, rank)?)?;
    }
    Ok(keys)
}

/// The keys under which a rank sees its points: cells, vertices, faces, edges.
pub(crate) fn part_keys(alloc: Global, shared: &Shared, rank: u32) -> Result<Vec<u64>, NoMemory>
    requires { rank < length shared.now.parts }
    ensures { IfOk result (λ keys. keys.items ≡ part_keys (part shared.now rank)) }
{
    let mut keys = Vec::with_capacity(alloc, shared.points(rank) as usize)?;
    push_cells(&mut keys, shared.cells(rank))?;
    push_vertices(&mut keys, shared.vertices(rank))?;
    push_faces(&mut keys, shared.local(rank))?;
    push_edges(&mut keys, shared.local(rank))?;
    Ok(keys)
}

/// The keys of cells, by their places in the whole mesh.
fn push_cells(keys: &mut Vec<u64>, cells: &[u32]) -> Result<(), NoMemory>
    ensures { OnOk result (keys.new.items ≡ keys.old.items ++ map (λ c. 64 * c) cells.now) }
{
    for cell in cells {
        keys.push(PointKey::of_cell(*cell).0)?;
    }
    Ok(())
}

/// The keys of vertices: their positions.
fn push_vertices(keys: &mut Vec<u64>, vertices: &[u32]) -> Result<(), NoMemory>
    ensures { OnOk result (keys.new.items ≡ keys.old.items ++ vertices.now) }
{
    for vertex in vertices {
        keys.push(u64::from(*vertex))?;
    }
    Ok(())
}

/// The keys of faces.
fn push_faces(keys: &mut Vec<u64>, local: &LocalPoints) -> Result<(), NoMemory>
    ensures { OnOk result (keys.new.items ≡ keys.old.items ++ map (λ (s : Sight). s.key) local.now.faces) }
{
    for k in 0..local.faces() {
        keys.push(local.face(k).0.0)?;
    }
    Ok(())
}

/// The keys of edges.
fn push_edges(keys: &mut Vec<u64>, local: &LocalPoints) -> Result<(), NoMemory>
    ensures { OnOk result (keys.new.items ≡ keys.old.items ++ map (λ (s : Sight). s.key) local.now.edges) }
{
    for k in 0..local.edges() {
        keys.push(local.edge(k).0.0)?;
    }
    Ok(())
}
