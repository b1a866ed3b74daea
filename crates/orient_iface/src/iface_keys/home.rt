//! The home round.
ghost use Rattle.std.specs.Prelude.{◌≡◌, ℕ, ◌^◌, ◌<◌, length, map, get_or, IfOk, OnErr};
ghost use Rattle.std.specs.List.{AllByRecursion};
ghost use Rattle.plain_lists.specs.Vectors.{lists_of};
ghost use Rattle.sf_fabric.specs.Kept.{kept_with};
ghost use Rattle.sf_ops.specs.Asked.{words_of};
ghost use Rattle.sf_ops.specs.Copies.{AreCopies};
ghost use Rattle.rank_chart_laws.specs.key_laws.Places.{AreInside};
ghost use Rattle.rank_chart_laws.specs.key_laws.Words.{told_keys, word_keys, word_numbers, AreAllWords, IsKeyRound, IsLaidOut};

use crate::iface_keys::leaves::{for_ranks, word_forest, word_numbers};
use crate::iface_keys::values::{part_keys, picked, put, seen_keys};
use dist_state::shared_state::Shared;
use plex_base::NoMemory;
use sf_fabric::{Fabric, Op, Round, Tag};
use sf_ops::{bcast, fetch_and_op};
use std::alloc::Global;

/// The number of each word at the place of each copy of its point, and 0 elsewhere.
pub(crate) fn told_numbers<F: Fabric>(
    alloc: Global,
    shared: &Shared,
    places: &[Vec<u32>],
    fabric: &mut F,
) -> Result<Vec<Vec<u64>>, NoMemory>
    requires laid_out { IsLaidOut shared.now }
    requires words { AreAllWords shared.now (lists_of places.now) }
    ensures told { IfOk result (λ numbers. AreCopies shared.now.forest (word_numbers shared.now (lists_of places.now)) (word_numbers shared.now (lists_of places.now)) (lists_of numbers.items)) }
    ensures shape { IfOk result (λ numbers. map length (lists_of numbers.items) ≡ shared.now.forest.roots) }
    ensures kept { F.kept fabric.new ≡ F.kept fabric.old }
{
    let own = word_numbers(alloc, shared, places)?;
    let mut told = word_numbers(alloc, shared, places)?;
    bcast(alloc, shared.forest(), &own, &mut told, fabric)?;
    Ok(told)
}

/// Runs the home round: the words' keys become the least that any rank sees. Answers them and the round.
pub(crate) fn key_round<F: Fabric>(
    alloc: Global,
    shared: &Shared,
    places: &[Vec<u32>],
    numbers: &[Vec<u64>],
    fabric: &mut F,
) -> Result<(Vec<Vec<u64>>, Round), NoMemory>
    requires laid_out { IsLaidOut shared.now }
    requires words { AreAllWords shared.now (lists_of places.now) }
    requires told { AreCopies shared.now.forest (word_numbers shared.now (lists_of places.now)) (word_numbers shared.now (lists_of places.now)) (lists_of numbers.now) }
    requires shape { map length (lists_of numbers.now) ≡ shared.now.forest.roots }
    ensures round { IfOk result (λ r. IsKeyRound shared.now (lists_of places.now) (lists_of numbers.now) r.1) }
    ensures shape { IfOk result (λ r. map length (lists_of r.0.items) ≡ map length (lists_of places.now)) }
    ensures least { IfOk result (λ r. words_of (lists_of r.0.items) ≡ r.1.after) }
    ensures kept { IfOk result (λ r. F.kept fabric.new ≡ kept_with (F.kept fabric.old) r.1) }
    ensures no_memory { OnErr result (F.kept fabric.new ≡ F.kept fabric.old) }
{
    for_ranks(shared);
    let forest = word_forest(alloc, shared, places, numbers)?;
    let own = seen_keys(alloc, shared)?;
    let mut least = word_keys(alloc, places, &own)?;
    let round = fetch_and_op(alloc, &forest, &own, &mut least, Op::Min, Tag::Home, fabric)?;
    Ok((least, round))
}

/// The keys of the words as their ranks see them.
fn word_keys(
    alloc: Global,
    places: &[Vec<u32>],
    keys: &[Vec<u64>],
) -> Result<Vec<Vec<u64>>, NoMemory>
    requires { AreInside (lists_of places.now) (lists_of keys.now) }
    ensures words { IfOk result (λ words. lists_of words.items ≡ word_keys (lists_of places.now) (lists_of keys.now)) }
    ensures low { IfOk result (λ words. AllByRecursion (λ own. (k : ℕ) → get_or own k 0 < 2 ^ 64) (lists_of words.items)) }
{
    let mut words = Vec::with_capacity(alloc, places.len())?;
    for rank in 0..places.len() {
        words.push(picked(alloc, &keys[rank], &places[rank])?)?;
    }
    Ok(words)
}

/// The keys under which ranks see their points, but those of the words as they are now.
fn told_keys(
    alloc: Global,
    shared: &Shared,
    places: &[Vec<u32>],
    least: &[Vec<u64>],
) -> Result<Vec<Vec<u64>>, NoMemory>
    requires laid_out { IsLaidOut shared.now }
    requires words { AreAllWords shared.now (lists_of places.now) }
    requires shape { map length (lists_of least.now) ≡ map length (lists_of places.now) }
    ensures { IfOk result (λ keys. lists_of keys.items ≡ told_keys shared.now (lists_of places.now) (lists_of least.now)) }
{
    let mut keys = Vec::with_capacity(alloc, shared.ranks() as usize)?;
    for rank in 0..shared.ranks() {
        let mut own = part_keys(alloc, shared, rank)?;
        put(&mut own, &places[rank as usize], &least[rank as usize]);
        keys.push(own)?;
    }
    Ok(keys)
}

/// Gives each copy of a point the key that its owner has.
pub(crate) fn spread_keys<F: Fabric>(
    alloc: Global,
    shared: &Shared,
    places: &[Vec<u32>],
    least: &[Vec<u64>],
    fabric: &mut F,
) -> Result<Vec<Vec<u64>>, NoMemory>
    requires laid_out { IsLaidOut shared.now }
    requires words { AreAllWords shared.now (lists_of places.now) }
    requires shape { map length (lists_of least.now) ≡ map length (lists_of places.now) }
    ensures keys { IfOk result (λ keys. AreCopies shared.now.forest (told_keys shared.now (lists_of places.now) (lists_of least.now)) (told_keys shared.now (lists_of places.now) (lists_of least.now)) (lists_of keys.items)) }
    ensures shape { IfOk result (λ keys. map length (lists_of keys.items) ≡ shared.now.forest.roots) }
    ensures kept { F.kept fabric.new ≡ F.kept fabric.old }
{
    let own = told_keys(alloc, shared, places, least)?;
    let mut keys = told_keys(alloc, shared, places, least)?;
    bcast(alloc, shared.forest(), &own, &mut keys, fabric)?;
    Ok(keys)
}
