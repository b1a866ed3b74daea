//! The forest of the home round.
ghost use Rattle.std.specs.Prelude.{◌≡◌, ℕ, ◌^◌, ◌<◌, [], length, map, get_or, IfOk, IsPermutation};
ghost use Rattle.std.specs.List.{AllByRecursion};
ghost use Rattle.std.specs.List.Sorted.{IsNonDecreasingBy};
ghost use Rattle.plain_lists.specs.Vectors.{lists_of};
ghost use Rattle.sf_graph.specs.Parts.{forest_of, IsForRanks};
ghost use Rattle.rank_chart_laws.specs.key_laws.Words.{leaf_number, leaves_found, part, word_numbers, AreAllWords, IsLaidOut, IsWordForest};

use crate::iface_keys::places::first_face;
use crate::iface_keys::values::{below, put};
use dist_state::shared_state::Shared;
use plex_base::NoMemory;
use sf_graph::{Forest, Leaf};
use std::alloc::Global;

/// For each word its number at its place, and 0 elsewhere.
pub(crate) fn word_numbers(
    alloc: Global,
    shared: &Shared,
    places: &[Vec<u32>],
) -> Result<Vec<Vec<u64>>, NoMemory>
    requires laid_out { IsLaidOut shared.now }
    requires words { AreAllWords shared.now (lists_of places.now) }
    ensures { IfOk result (λ numbers. lists_of numbers.items ≡ word_numbers shared.now (lists_of places.now)) }
{
    let mut numbers = Vec::with_capacity(alloc, places.len())?;
    for rank in 0..shared.ranks() {
        let own = &places[rank as usize];
        let mut at_places = vec![in alloc; 0u64; shared.points(rank) as usize]?;
        put(&mut at_places, own, &below(alloc, own.len())?);
        numbers.push(at_places)?;
    }
    Ok(numbers)
}

/// The forest of the words: its roots are the words, and the leaves of a rank are its faces and edges that
/// others own, by word.
pub(crate) fn word_forest(
    alloc: Global,
    shared: &Shared,
    places: &[Vec<u32>],
    numbers: &[Vec<u64>],
) -> Result<Forest, NoMemory>
    requires laid_out { IsLaidOut shared.now }
    requires words { AreAllWords shared.now (lists_of places.now) }
    requires shape { map length (lists_of numbers.now) ≡ shared.now.forest.roots }
    requires small { AllByRecursion (AllByRecursion (λ w. w < 2 ^ 32)) (lists_of numbers.now) }
    ensures { IfOk result (λ f. IsWordForest shared.now (lists_of places.now) (lists_of numbers.now) f) }
{
    for_ranks(shared);
    let roots = lengths(alloc, places)?;
    let mut leaves = Vec::with_capacity(alloc, shared.ranks() as usize)?;
    for rank in 0..shared.ranks() {
        leaves.push(word_leaves(alloc, shared, rank, &numbers[rank as usize])?)?;
    }
    made_of(alloc, roots, leaves)
}

/// The forest of these lists.
fn made_of(alloc: Global, roots: Vec<u32>, leaves: Vec<Vec<Leaf>>) -> Result<Forest, NoMemory>
    requires { IsForRanks (forest_of roots.items (lists_of leaves.items)) }
    ensures { IfOk result (λ f. f ≡ forest_of roots.items (lists_of leaves.items)) }
{
    Forest::new(alloc, roots, leaves).map_err(|_| NoMemory)
}

/// The forest of shared points is one for 1 to 64 ranks. Does nothing.
pub(crate) fn for_ranks(shared: &Shared)
    ensures { IsForRanks shared.now.forest }
{
    let _ranks = shared.forest().ranks();
}

/// How long lists are.
fn lengths(alloc: Global, lists: &[Vec<u32>]) -> Result<Vec<u32>, NoMemory>
    requires { AllByRecursion (λ list. length list < 2 ^ 32) (lists_of lists.now) }
    ensures { IfOk result (λ lengths. lengths.items ≡ map length (lists_of lists.now)) }
{
    let mut lengths = Vec::with_capacity(alloc, lists.len())?;
    for list in lists {
        lengths.push(list.len() as u32)?;
    }
    Ok(lengths)
}

/// The leaves of a rank by word.
fn word_leaves(
    alloc: Global,
    shared: &Shared,
    rank: u32,
    numbers: &[u64],
) -> Result<Vec<Leaf>, NoMemory>
    requires laid_out { IsLaidOut shared.now }
    requires rank { rank < length shared.now.parts }
    requires shape { length numbers.now ≡ length (part shared.now rank).sets }
    requires small { AllByRecursion (λ w. w < 2 ^ 32) numbers.now }
    ensures same { IfOk result (λ leaves. IsPermutation (leaves_found shared.now rank numbers.now) leaves.items) }
    ensures rising { IfOk result (λ leaves. IsNonDecreasingBy leaf_number leaves.items) }
{
    let mut leaves = leaves_found(alloc, shared, rank, numbers)?;
    leaves.sort_unstable_by_key(|leaf| {
        u64::from(leaf.rank) * 4294967296 + u64::from(leaf.index)
    });
    Ok(leaves)
}

/// The leaves of a rank by place.
fn leaves_found(
    alloc: Global,
    shared: &Shared,
    rank: u32,
    numbers: &[u64],
) -> Result<Vec<Leaf>, NoMemory>
    requires laid_out { IsLaidOut shared.now }
    requires rank { rank < length shared.now.parts }
    requires shape { length numbers.now ≡ length (part shared.now rank).sets }
    requires small { AllByRecursion (λ w. w < 2 ^ 32) numbers.now }
    ensures { IfOk result (λ leaves. leaves.items ≡ leaves_found shared.now rank numbers.now) }
{
    let first = first_face(shared, rank);
    let _points = shared.points(rank);
    let count = shared.local(rank).faces() + shared.local(rank).edges();
    let mut leaves = Vec::new(alloc);
    for k in 0..count {
        let place = first + k;
        match shared.forest().root_of(rank, place) {
            Some(root) => leaves.push(Leaf {
                local: place,
                rank: root.0,
                index: numbers[place as usize] as u32,
            })?,
            None => {}
        }
    }
    Ok(leaves)
}
