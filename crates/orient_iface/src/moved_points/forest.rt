//! The forest of shared points of ranks that put their points in another order.

ghost use Rattle.std.specs.Prelude.{◌≡◌, ◌==◌, ◌<◌, ℕ, length, map, find, option_map, replicate, None, IfOk};
ghost use Rattle.plain_lists.specs.Lists.{below};
ghost use Rattle.plain_lists.specs.Vectors.{lists_of};
ghost use Rattle.sf_defs.specs.declared.Leaf.{Leaf};
ghost use Rattle.sf_defs.specs.Forest.{leaves_on};
ghost use Rattle.sf_graph.specs.Parts.{forest_of, IsForRanks};
ghost use Rattle.rank_chart_laws.specs.moved_laws.Moves.{moved_place, moves_on, moved_root, moved_leaves, moved_forest};
ghost use Rattle.orient_iface.specs.moved_points.Fitting.{FitMoves};

use plex_base::NoMemory;
use sf_graph::{Forest, Leaf};
use std::alloc::Global;

/// A forest of points after the points of each rank moved: on rank `r` point `p` went to place `moves[r][p]`. The
/// roots stay as many, and the leaves of a rank stand by rising place.
///
/// Every point is a root, and each rank has a move for each of its points. Fails only for want of memory.
pub fn moved_forest(alloc: Global, forest: &Forest, moves: &[Vec<u32>]) -> Result<Forest, NoMemory>
    requires { FitMoves (lists_of moves.now) forest.now }
    ensures { IfOk result (λ moved. moved ≡ moved_forest (lists_of moves.now) forest.now) }
{
    let mut roots = Vec::with_capacity(alloc, moves.len())?;
    let mut leaves = Vec::with_capacity(alloc, moves.len())?;
    for rank in 0..forest.ranks() {
        roots.push(forest.roots(rank))?;
        leaves.push(moved_leaves(alloc, forest, moves, rank)?)?;
    }
    made_of(alloc, roots, leaves)
}

/// The forest of these lists.
fn made_of(alloc: Global, roots: Vec<u32>, leaves: Vec<Vec<Leaf>>) -> Result<Forest, NoMemory>
    requires { IsForRanks (forest_of roots.items (lists_of leaves.items)) }
    ensures { IfOk result (λ f. f ≡ forest_of roots.items (lists_of leaves.items)) }
{
    Forest::new(alloc, roots, leaves).map_err(|_| NoMemory)
}

/// The leaves of a rank after its points moved, by rising place.
fn moved_leaves(
    alloc: Global,
    forest: &Forest,
    moves: &[Vec<u32>],
    rank: u32,
) -> Result<Vec<Leaf>, NoMemory>
    requires fit { FitMoves (lists_of moves.now) forest.now }
    requires rank { rank < length moves.now }
    ensures { IfOk result (λ leaves. leaves.items ≡ moved_leaves (lists_of moves.now) (moves_on (lists_of moves.now) rank) (leaves_on forest.now rank)) }
{
    let found = moved_roots(alloc, forest, moves, rank)?;
    let mut leaves = Vec::new(alloc);
    for local in 0..forest.roots(rank) {
        if let Some(root) = found[local as usize] {
            leaves.push(Leaf {
                local,
                rank: root.0,
                index: root.1,
            })?;
        }
    }
    Ok(leaves)
}

/// No root for each of so many places.
fn no_roots(alloc: Global, count: usize) -> Result<Vec<Option<(u32, u32)>>, NoMemory>
    ensures { IfOk result (λ found. found.items ≡ replicate count None) }
{
    let mut found = Vec::with_capacity(alloc, count)?;
    for _place in 0..count {
        found.push(None)?;
    }
    Ok(found)
}

/// For each place of a rank the root of the leaf that goes there, where its point went.
fn moved_roots(
    alloc: Global,
    forest: &Forest,
    moves: &[Vec<u32>],
    rank: u32,
) -> Result<Vec<Option<(u32, u32)>>, NoMemory>
    requires fit { FitMoves (lists_of moves.now) forest.now }
    requires rank { rank < length moves.now }
    ensures { IfOk result (λ found. found.items ≡ map (λ j. option_map (moved_root (lists_of moves.now)) (find (λ (l : Leaf). moved_place (moves_on (lists_of moves.now) rank) l.local == j) (leaves_on forest.now rank))) (below (length (moves_on (lists_of moves.now) rank)))) }
{
    let own = &moves[rank as usize];
    let mut found = no_roots(alloc, own.len())?;
    for i in 0..forest.leaf_count(rank) {
        let leaf = forest.leaf(rank, i);
        let place = own[leaf.local as usize] as usize;
        if found[place].is_none() {
            found[place] = Some((leaf.rank, moves[leaf.rank as usize][leaf.index as usize]));
        }
    }
    Ok(found)
}
