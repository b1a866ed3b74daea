//! The weights of the points of all ranks.

ghost use Rattle.std.specs.Prelude.{◌≡◌, length, map, IfOk};
ghost use Rattle.plain_lists.specs.Vectors.{lists_of};
ghost use Rattle.interp_share.specs.own_field_laws.Own.{part_weights};
ghost use Rattle.interp_share.specs.part_fields.Ranks.{AreNeeded, IsForestOf, IsOfSomeMesh, locals_of};

use crate::part_fields::locals::RankLocals;
use crate::part_weights::part_weights;
use dist_state::scatter_state::Scatter;
use plex_base::NoMemory;
use sf_fabric::Fabric;
use sf_graph::Forest;
use sf_ops::sums::sum_copies;
use std::alloc::Global;

/// For each rank the weights of its points over all cells of the mesh. Where no field asks for weights the
/// lists are empty, and no round runs.
pub(crate) fn needed_weights<L: RankLocals, F: Fabric>(
    alloc: Global,
    scatter: &Scatter,
    locals: &L,
    forest: &Forest,
    fabric: &mut F,
) -> Result<Vec<Vec<u64>>, NoMemory>
    requires shared { IsForestOf scatter.now forest.now }
    requires locals { L.locals locals.now ≡ locals_of scatter.now.parts }
    ensures weights { IfOk result (λ weights. AreNeeded scatter.now (lists_of weights.items)) }
    ensures kept { F.kept fabric.new ≡ F.kept fabric.old }
{
    if scatter.dofs() == 0 {
        return no_weights(alloc, scatter);
    }
    let own = own_weights(alloc, scatter, locals)?;
    sum_copies(alloc, forest, &own, fabric)
}

/// An empty list for each rank.
fn no_weights(alloc: Global, scatter: &Scatter) -> Result<Vec<Vec<u64>>, NoMemory>
    ensures { IfOk result (λ weights. length (lists_of weights.items) ≡ length scatter.now.parts) }
{
    let mut weights = Vec::with_capacity(alloc, scatter.ranks() as usize)?;
    for _rank in 0..scatter.ranks() {
        weights.push(Vec::new(alloc))?;
    }
    Ok(weights)
}

/// For each rank the weights of its points by its own cells.
fn own_weights<L: RankLocals>(
    alloc: Global,
    scatter: &Scatter,
    locals: &L,
) -> Result<Vec<Vec<u64>>, NoMemory>
    requires scatter { IsOfSomeMesh scatter.now }
    requires locals { L.locals locals.now ≡ locals_of scatter.now.parts }
    ensures { IfOk result (λ own. lists_of own.items ≡ map part_weights scatter.now.parts) }
{
    let mut own = Vec::with_capacity(alloc, scatter.ranks() as usize)?;
    for rank in 0..scatter.ranks() {
        own.push(part_weights(alloc, scatter.part(rank), locals.local(rank))?)?;
    }
    Ok(own)
}
