//! The fields of all ranks.

ghost use Rattle.std.specs.Prelude.{◌≡◌, ℕ, List, IfOk};
ghost use Rattle.plain_lists.specs.Vectors.{lists_of};
ghost use Rattle.mesh_defs.specs.Mesh.{Mesh};
ghost use Rattle.rank_defs.specs.Spread.{IsScatter};
ghost use Rattle.interp_share.specs.part_fields.Ranks.{IsForestOf, locals_of, mesh_fields};

use crate::part_fields::locals::RankLocals;
use crate::part_fields::one_rank::fields_of_rank;
use crate::part_fields::weights::needed_weights;
use dist_state::scatter_state::Scatter;
use plex_base::NoMemory;
use plex_section::Field;
use sf_fabric::Fabric;
use sf_graph::Forest;
use std::alloc::Global;

/// For each rank the words of the points that it sees of its own cells, in the order of its own chart: a
/// field for each data section, and then one for each line of `dofs`, as after `DMPlexDistributeField` and
/// with sections as after `PetscSection`.
///
/// `scatter` is a right mesh given to ranks, `locals` has the faces and edges of each rank's cells, and
/// `forest` the points that the ranks share. Word `i` of a point by `dofs` is `i + 1` times the sum of
/// c + 1 over all cells c of the mesh that contain the point. Rounds run only where there are `dofs`, and
/// none is kept. `NoMemory` comes for want of memory alone.
pub fn all_fields<L: RankLocals, F: Fabric>(
    alloc: Global,
    scatter: &Scatter,
    locals: &L,
    forest: &Forest,
    fabric: &mut F,
) -> Result<Vec<Vec<Field>>, NoMemory>
    requires shared { IsForestOf scatter.now forest.now }
    requires locals { L.locals locals.now ≡ locals_of scatter.now.parts }
    ensures fields { IfOk result (λ all. (m : Mesh) (dofs : List (List ℕ)) (a : List ℕ) (n : ℕ) → IsScatter scatter.now m dofs a n → lists_of all.items ≡ mesh_fields m dofs a n) }
    ensures kept { F.kept fabric.new ≡ F.kept fabric.old }
{
    let weights = needed_weights(alloc, scatter, locals, forest, fabric)?;
    let mut all = Vec::with_capacity(alloc, scatter.ranks() as usize)?;
    for rank in 0..scatter.ranks() {
        let own = &weights[rank as usize];
        all.push(fields_of_rank(alloc, scatter, rank, locals.local(rank), own)?)?;
    }
    Ok(all)
}
