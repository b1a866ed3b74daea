//! The weight of each point of a rank by the rank's own cells.

ghost use Rattle.std.specs.Prelude.{◌≡◌, ℕ, ◌+◌, ◌*◌, ◌<◌, ◌≤◌, ◌^◌, List, length, slice_index, IfOk};
ghost use Rattle.std.specs.List.{AllByRecursion};
ghost use Rattle.mesh_defs.specs.Mesh.{Mesh};
ghost use Rattle.rank_defs.specs.Ranks.{assigned};
ghost use Rattle.local_points.specs.Points.{local_points};
ghost use Rattle.rank_chart_laws.specs.field_laws.Weights.{own_weights};
ghost use Rattle.rank_laws.specs.cell_laws.Cells.{IsAdded};
ghost use Rattle.interp_share.specs.own_field_laws.Own.{IsPartOf, IsSomePart, part_weights};
ghost use Rattle.interp_share.specs.part_weights.Places.{AreOfPart, AreWeights};

use crate::part_weights::places::list_places;
use dist_state::scatter_state::RankPart;
use local_points::LocalPoints;
use plex_base::NoMemory;
use std::alloc::Global;

/// For each point that a rank sees of its own cells, the sum of c + 1 over those cells that contain it,
/// where c is the cell's number in the whole mesh: cells first, then vertices, faces and edges, in the
/// order of the rank's own chart.
///
/// `part` is what a rank is given of a right mesh, and `local` has the faces and edges of its cells. Each
/// cell is gone over once. `NoMemory` comes for want of memory alone.
pub fn part_weights(
    alloc: Global,
    part: &RankPart,
    local: &LocalPoints,
) -> Result<Vec<u64>, NoMemory>
    requires part { IsSomePart part.now }
    requires local { local.now ≡ local_points part.now.cells }
    ensures part { IfOk result (λ weights. weights.items ≡ part_weights part.now) }
    ensures mesh { IfOk result (λ weights. (m : Mesh) (a : List ℕ) (n r : ℕ) → IsPartOf part.now m a n r → weights.items ≡ own_weights m (assigned m a r)) }
{
    sum_weights(alloc, part, local)
}

/// The same weights, cell by cell.
fn sum_weights(alloc: Global, part: &RankPart, local: &LocalPoints) -> Result<Vec<u64>, NoMemory>
    requires { AreOfPart part.now local.now }
    ensures { IfOk result (λ weights. AreWeights part.now (length part.now.cells) weights.items) }
{
    let cells = part.cells();
    let size = cells.len()
        + part.vertices().len()
        + local.faces() as usize
        + local.edges() as usize;
    let mut weights = vec![in alloc; 0u64; size]?;
    let mut places = Vec::new(alloc);
    for i in 0..cells.len() {
        list_places(&mut places, part, local, i)?;
        add_at(&mut weights, &places, u64::from(cells[i]) + 1);
    }
    Ok(weights)
}

/// Adds a value at each of these places.
fn add_at(weights: &mut Vec<u64>, places: &[u32], value: u64)
    requires places { AllByRecursion (λ k. k < length weights.old.items) places.now }
    requires room { (p : ℕ) → p < length weights.old.items → slice_index weights.old.items p + value * length places.now < 2 ^ 64 }
    ensures { IsAdded value places.now weights.old.items weights.new.items }
{
    for place in places {
        weights[*place as usize] += value;
    }
}
