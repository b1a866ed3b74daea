//! What the ranks know of their points, put together.
ghost use Rattle.std.specs.Prelude.{◌≡◌, ◌<◌, ℕ, List, length, IfOk};
ghost use Rattle.plain_lists.specs.Vectors.{lists_of};
ghost use Rattle.mesh_defs.specs.Mesh.{Mesh};
ghost use Rattle.rank_defs.specs.Spread.{IsScatter};
ghost use Rattle.dist_state.specs.scatter_state.Whole.{part_at};
ghost use Rattle.interp_share.specs.rank_points.Seen.{all_seen, part_sets, seen_of};
ghost use Rattle.interp_share.specs.Known.{AreAllFields, AreFields, AreKnown, AreListed, IsKnown};

use crate::part_labels::part_labels;
use crate::rank_points::SeenPoints;
use dist_state::shared_state::{OwnPoints, Scatter};
use plex_base::NoMemory;
use plex_section::Field;
use sf_fabric::FlatLists;
use std::alloc::Global;
use std::mem;

/// What each rank knows of its points, from what it sees, and the vertices and words of its points.
/// `NoMemory` comes for want of memory, also where a rank found none for its vertices.
pub(crate) fn all_points(
    alloc: Global,
    scatter: &Scatter,
    seen: Vec<SeenPoints>,
    mut sets: Vec<Option<FlatLists<u32>>>,
    mut fields: Vec<Vec<Field>>,
) -> Result<Vec<OwnPoints>, NoMemory>
    requires some { (m : Mesh) × (dofs : List (List ℕ)) × (a : List ℕ) × (n : ℕ) × IsScatter scatter.now m dofs a n }
    requires seen { seen.items ≡ all_seen scatter.now.parts }
    requires sets { AreListed scatter.now sets.items }
    requires fields { AreAllFields scatter.now (lists_of fields.items) }
    ensures { IfOk result (λ points. AreKnown scatter.now points.items) }
{
    // There are at most 64 ranks: the proof takes this from the call.
    let _ranks = scatter.ranks();
    let mut points = Vec::with_capacity(alloc, seen.len())?;
    for own in seen {
        let rank = points.len();
        let slot = &mut sets[rank];
        let own_sets = slot.take().ok_or(NoMemory)?;
        let words = mem::replace(&mut fields[rank], Vec::new(alloc));
        points.push(points_of(alloc, scatter, rank as u32, own, own_sets, words)?)?;
    }
    Ok(points)
}

/// What one rank knows of its points.
fn points_of(
    alloc: Global,
    scatter: &Scatter,
    rank: u32,
    seen: SeenPoints,
    sets: FlatLists<u32>,
    fields: Vec<Field>,
) -> Result<OwnPoints, NoMemory>
    requires some { (m : Mesh) × (dofs : List (List ℕ)) × (a : List ℕ) × (n : ℕ) × IsScatter scatter.now m dofs a n }
    requires rank { rank < length scatter.now.parts }
    requires seen { seen ≡ seen_of (part_at scatter.now.parts rank).cells }
    requires sets { sets ≡ part_sets (part_at scatter.now.parts rank) }
    requires fields { AreFields scatter.now rank fields.items }
    ensures { IfOk result (λ points. IsKnown scatter.now rank points) }
{
    let part = scatter.part(rank);
    let labels = part_labels(alloc, part, seen.finder())?;
    Ok(OwnPoints::of(seen.into_local(), sets, labels, fields))
}
