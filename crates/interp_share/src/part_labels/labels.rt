//! The labels of the points of a part.

ghost use Rattle.std.specs.Prelude.{◌≡◌, ℕ, ◌<◌, List, [], ◌∷◌, length, map, get_or, set, IfOk, OnOk};
ghost use Rattle.plain_lists.specs.Lists.{below};
ghost use Rattle.mesh_defs.specs.Mesh.{Mesh};
ghost use Rattle.plex_base.specs.Dim.{dim_number};
ghost use Rattle.plex_defs.specs.Labels.{with_pair};
ghost use Rattle.rank_defs.specs.Ranks.{assigned};
ghost use Rattle.rank_defs.specs.Spread.{own_chart, labels};
ghost use Rattle.local_points.specs.Points.{local_points};
ghost use Rattle.interp_share.specs.part_labels.Parts.{IsPartOf, IsSomePart, points_of_part, labels_from};

use crate::part_labels::cells::CellTable;
use crate::part_labels::places::marked_place;
use dist_state::scatter_state::RankPart;
use local_points::PointFinder;
use plex_base::{Dim, NoMemory};
use plex_label::Label;
use std::alloc::Global;

/// The labels of vertices, edges, faces and solids that a rank sees of its own cells, by the places of points in
/// its own chart: for each mark that it was given the mark's value on its point. After `DMLabelSetValue`.
///
/// The part is what some mesh gives to some rank, and `finder` finds the faces and edges of its cells. There are four
/// labels, of dimension 0 to 3. One look-up for each mark; the cells are found by their vertices only where a mark
/// is on a cell. Fails only for want of memory.
pub fn part_labels(
    alloc: Global,
    part: &RankPart,
    finder: &PointFinder,
) -> Result<Vec<Label>, NoMemory>
    requires given { IsSomePart part.now }
    requires local { finder.now ≡ local_points part.now.cells }
    ensures { IfOk result (λ found. (m : Mesh) (a : List ℕ) (n : ℕ) (r : ℕ) → IsPartOf part.now m a n r → found.items ≡ labels m (own_chart m (assigned m a r))) }
{
    let found = labels_of_marks(alloc, part, finder)?;
    Ok(found)
}

/// The same labels, by what the rank was given alone.
fn labels_of_marks(
    alloc: Global,
    part: &RankPart,
    finder: &PointFinder,
) -> Result<Vec<Label>, NoMemory>
    requires given { IsSomePart part.now }
    requires local { finder.now ≡ local_points part.now.cells }
    ensures { IfOk result (λ found. found.items ≡ labels_from (points_of_part part.now) part.now.marks) }
{
    let mut cells = CellTable::new(alloc);
    let mut found = no_labels(alloc)?;
    for i in 0..part.marks() as usize {
        if let Some(place) = marked_place(part, finder, &mut cells, i)? {
            let (dim, _, value) = part.mark(i);
            add_pair(&mut found, dim, place, value)?;
        }
    }
    Ok(found)
}

/// Four labels without pairs.
fn no_labels(alloc: Global) -> Result<Vec<Label>, NoMemory>
    ensures { IfOk result (λ found. found.items ≡ [] ∷ [] ∷ [] ∷ [] ∷ []) }
{
    let found = Vec::from_array(
        alloc,
        [
            Label::new(alloc),
            Label::new(alloc),
            Label::new(alloc),
            Label::new(alloc),
        ],
    )?;
    Ok(found)
}

/// Adds a pair of a point and a value to the label of its dimension.
fn add_pair(found: &mut Vec<Label>, dim: Dim, place: u32, value: i32) -> Result<(), NoMemory>
    requires { length found.old.items ≡ 4 }
    ensures { OnOk result (found.new.items ≡ set found.old.items (dim_number dim) (with_pair (get_or found.old.items (dim_number dim) []) (place, value))) }
{
    found[dim.number() as usize].add(place, value)?;
    Ok(())
}
