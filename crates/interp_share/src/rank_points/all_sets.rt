//! The vertices of all points of a rank.
ghost use Rattle.std.specs.Prelude.{◌≡◌, ◌++◌, map, IfOk, OnOk};
ghost use Rattle.std.specs.List.{AllByRecursion};
ghost use Rattle.mesh_defs.specs.Points.{Sight};
ghost use Rattle.local_points.specs.Cells.{AreFit};
ghost use Rattle.interp_share.specs.rank_points.Seen.{cell_sights, part_sets, seen_of, sets_on, vertices_seen, IsSmall};

use crate::rank_points::seen::SeenPoints;
use crate::rank_points::sorting::push_sorted;
use dist_state::scatter_state::RankPart;
use local_points::LocalPoints;
use plex_base::NoMemory;
use sf_fabric::FlatLists;
use sf_fabric::flat_lists::ListsBuilder;
use std::alloc::Global;

/// The vertices, rising, of each point that a rank has: cells, vertices, faces, edges.
///
/// `seen` is what the rank sees of its cells (`see_points`). `NoMemory` comes for want of memory alone.
pub fn point_sets(
    alloc: Global,
    part: &RankPart,
    seen: &SeenPoints,
) -> Result<FlatLists<u32>, NoMemory>
    requires cells { AreFit part.now.cells }
    requires seen { seen.now ≡ seen_of part.now.cells }
    ensures { IfOk result (λ sets. sets ≡ part_sets part.now) }
{
    let mut sets = ListsBuilder::new(alloc)?;
    push_cells(&mut sets, part)?;
    push_vertices(&mut sets, part)?;
    push_faces(&mut sets, seen.local())?;
    push_edges(&mut sets, seen.local())?;
    Ok(sets.finish())
}

/// Puts the vertices of each cell behind the lists that are there.
fn push_cells(sets: &mut ListsBuilder<u32>, part: &RankPart) -> Result<(), NoMemory>
    requires { AreFit part.now.cells }
    ensures { OnOk result (sets.new ≡ sets.old ++ sets_on (cell_sights part.now.cells)) }
{
    for i in 0..part.cells().len() {
        push_sorted(sets, part.corners(i))?;
    }
    Ok(())
}

/// Puts each vertex behind the lists that are there.
fn push_vertices(sets: &mut ListsBuilder<u32>, part: &RankPart) -> Result<(), NoMemory>
    ensures { OnOk result (sets.new ≡ sets.old ++ sets_on (vertices_seen part.now.vertices)) }
{
    for vertex in part.vertices() {
        sets.push(&[*vertex])?;
    }
    Ok(())
}

/// Puts the vertices of each face behind the lists that are there.
fn push_faces(sets: &mut ListsBuilder<u32>, local: &LocalPoints) -> Result<(), NoMemory>
    requires { AllByRecursion IsSmall local.now.faces }
    ensures { OnOk result (sets.new ≡ sets.old ++ sets_on local.now.faces) }
{
    for k in 0..local.faces() {
        let (_, _, vertices) = local.face(k);
        push_sorted(sets, vertices)?;
    }
    Ok(())
}

/// Puts the vertices of each edge behind the lists that are there.
fn push_edges(sets: &mut ListsBuilder<u32>, local: &LocalPoints) -> Result<(), NoMemory>
    ensures { OnOk result (sets.new ≡ sets.old ++ sets_on local.now.edges) }
{
    for k in 0..local.edges() {
        let (_, ends) = local.edge(k);
        push_sorted(sets, &ends)?;
    }
    Ok(())
}
