//! The fields of one rank.

ghost use Rattle.std.specs.Prelude.{◌≡◌, ◌+◌, ◌<◌, ◌≤◌, ◌^◌, ◌++◌, length, IfOk, OnOk};
ghost use Rattle.std.specs.List.{AllByRecursion};
ghost use Rattle.plex_base.specs.Dim.{dim_number};
ghost use Rattle.dist_state.specs.scatter_state.Whole.{part_at};
ghost use Rattle.local_points.specs.Points.{local_points};
ghost use Rattle.interp_share.specs.own_field_laws.Own.{part_data, part_dim, part_dofs, part_sizes};
ghost use Rattle.interp_share.specs.part_fields.Ranks.{fields_with, AreLowWeights, IsOfSomeMesh};

use crate::rank_fields::{ChartSizes, data_field, dof_field};
use dist_state::scatter_state::{RankPart, Scatter};
use local_points::LocalPoints;
use plex_base::{Dim, NoMemory};
use plex_section::Field;
use poly_tables::dim;
use std::alloc::Global;

/// The fields of a rank's points, which have these weights. The weights are not looked at where there are
/// no `dofs`.
pub(crate) fn fields_of_rank(
    alloc: Global,
    scatter: &Scatter,
    rank: u32,
    local: &LocalPoints,
    weights: &[u64],
) -> Result<Vec<Field>, NoMemory>
    requires scatter { IsOfSomeMesh scatter.now }
    requires rank { rank < length scatter.now.parts }
    requires local { local.now ≡ local_points (part_at scatter.now.parts rank).cells }
    requires weights { 0 < length scatter.now.dofs → AreLowWeights (part_at scatter.now.parts rank) weights.now }
    ensures { IfOk result (λ all. all.items ≡ fields_with scatter.now (part_at scatter.now.parts rank) weights.now) }
{
    let part = scatter.part(rank);
    let sizes = sizes_of(part, local);
    let mut all = Vec::new(alloc);
    push_data(&mut all, alloc, scatter, rank, sizes)?;
    push_dofs(&mut all, alloc, scatter, rank, weights, sizes)?;
    Ok(all)
}

/// How many points of each kind a rank has.
fn sizes_of(part: &RankPart, local: &LocalPoints) -> ChartSizes
    requires local { local.now ≡ local_points part.now.cells }
    requires cells { length part.now.cells ≤ 250000 }
    requires vertices { length part.now.vertices ≤ 2000000 }
    ensures { result ≡ part_sizes part.now }
{
    ChartSizes {
        cells: part.cells().len() as u32,
        vertices: part.vertices().len() as u32,
        faces: local.faces(),
        edges: local.edges(),
    }
}

/// The dimension of a rank's cells; where it has none, that of a vertex.
fn dim_of_part(part: &RankPart) -> Dim
    ensures { dim_number result ≡ part_dim part.now }
{
    if part.cells().is_empty() {
        return Dim::Zero;
    }
    match dim(part.poly(0)) {
        0 => Dim::Zero,
        1 => Dim::One,
        2 => Dim::Two,
        _ => Dim::Three,
    }
}

/// The data sections on a rank's points.
fn push_data(
    all: &mut Vec<Field>,
    alloc: Global,
    scatter: &Scatter,
    rank: u32,
    sizes: ChartSizes,
) -> Result<(), NoMemory>
    requires scatter { IsOfSomeMesh scatter.now }
    requires rank { rank < length scatter.now.parts }
    requires sizes { sizes ≡ part_sizes (part_at scatter.now.parts rank) }
    requires few { sizes.cells + sizes.vertices + sizes.faces + sizes.edges < 2 ^ 32 }
    ensures { OnOk result (all.new.items ≡ all.old.items ++ part_data scatter.now.sections (part_at scatter.now.parts rank)) }
{
    // Each rank has rows of each section: the proof takes this from the call.
    let _ranks = scatter.ranks();
    for f in 0..scatter.sections() {
        let (on, _) = scatter.section(f);
        all.push(data_field(alloc, scatter.part(rank), f as usize, on, sizes)?)?;
    }
    Ok(())
}

/// The fields of `dofs` on a rank's points, which have these weights.
fn push_dofs(
    all: &mut Vec<Field>,
    alloc: Global,
    scatter: &Scatter,
    rank: u32,
    weights: &[u64],
    sizes: ChartSizes,
) -> Result<(), NoMemory>
    requires scatter { IsOfSomeMesh scatter.now }
    requires rank { rank < length scatter.now.parts }
    requires sizes { sizes ≡ part_sizes (part_at scatter.now.parts rank) }
    requires weights { 0 < length scatter.now.dofs → AreLowWeights (part_at scatter.now.parts rank) weights.now }
    ensures { OnOk result (all.new.items ≡ all.old.items ++ part_dofs scatter.now.dofs (part_at scatter.now.parts rank) weights.now) }
{
    let dim = dim_of_part(scatter.part(rank));
    for i in 0..scatter.dofs() {
        all.push(dof_field(alloc, weights, dim, scatter.dof(i), sizes)?)?;
    }
    Ok(())
}
