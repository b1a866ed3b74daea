//! Fields of dofs: word i of a point is i + 1 times the point's weight.

ghost use Rattle.std.specs.Prelude.{◌≡◌, ◌+◌, ◌<◌, ◌≤◌, ◌^◌, ◌++◌, length, map, IfOk};
ghost use Rattle.std.specs.List.{AllByRecursion};
ghost use Rattle.plex_base.specs.Dim.{dim_number};
ghost use Rattle.interp_share.specs.rank_fields.Words.{weighted_words};

use crate::rank_fields::builder::FieldBuilder;
use crate::rank_fields::sizes::ChartSizes;
use plex_base::{Dim, NoMemory};
use plex_section::Field;
use std::alloc::Global;

/// The words of all points of a rank's own chart, which have these weights: as many on a point as `dofs`
/// has for its dimension. The cells have dimension `dim`.
///
/// There is a weight for each point, below 2^40, and no count exceeds 16. `NoMemory` comes for want of
/// memory alone.
pub fn dof_field(
    alloc: Global,
    weights: &[u64],
    dim: Dim,
    dofs: [u32; 4],
    sizes: ChartSizes,
) -> Result<Field, NoMemory>
    requires many { length weights.now ≡ sizes.cells + sizes.vertices + sizes.faces + sizes.edges }
    requires low { AllByRecursion (λ w. w < 2 ^ 40) weights.now }
    requires few { AllByRecursion (λ n. n ≤ 16) dofs }
    ensures { IfOk result (λ field. field ≡ weighted_words sizes (dim_number dim) dofs weights.now) }
{
    let vertices = sizes.cells as usize + sizes.vertices as usize;
    let faces = vertices + sizes.faces as usize;
    let edges = faces + sizes.edges as usize;
    let mut field = FieldBuilder::new(alloc);
    field.push_multiples(
        alloc,
        &weights[..sizes.cells as usize],
        dofs[dim.number() as usize],
    )?;
    field.push_multiples(alloc, &weights[sizes.cells as usize..vertices], dofs[0])?;
    field.push_multiples(alloc, &weights[vertices..faces], dofs[2])?;
    field.push_multiples(alloc, &weights[faces..edges], dofs[1])?;
    field.finish(alloc)
}
