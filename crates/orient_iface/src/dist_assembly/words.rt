//! What a rank has on its points, in the order of its chart by keys.

ghost use Rattle.std.specs.Prelude.{◌≡◌, ◌^◌, ◌<◌, ℕ, ℤ, List, [], length, map, get_or, IfOk};
ghost use Rattle.std.specs.List.{AllByRecursion};
ghost use Rattle.plex_base.specs.declared.key.PointKey.{PointKey};
ghost use Rattle.dist_state.specs.shared_state.Points.{shared_at};
ghost use Rattle.rank_chart_laws.specs.moved_laws.Moves.{IsReordering, moved_list, moved_label};
ghost use Rattle.orient_iface.specs.dist_assembly.Drawn.{told_owner};

use crate::moved_points::{moved_field, moved_label};
use dist_state::shared_state::Shared;
use plex_base::{Dim, NoMemory, PointKey};
use plex_label::Label;
use plex_section::Field;
use std::alloc::Global;

/// The four labels, moved.
pub(crate) fn moved_labels(
    alloc: Global,
    shared: &Shared,
    rank: u32,
    moves: &[u32],
) -> Result<Vec<Label>, NoMemory>
    requires rank { rank < length shared.now.parts }
    requires four { length (shared_at shared.now.parts rank).labels ≡ 4 }
    requires marks { AllByRecursion (AllByRecursion (λ (pair : ℕ × ℤ). pair.0 < length moves.now)) (shared_at shared.now.parts rank).labels }
    requires few { length moves.now < 2 ^ 32 }
    ensures { IfOk result (λ labels. labels.items ≡ map (moved_label moves.now) (shared_at shared.now.parts rank).labels) }
{
    let mut labels = Vec::with_capacity(alloc, 4)?;
    labels.push(moved_label(alloc, shared.label(rank, Dim::Zero), moves)?)?;
    labels.push(moved_label(alloc, shared.label(rank, Dim::One), moves)?)?;
    labels.push(moved_label(alloc, shared.label(rank, Dim::Two), moves)?)?;
    labels.push(moved_label(alloc, shared.label(rank, Dim::Three), moves)?)?;
    Ok(labels)
}

/// The fields, moved.
pub(crate) fn moved_fields(
    alloc: Global,
    shared: &Shared,
    rank: u32,
    moves: &[u32],
) -> Result<Vec<Field>, NoMemory>
    requires rank { rank < length shared.now.parts }
    requires points { AllByRecursion (λ (field : List (List ℕ)). length field ≡ length moves.now) (shared_at shared.now.parts rank).fields }
    requires order { IsReordering moves.now }
    requires few { length moves.now < 2 ^ 32 }
    ensures { IfOk result (λ fields. fields.items ≡ map (moved_list [] moves.now) (shared_at shared.now.parts rank).fields) }
{
    let mut fields = Vec::with_capacity(alloc, shared.fields() as usize)?;
    for i in 0..shared.fields() {
        fields.push(moved_field(alloc, shared.field(rank, i), moves)?)?;
    }
    Ok(fields)
}

/// The keys of the points that come from these places.
pub(crate) fn keys_from(
    alloc: Global,
    keys: &[u64],
    sources: &[u32],
) -> Result<Vec<PointKey>, NoMemory>
    requires { AllByRecursion (λ from. from < length keys.now) sources.now }
    ensures { IfOk result (λ moved. map (λ (key : PointKey). key.0) moved.items ≡ map (λ from. get_or keys.now from 0) sources.now) }
{
    let mut moved = Vec::with_capacity(alloc, sources.len())?;
    for from in sources {
        moved.push(PointKey(keys[*from as usize]))?;
    }
    Ok(moved)
}

/// The owners of the points that come from these places: the rank of the root where a point is a leaf, and
/// this rank otherwise.
pub(crate) fn owners_from(
    alloc: Global,
    shared: &Shared,
    rank: u32,
    sources: &[u32],
) -> Result<Vec<u32>, NoMemory>
    requires { rank < length shared.now.forest.roots }
    ensures { IfOk result (λ owners. owners.items ≡ map (told_owner shared.now.forest rank) sources.now) }
{
    let mut owners = Vec::with_capacity(alloc, sources.len())?;
    for from in sources {
        let owner = match shared.forest().root_of(rank, *from) {
            Some(root) => root.0,
            None => rank,
        };
        owners.push(owner)?;
    }
    Ok(owners)
}

/// The coordinates of the vertices, which stay in their order.
pub(crate) fn coordinates(
    alloc: Global,
    shared: &Shared,
    rank: u32,
) -> Result<Vec<[i64; 3]>, NoMemory>
    requires rank { rank < length shared.now.parts }
    requires few { length (shared_at shared.now.parts rank).vertices < 2 ^ 32 }
    requires vertices { length (shared_at shared.now.parts rank).at ≡ length (shared_at shared.now.parts rank).vertices }
    ensures { IfOk result (λ at. at.items ≡ (shared_at shared.now.parts rank).at) }
{
    let count = shared.vertices(rank).len() as u32;
    let mut at = Vec::with_capacity(alloc, count as usize)?;
    for i in 0..count {
        at.push(shared.at(rank, i))?;
    }
    Ok(at)
}
