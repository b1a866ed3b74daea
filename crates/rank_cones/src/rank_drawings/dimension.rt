//! The dimension of a mesh that ranks share.

ghost use Rattle.std.specs.Prelude.{◌≡◌, ◌<◌, ℕ, List, [], length};
ghost use Rattle.mesh_defs.specs.Mesh.{Mesh};
ghost use Rattle.rank_defs.specs.Spread.{IsShared};
ghost use Rattle.plex_base.specs.Dim.{dim_number};
ghost use Rattle.dist_state.specs.shared_state.Points.{shared_at};
ghost use Rattle.rank_cones.specs.rank_drawings.Told.{IsDimOf};

use dist_state::shared_state::Shared;
use plex_base::Dim;
use poly_tables::dim;

/// The dimension of the mesh: that of any cell of any rank. Without a cell there is no mesh.
pub(crate) fn dim_of_mesh(shared: &Shared) -> Dim
    ensures { (m : Mesh) (dofs : List (List ℕ)) (a : List ℕ) (n : ℕ) → IsShared shared.now m dofs a n → dim_number result ≡ m.dim }
{
    for rank in 0..shared.ranks() {
        if let Some(found) = dim_on(shared, rank) {
            return found;
        }
    }
    Dim::Zero
}

/// The dimension of a rank's first cell, if it has one.
fn dim_on(shared: &Shared, rank: u32) -> Option<Dim>
    requires { rank < length shared.now.parts }
    ensures { IsDimOf (shared_at shared.now.parts rank).cells result }
{
    if shared.cells(rank).is_empty() {
        return None;
    }
    let found = match dim(shared.poly(rank, 0)) {
        0 => Dim::Zero,
        1 => Dim::One,
        2 => Dim::Two,
        _ => Dim::Three,
    };
    Some(found)
}
