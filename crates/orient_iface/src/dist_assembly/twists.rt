//! The own twists of ranks.

ghost use Rattle.std.specs.Prelude.{◌≡◌, ◌<◌, ℕ, List, map, filter_map, option_map, IfOk};
ghost use Rattle.plain_lists.specs.Lists.{below};
ghost use Rattle.std.specs.List.{AllByRecursion};
ghost use Rattle.mesh_defs.specs.Mesh.{Mesh};
ghost use Rattle.mesh_defs.specs.RightMesh.{IsRightMesh};
ghost use Rattle.plex_base.specs.declared.key.PointKey.{PointKey};
ghost use Rattle.rank_laws.specs.orient_laws.Named.{own_twist};
ghost use Rattle.rank_cones.specs.rank_drawings.Told.{AreDrawings};
ghost use Rattle.orient_iface.specs.dist_assembly.Drawn.{drawn_twist, twist_in};

use plex_base::{NoMemory, PointKey};
use rank_cones::Drawn;
use rank_cones::rank_drawings::Drawing;
use std::alloc::Global;

/// For each rank the least key of a face that one of its cells sees under no orientation, by what it
/// drew; `None` where it drew its diagram.
///
/// The least of them is the twist key of the mesh. Fails only for want of memory.
pub fn own_twists(alloc: Global, drawings: &[Drawing]) -> Result<Vec<Option<PointKey>>, NoMemory>
    ensures drawn { IfOk result (λ own. own.items ≡ map twist_in drawings.now) }
    ensures twists { IfOk result (λ own. (m : Mesh) (a : List ℕ) (n : ℕ) → AreDrawings m a n drawings.now → map (option_map (λ (key : PointKey). key.0)) own.items ≡ map (own_twist m a) (below n)) }
    ensures low { IfOk result (λ own. (m : Mesh) (a : List ℕ) (n : ℕ) → IsRightMesh m → AreDrawings m a n drawings.now → AllByRecursion (λ k. k < 18446744073709551615) (filter_map (option_map (λ (key : PointKey). key.0)) own.items)) }
{
    let mut own = Vec::with_capacity(alloc, drawings.len())?;
    for drawing in drawings {
        own.push(twist_of(drawing.drawn()))?;
    }
    Ok(own)
}

/// The twist that stopped a rank, if one did.
fn twist_of(drawn: &Drawn) -> Option<PointKey>
    ensures { result ≡ drawn_twist drawn.now }
{
    match drawn {
        Drawn::Whole(_) => None,
        Drawn::Twisted(key) => Some(*key),
    }
}
