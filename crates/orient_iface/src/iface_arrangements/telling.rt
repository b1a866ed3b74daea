//! The arrangement of the cell of the key, from the rank that has that cell to all that have the point.

ghost use Rattle.std.specs.Prelude.{◌≡◌, ℕ, List, IfOk};
ghost use Rattle.plain_lists.specs.Vectors.{lists_of};
ghost use Rattle.mesh_defs.specs.Mesh.{Mesh};
ghost use Rattle.rank_cones.specs.arrangement_laws.Arrangements.{own_arrangements};
ghost use Rattle.orient_iface.specs.iface_arrangements.Keyed.{AreKeyed, AreSomeKeyed};

use crate::iface_arrangements::greatest::greatest_copies;
use crate::iface_arrangements::offers::offers;
use crate::iface_arrangements::ordered::all_ordered;
use dist_state::shared_state::Shared;
use plex_base::NoMemory;
use sf_fabric::Fabric;
use std::alloc::Global;

/// For each rank the vertices of each of its faces and then of its edges, in the order of the cell of the
/// point's key, with 4294967295 behind the last one up to four numbers: the exchange of
/// `DMPlexOrientInterface`.
///
/// `keys` has the key of each point that each rank sees, in the order of the rank's points. `shared` and
/// `keys` are of one mesh. No round is kept. Fails only for want of memory.
pub fn arrangements<F: Fabric>(
    alloc: Global,
    shared: &Shared,
    keys: &[Vec<u64>],
    fabric: &mut F,
) -> Result<Vec<Vec<[u32; 4]>>, NoMemory>
    requires { AreSomeKeyed shared.now (lists_of keys.now) }
    ensures arrangements { IfOk result (λ all. (m : Mesh) (dofs : List (List ℕ)) (a : List ℕ) (n : ℕ) → AreKeyed shared.now (lists_of keys.now) m dofs a n → lists_of all.items ≡ own_arrangements m a n) }
    ensures kept { F.kept fabric.new ≡ F.kept fabric.old }
{
    let own = offers(alloc, shared, keys)?;
    let orders = greatest_copies(alloc, shared.forest(), &own, fabric)?;
    all_ordered(alloc, shared, &orders)
}
