//! What the ranks draw once they know keys, and the twist on which they agree.

ghost use Rattle.std.specs.Prelude.{◌≡◌, ℕ, List, None, IfOk};
ghost use Rattle.std.specs.List.{AllByRecursion};
ghost use Rattle.plain_lists.specs.Vectors.{lists_of};
ghost use Rattle.mesh_defs.specs.Mesh.{Mesh};
ghost use Rattle.mesh_defs.specs.Diagram.{twist_key};
ghost use Rattle.rank_cones.specs.rank_drawings.Told.{AreDrawings};
ghost use Rattle.orient_iface.specs.dist_assembly.Drawn.{twist_in};
ghost use Rattle.orient_iface.specs.iface_twist.Least.{number_of};
ghost use Rattle.orient_iface.specs.iface_arrangements.Keyed.{AreKeyed, AreSomeKeyed};
ghost use Rattle.orient_iface.specs.Drawn.{AreOfMesh, AreOfSome};

use crate::dist_assembly::own_twists;
use crate::iface_arrangements::arrangements;
use crate::iface_twist::least_twist;
use dist_state::shared_state::Shared;
use plex_base::{NoMemory, PointKey};
use rank_cones::rank_drawings::{Drawing, draw_all};
use sf_fabric::Fabric;
use std::alloc::Global;
use std::thread::Threads;

/// What each rank draws, once it knows how the cells of the keys see its faces and edges.
pub(crate) fn drawings<R: Threads + Sync, F: Fabric>(
    rt: &R,
    alloc: Global,
    shared: &Shared,
    keys: &[Vec<u64>],
    fabric: &mut F,
) -> Result<Vec<Drawing>, NoMemory>
    requires { AreSomeKeyed shared.now (lists_of keys.now) }
    ensures drawings { IfOk result (λ ds. (m : Mesh) (dofs : List (List ℕ)) (a : List ℕ) (n : ℕ) → AreKeyed shared.now (lists_of keys.now) m dofs a n → AreDrawings m a n ds.items) }
    ensures kept { F.kept fabric.new ≡ F.kept fabric.old }
{
    let arranged = arrangements(alloc, shared, keys, fabric)?;
    draw_all(rt, alloc, shared, keys, arranged)
}

/// The least of the ranks' own twists, and `None` where each of them drew its diagram.
pub(crate) fn agreed_twist<F: Fabric>(
    alloc: Global,
    drawings: &[Drawing],
    fabric: &mut F,
) -> Result<Option<PointKey>, NoMemory>
    requires { AreOfSome drawings.now }
    ensures twist { IfOk result (λ key. (m : Mesh) (a : List ℕ) (n : ℕ) → AreOfMesh drawings.now m a n → number_of key ≡ twist_key m) }
    ensures whole { IfOk result (λ key. number_of key ≡ None → AllByRecursion (λ d. twist_in d ≡ None) drawings.now) }
    ensures kept { F.kept fabric.new ≡ F.kept fabric.old }
{
    let own = own_twists(alloc, drawings)?;
    least_twist(alloc, &own, fabric)
}
