//! The last part of the distribution.

ghost use Rattle.std.specs.Prelude.{◌≡◌, ◌⊎◌, ℕ, List, Some, None, IfOk, IfErr};
ghost use Rattle.mesh_defs.specs.Mesh.{Mesh};
ghost use Rattle.mesh_defs.specs.Diagram.{twist_key};
ghost use Rattle.sf_defs.specs.Rounds.{Round as Record};
ghost use Rattle.sf_fabric.specs.Kept.{kept_with};
ghost use Rattle.rank_defs.specs.Home.{IsHomeRound};
ghost use Rattle.rank_defs.specs.Spread.{IsShared, IsDist};
ghost use Rattle.orient_iface.specs.iface_arrangements.Keyed.{AreSomeKeyed};
ghost use Rattle.plain_lists.specs.Vectors.{lists_of};
ghost use Rattle.orient_iface.specs.declared.orienting.OrientFault.TheVariants.{NoMemory as orient_no_memory};
ghost use Rattle.orient_iface.specs.Faults.{IsFault};
ghost use Rattle.orient_iface.specs.Drawn.{IsDistOfAll, IsTwistOfAll};

use crate::agreeing::{agreed_twist, drawings};
use crate::dist_assembly::assemble;
use crate::iface_keys::home_keys;
use dist_state::Dist;
use dist_state::shared_state::Shared;
use plex_base::{NoMemory, PointKey};
use sf_fabric::{Fabric, Round};
use std::alloc::Global;
use std::thread::Threads;

/// Why there is no distributed mesh.
#[derive(Clone, Copy, Debug, PartialEq, Eq)]
pub enum OrientFault {
    /// Some cell sees the face under this key under no orientation of the face. Of all such keys the least.
    Twist(PointKey),
    /// Memory is wanting.
    NoMemory,
}

impl From<NoMemory> for OrientFault {
    ghost from_gives = { λ _ fault. fault ≡ orient_no_memory };

    fn from(_: NoMemory) -> OrientFault {
        OrientFault::NoMemory
    }
}

/// The distributed mesh without overlap, and the home round: the last step of `DMPlexDistribute` with
/// `DMPlexOrientInterface`.
///
/// `s` stands for some mesh. Twist where a cell sees a face under no orientation, with the least key of all
/// ranks. The home round is kept, no other round is.
pub fn orient<R: Threads + Sync, F: Fabric>(
    rt: &R,
    alloc: Global,
    s: Shared,
    fabric: &mut F,
) -> Result<(Dist, Round), OrientFault>
    requires { (m : Mesh) × (dofs : List (List ℕ)) × (a : List ℕ) × (n : ℕ) × IsShared s m dofs a n }
    ensures dist { IfOk result (λ r. (m : Mesh) (dofs : List (List ℕ)) (a : List ℕ) (n : ℕ) → IsShared s m dofs a n → IsDist r.0 m dofs a n 0 × (twist_key m ≡ None) × IsHomeRound m a n r.1) }
    ensures kept { IfOk result (λ r. F.kept fabric.new ≡ kept_with (F.kept fabric.old) r.1) }
    ensures fault { IfErr result (λ fault. IsFault s (F.kept fabric.old) (F.kept fabric.new) fault) }
{
    let (keys, round) = home_keys(alloc, &s, fabric)?;
    let dist = oriented(rt, alloc, s, keys, fabric)?;
    Ok((dist, round))
}

/// The distributed mesh of what ranks share and the keys of what they see.
fn oriented<R: Threads + Sync, F: Fabric>(
    rt: &R,
    alloc: Global,
    shared: Shared,
    keys: Vec<Vec<u64>>,
    fabric: &mut F,
) -> Result<Dist, OrientFault>
    requires { AreSomeKeyed shared (lists_of keys.items) }
    ensures dist { IfOk result (λ dist. IsDistOfAll shared (lists_of keys.items) dist) }
    ensures twist { IfErr result (λ fault. IsTwistOfAll shared (lists_of keys.items) fault) }
    ensures kept { F.kept fabric.new ≡ F.kept fabric.old }
{
    let drawings = drawings(rt, alloc, &shared, &keys, fabric)?;
    match agreed_twist(alloc, &drawings, fabric)? {
        Some(key) => Err(OrientFault::Twist(key)),
        None => Ok(assemble(alloc, shared, drawings, keys)?),
    }
}
