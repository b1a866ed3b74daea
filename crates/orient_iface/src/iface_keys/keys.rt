//! The keys of the points that ranks see.
ghost use Rattle.std.specs.Prelude.{◌≡◌, ◌⊎◌, ℕ, List, IfOk, OnErr};
ghost use Rattle.plain_lists.specs.Vectors.{lists_of};
ghost use Rattle.mesh_defs.specs.Mesh.{Mesh};
ghost use Rattle.sf_defs.specs.Rounds.{Round as Record};
ghost use Rattle.sf_fabric.specs.Kept.{kept_with};
ghost use Rattle.rank_defs.specs.Home.{IsHomeRound};
ghost use Rattle.rank_defs.specs.Spread.{IsShared};
ghost use Rattle.rank_chart_laws.specs.key_laws.Keys.{own_point_keys};

use crate::iface_keys::home::{key_round, spread_keys, told_numbers};
use crate::iface_keys::places::all_words;
use dist_state::shared_state::Shared;
use plex_base::NoMemory;
use sf_fabric::{Fabric, Round};
use std::alloc::Global;

/// The key of each point that each rank sees, in the order of the rank's points, and the home round in
/// which the ranks learned the keys of what they share.
///
/// The key of a cell is 64 times its place in the whole mesh, that of a vertex its position, and that of a
/// face or an edge the least under which any rank sees it. `shared` stands for some mesh. The home round is
/// kept, no other round is. Fails only for want of memory: then no round is kept but perhaps the home round.
pub fn home_keys<F: Fabric>(
    alloc: Global,
    shared: &Shared,
    fabric: &mut F,
) -> Result<(Vec<Vec<u64>>, Round), NoMemory>
    requires { (m : Mesh) × (dofs : List (List ℕ)) × (a : List ℕ) × (n : ℕ) × IsShared shared.now m dofs a n }

    // Of every mesh and assignment for which the points stand.
    ensures keys { IfOk result (λ r. (m : Mesh) (dofs : List (List ℕ)) (a : List ℕ) (n : ℕ) → IsShared shared.now m dofs a n → lists_of r.0.items ≡ own_point_keys m a n) }
    ensures round { IfOk result (λ r. (m : Mesh) (dofs : List (List ℕ)) (a : List ℕ) (n : ℕ) → IsShared shared.now m dofs a n → IsHomeRound m a n r.1) }

    ensures kept { IfOk result (λ r. F.kept fabric.new ≡ kept_with (F.kept fabric.old) r.1) }
    ensures no_memory { OnErr result ((F.kept fabric.new ≡ F.kept fabric.old) ⊎ ((r : Record) × ((m : Mesh) (dofs : List (List ℕ)) (a : List ℕ) (n : ℕ) → IsShared shared.now m dofs a n → IsHomeRound m a n r) × (F.kept fabric.new ≡ kept_with (F.kept fabric.old) r))) }
{
    let places = all_words(alloc, shared)?;
    let numbers = told_numbers(alloc, shared, &places, fabric)?;
    let (least, round) = key_round(alloc, shared, &places, &numbers, fabric)?;
    let keys = spread_keys(alloc, shared, &places, &least, fabric)?;
    Ok((keys, round))
}
