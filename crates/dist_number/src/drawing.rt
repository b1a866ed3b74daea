//! The number round.
ghost use Rattle.std.specs.Prelude.{◌≡◌, ℕ, List, length, IfOk, OnErr};
ghost use Rattle.mesh_defs.specs.Mesh.{Mesh};
ghost use Rattle.sf_fabric.specs.Kept.{kept_with};
ghost use Rattle.rank_defs.specs.Home.{IsNumberRound};
ghost use Rattle.rank_defs.specs.Spread.{IsDist};
ghost use Rattle.dist_number.specs.Drawn.{drawn_in};

use crate::bases::Bases;
use crate::counts::sums_of;
use dist_state::Dist;
use plex_base::NoMemory;
use sf_fabric::{Fabric, Round, Tag};
use std::alloc::Global;

/// Runs the number round: each rank adds how many points it owns to one word, and what it fetched is
/// its base. So the ranks' numbers follow one after another, in the order in which the ranks came.
///
/// Answers the bases and the round, which is kept. Fails only for want of memory, and then no round
/// is kept.
pub fn number<F: Fabric>(
    alloc: Global,
    d: &Dist,
    fabric: &mut F,
) -> Result<(Bases, Round), NoMemory>
    // The round is the number round of every mesh and assignment for which the distribution stands.
    ensures round { IfOk result (λ r. (m : Mesh) (dofs : List (List ℕ)) (a : List ℕ) (n k : ℕ) → IsDist d.now m dofs a n k → IsNumberRound m a n r.1) }
    ensures bases { IfOk result (λ r. r.0 ≡ drawn_in r.1) }
    ensures count { IfOk result (λ r. length r.0.bases ≡ length d.now.locals) }

    ensures kept { IfOk result (λ r. F.kept fabric.new ≡ kept_with (F.kept fabric.old) r.1) }
    ensures no_memory { OnErr result (F.kept fabric.new ≡ F.kept fabric.old) }
{
    let bases = vec![in alloc; 0u64; d.ranks() as usize]?;
    let words = vec![in alloc; 0u64]?;
    let asks = sums_of(alloc, d)?;
    let round = fabric.run(Tag::Number, words, asks)?;
    Ok((Bases::of(bases, &round), round))
}
