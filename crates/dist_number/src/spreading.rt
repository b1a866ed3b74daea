//! Numbers of held points.
ghost use Rattle.std.specs.Prelude.{◌≡◌, ℕ, List, IfOk};
ghost use Rattle.mesh_defs.specs.Mesh.{Mesh};
ghost use Rattle.rank_defs.specs.Spread.{IsDist};
ghost use Rattle.walk_defs.specs.step_defs.Numbers.{held_numbers};
ghost use Rattle.dist_number.specs.Drawn.{AreDrawn};

use crate::bases::Bases;
use crate::numbers::Numbers;
use crate::places::numbers_at_owners;
use dist_state::Dist;
use plex_base::NoMemory;
use sf_fabric::Fabric;
use sf_ops::bcast;
use std::alloc::Global;

/// Gives each point that a rank holds its number: the base of its owner and its place among the points
/// that its owner owns. Owners number their points, and ghosts get the numbers by a broadcast over the
/// forest of shared points.
///
/// The bases are those of a legal number round of the distribution, as [`number`](crate::number)
/// answers them. No round is kept. Fails only for want of memory.
pub fn spread<F: Fabric>(
    alloc: Global,
    d: &Dist,
    bases: &Bases,
    fabric: &mut F,
) -> Result<Numbers, NoMemory>
    requires { AreDrawn d.now bases.now.bases }

    // The numbers are those of every mesh and assignment for which the distribution stands.
    ensures numbers { IfOk result (λ numbers. (m : Mesh) (dofs : List (List ℕ)) (a : List ℕ) (n k : ℕ) → IsDist d.now m dofs a n k → numbers ≡ held_numbers m a n k bases.now.bases) }
    ensures kept { F.kept fabric.new ≡ F.kept fabric.old }
{
    let own = numbers_at_owners(alloc, d, bases)?;
    let mut held = numbers_at_owners(alloc, d, bases)?;
    bcast(alloc, d.points(), &own, &mut held, fabric)?;
    Ok(Numbers::from_ranks(held))
}
