//! The least of the ranks' own twist keys.
ghost use Rattle.std.specs.Prelude.{◌≡◌, ℕ, List, map, IfOk};
ghost use Rattle.plain_lists.specs.Lists.{below};
ghost use Rattle.plain_lists.specs.Vectors.{lists_of};
ghost use Rattle.mesh_defs.specs.Mesh.{Mesh};
ghost use Rattle.mesh_defs.specs.Diagram.{twist_key};
ghost use Rattle.rank_defs.specs.Ranks.{least, IsAssignment};
ghost use Rattle.rank_laws.specs.orient_laws.Named.{own_twist};
ghost use Rattle.orient_iface.specs.iface_twist.Least.{number_of, numbers, own_asks, AreOwnKeys};

use plex_base::{NoMemory, PointKey};
use sf_fabric::{Ask, Fabric, Op, Tag};
use std::alloc::Global;

/// The least of the ranks' own keys, and `None` where no rank has one: the twist key of a mesh from the
/// twist keys of the ranks' own cells.
///
/// `own` has the key of each of 1 to 64 ranks, if it has one, below 2^64 - 1. One round is run, which is not
/// kept: each rank asks the least of one word. Fails only for want of memory.
pub fn least_twist<F: Fabric>(
    alloc: Global,
    own: &[Option<PointKey>],
    fabric: &mut F,
) -> Result<Option<PointKey>, NoMemory>
    requires { AreOwnKeys own.now }
    ensures least { IfOk result (λ key. number_of key ≡ least (numbers own.now)) }
    ensures twist { IfOk result (λ key. (m : Mesh) (n : ℕ) (a : List ℕ) → IsAssignment m n a → map number_of own.now ≡ map (own_twist m a) (below n) → number_of key ≡ twist_key m) }
    ensures kept { F.kept fabric.new ≡ F.kept fabric.old }
{
    let words = vec![in alloc; u64::MAX]?;
    let asks = all_asks(alloc, own)?;
    let round = fabric.run(Tag::Free, words, asks)?;
    let key = round.after()[0];
    if key == u64::MAX {
        Ok(None)
    } else {
        Ok(Some(PointKey(key)))
    }
}

/// What all ranks ask.
fn all_asks(alloc: Global, own: &[Option<PointKey>]) -> Result<Vec<Vec<Ask>>, NoMemory>
    ensures { IfOk result (λ asks. lists_of asks.items ≡ map own_asks own.now) }
{
    let mut asks = Vec::with_capacity(alloc, own.len())?;
    for key in own {
        asks.push(own_asks(alloc, *key)?)?;
    }
    Ok(asks)
}

/// What a rank asks: the least with its own key, and nothing where it has none.
fn own_asks(alloc: Global, key: Option<PointKey>) -> Result<Vec<Ask>, NoMemory>
    ensures { IfOk result (λ asks. asks.items ≡ own_asks key) }
{
    let mut asks = Vec::new(alloc);
    if let Some(key) = key {
        asks.push(Ask {
            word: 0,
            op: Op::Min,
            value: key.0,
        })?;
    }
    Ok(asks)
}
