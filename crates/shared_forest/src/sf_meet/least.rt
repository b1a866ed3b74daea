//! The least ids of slots of one name.
ghost use Rattle.std.specs.Prelude.{◌≡◌, ◌<◌, ℕ, List, [], length, map, get_or, IfOk, OnOk};
ghost use Rattle.std.specs.HashMap as hash;
ghost use Rattle.plain_lists.specs.Vectors.{lists_of};
ghost use Rattle.sf_defs.specs.Forest.{IsForest};
ghost use Rattle.sf_graph.specs.Parts.{IsForRanks};
ghost use Rattle.sf_defs.specs.slots.Slots.{slot_counts};
ghost use Rattle.shared_forest.specs.sf_meet.Named.{same_name, ids_named, least_of, least_with, least_ids};
ghost use Rattle.shared_forest.specs.sf_meet.SlotRoots.{AreLeast};

use crate::sf_meet::slot_roots::slot_roots;
use plex_base::NoMemory;
use sf_graph::Forest;
use std::alloc::Global;
use std::collections::HashMap;

/// What a slot is called on its rank: the index of its root, and the key of its leaf.
type Name = (u32, [u64; 2]);

/// For each slot of each rank the least id of the slots of its root whose leaves have the same key.
pub(crate) fn least_on_ranks(
    alloc: Global,
    f: &Forest,
    firsts: &[Vec<u64>],
    seconds: &[Vec<u64>],
    ids: &[Vec<u64>],
) -> Result<Vec<Vec<u64>>, NoMemory>
    requires firsts { map length (lists_of firsts.now) ≡ slot_counts f.now }
    requires seconds { map length (lists_of seconds.now) ≡ slot_counts f.now }
    requires ids { map length (lists_of ids.now) ≡ slot_counts f.now }
    ensures right { OnOk result (IsForest f.now) }
    ensures for_ranks { OnOk result (IsForRanks f.now) }
    ensures count { IfOk result (λ least. length least.items ≡ length f.now.roots) }
    ensures least { IfOk result (λ least. (rank : ℕ) → rank < length f.now.roots → AreLeast f.now rank (get_or (lists_of firsts.now) rank []) (get_or (lists_of seconds.now) rank []) (get_or (lists_of ids.now) rank []) (get_or (lists_of least.items) rank [])) }
{
    let mut least = Vec::with_capacity(alloc, f.ranks() as usize)?;
    for rank in 0..f.ranks() {
        let roots = slot_roots(alloc, f, rank)?;
        let own = rank as usize;
        least.push(least_ids(alloc, &roots, &firsts[own], &seconds[own], &ids[own])?)?;
    }
    Ok(least)
}

/// For each slot of a rank the least id of those of its name.
fn least_ids(
    alloc: Global,
    roots: &[u32],
    firsts: &[u64],
    seconds: &[u64],
    ids: &[u64],
) -> Result<Vec<u64>, NoMemory>
    requires roots { length roots.now ≡ length ids.now }
    requires firsts { length firsts.now ≡ length ids.now }
    requires seconds { length seconds.now ≡ length ids.now }
    ensures { IfOk result (λ least. least.items ≡ least_ids roots.now firsts.now seconds.now ids.now) }
{
    let by_name = least_by_name(alloc, roots, firsts, seconds, ids)?;
    let mut least = Vec::with_capacity(alloc, ids.len())?;
    for s in 0..ids.len() {
        let name = (roots[s], [firsts[s], seconds[s]]);
        least.push(least_with(&by_name, &name, ids[s]))?;
    }
    Ok(least)
}

/// The least id of each name.
fn least_by_name(
    alloc: Global,
    roots: &[u32],
    firsts: &[u64],
    seconds: &[u64],
    ids: &[u64],
) -> Result<HashMap<Name, u64>, NoMemory>
    requires roots { length roots.now ≡ length ids.now }
    requires firsts { length firsts.now ≡ length ids.now }
    requires seconds { length seconds.now ≡ length ids.now }
    ensures { IfOk result (λ by_name. (name : ℕ × List ℕ) → hash.get same_name by_name name ≡ least_of (ids_named roots.now firsts.now seconds.now ids.now (length ids.now) name)) }
{
    let mut by_name: HashMap<Name, u64> = HashMap::new(alloc);
    for s in 0..ids.len() {
        let name = (roots[s], [firsts[s], seconds[s]]);
        let least = least_with(&by_name, &name, ids[s]);
        by_name.insert(name, least)?;
    }
    Ok(by_name)
}

/// The lesser of an id and the one of this name, if there is one.
fn least_with(by_name: &HashMap<Name, u64>, name: &Name, id: u64) -> u64
    ensures { result ≡ least_with (hash.get same_name by_name.now name.now) id }
{
    match by_name.get(name) {
        Some(least) => (*least).min(id),
        None => id,
    }
}
