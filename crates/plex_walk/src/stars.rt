//! The star of a point, level by level.
ghost use Rattle.std.specs.Prelude.{◌≡◌, ◌<◌, ◌≤◌, ◌↔◌, ◌++◌, ℕ, List, length, drop, flat_map, IfOk, OnOk};
ghost use Rattle.std.specs.List.{All, Contains};
ghost use Rattle.std.specs.List.Sorted.{IsStrictlyIncreasing};
ghost use Rattle.plex_defs.specs.Closure.{list_of};
ghost use Rattle.walk_defs.specs.Cones.{star_by_cones};
ghost use Rattle.plex_walk.specs.Supports.{supports_of};

use crate::support_lists::SupportLists;
use plex_base::NoMemory;
use plex_chart::Plex;
use std::alloc::Global;

/// The star of point `p`: the points that have it in their closure, rising, `p` among them
/// (`DMPlexGetTransitiveClosure` upwards). `s` are the supports of `x`.
///
/// It goes up the supports, and looks at no more points than the star has, each a few times.
pub fn star(alloc: Global, x: &Plex, s: &SupportLists, p: u32) -> Result<Vec<u32>, NoMemory>
    requires point { p < length x.now.points }
    requires made { s.now ≡ supports_of x.now }

    ensures { IfOk result (λ points. points.items ≡ star_by_cones x.now p) }
{
    let mut star = vec![in alloc; p]?;
    let mut last = 0;
    for level in 0..x.dim().number() {
        let next = star.len();
        add_supports(s, last, &mut star)?;
        last = next;
    }
    sort(&mut star);
    Ok(star)
}

/// Adds the supports of the points from `last` on, which are the last level.
fn add_supports(s: &SupportLists, last: usize, star: &mut Vec<u32>) -> Result<(), NoMemory>
    requires supports { All (λ (l : List ℕ). All (λ q. q < length s.now) l) s.now }
    requires points { All (λ q. q < length s.now) star.old.items }
    requires last { last ≤ length star.old.items }
    ensures value { OnOk result (star.new.items ≡ star.old.items ++ flat_map (list_of s.now) (drop last star.old.items)) }
    ensures points { OnOk result (All (λ q. q < length s.now) star.new.items) }
{
    for i in last..star.len() {
        let q = star[i];
        star.extend_from_slice(s.of(q))?;
    }
    Ok(())
}

/// Puts the points in rising order, each once.
fn sort(points: &mut Vec<u32>)
    ensures rises { IsStrictlyIncreasing points.new.items }
    ensures same { (q : ℕ) → Contains points.new.items q ↔ Contains points.old.items q }
{
    points.sort_unstable();
    points.dedup();
}
