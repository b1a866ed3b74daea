//! The closure of a point, level by level.
ghost use Rattle.std.specs.Prelude.{◌≡◌, ◌<◌, ◌≤◌, [], ◌∷◌, length, drop, flat_map, IfOk, OnOk};
ghost use Rattle.std.specs.List.{All};
ghost use Rattle.mesh_defs.specs.declared.ConeEntry.{ConeEntry as Entry};
ghost use Rattle.mesh_defs.specs.Tables.{facets_of};
ghost use Rattle.poly_orient.specs.Group.{IsOrientation};
ghost use Rattle.plex_chart.specs.Chart.{point_at, IsPlex};
ghost use Rattle.walk_defs.specs.Cones.{facet_by_cone, facets_by_cone, closure_by_cones};
ghost use Rattle.walk_defs.specs.Cones.{IsEntry};
ghost use Rattle.plex_walk.specs.Entries.{added};

use crate::entries::is_there;
use plex_base::NoMemory;
use plex_chart::{ConeEntry, Plex};
use poly_orient::{compose, cone_under};
use poly_tables::{dim, facet_count};
use std::alloc::Global;

/// The entries of the longest closure, that of a hexahedron.
const LONGEST: usize = 27;

/// The closure of point `p` under its orientation `o`: the point, and level by level its facets and
/// theirs, each point once and under the orientation in which it is seen first
/// (`DMPlexGetTransitiveClosure`). `o` is an orientation of the polytope of `p`.
///
/// A caller that takes many closures has [`closure_into`].
pub fn closure(alloc: Global, x: &Plex, p: u32, o: i8) -> Result<Vec<ConeEntry>, NoMemory>
    requires point { p < length x.now.points }
    requires orientation { IsOrientation (point_at x.now p).poly o }

    ensures value { IfOk result (λ entries. entries.items ≡ closure_by_cones x.now p o) }
    ensures within { IfOk result (λ entries. All (λ (e : Entry). e.point < length x.now.points) entries.items) }
{
    let mut entries = Vec::new(alloc);
    closure_into(x, p, o, &mut entries)?;
    Ok(entries)
}

/// The closure of point `p` under its orientation `o`, as [`closure`] answers it, in place of what
/// `to` held. Memory is taken only where `to` has no room for 27 entries, which are those of a
/// hexahedron, or for as many as the diagram has points.
pub fn closure_into(x: &Plex, p: u32, o: i8, to: &mut Vec<ConeEntry>) -> Result<(), NoMemory>
    requires point { p < length x.now.points }
    requires orientation { IsOrientation (point_at x.now p).poly o }

    ensures value { OnOk result (to.new.items ≡ closure_by_cones x.now p o) }
    ensures within { OnOk result (All (λ (e : Entry). e.point < length x.now.points) to.new.items) }
{
    to.clear();
    to.reserve(LONGEST.min(x.chart() as usize))?;
    to.push(ConeEntry { point: p, o })?;
    let mut last = 0;
    for level in 0..dim(x.poly_of(p)) {
        let next = to.len();
        add_level(x, last, to)?;
        last = next;
    }
    Ok(())
}

/// Adds the facets of the entries from `last` on, which are the last level.
fn add_level(x: &Plex, last: usize, to: &mut Vec<ConeEntry>) -> Result<(), NoMemory>
    requires plex { IsPlex x.now }
    requires entries { All (IsEntry x.now) to.old.items }
    requires last { last ≤ length to.old.items }
    ensures value { OnOk result (to.new.items ≡ added to.old.items (flat_map (facets_by_cone x.now) (drop last to.old.items))) }
    ensures entries { OnOk result (All (IsEntry x.now) to.new.items) }
{
    for i in last..to.len() {
        add_facets(x, to[i], to)?;
    }
    Ok(())
}

/// Adds the facets of an entry, but those of points that are there.
fn add_facets(x: &Plex, e: ConeEntry, to: &mut Vec<ConeEntry>) -> Result<(), NoMemory>
    requires plex { IsPlex x.now }
    requires entry { IsEntry x.now e }
    requires entries { All (IsEntry x.now) to.old.items }
    ensures value { OnOk result (to.new.items ≡ added to.old.items (facets_by_cone x.now e)) }
    ensures entries { OnOk result (All (IsEntry x.now) to.new.items) }
{
    for k in 0..facet_count(x.poly_of(e.point)) {
        add(facet_by_cone(x, e, k), to)?;
    }
    Ok(())
}

/// Adds an entry, unless its point is there.
fn add(e: ConeEntry, to: &mut Vec<ConeEntry>) -> Result<(), NoMemory>
    ensures { OnOk result (to.new.items ≡ added to.old.items (e ∷ [])) }
{
    if !is_there(e.point, to) {
        to.push(e)?;
    }
    Ok(())
}

/// What stands at facet k of an entry: the entry that its cone has there, under the orientation in
/// which it is seen.
#[tactic(auto, unfolding(walk_defs::specs::Cones::facet_by_cone))]
fn facet_by_cone(x: &Plex, e: ConeEntry, k: usize) -> ConeEntry
    requires plex { IsPlex x.now }
    requires entry { IsEntry x.now e }
    requires facet { k < length (facets_of (point_at x.now e.point).poly) }
    ensures value { result ≡ facet_by_cone x.now e k }
    ensures entry { IsEntry x.now result }
{
    let (facet, seen) = cone_under(x.poly_of(e.point), e.o, k);
    let covered = x.cone(e.point)[facet];
    let o = compose(x.poly_of(covered.point), seen, covered.o);
    ConeEntry {
        point: covered.point,
        o,
    }
}
