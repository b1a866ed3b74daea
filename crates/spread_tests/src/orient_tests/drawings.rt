ghost use Rattle.std.specs.Prelude.{IfOk};
ghost use Rattle.plain_lists.specs.Vectors.{lists_of};
ghost use Rattle.rank_cones.specs.rank_drawings.Told.{AreOfSomeMesh};
ghost use Rattle.spread_tests.specs.Some.{IsSomeShared};

use crate::orient_tests::held::{FIRST, Held, SECOND};
use crate::orient_tests::homes::check_alone;
use crate::orient_tests::meshes::{SECOND_FIRST, SHARED_EDGE, TWO_TRIANGLES};
use crate::orient_tests::readers::check_plex;
use crate::{TWO_CUBES, shared_of};
use dist_state::shared_state::Shared;
use mesh_defs::Poly;
use orient_iface::iface_arrangements::arrangements;
use orient_iface::iface_keys::home_keys;
use plex_base::{NoMemory, PointKey};
use rank_cones::Drawn;
use rank_cones::rank_drawings::{Drawing, draw_all};
use sf_fabric::Fabric;
use sf_fabric::script::ScriptFabric;
use std::alloc::Global;
use std::process::Abort;
use std::test::Fail;
use std::thread::Threads;

/// Keys and arrangements of each rank.
type Told = (Vec<Vec<u64>>, Vec<Vec<[u32; 4]>>);

/// The keys that ranks see, and how the cells of the keys see their faces and edges.
fn told<F: Fabric>(alloc: Global, shared: &Shared, fabric: &mut F) -> Result<Told, NoMemory>
    requires { IsSomeShared shared.now }
    ensures { IfOk result (λ r. AreOfSomeMesh shared.now (lists_of r.0.items) (lists_of r.1.items)) }
{
    let (keys, _home) = home_keys(alloc, shared, fabric)?;
    let all = arrangements(alloc, shared, &keys, fabric)?;
    Ok((keys, all))
}

/// Fills up the ends of an edge.
const NONE: u32 = 4294967295;

/// How the two ranks see the edges of the two triangles.
const SEEN: &[&[[u32; 4]]] = &[
    &[[1, 3, NONE, NONE], [3, 2, NONE, NONE], [1, 2, NONE, NONE]],
    &[[0, 1, NONE, NONE], [1, 2, NONE, NONE], [2, 0, NONE, NONE]],
];

/// The ranks have these arrangements.
fn check_seen(rt: &impl Abort, all: &[Vec<[u32; 4]>], seen: &[&[[u32; 4]]]) {
    assert_eq!(rt; all.len(), seen.len());
    for (own, expected) in all.iter().zip(seen) {
        assert_eq!(rt; own.as_slice(), *expected);
    }
}

#[test]
fn edges_are_seen_as_by_the_first_cell(rt: HostRuntime) -> Result<(), Fail> {
    let shared = shared_of(&rt, rt.alloc(), TWO_TRIANGLES, SECOND_FIRST)?;
    let mut fabric = ScriptFabric::new(Vec::new(rt.alloc()));
    let (_keys, all) = told(rt.alloc(), &shared, &mut fabric)?;
    check_seen(&rt, all.as_slice(), SEEN);
    check_alone(&rt, fabric.kept(), &SHARED_EDGE)
}

/// The drawings of the ranks of a mesh by a plan.
fn drawings_of<R: Threads + Sync>(
    rt: &R,
    alloc: Global,
    file: &str,
    plan: &str,
) -> Result<Vec<Drawing>, Fail> {
    let shared = shared_of(rt, alloc, file, plan)?;
    let mut fabric = ScriptFabric::new(Vec::new(alloc));
    let (keys, all) = told(alloc, &shared, &mut fabric)?;
    Ok(draw_all(rt, alloc, &shared, &keys, all)?)
}

/// Edges: the place of each among the edges of a rank, its key and its ends.
type Edges<'a> = &'a [(u32, u64, [u32; 2])];

const FIRST_EDGES: Edges<'static> = &[(0, 9, [1, 2]), (1, 72, [1, 3]), (2, 73, [3, 2])];

const SECOND_EDGES: Edges<'static> = &[(0, 8, [0, 1]), (1, 9, [1, 2]), (2, 10, [2, 0])];

/// A rank of the two triangles holds these edges, by key, and draws what it is to hold.
fn check_drawing(
    rt: &impl Abort,
    drawing: &Drawing,
    edges: Edges,
    held: &Held,
) -> Result<(), Fail> {
    let points = drawing.held();
    assert_eq!(rt; (points.faces(), points.edges()), (0, 3));
    for (k, key, ends) in edges {
        assert!(rt; *k < points.edges());
        assert_eq!(rt; points.edge(*k), (PointKey(*key), *ends));
    }
    match drawing.drawn() {
        Drawn::Whole(plex) => check_plex(rt, plex, held),
        Drawn::Twisted(_) => return Err(Fail::from("a twist")),
    }
    Ok(())
}

#[test]
fn ranks_draw_their_triangles(rt: HostRuntime) -> Result<(), Fail> {
    let drawings = drawings_of(&rt, rt.alloc(), TWO_TRIANGLES, SECOND_FIRST)?;
    let [first, second] = drawings.as_slice() else {
        return Err(Fail::from("not two ranks"));
    };
    check_drawing(&rt, first, FIRST_EDGES, &FIRST)?;
    check_drawing(&rt, second, SECOND_EDGES, &SECOND)
}

/// The lower cube gives the key of the common face and sees it; the upper one sees it under no orientation.
#[test]
fn a_rank_tells_its_twist(rt: HostRuntime) -> Result<(), Fail> {
    let drawings = drawings_of(&rt, rt.alloc(), TWO_CUBES, "ranks 2\npart 0 1\n")?;
    let [lower, upper] = drawings.as_slice() else {
        return Err(Fail::from("not two ranks"));
    };
    assert!(rt; matches!(lower.drawn(), Drawn::Whole(_)));
    assert!(rt; matches!(upper.drawn(), Drawn::Twisted(PointKey(65))));
    let points = upper.held();
    assert_eq!(rt; (points.faces(), points.edges()), (6, 12));
    let (key, poly, corners) = points.face(0);
    assert_eq!(rt; (key, poly), (PointKey(2), Poly::Quad));
    assert_eq!(rt; corners, [4, 5, 6, 7].as_slice());
    assert_eq!(rt; points.edge(0), (PointKey(13), [5, 6]));
    assert_eq!(rt; points.edge(1), (PointKey(15), [7, 4]));
    Ok(())
}
