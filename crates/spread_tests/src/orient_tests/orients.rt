use crate::orient_tests::few_rounds::FewRounds;
use crate::orient_tests::held::{FIRST, SECOND};
use crate::orient_tests::homes::{Home, check_alone, check_home};
use crate::orient_tests::meshes::{SECOND_FIRST, SHARED_EDGE, TWO_TRIANGLES};
use crate::orient_tests::readers::check_rank;
use crate::seeds::PICKS;
use crate::{TWO_CUBES, shared_of, shared_over};
use orient_iface::{OrientFault, orient};
use plex_base::PointKey;
use sf_fabric::script::ScriptFabric;
use sf_fabric::{Fabric, Round};
use sf_graph::{Forest, Leaf};
use sf_threads::{NoGate, ThreadFabric};
use std::alloc::Global;
use std::process::Abort;
use std::test::Fail;
use std::thread::Threads;

/// Copies of v1, v2 and e9: the number of each among the leaves of rank 1, its place there, and its place on
/// rank 0.
const COPIES: &[(u32, u32, u32)] = &[(0, 2, 1), (1, 3, 2), (2, 5, 4)];

/// Ranks with how many points and copies they have.
const SIZES: &[(u32, u32, u32)] = &[(0, 7, 0), (1, 7, 3)];

/// The ranks have so many points and copies.
fn check_sizes(rt: &impl Abort, points: &Forest, sizes: &[(u32, u32, u32)]) {
    for (rank, roots, leaves) in sizes {
        assert!(rt; *rank < points.ranks());
        assert_eq!(rt; points.roots(*rank), *roots);
        assert_eq!(rt; points.leaf_count(*rank), *leaves);
    }
}

/// There are two ranks of that size, and the second one has these copies of points of the first one.
fn check_points(rt: &impl Abort, points: &Forest, copies: &[(u32, u32, u32)]) {
    assert_eq!(rt; points.ranks(), 2);
    check_sizes(rt, points, SIZES);
    for (i, local, index) in copies {
        check_copy(rt, points, *i, *local, *index);
    }
}

/// A leaf of rank 1 is this copy of a point of rank 0.
fn check_copy(rt: &impl Abort, points: &Forest, i: u32, local: u32, index: u32) {
    assert!(rt; 1 < points.ranks());
    assert!(rt; i < points.leaf_count(1));
    let leaf = Leaf {
        local,
        rank: 0,
        index,
    };
    assert_eq!(rt; points.leaf(1, i), leaf);
    assert_eq!(rt; points.root_of(1, local), Some((0, index)));
}

/// Why there is no distributed mesh.
fn fail_of(fault: OrientFault) -> Fail {
    match fault {
        OrientFault::Twist(_) => Fail::from("a twist"),
        OrientFault::NoMemory => Fail::from("no memory"),
    }
}

/// The two triangles are spread as by hand, and the home round is told.
fn check_orient<R: Threads + Sync + Abort, F: Fabric>(
    rt: &R,
    alloc: Global,
    fabric: &mut F,
) -> Result<(), Fail> {
    let shared = shared_over(rt, alloc, TWO_TRIANGLES, SECOND_FIRST, fabric)??;
    let (dist, round) = orient(rt, alloc, shared, fabric).map_err(fail_of)?;
    assert_eq!(rt; (dist.ranks(), dist.cells()), (2, 2));
    assert_eq!(rt; (dist.overlap(), dist.sections()), (0, 2));
    check_points(rt, dist.points(), COPIES);
    check_rank(rt, dist.local(0), &FIRST)?;
    check_rank(rt, dist.local(1), &SECOND)?;
    check_home(rt, &round, &SHARED_EDGE)
}

/// The two triangles are spread as by hand where a script makes these picks.
fn check_script<R: Threads + Sync + Abort>(
    rt: &R,
    alloc: Global,
    picks: &[u32],
) -> Result<(), Fail> {
    let mut fabric = ScriptFabric::new(Vec::from_slice(alloc, picks)?);
    check_orient(rt, alloc, &mut fabric)?;
    check_alone(rt, fabric.kept(), &SHARED_EDGE)
}

#[test]
fn two_triangles_in_any_order(rt: HostRuntime) -> Result<(), Fail> {
    check_script(&rt, rt.alloc(), &[])?;
    check_script(&rt, rt.alloc(), PICKS)
}

#[test]
fn two_triangles_by_threads(rt: HostRuntime) -> Result<(), Fail> {
    for _ in 0..20 {
        let mut fabric = ThreadFabric::new(&rt, rt.alloc(), NoGate);
        check_orient(&rt, rt.alloc(), &mut fabric)?;
        check_alone(&rt, fabric.kept(), &SHARED_EDGE)?;
    }
    Ok(())
}

/// Face 1 of the lower cube and face 0 of the upper one are (4, 5, 6, 7) and (4, 7, 5, 6), in no order of one
/// another; the sides that both have are (4, 7), edges 7 and 3, and (5, 6), edges 5 and 1.
#[test]
fn a_face_under_no_orientation(rt: HostRuntime) -> Result<(), Fail> {
    let home = Home {
        before: &[2, 15, 13],
        asked: &[65, 75, 73],
        after: &[2, 15, 13],
    };
    let shared = shared_of(&rt, rt.alloc(), TWO_CUBES, "ranks 2\npart 0 1\n")?;
    let mut fabric = ScriptFabric::new(Vec::new(rt.alloc()));
    match orient(&rt, rt.alloc(), shared, &mut fabric) {
        Err(OrientFault::Twist(key)) => assert_eq!(rt; key, PointKey(65)),
        Err(OrientFault::NoMemory) => return Err(Fail::from("no memory")),
        Ok(_) => return Err(Fail::from("no twist")),
    }
    check_alone(&rt, fabric.kept(), &home)
}

/// The rounds that are kept where so many go through, and whether there is a distributed mesh.
fn kept_of(rt: &impl Abort, kept: &[Round], rounds: u32) -> Result<(), Fail> {
    if rounds < 2 {
        assert_eq!(rt; kept.len(), 0);
        return Ok(());
    }
    check_alone(rt, kept, &SHARED_EDGE)
}

/// Numbers of words, the home round, keys, two rounds of arrangements and the least twist.
#[test]
fn each_round_may_find_no_memory(rt: HostRuntime) -> Result<(), Fail> {
    for rounds in 0..7 {
        let shared = shared_of(&rt, rt.alloc(), TWO_TRIANGLES, SECOND_FIRST)?;
        let inner = ScriptFabric::new(Vec::new(rt.alloc()));
        let mut fabric = FewRounds::new(inner, rounds);
        match orient(&rt, rt.alloc(), shared, &mut fabric) {
            Ok(_) => assert_eq!(rt; rounds, 6),
            Err(OrientFault::NoMemory) => assert!(rt; rounds < 6),
            Err(OrientFault::Twist(_)) => return Err(Fail::from("a twist")),
        }
        kept_of(&rt, fabric.inner().kept(), rounds)?;
    }
    Ok(())
}
