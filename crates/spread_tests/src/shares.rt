use crate::meshes::{THREE_TRIANGLES, TWO_CUBES};
use crate::seeds::PICKS;
use crate::spreads::{shared_of, shared_over};
use crate::squares::squares;
use interp_share::Shared;
use plex_base::Dim;
use sf_fabric::Tag;
use sf_fabric::script::ScriptFabric;
use sf_graph::{Forest, Leaf};
use sf_tests::{NoFabric, RefusingFabric};
use sf_threads::{NoGate, ThreadFabric};
use std::alloc::Global;
use std::process::Abort;
use std::test::Fail;
use std::thread::Threads;

/// The first triangle on rank 0, the others on rank 1, and a field of one word at each vertex and two at
/// each cell.
const APART: &str = "ranks 2\npart 0 1 1\ndofs u 1 0 2 0\n";

/// How many points and leaves each rank has.
fn counts(shared: &Shared, rank: u32) -> (u32, u32) {
    if rank >= shared.ranks() || rank >= shared.forest().ranks() {
        return (0, 0);
    }
    (shared.points(rank), shared.forest().leaf_count(rank))
}

/// Ranks with how many points and leaves they have.
type Counts<'a> = &'a [(u32, (u32, u32))];

/// The ranks have so many points and leaves.
fn check_counts(rt: &impl Abort, shared: &Shared, expected: Counts) {
    for (rank, own) in expected {
        assert_eq!(rt; counts(shared, *rank), *own);
    }
}

/// What the two ranks have of the three triangles. The edge (0, 1) has no leaf, although rank 1 has both its ends.
const TRIANGLES: Counts<'static> = &[(0, (7, 0)), (1, (13, 5))];

/// The edges of rank 1, each behind its place.
const EDGES: &[(u32, &[u32])] = &[
    (7, &[0, 2]),
    (8, &[2, 3]),
    (9, &[0, 3]),
    (10, &[1, 2]),
    (11, &[1, 4]),
    (12, &[2, 4]),
];

/// The leaves of rank 1: the number of each, its place there, and the place of its root on rank 0.
const LEAVES: &[(u32, u32, u32)] = &[(0, 2, 1), (1, 3, 2), (2, 4, 3), (3, 7, 6), (4, 10, 5)];

/// Rank 1 has these points.
fn check_points(rt: &impl Abort, shared: &Shared, points: &[(u32, &[u32])]) {
    assert_eq!(rt; (shared.ranks(), shared.whole()), (2, 3));
    for (place, vertices) in points {
        assert!(rt; *place < shared.points(1));
        assert_eq!(rt; shared.set(1, *place), *vertices);
    }
}

/// Rank 1 has these leaves.
fn check_leaves(rt: &impl Abort, forest: &Forest, leaves: &[(u32, u32, u32)]) {
    assert!(rt; 1 < forest.ranks());
    for (i, local, index) in leaves {
        let leaf = Leaf {
            local: *local,
            rank: 0,
            index: *index,
        };
        assert!(rt; *i < forest.leaf_count(1));
        assert_eq!(rt; forest.leaf(1, *i), leaf);
    }
}

/// Both ranks have what they are to have of the three triangles.
fn check_three_triangles(rt: &impl Abort, shared: &Shared) {
    check_counts(rt, shared, TRIANGLES);
    check_points(rt, shared, EDGES);
    check_leaves(rt, shared.forest(), LEAVES);
}

/// Points meet where a script makes these picks.
fn check_script<R: Threads + Sync + Abort>(
    rt: &R,
    alloc: Global,
    picks: &[u32],
) -> Result<(), Fail> {
    let mut fabric = ScriptFabric::new(Vec::from_slice(alloc, picks)?);
    let shared = shared_over(rt, alloc, THREE_TRIANGLES, APART, &mut fabric)??;
    check_three_triangles(rt, &shared);
    assert_eq!(rt; fabric.kept().len(), 0);
    Ok(())
}

#[test]
fn points_meet_in_any_order(rt: HostRuntime) -> Result<(), Fail> {
    check_script(&rt, rt.alloc(), &[])?;
    check_script(&rt, rt.alloc(), PICKS)
}

#[test]
fn points_meet_by_threads(rt: HostRuntime) -> Result<(), Fail> {
    for _ in 0..20 {
        let mut fabric = ThreadFabric::new(&rt, rt.alloc(), NoGate);
        let shared = shared_over(&rt, rt.alloc(), THREE_TRIANGLES, APART, &mut fabric)??;
        check_three_triangles(&rt, &shared);
    }
    Ok(())
}

/// Values of points: the rank, the dimension, the place and the value.
type Values<'a> = &'a [(u32, Dim, u32, i32)];

/// The edge (1, 2) has the value 9 on both ranks; (0, 1) has 8 on rank 0 alone.
const VALUES: Values<'static> = &[
    (0, Dim::One, 5, 9),
    (1, Dim::One, 10, 9),
    (0, Dim::One, 4, 8),
    (0, Dim::Two, 0, 6),
    (1, Dim::Two, 0, 7),
];

/// Points of the two ranks have these values.
fn check_labels(rt: &impl Abort, shared: &Shared, values: Values) {
    assert_eq!(rt; shared.ranks(), 2);
    for (rank, dim, p, value) in values {
        assert!(rt; *rank < shared.ranks());
        assert!(rt; shared.label(*rank, *dim).has(*p, *value));
    }
    assert_eq!(rt; (shared.sections(), shared.fields()), (2, 3));
}

#[test]
fn labels_are_those_of_the_whole_mesh(rt: HostRuntime) -> Result<(), Fail> {
    let shared = shared_of(&rt, rt.alloc(), THREE_TRIANGLES, APART)?;
    check_labels(&rt, &shared, VALUES);
    Ok(())
}

/// Four vertices, the face, and two of its four sides.
const CUBES: Counts<'static> = &[(0, (27, 0)), (1, (27, 7))];

#[test]
fn a_face_is_shared_without_its_diagonals(rt: HostRuntime) -> Result<(), Fail> {
    let shared = shared_of(&rt, rt.alloc(), TWO_CUBES, "ranks 2\npart 0 1\n")?;
    check_counts(&rt, &shared, CUBES);
    Ok(())
}

/// A rank without cells has nothing.
const IN_TURN: Counts<'static> = &[(0, (36, 0)), (1, (36, 21)), (2, (0, 0))];

#[test]
fn ranks_take_squares_in_turn(rt: HostRuntime) -> Result<(), Fail> {
    let file = squares(rt.alloc(), 8)?;
    let plan = "ranks 3\npart 0 1 0 1 0 1 0 1\n";
    let shared = shared_of(&rt, rt.alloc(), file.as_str(), plan)?;
    check_counts(&rt, &shared, IN_TURN);
    Ok(())
}

#[test]
fn more_ranks_than_cells(rt: HostRuntime) -> Result<(), Fail> {
    let file = squares(rt.alloc(), 63)?;
    let shared = shared_of(&rt, rt.alloc(), file.as_str(), "ranks 64\npart block\n")?;
    let mut leaves = 0u32;
    for rank in 0..64 {
        let (points, own) = counts(&shared, rank);
        assert!(rt; points == 9 || points == 0);
        leaves = leaves.wrapping_add(own);
    }
    assert_eq!(rt; leaves, 186);
    Ok(())
}

#[test]
fn each_round_may_find_no_memory(rt: HostRuntime) -> Result<(), Fail> {
    let file = THREE_TRIANGLES;
    assert!(rt; shared_over(&rt, rt.alloc(), file, APART, &mut NoFabric)?.is_err());
    // One round gives vertices their owners, five let points meet, and two add up words.
    for rounds in 0..9 {
        let inner = ScriptFabric::new(Vec::new(rt.alloc()));
        let mut fabric = RefusingFabric::new(inner, Tag::Free, rounds);
        let shared = shared_over(&rt, rt.alloc(), file, APART, &mut fabric)?;
        assert_eq!(rt; shared.is_ok(), rounds == 8);
    }
    Ok(())
}
