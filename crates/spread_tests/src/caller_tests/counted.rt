use crate::TWO_CUBES;
use crate::spreads::{mesh_of, plan_of};
use cells_at_vertices::{OrientFault, VertexCount, VertexCounts, cells_at_vertices};
use plex_base::PointKey;
use sf_fabric::Fabric;
use sf_fabric::script::ScriptFabric;
use sf_threads::{NoGate, ThreadFabric};
use std::alloc::Global;
use std::process::Abort;
use std::test::Fail;
use std::thread::Threads;

/// Two triangles (0, 1, 2) and (1, 3, 2).
const TWO_TRIANGLES: &str =
    "$MeshFormat\n2.2 0 8\n$EndMeshFormat\n$Nodes\n4\n1 0 0 0\n2 1 0 0\n3 0 1 0\n4 1 1 0\n$EndNodes\n$Elements\n2\n1 2 2 0 1 1 2 3\n2 2 2 0 1 2 4 3\n$EndElements\n";

/// The first cell on rank 0, the second on rank 1.
const APART: &str = "ranks 2\npart 0 1\n";

/// The counts of the mesh of a file, or why there are none.
fn counted<R: Threads + Sync, F: Fabric>(
    rt: &R,
    alloc: Global,
    file: &str,
    plan: &str,
    fabric: &mut F,
) -> Result<Result<VertexCounts, OrientFault>, Fail> {
    let mesh = mesh_of(alloc, file)?;
    let plan = plan_of(alloc, plan)?;
    plan.fits(mesh.cells())
        .map_err(|_| Fail::from("the plan does not fit"))?;
    Ok(cells_at_vertices(rt, alloc, &mesh, &plan, fabric))
}

/// The counts, where there are some.
fn told(counts: Result<VertexCounts, OrientFault>) -> Result<VertexCounts, Fail> {
    match counts {
        Ok(counts) => Ok(counts),
        Err(OrientFault::Twist(_)) => Err(Fail::from("the mesh has a twist")),
        Err(OrientFault::NoMemory) => Err(Fail::from("no memory")),
    }
}

/// Vertices 1 and 2 are on both ranks, and both cells have them.
const COUNTS: &[(usize, &[(u64, u64)])] = &[
    (0, &[(0, 1), (1, 2), (2, 2)]),
    (1, &[(1, 2), (2, 2), (3, 1)]),
];

/// These two ranks count so.
fn check_two_triangles(
    rt: &impl Abort,
    counts: &VertexCounts,
    expected: &[(usize, &[(u64, u64)])],
) {
    assert_eq!(rt; counts.ranks(), 2);
    for (rank, own) in expected {
        assert!(rt; *rank < counts.ranks());
        check_rank(rt, counts.rank(*rank), own);
    }
}

/// A rank has these counts of vertices.
fn check_rank(rt: &impl Abort, found: &[VertexCount], own: &[(u64, u64)]) {
    assert_eq!(rt; found.len(), own.len());
    for (found, (vertex, cells)) in found.iter().zip(own) {
        let (vertex, cells) = (*vertex, *cells);
        assert_eq!(rt; *found, VertexCount { vertex, cells });
    }
}

/// The picks of the scripts.
const PICKS: &[&[u32]] = &[&[], &[1, 1, 1, 1, 0], &[0, 1, 0, 1]];

/// The two triangles are counted so where scripts make these picks.
fn check_scripts<R: Threads + Sync + Abort>(
    rt: &R,
    alloc: Global,
    picks: &[&[u32]],
) -> Result<(), Fail> {
    for picks in picks {
        let mut fabric = ScriptFabric::new(Vec::from_slice(alloc, picks)?);
        let counts = told(counted(rt, alloc, TWO_TRIANGLES, APART, &mut fabric)?)?;
        check_two_triangles(rt, &counts, COUNTS);
        // The home round alone is kept.
        assert_eq!(rt; fabric.kept().len(), 1);
    }
    Ok(())
}

#[test]
fn triangles_are_counted_by_scripts(rt: HostRuntime) -> Result<(), Fail> {
    check_scripts(&rt, rt.alloc(), PICKS)
}

#[test]
fn triangles_are_counted_by_threads(rt: HostRuntime) -> Result<(), Fail> {
    for _ in 0..20 {
        let mut fabric = ThreadFabric::new(&rt, rt.alloc(), NoGate);
        let counts = told(counted(&rt, rt.alloc(), TWO_TRIANGLES, APART, &mut fabric)?)?;
        check_two_triangles(&rt, &counts, COUNTS);
    }
    Ok(())
}

#[test]
fn a_rank_without_cells_has_no_vertices(rt: HostRuntime) -> Result<(), Fail> {
    let mut fabric = ScriptFabric::new(Vec::new(rt.alloc()));
    let plan = "ranks 3\npart 2 2\n";
    let counts = told(counted(&rt, rt.alloc(), TWO_TRIANGLES, plan, &mut fabric)?)?;
    assert_eq!(rt; counts.ranks(), 3);
    assert_eq!(rt; (counts.rank(0).len(), counts.rank(2).len()), (0, 4));
    assert_eq!(rt;
        counts.rank(2)[3],
        VertexCount {
            vertex: 3,
            cells: 1
        }
    );
    Ok(())
}

#[test]
fn a_twist_is_told(rt: HostRuntime) -> Result<(), Fail> {
    let mut fabric = ScriptFabric::new(Vec::new(rt.alloc()));
    match counted(&rt, rt.alloc(), TWO_CUBES, APART, &mut fabric)? {
        // Face 0 of cell 1.
        Err(OrientFault::Twist(key)) => assert_eq!(rt; key, PointKey::of_face(1, 0)),
        Err(OrientFault::NoMemory) => return Err(Fail::from("no memory")),
        Ok(_) => return Err(Fail::from("the twist is not told")),
    }
    Ok(())
}
