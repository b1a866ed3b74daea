use crate::spreads::shared_of_mesh;
use crate::walk_tests::calls::{Closure, check_closures, check_stars, check_supports};
use dist_state::Dist;
use mesh_check::Mesh;
use mesh_make::{Kind, make};
use orient_iface::{OrientFault, orient};
use plan_reader::Plan;
use sf_fabric::script::ScriptFabric;
use std::alloc::Global;
use std::test::Fail;
use std::thread::Threads;

/// A generated mesh on one rank.
fn spread<R: Threads + Sync>(rt: &R, alloc: Global, mesh: &Mesh) -> Result<Dist, Fail> {
    let plan = Plan::plain(alloc)?;
    let mut fabric = ScriptFabric::new(Vec::new(alloc));
    let shared = shared_of_mesh(rt, alloc, mesh, &plan, &mut fabric)??;
    match orient(rt, alloc, shared, &mut fabric) {
        Ok((dist, _)) => Ok(dist),
        Err(OrientFault::NoMemory) => Err(Fail::from("no memory")),
        Err(OrientFault::Twist(_)) => Err(Fail::from("a twist")),
    }
}

/// The generated mesh of one cube on one rank.
fn cube<R: Threads + Sync>(rt: &R, alloc: Global, kind: Kind) -> Result<Dist, Fail> {
    let mesh = make(alloc, kind, 1)?;
    spread(rt, alloc, &mesh)
}

/// Closures of a hexahedron. Faces have a cell's sense and order where it sees them first, and so have edges.
const HEXAHEDRON: &[Closure] = &[
    Closure {
        point: 0,
        o: 0,
        entries: &[
            (0, 0),
            (9, 0),
            (10, 0),
            (11, 0),
            (12, 0),
            (13, 0),
            (14, 0),
            (18, -1),
            (17, -1),
            (16, -1),
            (15, -1),
            (19, 0),
            (20, 0),
            (21, 0),
            (22, 0),
            (24, 0),
            (23, -1),
            (25, 0),
            (26, 0),
            (1, 0),
            (3, 0),
            (4, 0),
            (2, 0),
            (5, 0),
            (6, 0),
            (8, 0),
            (7, 0),
        ],
    },
    Closure {
        point: 0,
        o: 1,
        entries: &[
            (0, 1),
            (14, 1),
            (12, 0),
            (9, 0),
            (13, 1),
            (10, 3),
            (11, 3),
            (23, 0),
            (22, -1),
            (26, -1),
            (18, 0),
            (16, 0),
            (25, 0),
            (20, -1),
            (24, -1),
            (17, -1),
            (15, -1),
            (21, -1),
            (19, 0),
            (1, 0),
            (5, 0),
            (7, 0),
            (3, 0),
            (2, 0),
            (4, 0),
            (8, 0),
            (6, 0),
        ],
    },
    Closure {
        point: 0,
        o: -2,
        entries: &[
            (0, -2),
            (9, -1),
            (10, -1),
            (14, -2),
            (13, -2),
            (12, -2),
            (11, -2),
            (15, 0),
            (16, 0),
            (17, 0),
            (18, 0),
            (22, -1),
            (21, -1),
            (20, -1),
            (19, -1),
            (26, 0),
            (23, -1),
            (25, 0),
            (24, 0),
            (1, 0),
            (2, 0),
            (4, 0),
            (3, 0),
            (5, 0),
            (7, 0),
            (8, 0),
            (6, 0),
        ],
    },
    Closure {
        point: 0,
        o: -24,
        entries: &[
            (0, -24),
            (13, -3),
            (11, -4),
            (10, -4),
            (12, -3),
            (9, -3),
            (14, -1),
            (26, -1),
            (17, -1),
            (25, 0),
            (21, 0),
            (19, 0),
            (24, -1),
            (15, -1),
            (23, 0),
            (20, -1),
            (22, -1),
            (16, -1),
            (18, 0),
            (7, 0),
            (3, 0),
            (4, 0),
            (8, 0),
            (5, 0),
            (6, 0),
            (2, 0),
            (1, 0),
        ],
    },
    Closure {
        point: 10,
        o: -2,
        entries: &[
            (10, -2),
            (19, -1),
            (22, -1),
            (21, -1),
            (20, -1),
            (6, 0),
            (5, 0),
            (7, 0),
            (8, 0),
        ],
    },
];

#[test]
fn closures_of_a_hexahedron(rt: HostRuntime) -> Result<(), Fail> {
    let dist = cube(&rt, rt.alloc(), Kind::Hex)?;
    assert_eq!(rt; dist.ranks(), 1);
    check_closures(&rt, rt.alloc(), dist.local(0).plex(), HEXAHEDRON)
}

/// Closures of six tetrahedra, around the edge 35 from corner to corner.
const TETRAHEDRA: &[Closure] = &[
    Closure {
        point: 0,
        o: 0,
        entries: &[
            (0, 0),
            (14, 0),
            (15, 0),
            (16, 0),
            (17, 0),
            (34, -1),
            (33, -1),
            (32, -1),
            (36, 0),
            (35, -1),
            (37, 0),
            (6, 0),
            (9, 0),
            (7, 0),
            (13, 0),
        ],
    },
    Closure {
        point: 1,
        o: 5,
        entries: &[
            (1, 5),
            (19, 0),
            (15, 1),
            (20, 1),
            (18, 2),
            (38, 0),
            (40, 0),
            (36, -1),
            (35, -1),
            (32, 0),
            (39, 0),
            (7, 0),
            (11, 0),
            (13, 0),
            (6, 0),
        ],
    },
    Closure {
        point: 3,
        o: -1,
        entries: &[
            (3, -1),
            (22, -1),
            (24, -1),
            (25, -1),
            (26, -1),
            (35, 0),
            (43, -1),
            (41, -1),
            (44, 0),
            (45, 0),
            (46, -1),
            (6, 0),
            (13, 0),
            (8, 0),
            (12, 0),
        ],
    },
    Closure {
        point: 5,
        o: -12,
        entries: &[
            (5, -12),
            (26, -2),
            (31, -3),
            (30, -2),
            (28, -3),
            (35, -1),
            (45, -1),
            (46, 0),
            (50, -1),
            (49, 0),
            (47, 0),
            (13, 0),
            (6, 0),
            (12, 0),
            (10, 0),
        ],
    },
];

/// Points of the tetrahedra with their supports.
const SUPPORTS: &[(u32, &[u32])] = &[(15, &[0, 1]), (36, &[15, 16, 19])];

/// Points of the tetrahedra with their stars.
const STARS: &[(u32, &[u32])] = &[
    (14, &[0, 14]),
    (7, &[0, 1, 7, 14, 15, 16, 18, 19, 32, 33, 36, 38]),
];

#[test]
fn walks_over_tetrahedra(rt: HostRuntime) -> Result<(), Fail> {
    let dist = cube(&rt, rt.alloc(), Kind::Tet)?;
    assert_eq!(rt; dist.ranks(), 1);
    let x = dist.local(0).plex();
    check_closures(&rt, rt.alloc(), x, TETRAHEDRA)?;
    check_supports(&rt, rt.alloc(), x, SUPPORTS)?;
    check_stars(&rt, rt.alloc(), x, STARS)
}
