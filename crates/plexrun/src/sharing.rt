//! What ranks share, found by the threads of this program.

use dist_seed::seed;
use interp_share::{Shared, share};
use mesh_check::{Mesh, accept};
use msh_reader::read_msh;
use plan_reader::{Plan, read_plan};
use sf_graph::Leaf;
use sf_threads::{NoGate, ThreadFabric};
use std::alloc::Global;
use std::process::Abort;
use std::test::Fail;

/// Three triangles (0, 1, 2), (0, 2, 3) and (2, 1, 4).
const MESH: &[u8] =
    b"$MeshFormat\n2.2 0 8\n$EndMeshFormat\n$Nodes\n5\n1 0 0 0\n2 1 0 0\n3 1 1 0\n4 0 1 0\n5 2 1 0\n$EndNodes\n$Elements\n3\n1 2 2 0 1 1 2 3\n2 2 2 0 1 1 3 4\n3 2 2 0 1 3 2 5\n$EndElements\n";

/// The first triangle on rank 0, the others on rank 1.
const PLAN: &[u8] = b"ranks 2\npart 0 1 1\n";

fn mesh(alloc: Global) -> Result<Mesh, Fail> {
    let content = read_msh(alloc, MESH).map_err(|_| Fail::from("the file is refused"))?;
    accept(alloc, content).map_err(|_| Fail::from("the mesh is refused"))
}

fn plan(alloc: Global) -> Result<Plan, Fail> {
    read_plan(alloc, PLAN).map_err(|_| Fail::from("the plan is refused"))
}

/// The leaves of rank 1, each on a point of rank 0. The edge (0, 1) has none, although rank 1 has both its
/// ends.
fn check_leaves(rt: &impl Abort, shared: &Shared) {
    let leaves = [(2, 1), (3, 2), (4, 3), (7, 6), (10, 5)];
    assert_eq!(rt; shared.forest().ranks(), 2);
    assert_eq!(rt; shared.forest().leaf_count(0), 0);
    assert_eq!(rt; shared.forest().leaf_count(1), 5);
    for (i, (local, index)) in leaves.iter().enumerate() {
        let leaf = Leaf {
            local: *local,
            rank: 0,
            index: *index,
        };
        assert_eq!(rt; shared.forest().leaf(1, i as u32), leaf);
    }
}

#[test]
fn three_triangles_meet_by_threads(rt: HostRuntime) -> Result<(), Fail> {
    let mesh = mesh(rt.alloc())?;
    let plan = plan(rt.alloc())?;
    plan.fits(mesh.cells())
        .map_err(|_| Fail::from("the plan does not fit"))?;
    for _ in 0..20 {
        let mut fabric = ThreadFabric::new(&rt, rt.alloc(), NoGate);
        let scatter = seed(&rt, rt.alloc(), &mesh, &plan, &mut fabric)?;
        let shared = share(&rt, rt.alloc(), scatter, &mut fabric)?;
        assert_eq!(rt; shared.ranks(), 2);
        assert_eq!(rt; (shared.points(0), shared.points(1)), (7, 13));
        check_leaves(&rt, &shared);
    }
    Ok(())
}
