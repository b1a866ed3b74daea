use crate::mesh_check_tests::files::{FIVE, file, mesh_of};
use mesh_check::Mesh;
use plex_base::Dim;
use std::process::Abort;
use std::test::Fail;

/// Two triangles, the second one written twice, a line on an edge, one on none, and a point.
const TWO_TRIANGLES: &str =
    "6\n1 2 2 6 1 1 2 3\n2 2 2 0 1 1 3 4\n3 2 2 7 1 3 4 1\n4 1 2 8 1 2 1\n5 1 2 9 1 2 4\n6 15 2 5 1 4\n";

fn check_counts(rt: &impl Abort, mesh: &Mesh) {
    assert_eq!(rt; mesh.vertices(), 4);
    assert_eq!(rt; mesh.cells(), 2);
    assert_eq!(rt; (mesh.unused(), mesh.loose(), mesh.merged()), (1, 1, 1));
    assert_eq!(rt; mesh.at(2), [10_000_000_000, 10_000_000_000, 0]);
    assert_eq!(rt; mesh.cell(1), [0, 2, 3].as_slice());
}

fn check_labels(rt: &impl Abort, mesh: &Mesh) {
    assert_eq!(rt; mesh.marks(), 4);
    let (dim, vertices, value) = mesh.mark(1);
    assert_eq!(rt; (dim, value), (Dim::Two, 7));
    assert_eq!(rt; vertices, [2, 3, 0].as_slice());
    let (dim, vertices, value) = mesh.mark(2);
    assert_eq!(rt; (dim, value), (Dim::One, 8));
    assert_eq!(rt; vertices, [1, 0].as_slice());
}

#[test]
fn counts_and_labels(rt: HostRuntime) -> Result<(), Fail> {
    let text = file(rt.alloc(), FIVE, TWO_TRIANGLES)?;
    let mesh = mesh_of(rt.alloc(), text.as_str())??;
    check_counts(&rt, &mesh);
    check_labels(&rt, &mesh);
    Ok(())
}
