ghost use Rattle.std.specs.Prelude.{◌≡◌, length, IfOk};

use mesh_make::{Kind, make, most};
use plex_base::NoMemory;
use plex_mesh::{Mesh, Poly};
use std::alloc::Global;
use std::test::Fail;

/// One square, cut into two triangles.
fn square(alloc: Global) -> Result<Mesh, NoMemory>
    ensures at { IfOk result (λ mesh. length mesh.at ≡ 4) }
    ensures cells { IfOk result (λ mesh. length mesh.cells ≡ 2) }
{
    let mesh = make(alloc, Kind::Tri, 1)?;
    Ok(mesh)
}

#[test]
fn makes_two_triangles(rt: HostRuntime) -> Result<(), Fail> {
    let mesh = square(rt.alloc())?;
    assert_eq!(rt; (mesh.vertices(), mesh.cells()), (4, 2));
    assert_eq!(rt; mesh.at(3), [10_000_000_000, 10_000_000_000, 0]);
    assert_eq!(rt; mesh.cell_poly(1), Poly::Triangle);
    assert_eq!(rt; mesh.cell(0), [0, 1, 3].as_slice());
    assert_eq!(rt; mesh.cell(1), [0, 3, 2].as_slice());
    Ok(())
}

#[test]
fn says_the_greatest_sizes(rt: HostRuntime) -> Result<(), Fail> {
    assert_eq!(rt; most(Kind::Tri), 353);
    assert_eq!(rt; most(Kind::Quad), 500);
    assert_eq!(rt; most(Kind::Tet), 34);
    assert_eq!(rt; most(Kind::Hex), 62);
    Ok(())
}
