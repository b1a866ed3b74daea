ghost use Rattle.std.specs.Prelude.{◌≡◌, length, IfOk};

use mesh_defs::Poly;
use plex_base::{Dim, NoMemory};
use plex_chart::{ConeEntry, Plex, PlexBuilder};
use std::alloc::Global;
use std::test::Fail;

fn to(point: u32, o: i8) -> ConeEntry
    ensures { result ≡ record { point = point; o = o } }
{
    ConeEntry { point, o }
}

/// One triangle, whose last edge goes against the sense in which the triangle sees it.
fn triangle(alloc: Global) -> Result<Plex, NoMemory>
    ensures { IfOk result (λ plex. length plex.points ≡ 7) }
{
    let mut builder = PlexBuilder::new(alloc, Dim::Two, 1, 3, 0, 3);
    builder.push(Poly::Triangle, &[to(4, 0), to(5, 0), to(6, -1)])?;
    builder.push(Poly::Vertex, &[])?;
    builder.push(Poly::Vertex, &[])?;
    builder.push(Poly::Vertex, &[])?;
    builder.push(Poly::Segment, &[to(1, 0), to(2, 0)])?;
    builder.push(Poly::Segment, &[to(2, 0), to(3, 0)])?;
    builder.push(Poly::Segment, &[to(1, 0), to(3, 0)])?;
    builder.finish()
}

#[test]
fn reads_a_triangle(rt: HostRuntime) -> Result<(), Fail> {
    let plex = triangle(rt.alloc())?;
    assert_eq!(rt; plex.dim(), Dim::Two);
    assert_eq!(rt; plex.chart(), 7);
    assert_eq!(rt; plex.stratum(Dim::Zero), 1..4);
    assert_eq!(rt; plex.stratum(Dim::One), 4..7);
    assert_eq!(rt; plex.stratum(Dim::Two), 0..1);
    assert_eq!(rt; plex.stratum(Dim::Three), 0..0);
    assert_eq!(rt; plex.poly_of(0), Poly::Triangle);
    assert_eq!(rt; plex.poly_of(3), Poly::Vertex);
    assert_eq!(rt; plex.poly_of(4), Poly::Segment);
    assert_eq!(rt; plex.cone(0), [to(4, 0), to(5, 0), to(6, -1)].as_slice());
    assert_eq!(rt; plex.cone(3), [].as_slice());
    assert_eq!(rt; plex.cone(6), [to(1, 0), to(3, 0)].as_slice());
    Ok(())
}
