ghost use Rattle.std.specs.Prelude.{◌≡◌};

use crate::walk_tests::calls::{Closure, check_closures, check_stars, check_supports};
use mesh_defs::Poly;
use plex_base::{Dim, NoMemory};
use plex_chart::{ConeEntry, Plex, PlexBuilder};
use std::alloc::Global;
use std::test::Fail;

fn to(point: u32, o: i8) -> ConeEntry
    ensures { result ≡ record { point = point; o = o } }
{
    ConeEntry { point, o }
}

/// Two triangles that share the edge 7, which the second one sees against its sense.
fn two_triangles(alloc: Global) -> Result<Plex, NoMemory> {
    let mut builder = PlexBuilder::new(alloc, Dim::Two, 2, 4, 0, 5);
    builder.push(Poly::Triangle, &[to(6, 0), to(7, 0), to(8, 0)])?;
    builder.push(Poly::Triangle, &[to(9, 0), to(10, 0), to(7, -1)])?;
    builder.push(Poly::Vertex, &[])?;
    builder.push(Poly::Vertex, &[])?;
    builder.push(Poly::Vertex, &[])?;
    builder.push(Poly::Vertex, &[])?;
    builder.push(Poly::Segment, &[to(2, 0), to(3, 0)])?;
    builder.push(Poly::Segment, &[to(3, 0), to(4, 0)])?;
    builder.push(Poly::Segment, &[to(4, 0), to(2, 0)])?;
    builder.push(Poly::Segment, &[to(3, 0), to(5, 0)])?;
    builder.push(Poly::Segment, &[to(5, 0), to(4, 0)])?;
    builder.finish()
}

/// Points with their supports.
const SUPPORTS: &[(u32, &[u32])] = &[(7, &[0, 1]), (3, &[6, 7, 9]), (0, &[])];

/// Points with their stars.
const STARS: &[(u32, &[u32])] = &[(3, &[0, 1, 3, 6, 7, 9]), (1, &[1])];

const CLOSURES: &[Closure] = &[
    Closure {
        point: 1,
        o: -1,
        entries: &[(1, -1), (7, 0), (10, -1), (9, -1), (3, 0), (4, 0), (5, 0)],
    },
    Closure {
        point: 0,
        o: 0,
        entries: &[(0, 0), (6, 0), (7, 0), (8, 0), (2, 0), (3, 0), (4, 0)],
    },
    Closure {
        point: 1,
        o: 0,
        entries: &[(1, 0), (9, 0), (10, 0), (7, -1), (3, 0), (5, 0), (4, 0)],
    },
];

#[test]
fn walks_over_two_triangles(rt: HostRuntime) -> Result<(), Fail> {
    let x = two_triangles(rt.alloc())?;
    check_supports(&rt, rt.alloc(), &x, SUPPORTS)?;
    check_stars(&rt, rt.alloc(), &x, STARS)?;
    check_closures(&rt, rt.alloc(), &x, CLOSURES)
}
