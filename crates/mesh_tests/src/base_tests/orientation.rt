ghost use Rattle.std.specs.Prelude.{◌≡◌, ◌≤◌, length};
ghost use Rattle.mesh_defs.specs.Tables.{corner_count};

use poly_orient::{Poly, act, compose, cone_under, inverse, orientations, relative};
use poly_tables::{facet_count, vertex_count};
use std::process::Abort;

/// What the corners 0, 1, 2 and so on become under an orientation, in the first places of a list.
fn list_corners(rt: &impl Abort, p: Poly, o: i8) -> [u32; 8] {
    let (least, greatest) = orientations(p);
    assert!(rt; least <= o && o <= greatest);
    let corners = [0, 1, 2, 3, 4, 5, 6, 7];
    let mut to = [9; 8];
    let count = vertex_count(p);
    act(p, o, &corners[..count], &mut to[..count]);
    to
}

/// Lists of at most four corners, those past the polytope's own being 9.
const POLYGONS: [(Poly, i8, [u32; 4]); 17] = [
    (Poly::Vertex, 0, [0, 9, 9, 9]),
    (Poly::Segment, 0, [0, 1, 9, 9]),
    (Poly::Segment, -1, [1, 0, 9, 9]),
    (Poly::Triangle, 0, [0, 1, 2, 9]),
    (Poly::Triangle, 1, [1, 2, 0, 9]),
    (Poly::Triangle, 2, [2, 0, 1, 9]),
    (Poly::Triangle, -1, [0, 2, 1, 9]),
    (Poly::Triangle, -2, [1, 0, 2, 9]),
    (Poly::Triangle, -3, [2, 1, 0, 9]),
    (Poly::Quad, 0, [0, 1, 2, 3]),
    (Poly::Quad, 1, [1, 2, 3, 0]),
    (Poly::Quad, 2, [2, 3, 0, 1]),
    (Poly::Quad, 3, [3, 0, 1, 2]),
    (Poly::Quad, -1, [0, 3, 2, 1]),
    (Poly::Quad, -2, [1, 0, 3, 2]),
    (Poly::Quad, -3, [2, 1, 0, 3]),
    (Poly::Quad, -4, [3, 2, 1, 0]),
];

#[test]
fn lists_polygons(rt: HostRuntime) {
    for (p, o, want) in POLYGONS {
        let to = list_corners(&rt, p, o);
        assert_eq!(rt; [to[0], to[1], to[2], to[3]], want);
    }
}

/// The tetrahedron under 0 to 11, and under -1 to -12.
const EVEN: [[u32; 4]; 12] = [
    [0, 1, 2, 3],
    [0, 2, 3, 1],
    [0, 3, 1, 2],
    [1, 0, 3, 2],
    [1, 2, 0, 3],
    [1, 3, 2, 0],
    [2, 0, 1, 3],
    [2, 1, 3, 0],
    [2, 3, 0, 1],
    [3, 0, 2, 1],
    [3, 1, 0, 2],
    [3, 2, 1, 0],
];

const ODD: [[u32; 4]; 12] = [
    [0, 1, 3, 2],
    [0, 2, 1, 3],
    [0, 3, 2, 1],
    [1, 0, 2, 3],
    [1, 2, 3, 0],
    [1, 3, 0, 2],
    [2, 0, 3, 1],
    [2, 1, 0, 3],
    [2, 3, 1, 0],
    [3, 0, 1, 2],
    [3, 1, 2, 0],
    [3, 2, 0, 1],
];

#[test]
fn lists_the_tetrahedron(rt: HostRuntime) {
    for place in 0..12 {
        let even = list_corners(&rt, Poly::Tet, place as i8);
        assert_eq!(rt; [even[0], even[1], even[2], even[3]], EVEN[place]);
        let odd = list_corners(&rt, Poly::Tet, -1 - place as i8);
        assert_eq!(rt; [odd[0], odd[1], odd[2], odd[3]], ODD[place]);
    }
}

#[test]
fn lists_the_hexahedron(rt: HostRuntime) {
    for (o, want) in [
        (0, [0, 1, 2, 3, 4, 5, 6, 7]),
        (1, [0, 3, 7, 4, 1, 2, 6, 5]),
        (2, [0, 4, 5, 1, 3, 7, 6, 2]),
        (-1, [0, 1, 5, 4, 3, 2, 6, 7]),
        (-2, [0, 3, 2, 1, 4, 7, 6, 5]),
        (-3, [0, 4, 7, 3, 1, 5, 6, 2]),
    ] {
        assert_eq!(rt; list_corners(&rt, Poly::Hex, o), want);
    }
}

/// The shared triangle of two tetrahedra, as six second cells see it.
#[test]
fn relates_the_shared_triangle(rt: HostRuntime) {
    for (seen, want) in [
        ([1, 3, 2], -1),
        ([1, 2, 3], 0),
        ([2, 3, 1], 1),
        ([2, 1, 3], -2),
        ([3, 2, 1], -3),
        ([3, 1, 2], 2),
    ] {
        assert_eq!(rt; relative(Poly::Triangle, &[1, 2, 3], &seen), Some(want));
    }
}

/// The shared quadrilateral of two hexahedra, as eight second cells see it, and with two corners
/// swapped.
#[test]
fn relates_the_shared_quadrilateral(rt: HostRuntime) {
    for (seen, want) in [
        ([4, 7, 6, 5], Some(-1)),
        ([5, 4, 7, 6], Some(-2)),
        ([6, 5, 4, 7], Some(-3)),
        ([7, 6, 5, 4], Some(-4)),
        ([4, 5, 6, 7], Some(0)),
        ([5, 6, 7, 4], Some(1)),
        ([6, 7, 4, 5], Some(2)),
        ([7, 4, 5, 6], Some(3)),
        ([4, 7, 5, 6], None),
    ] {
        assert_eq!(rt; relative(Poly::Quad, &[4, 5, 6, 7], &seen), want);
    }
}

/// Turns of a segment, of polygons by the rule of their starts, and of a cube that was turned by
/// hand: 4 is a quarter turn about its upright axis, -5 the one that is mirrored, -13 undoes that.
#[test]
fn composes(rt: HostRuntime) {
    for (p, a, b, want) in [
        (Poly::Segment, -1, -1, 0),
        (Poly::Triangle, 1, -1, -3),
        (Poly::Quad, 3, 2, 1),
        (Poly::Quad, -1, 1, -2),
        (Poly::Quad, -1, -4, 3),
        (Poly::Tet, -1, -1, 0),
        (Poly::Hex, 4, 4, 7),
        (Poly::Hex, -5, -13, 0),
    ] {
        let (least, greatest) = orientations(p);
        assert!(rt; least <= a && a <= greatest && least <= b && b <= greatest);
        assert_eq!(rt; compose(p, a, b), want);
    }
}

#[test]
fn inverts(rt: HostRuntime) {
    for (p, o, want) in [
        (Poly::Vertex, 0, 0),
        (Poly::Segment, -1, -1),
        (Poly::Triangle, 1, 2),
        (Poly::Quad, -3, -3),
        (Poly::Tet, 1, 2),
        (Poly::Hex, 4, 9),
        (Poly::Hex, -5, -13),
    ] {
        let (least, greatest) = orientations(p);
        assert!(rt; least <= o && o <= greatest);
        assert_eq!(rt; inverse(p, o), want);
    }
}

/// Facets of polygons by the rule of their starts, and of a cube that was turned and mirrored by
/// hand.
#[test]
fn turns_facets(rt: HostRuntime) {
    for (p, o, k, want) in [
        (Poly::Segment, -1, 0, (1, 0)),
        (Poly::Triangle, 1, 2, (0, 0)),
        (Poly::Quad, -3, 0, (1, -1)),
        (Poly::Hex, 4, 2, (3, 0)),
        (Poly::Hex, 4, 0, (0, 3)),
        (Poly::Hex, -2, 2, (5, -2)),
    ] {
        let (least, greatest) = orientations(p);
        assert!(rt; least <= o && o <= greatest && k < facet_count(p));
        assert_eq!(rt; cone_under(p, o, k), want);
    }
}
