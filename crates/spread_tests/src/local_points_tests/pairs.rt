ghost use Rattle.std.specs.Prelude.{◌≡◌, [], ◌∷◌, length};

use local_points::{CellList, LocalPoints, PointFinder};
use mesh_defs::Poly;
use plex_base::{NoMemory, PointKey};
use std::alloc::Global;
use std::process::Abort;
use std::test::Fail;
use std::thread::Threads;

/// Two cells of one polytope, with the numbers 3 and 7.
#[derive(Clone, Copy)]
struct Pair<'a> {
    poly: Poly,
    first: &'a [u32],
    second: &'a [u32],
}

impl<'a> CellList for Pair<'a> {
    ghost cells = { λ p. (3, record { poly = p.poly; vertices = p.first.now }) ∷ (7, record { poly = p.poly; vertices = p.second.now }) ∷ [] };

    fn len(&self) -> usize {
        2
    }

    fn number(&self, i: usize) -> u32 {
        if i == 0 { 3 } else { 7 }
    }

    fn poly(&self, _i: usize) -> Poly {
        self.poly
    }

    fn corners(&self, i: usize) -> &[u32] {
        if i == 0 { self.first } else { self.second }
    }
}

/// Face `k`, if there are so many.
fn face(points: &LocalPoints, k: u32) -> Option<(PointKey, Poly, &[u32])> {
    if k < points.faces() {
        Some(points.face(k))
    } else {
        None
    }
}

/// Edge `k`, if there are so many.
pub(crate) fn edge(points: &LocalPoints, k: u32) -> Option<(PointKey, [u32; 2])> {
    if k < points.edges() {
        Some(points.edge(k))
    } else {
        None
    }
}

/// Vertices of faces, and which of the faces has them.
type FacesFound<'a> = &'a [(&'a [u32], Option<u32>)];

/// Ends of edges, and which of the edges has them.
type EdgesFound<'a> = &'a [(u32, u32, Option<u32>)];

/// Faces and edges are found at these places.
fn check_found(rt: &impl Abort, finder: &PointFinder, faces: FacesFound, edges: EdgesFound) {
    for (vertices, place) in faces {
        assert_eq!(rt; finder.find_face(vertices), *place);
    }
    for (a, b, place) in edges {
        assert_eq!(rt; finder.find_edge(*a, *b), *place);
    }
}

/// What is found of two cubes, one on the other.
fn cubes<R: Threads + Sync>(rt: &R, alloc: Global) -> Result<PointFinder, NoMemory> {
    let cubes = Pair {
        poly: Poly::Hex,
        first: &[0, 1, 2, 3, 4, 5, 6, 7],
        second: &[4, 5, 6, 7, 8, 9, 10, 11],
    };
    PointFinder::of(rt, alloc, &cubes)
}

const CUBE_FACES: FacesFound<'static> = &[(&[7, 5, 4, 6], Some(1)), (&[0, 1, 6, 7], None)];

const CUBE_EDGES: EdgesFound<'static> = &[(5, 4, Some(4)), (0, 6, None)];

#[test]
fn cubes_share_a_face(rt: HostRuntime) -> Result<(), Fail> {
    let finder = cubes(&rt, rt.alloc())?;
    let points = finder.local();
    assert_eq!(rt; (points.faces(), points.edges()), (11, 20));
    check_found(&rt, &finder, CUBE_FACES, CUBE_EDGES);
    Ok(())
}

/// What is found of two tetrahedra that share a face, and where the first face and the first edge of the second
/// one are.
fn tetrahedra<R: Threads + Sync>(
    rt: &R,
    alloc: Global,
) -> Result<(PointFinder, u32, u32), NoMemory> {
    let tetrahedra = Pair {
        poly: Poly::Tet,
        first: &[0, 1, 2, 3],
        second: &[1, 0, 2, 4],
    };
    let finder = PointFinder::of(rt, alloc, &tetrahedra)?;
    let points = finder.local();
    let (face, edge) = (points.face_of(1, 0), points.edge_of(1, 0));
    Ok((finder, face, edge))
}

const TETRAHEDRON_FACES: FacesFound<'static> = &[(&[2, 1, 0], Some(0))];

/// How the first tetrahedron sees the common face.
const COMMON_FACE: (PointKey, Poly, &[u32]) = (PointKey(193), Poly::Triangle, &[0, 2, 1]);

/// Some edges, each with its place among the edges.
const EDGES: &[(u32, PointKey, [u32; 2])] = &[
    (0, PointKey(200), [0, 1]),
    (6, PointKey(459), [1, 4]),
];

/// The first face is that one, and at their places are these edges.
fn check_seen(
    rt: &impl Abort,
    points: &LocalPoints,
    first: (PointKey, Poly, &[u32]),
    edges: &[(u32, PointKey, [u32; 2])],
) {
    assert_eq!(rt; (points.faces(), points.edges()), (7, 9));
    assert_eq!(rt; face(points, 0), Some(first));
    for (k, key, ends) in edges {
        assert_eq!(rt; edge(points, *k), Some((*key, *ends)));
    }
}

#[test]
fn first_cell_gives_key_and_order(rt: HostRuntime) -> Result<(), Fail> {
    let (finder, face, edge) = tetrahedra(&rt, rt.alloc())?;
    assert_eq!(rt; (face, edge), (0, 0));
    check_found(&rt, &finder, TETRAHEDRON_FACES, &[]);
    check_seen(&rt, &finder.into_local(), COMMON_FACE, EDGES);
    Ok(())
}
