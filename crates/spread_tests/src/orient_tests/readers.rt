//! What the readers of a rank of the distributed two triangles say.
ghost use Rattle.std.specs.Prelude.{◌≡◌, length};

use crate::orient_tests::held::Held;
use dist_state::RankMesh;
use mesh_defs::{ConeEntry, Poly};
use plex_base::{Dim, PointKey};
use plex_chart::Plex;
use std::process::Abort;
use std::test::Fail;

/// A rank holds what it is to hold.
pub(crate) fn check_rank(rt: &impl Abort, local: &RankMesh, held: &Held) -> Result<(), Fail> {
    check_plex(rt, local.plex(), held);
    check_names(rt, local, held);
    check_places(rt, local, held);
    check_labels(rt, local, held)?;
    check_words(rt, local, held);
    Ok(())
}

/// A diagram is that of what the rank is to hold.
pub(crate) fn check_plex(rt: &impl Abort, plex: &Plex, held: &Held) {
    check_strata(rt, plex, STRATA);
    check_cones(rt, plex, held);
}

/// The cell stands before the vertices, and the edges behind them.
const STRATA: &[(Dim, u32, u32)] = &[(Dim::Two, 0, 1), (Dim::Zero, 1, 4), (Dim::One, 4, 7)];

/// The points stand in these strata, and have their polytopes.
fn check_strata(rt: &impl Abort, plex: &Plex, strata: &[(Dim, u32, u32)]) {
    assert_eq!(rt; (plex.dim(), plex.chart()), (Dim::Two, 7));
    for (dim, start, end) in strata {
        let stratum = plex.stratum(*dim);
        assert_eq!(rt; (stratum.start, stratum.end), (*start, *end));
    }
    assert_eq!(rt; plex.poly_of(0), Poly::Triangle);
    for p in 1..4 {
        assert_eq!(rt; plex.poly_of(p), Poly::Vertex);
    }
    for p in 4..7 {
        assert_eq!(rt; plex.poly_of(p), Poly::Segment);
    }
}

/// The key and the owner of each point.
fn check_names(rt: &impl Abort, local: &RankMesh, held: &Held) {
    let plex = local.plex();
    assert_eq!(rt; plex.chart(), 7);
    for p in 0..7u32 {
        assert_eq!(rt; local.key(p), PointKey(held.keys[p as usize]));
        assert_eq!(rt; local.owner(p), held.owners[p as usize]);
    }
}

/// What each point covers.
fn check_cones(rt: &impl Abort, plex: &Plex, held: &Held) {
    assert_eq!(rt; plex.chart(), 7);
    check_cell(rt, plex.cone(0), held.cell);
    for p in 1..4 {
        assert_eq!(rt; plex.cone(p).len(), 0);
    }
    let edges = held.edges;
    for k in 0..3u32 {
        let (from, to) = edges[k as usize];
        let cone = [entry((from, 0)), entry((to, 0))];
        assert_eq!(rt; plex.cone(4 + k), cone.as_slice());
    }
}

/// What the triangle covers.
fn check_cell(rt: &impl Abort, cone: &[ConeEntry], cell: [(u32, i8); 3]) {
    assert_eq!(rt; cone, cell.map(entry).as_slice());
}

/// A point with its orientation.
fn entry(of: (u32, i8)) -> ConeEntry {
    ConeEntry {
        point: of.0,
        o: of.1,
    }
}

/// Where the vertices are.
fn check_places(rt: &impl Abort, local: &RankMesh, held: &Held) {
    let plex = local.plex();
    let (cells, vertices) = (plex.stratum(plex.dim()), plex.stratum(Dim::Zero));
    assert_eq!(rt; plex.dim(), Dim::Two);
    assert_eq!(rt; (cells.end, vertices.end), (1, 4));
    for k in 0..3u32 {
        assert_eq!(rt; local.at(1 + k), held.at[k as usize]);
    }
}

/// The values of the points, and no others.
fn check_labels(rt: &impl Abort, local: &RankMesh, held: &Held) -> Result<(), Fail> {
    for (dim, p, value) in held.marks {
        assert!(rt; local.label(dim).has(p, value));
    }
    let mut values = 0usize;
    for dim in [Dim::Zero, Dim::One, Dim::Two, Dim::Three] {
        for p in 0..7 {
            values = values.saturating_add(local.label(dim).values_at(p)?.len());
        }
    }
    assert_eq!(rt; values, held.marks.len());
    Ok(())
}

/// The words of the points in each field.
fn check_words(rt: &impl Abort, local: &RankMesh, held: &Held) {
    let plex = local.plex();
    assert_eq!(rt; (plex.chart(), local.fields()), (7, 3));
    let words = held.words;
    for i in 0..3 {
        for p in 0..7u32 {
            let own = local.field(i).at(p);
            match words[i][p as usize] {
                Some(word) => assert_eq!(rt; own, [word].as_slice()),
                None => assert_eq!(rt; own.len(), 0),
            }
        }
    }
}
