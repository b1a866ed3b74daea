ghost use Rattle.std.specs.Prelude.{◌≡◌, ◌<◌, length, IfOk};
ghost use Rattle.dist_state.specs.scatter_state.Parts.{rows_at};
ghost use Rattle.dist_state.specs.scatter_state.Whole.{part_at};
ghost use Rattle.spread_tests.specs.Some.{IsSomeScatter};

use crate::meshes::THREE_TRIANGLES;
use crate::spreads::{mesh_of, plan_of, scatter_over};
use dist_seed::Scatter;
use mesh_defs::{Place, Poly};
use plex_base::Dim;
use sf_fabric::script::ScriptFabric;
use std::alloc::Global;
use std::process::Abort;
use std::test::Fail;
use std::thread::Threads;

/// The first triangle on rank 0, the others on rank 1.
const APART: &str = "ranks 2\npart 0 1 1\ndofs u 1 0 0 2\n";

/// The picks of a script, where ranks do not go in turn.
pub(crate) const PICKS: &[u32] = &[1, 1, 1, 0, 0];

/// What ranks are given of the three triangles by a plan, where a script makes these picks.
fn scatter_of<R: Threads + Sync>(
    rt: &R,
    alloc: Global,
    plan: &str,
    picks: &[u32],
) -> Result<Scatter, Fail>
    ensures { IfOk result (λ s. IsSomeScatter s) }
{
    let mut fabric = ScriptFabric::new(Vec::from_slice(alloc, picks)?);
    let mesh = mesh_of(alloc, THREE_TRIANGLES)?;
    let plan = plan_of(alloc, plan)?;
    let scatter = scatter_over(rt, alloc, &mesh, &plan, &mut fabric)?;
    let scatter = scatter.map_err(|_| Fail::from("no memory"))?;
    if fabric.kept().len() != 0 {
        return Err(Fail::from("a round is kept"));
    }
    Ok(scatter)
}

/// A rank with its cells and vertices.
const GIVEN: &[(u32, &[u32], &[u32])] = &[(0, &[0], &[0, 1, 2]), (1, &[1, 2], &[0, 1, 2, 3, 4])];

/// The vertices of rank 1 with their owners.
const OWNERS: &[(u32, u32)] = &[(0, 0), (1, 0), (2, 0), (3, 1), (4, 1)];

/// The vertices of the second cell of rank 1.
const LAST_CELL: &[u32] = &[2, 1, 4];

/// The ranks have these cells and vertices.
fn check_given(rt: &impl Abort, s: &Scatter, given: &[(u32, &[u32], &[u32])]) {
    assert_eq!(rt; (s.ranks(), s.whole()), (2, 3));
    for (rank, cells, vertices) in given {
        assert!(rt; *rank < s.ranks());
        assert_eq!(rt; s.cells(*rank), *cells);
        assert_eq!(rt; s.vertices(*rank), *vertices);
    }
}

/// The vertices of rank 1 have these owners, and the last one is at (2, 1).
fn check_vertices(rt: &impl Abort, s: &Scatter, owners: &[(u32, u32)]) {
    assert!(rt; 1 < s.ranks());
    for (i, owner) in owners {
        assert!(rt; (*i as usize) < s.vertices(1).len());
        assert_eq!(rt; s.vertex_owner(1, *i), *owner);
    }
    assert!(rt; 4 < s.vertices(1).len());
    assert_eq!(rt; s.at(1, 4), [20_000_000_000i64, 10_000_000_000, 0]);
}

/// The second cell of rank 1 is the triangle of these vertices.
fn check_last_cell(rt: &impl Abort, s: &Scatter, vertices: &[u32]) {
    assert!(rt; 1 < s.ranks());
    assert!(rt; 1 < s.cells(1).len());
    assert_eq!(rt; s.poly(1, 1), Poly::Triangle);
    assert_eq!(rt; s.list(1, 1), vertices);
}

/// Where a script makes these picks, ranks are given what they are to have.
fn check_script<R: Threads + Sync + Abort>(
    rt: &R,
    alloc: Global,
    picks: &[u32],
) -> Result<(), Fail> {
    let s = scatter_of(rt, alloc, APART, picks)?;
    check_given(rt, &s, GIVEN);
    check_vertices(rt, &s, OWNERS);
    check_last_cell(rt, &s, LAST_CELL);
    Ok(())
}

#[test]
fn ranks_are_given_their_cells_and_vertices(rt: HostRuntime) -> Result<(), Fail> {
    check_script(&rt, rt.alloc(), &[])?;
    check_script(&rt, rt.alloc(), PICKS)
}

/// A mark: the rank, the place among its marks, and what the mark is.
type Marks<'a> = &'a [(u32, u32, Dim, &'a [u32], i32)];

/// Both have the edge (1, 2) and vertex 0; rank 0 alone the edge (0, 1), rank 1 alone vertex 3.
const MARKS: Marks<'static> = &[
    (0, 1, Dim::One, &[1, 0], 8),
    (1, 1, Dim::One, &[2, 1], 9),
    (1, 2, Dim::Zero, &[3], 5),
];

/// The ranks have four marks each, these among them.
fn check_marks(rt: &impl Abort, s: &Scatter, marks: Marks) {
    assert_eq!(rt; s.ranks(), 2);
    assert_eq!(rt; (s.marks(0), s.marks(1)), (4, 4));
    for (rank, i, dim, vertices, value) in marks {
        assert!(rt; *rank < s.ranks());
        assert!(rt; *i < s.marks(*rank));
        let seen = s.mark(*rank, *i);
        assert_eq!(rt; (seen.0, seen.2), (*dim, *value));
        assert_eq!(rt; seen.1, *vertices);
    }
}

#[test]
fn ranks_are_given_the_marks_on_their_points(rt: HostRuntime) -> Result<(), Fail> {
    let s = scatter_of(&rt, rt.alloc(), APART, &[])?;
    check_marks(&rt, &s, MARKS);
    Ok(())
}

/// How many vertices or cells of a rank a data section has rows for.
fn rows_on(s: &Scatter, rank: u32, f: u32) -> usize
    requires some { IsSomeScatter s.now }
    requires rank { rank < length s.now.parts }
    requires section { f < length s.now.sections }
    ensures { result ≡ length (rows_at (part_at s.now.parts rank).rows f) }
{
    match s.section(f).0 {
        Place::Node => s.vertices(rank).len(),
        Place::Element => s.cells(rank).len(),
    }
}

/// A row of rank 1: the section, the place of the vertex or cell, and its values.
type Rows<'a> = &'a [(u32, u32, Option<&'a [i64]>)];

/// A vertex has its last row.
const LAST_ROWS: Rows<'static> = &[
    (0, 2, Some(&[40_000_000_000])),
    (0, 3, None),
    (1, 0, None),
    (
        1,
        1,
        Some(&[40_000_000_000, 50_000_000_000, 60_000_000_000]),
    ),
];

/// The first section is at vertices, the second one at cells, and rank 1 has these rows.
fn check_rows(rt: &impl Abort, s: &Scatter, rows: Rows)
    requires { IsSomeScatter s.now }
{
    assert_eq!(rt; (s.ranks(), s.sections()), (2, 2));
    assert_eq!(rt;
        (s.section(0), s.section(1)),
        ((Place::Node, 1), (Place::Element, 3))
    );
    assert_eq!(rt; (rows_on(s, 1, 0), rows_on(s, 1, 1)), (5, 2));
    for (f, i, values) in rows {
        assert!(rt; *f < s.sections());
        assert!(rt; (*i as usize) < rows_on(s, 1, *f));
        assert_eq!(rt; s.row(1, *f, *i), *values);
    }
}

#[test]
fn ranks_are_given_the_last_rows(rt: HostRuntime) -> Result<(), Fail> {
    let s = scatter_of(&rt, rt.alloc(), APART, &[])?;
    check_rows(&rt, &s, LAST_ROWS);
    Ok(())
}

#[test]
fn ranks_know_the_words_by_dimension(rt: HostRuntime) -> Result<(), Fail> {
    let s = scatter_of(&rt, rt.alloc(), APART, &[])?;
    assert_eq!(rt; s.dofs(), 1);
    assert_eq!(rt; s.dof(0), [1, 0, 0, 2]);
    Ok(())
}
