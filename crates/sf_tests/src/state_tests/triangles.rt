//! Two triangles that share an edge, one on each of two ranks.
ghost use Rattle.std.specs.Prelude.{◌≡◌, [], ◌∷◌, length, map, IfOk};
ghost use Rattle.plex_base.specs.declared.key.PointKey.{PointKey as Key};
ghost use Rattle.sf_defs.specs.declared.Leaf.{Leaf as Ghost};
ghost use Rattle.sf_tests.specs.state_tests.Triangles.{first_diagram, second_diagram, first_local, second_local, shared_points, two_ranks};

use dist_state::{Dist, RankMesh, RankParts};
use mesh_defs::{ConeEntry, Poly};
use plex_base::{Dim, NoMemory, PointKey};
use plex_chart::{Plex, PlexBuilder};
use plex_label::Label;
use sf_graph::{Forest, Leaf};
use std::alloc::Global;
use std::test::Fail;

fn to(point: u32, o: i8) -> ConeEntry
    ensures { result ≡ record { point = point; o = o } }
{
    ConeEntry { point, o }
}

fn first_plex(alloc: Global) -> Result<Plex, NoMemory>
    ensures { IfOk result (λ plex. plex ≡ first_diagram) }
{
    let mut builder = PlexBuilder::new(alloc, Dim::Two, 1, 3, 0, 3);
    builder.push(Poly::Triangle, &[to(4, 0), to(5, 0), to(6, 0)])?;
    builder.push(Poly::Vertex, &[])?;
    builder.push(Poly::Vertex, &[])?;
    builder.push(Poly::Vertex, &[])?;
    builder.push(Poly::Segment, &[to(1, 0), to(2, 0)])?;
    builder.push(Poly::Segment, &[to(2, 0), to(3, 0)])?;
    builder.push(Poly::Segment, &[to(3, 0), to(1, 0)])?;
    builder.finish()
}

fn second_plex(alloc: Global) -> Result<Plex, NoMemory>
    ensures { IfOk result (λ plex. plex ≡ second_diagram) }
{
    let mut builder = PlexBuilder::new(alloc, Dim::Two, 1, 3, 0, 3);
    builder.push(Poly::Triangle, &[to(5, 0), to(6, 0), to(4, -1)])?;
    builder.push(Poly::Vertex, &[])?;
    builder.push(Poly::Vertex, &[])?;
    builder.push(Poly::Vertex, &[])?;
    builder.push(Poly::Segment, &[to(1, 0), to(2, 0)])?;
    builder.push(Poly::Segment, &[to(1, 0), to(3, 0)])?;
    builder.push(Poly::Segment, &[to(3, 0), to(2, 0)])?;
    builder.finish()
}

/// Four labels without pairs.
fn no_labels(alloc: Global) -> Result<Vec<Label>, NoMemory>
    ensures { IfOk result (λ labels. labels.items ≡ [] ∷ [] ∷ [] ∷ [] ∷ []) }
{
    let labels = vec![in alloc;
        Label::new(alloc),
        Label::new(alloc),
        Label::new(alloc),
        Label::new(alloc),
    ]?;
    Ok(labels)
}

fn first_rank(alloc: Global) -> Result<RankMesh, NoMemory>
    ensures { IfOk result (λ l. l ≡ first_local) }
{
    let parts = RankParts {
        plex: first_plex(alloc)?,
        keys: vec![in alloc;
            PointKey(0),
            PointKey(0),
            PointKey(1),
            PointKey(2),
            PointKey(8),
            PointKey(9),
            PointKey(10),
        ]?,
        owners: vec![in alloc; 0u32, 0, 0, 0, 0, 0, 0]?,
        labels: no_labels(alloc)?,
        fields: Vec::new(alloc),
        at: vec![in alloc;
            [0i64, 0, 0],
            [10_000_000_000, 0, 0],
            [0, 10_000_000_000, 0],
        ]?,
    };
    Ok(RankMesh::of(parts))
}

fn second_rank(alloc: Global) -> Result<RankMesh, NoMemory>
    ensures { IfOk result (λ l. l ≡ second_local) }
{
    let parts = RankParts {
        plex: second_plex(alloc)?,
        keys: vec![in alloc;
            PointKey(64),
            PointKey(1),
            PointKey(2),
            PointKey(3),
            PointKey(9),
            PointKey(72),
            PointKey(73),
        ]?,
        owners: vec![in alloc; 1u32, 0, 0, 1, 0, 1, 1]?,
        labels: no_labels(alloc)?,
        fields: Vec::new(alloc),
        at: vec![in alloc;
            [10_000_000_000i64, 0, 0],
            [0, 10_000_000_000, 0],
            [10_000_000_000, 10_000_000_000, 0],
        ]?,
    };
    Ok(RankMesh::of(parts))
}

fn leaf(local: u32, rank: u32, index: u32) -> Leaf
    ensures { result ≡ record { local = local; rank = rank; index = index } }
{
    Leaf { local, rank, index }
}

/// The forest of shared points: rank 1 has copies of two vertices and of the edge between them.
fn shared(alloc: Global) -> Result<Forest, Fail>
    ensures { IfOk result (λ f. f ≡ shared_points) }
{
    let ghosts = vec![in alloc; leaf(1, 0, 2), leaf(2, 0, 3), leaf(4, 0, 5)]?;
    let leaves = vec![in alloc; Vec::new(alloc), ghosts]?;
    let forest = Forest::new(alloc, vec![in alloc; 7u32, 7]?, leaves)?;
    Ok(forest)
}

/// The mesh of two triangles over two ranks.
pub(crate) fn two_ranks(alloc: Global) -> Result<Dist, Fail>
    ensures { IfOk result (λ d. d ≡ two_ranks) }
{
    let points = shared(alloc)?;
    let locals = vec![in alloc; first_rank(alloc)?, second_rank(alloc)?]?;
    Ok(Dist::of(2, 0, 0, points, locals))
}
