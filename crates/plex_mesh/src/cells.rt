ghost use Rattle.std.specs.Prelude.{◌≡◌, ◌<◌, [], ◌∷◌, ◌++◌, length, OnOk, OnErr};
ghost use Rattle.plex_mesh.specs.Right.{cell_at};

use crate::span::Span;
use mesh_defs::Poly;
use plex_base::NoMemory;
use std::alloc::Global;
use std::marker::Model;

/// A cell as it is stored.
#[derive(Clone, Copy, Debug)]
struct StoredCell {
    poly: Poly,
    span: Span,
}

/// Cells in the order in which they were pushed, their vertices in one flat list.
#[derive(Debug, Drop)]
pub(crate) struct Cells {
    stored: Vec<StoredCell>,
    vertices: Vec<u32>,
}

impl Model for Cells {
    ghost use Rattle.std.specs.Prelude.{List};
    ghost use Rattle.mesh_defs.specs.Mesh.{Cell};
    ghost use Rattle.plex_mesh.specs.Spans.{AreWithin};
    ghost use Rattle.plex_mesh.specs.Stored.{cells_of, cell_span};

    ghost Value = { List Cell };

    ghost view = { λ a. cells_of a.stored.items a.vertices.items };

    ghost invariant = { λ a. AreWithin a.vertices.items cell_span a.stored.items };
}

impl Cells {
    pub(crate) fn new(alloc: Global) -> Cells
        ensures { result ≡ [] }
    {
        Cells {
            stored: Vec::new(alloc),
            vertices: Vec::new(alloc),
        }
    }

    pub(crate) fn len(&self) -> usize
        ensures { result ≡ length self.now }
    {
        self.stored.len()
    }

    /// Puts a cell at the end.
    pub(crate) fn push(&mut self, poly: Poly, vertices: &[u32]) -> Result<(), NoMemory>
        ensures ok { OnOk result (self.new ≡ self.old ++ record { poly = poly; vertices = vertices.now } ∷ []) }
        ensures err { OnErr result (self.new ≡ self.old) }
    {
        let span = Span {
            start: self.vertices.len(),
            len: vertices.len(),
        };
        self.stored.reserve(1)?;
        self.vertices.extend_from_slice(vertices)?;
        self.stored.push(StoredCell { poly, span })?;
        Ok(())
    }

    pub(crate) fn poly(&self, c: usize) -> Poly
        requires { c < length self.now }
        ensures { result ≡ (cell_at self.now c).poly }
    {
        self.stored[c].poly
    }

    pub(crate) fn vertices(&self, c: usize) -> &[u32]
        requires { c < length self.now }
        ensures { result.now ≡ (cell_at self.now c).vertices }
    {
        self.stored[c].span.of(&self.vertices)
    }
}
