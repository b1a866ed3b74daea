ghost use Rattle.std.specs.Prelude.{◌≡◌, ◌<◌, [], ◌∷◌, ◌++◌, length, OnOk, OnErr};
ghost use Rattle.plex_base.specs.Dim.{dim_number};
ghost use Rattle.plex_mesh.specs.Right.{mark_at};

use crate::span::Span;
use plex_base::{Dim, NoMemory};
use std::alloc::Global;
use std::marker::Model;

/// A mark as it is stored.
#[derive(Clone, Copy, Debug)]
struct StoredMark {
    dim: Dim,
    value: i32,
    span: Span,
}

/// Marks in the order in which they were pushed, their vertices in one flat list.
#[derive(Debug, Drop)]
pub(crate) struct Marks {
    stored: Vec<StoredMark>,
    vertices: Vec<u32>,
}

impl Model for Marks {
    ghost use Rattle.std.specs.Prelude.{List};
    ghost use Rattle.mesh_defs.specs.Mesh.{Mark};
    ghost use Rattle.plex_mesh.specs.Spans.{AreWithin};
    ghost use Rattle.plex_mesh.specs.Stored.{marks_of, mark_span};

    ghost Value = { List Mark };

    ghost view = { λ a. marks_of a.stored.items a.vertices.items };

    ghost invariant = { λ a. AreWithin a.vertices.items mark_span a.stored.items };
}

impl Marks {
    pub(crate) fn new(alloc: Global) -> Marks
        ensures { result ≡ [] }
    {
        Marks {
            stored: Vec::new(alloc),
            vertices: Vec::new(alloc),
        }
    }

    pub(crate) fn len(&self) -> usize
        ensures { result ≡ length self.now }
    {
        self.stored.len()
    }

    /// Puts a mark at the end.
    pub(crate) fn push(&mut self, dim: Dim, vertices: &[u32], value: i32) -> Result<(), NoMemory>
        ensures ok { OnOk result (self.new ≡ self.old ++ record { dim = dim_number dim; vertices = vertices.now; value = value } ∷ []) }
        ensures err { OnErr result (self.new ≡ self.old) }
    {
        let span = Span {
            start: self.vertices.len(),
            len: vertices.len(),
        };
        self.stored.reserve(1)?;
        self.vertices.extend_from_slice(vertices)?;
        self.stored.push(StoredMark { dim, value, span })?;
        Ok(())
    }

    pub(crate) fn get(&self, i: usize) -> (Dim, &[u32], i32)
        requires { i < length self.now }
        ensures { mark_at self.now i ≡ record { dim = dim_number result.0; vertices = result.1.now; value = result.2 } }
    {
        let mark = &self.stored[i];
        (mark.dim, mark.span.of(&self.vertices), mark.value)
    }
}
