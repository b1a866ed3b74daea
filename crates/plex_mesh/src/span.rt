ghost use Rattle.std.specs.Prelude.{◌≡◌, ◌+◌, ◌≤◌, length};
ghost use Rattle.plex_mesh.specs.Spans.{part_at};

/// Where a row of a flat list lies.
#[derive(Clone, Copy, Debug)]
pub(crate) struct Span {
    pub start: usize,
    pub len: usize,
}

impl Span {
    /// The row.
    pub(crate) fn of(self, flat: &[u32]) -> &[u32]
        requires { self.start + self.len ≤ length flat.now }
        ensures { result.now ≡ part_at flat.now self }
    {
        &flat[self.start..self.start + self.len]
    }
}
