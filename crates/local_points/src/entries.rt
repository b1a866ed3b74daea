ghost use Rattle.std.specs.Prelude.{◌≡◌, ◌<◌, length, slice_index};
ghost use Rattle.local_points.specs.Points.{row_at};
ghost use Rattle.local_points.specs.Rows.{rows};

use std::marker::Model;

/// For each cell the places of its faces, or of its edges, in the order of the cell's table.
#[derive(Drop)]
pub(crate) struct Entries {
    /// Those of all cells, one cell after another.
    places: Vec<u32>,
    /// Where each cell begins; one place more, where the last cell ends.
    firsts: Vec<u32>,
}

impl Model for Entries {
    ghost use Rattle.std.specs.Prelude.{ℕ, List};
    ghost use Rattle.local_points.specs.Rows.{rows};

    ghost Value = { List (List ℕ) };

    ghost view = { λ e. rows e.places.items e.firsts.items };
}

impl Entries {
    /// The entries that lie in `places`, those of cell `i` from place `firsts[i]` to before
    /// `firsts[i + 1]`.
    pub(crate) fn new(places: Vec<u32>, firsts: Vec<u32>) -> Entries
        ensures { result ≡ rows places.items firsts.items }
    {
        Entries { places, firsts }
    }

    /// Entry `j` of cell `i`.
    pub(crate) fn get(&self, i: usize, j: usize) -> u32
        requires cell { i < length self.now }
        requires entry { j < length (row_at self.now i) }
        ensures { result ≡ slice_index (row_at self.now i) j }
    {
        self.places[self.firsts[i] as usize + j]
    }
}
