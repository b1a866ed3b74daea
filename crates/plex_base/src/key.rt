ghost use Rattle.std.specs.Prelude.{◌≡◌, ◌+◌, ◌*◌, ◌/◌, ◌%◌, ◌<◌, ◌≤◌};

/// The key of a point, by which points are compared and named.
///
/// Of a cell, a face or an edge it is `64 * c + place` for the first cell `c` that contains the
/// point: the place is 0 for the cell itself, `1 + f` for its face `f` and `8 + e` for its edge `e`.
/// Of a vertex it is the vertex's position. Keys are ordered by their numbers.
#[derive(Clone, Copy, Debug, PartialEq, Eq, PartialOrd, Ord, Hash)]
pub struct PointKey(pub u64);

/// How many keys each cell has.
const PLACES: u64 = 64;

impl PointKey {
    /// The key of a cell, by the cell's position in the mesh.
    pub fn of_cell(cell: u32) -> PointKey
        ensures { result.0 ≡ 64 * cell }
    {
        PointKey(PLACES * u64::from(cell))
    }

    /// The key of a face of a solid, as a cell sees it: by the cell's position and the number of the
    /// face in that cell, below 6.
    pub fn of_face(cell: u32, face: u32) -> PointKey
        requires { face < 6 }
        ensures { result.0 ≡ 64 * cell + 1 + face }
    {
        PointKey(PLACES * u64::from(cell) + 1 + u64::from(face))
    }

    /// The key of an edge, as a cell sees it: by the cell's position and the number of the edge in
    /// that cell, below 12.
    pub fn of_edge(cell: u32, edge: u32) -> PointKey
        requires { edge < 12 }
        ensures { result.0 ≡ 64 * cell + 8 + edge }
    {
        PointKey(PLACES * u64::from(cell) + 8 + u64::from(edge))
    }

    /// The cell of a key that is not a vertex's: its position in the mesh.
    pub fn cell(self) -> u64
        ensures { result ≡ self.0 / 64 }
    {
        self.0 / PLACES
    }

    /// The place in its cell of a key that is not a vertex's, below 64.
    pub fn place(self) -> u64
        ensures value { result ≡ self.0 % 64 }
        ensures bound { result < 64 }
    {
        self.0 % PLACES
    }
}
