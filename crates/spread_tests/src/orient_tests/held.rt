//! What each of two ranks is to hold of the two triangles.
use plex_base::Dim;

/// One triangle, its three vertices and its three edges, as one rank is to hold them: by key, with places
/// among the seven points of the rank.
#[derive(Clone, Copy, Debug)]
pub(crate) struct Held {
    pub(crate) keys: [u64; 7],
    pub(crate) owners: [u32; 7],
    /// What the triangle covers, and under which orientations.
    pub(crate) cell: [(u32, i8); 3],
    /// What the edges cover.
    pub(crate) edges: [(u32, u32); 3],
    /// Where the vertices are, in 10^-10.
    pub(crate) at: [[i64; 3]; 3],
    /// The values of points: a dimension, a point of it and its value.
    pub(crate) marks: [(Dim, u32, i32); 3],
    /// The word of each point in each field, where it has one.
    pub(crate) words: [[Option<u64>; 7]; 3],
}

/// 1 in 10^-10.
const ONE: i64 = 10_000_000_000;

/// -3 in 10^-10, as a word.
const MINUS_THREE: u64 = 18_446_744_043_709_551_616;

/// c1, v1, v2, v3, e9, e72 and e73.
pub(crate) const FIRST: Held = Held {
    keys: [64, 1, 2, 3, 9, 72, 73],
    owners: [0, 0, 0, 0, 0, 0, 0],
    cell: [(5, 0), (6, 0), (4, -1)],
    edges: [(1, 2), (1, 3), (3, 2)],
    at: [[ONE, 0, 0], [0, ONE, 0], [ONE, ONE, 0]],
    marks: [(Dim::Two, 0, 7), (Dim::One, 4, 9), (Dim::Zero, 3, 5)],
    words: [
        [
            None,
            None,
            Some(20_000_000_000),
            Some(MINUS_THREE),
            None,
            None,
            None,
        ],
        [Some(70_000_000_000), None, None, None, None, None, None],
        [Some(2), None, None, None, Some(3), Some(2), Some(2)],
    ],
};

/// c0, v0, v1, v2, e8, e9 and e10.
pub(crate) const SECOND: Held = Held {
    keys: [0, 0, 1, 2, 8, 9, 10],
    owners: [1, 1, 0, 0, 1, 0, 1],
    cell: [(4, 0), (5, 0), (6, 0)],
    edges: [(1, 2), (2, 3), (3, 1)],
    at: [[0, 0, 0], [ONE, 0, 0], [0, ONE, 0]],
    marks: [(Dim::Two, 0, 6), (Dim::One, 4, 8), (Dim::One, 5, 9)],
    words: [
        [
            None,
            Some(10_000_000_000),
            None,
            Some(20_000_000_000),
            None,
            None,
            None,
        ],
        [None, None, None, None, None, None, None],
        [Some(1), None, None, None, Some(1), Some(3), Some(1)],
    ],
};
