ghost use Rattle.std.specs.Prelude.{◌≡◌, ◌+◌, ◌*◌, ◌<◌, ◌≤◌, ◌^◌, ℕ, [], ◌∷◌, map, get_or, pos};
ghost use Rattle.input_defs.specs.Generated.{GridPoint, grid, vertex_at, corners_at};
ghost use Rattle.mesh_make.specs.Spots.{grid_point, no_point};

/// One in the units of coordinates.
const UNIT: i64 = 10_000_000_000;

/// A point of a grid, or the square or cube that begins at it.
#[derive(Clone, Copy, Debug)]
pub(crate) struct Spot {
    pub x: u32,
    pub y: u32,
    pub z: u32,
}

impl Spot {
    /// Spot `i` of a grid that is `side` long each way, x fastest, then y, then z.
    pub(crate) fn of(side: u32, i: u32) -> Spot
        requires some { 1 ≤ side }
        requires few { side ≤ 501 }
        ensures spot { (layers : ℕ) → i < layers * (side * side) → get_or (grid side side layers) i no_point ≡ grid_point result }
        ensures x { result.x < side }
        ensures y { result.y < side }
        ensures z { (layers : ℕ) → i < layers * (side * side) → result.z < layers }
    {
        let layer = side * side;
        let rest = i % layer;
        Spot {
            x: rest % side,
            y: rest / side,
            z: i / layer,
        }
    }

    /// The coordinates of a grid point, in 10^-10.
    pub(crate) fn coordinates(self) -> [i64; 3]
        requires x { self.x ≤ 500 }
        requires y { self.y ≤ 500 }
        requires z { self.z ≤ 500 }
        ensures { result ≡ map (λ c. pos (c * 10 ^ 10)) (self.x ∷ self.y ∷ self.z ∷ []) }
    {
        [
            i64::from(self.x) * UNIT,
            i64::from(self.y) * UNIT,
            i64::from(self.z) * UNIT,
        ]
    }

    /// The position of the grid point this far from a spot, in a grid of `n` squares or cubes each way.
    fn vertex(self, n: u32, dx: u32, dy: u32, dz: u32) -> u32
        requires n { n ≤ 500 }
        requires x { self.x + dx ≤ 500 }
        requires y { self.y + dy ≤ 500 }
        requires z { self.z + dz ≤ 500 }
        ensures { result ≡ vertex_at n (grid_point self) dx dy dz }
    {
        let side = n + 1;
        let layers = side * (self.z + dz);
        let rows = side * (self.y + dy + layers);
        self.x + dx + rows
    }

    /// The corners of the cube at a spot, in the order of the hexahedron's. The first four are those of
    /// a square.
    pub(crate) fn corners(self, n: u32) -> [u32; 8]
        requires n { n ≤ 500 }
        requires x { self.x < 500 }
        requires y { self.y < 500 }
        requires z { self.z < 500 }
        ensures { result ≡ corners_at n (grid_point self) }
    {
        [
            self.vertex(n, 0, 0, 0),
            self.vertex(n, 1, 0, 0),
            self.vertex(n, 1, 1, 0),
            self.vertex(n, 0, 1, 0),
            self.vertex(n, 0, 0, 1),
            self.vertex(n, 1, 0, 1),
            self.vertex(n, 1, 1, 1),
            self.vertex(n, 0, 1, 1),
        ]
    }
}
