//! Cells by their places in a list.

ghost use Rattle.std.specs.Prelude.{◌≡◌, ℕ, ◌<◌, List, length};
ghost use Rattle.mesh_defs.specs.Mesh.{Cell};
ghost use Rattle.local_points.specs.Cells.{cell_at};

use mesh_defs::Poly;

/// A list of cells, each with its number in the whole mesh: all cells of a mesh, or those of one
/// rank. Cells are named by their places in the list, from 0.
pub trait CellList {
    /// The cells, each with its number.
    ghost cells: { Self → List (ℕ × Cell) };

    /// How many cells there are.
    fn len(&self) -> usize
        ensures { result ≡ length (cells self.now) };

    /// The number of cell `i` in the whole mesh.
    fn number(&self, i: usize) -> u32
        requires { i < length (cells self.now) }
        ensures { result ≡ (cell_at (cells self.now) i).0 };

    /// The polytope of cell `i`.
    fn poly(&self, i: usize) -> Poly
        requires { i < length (cells self.now) }
        ensures { result ≡ (cell_at (cells self.now) i).1.poly };

    /// The vertices of cell `i`, in the order of its polytope's corners.
    fn corners(&self, i: usize) -> &[u32]
        requires { i < length (cells self.now) }
        ensures { result.now ≡ (cell_at (cells self.now) i).1.vertices };
}
