//! What the faces, edges and entries of a list of cells are in the words of charts.
//!
//! Each function below does nothing: its contract is the law, and its proof is the law's.

ghost use Rattle.std.specs.Prelude.{◌≡◌, ℕ, ◌<◌, ◌≤◌, List, length, slice_index};
ghost use Rattle.std.specs.List.{AllByRecursion};
ghost use Rattle.mesh_defs.specs.Tables.{dim_of};
ghost use Rattle.mesh_defs.specs.Mesh.{Cell};
ghost use Rattle.mesh_defs.specs.Points.{Sight, point_of, cell_faces, cell_edges};
ghost use Rattle.mesh_defs.specs.Diagram.{place_in};
ghost use Rattle.rank_defs.specs.Spread.{own_stratum};
ghost use Rattle.local_points.specs.Cells.{cell_at, sight_at};
ghost use Rattle.local_points.specs.Points.{faces_among, edges_among, local_points, row_at};

/// The faces of solids are the stratum of faces in the cells' own chart.
pub fn faces_are_a_stratum()
    ensures { (cells : List (ℕ × Cell)) → AllByRecursion (λ (c : ℕ × Cell). dim_of c.1.poly ≡ 3) cells → faces_among cells ≡ own_stratum cells 2 }
{}

/// The edges of polygons and solids are the stratum of edges in the cells' own chart.
pub fn edges_are_a_stratum()
    ensures { (cells : List (ℕ × Cell)) → AllByRecursion (λ (c : ℕ × Cell). 2 ≤ dim_of c.1.poly) cells → edges_among cells ≡ own_stratum cells 1 }
{}

/// An entry of a cell is the place, among the faces or the edges, of the point that the cell has there.
pub fn entries_are_places()
    ensures faces { (cells : List (ℕ × Cell)) (i f : ℕ) → i < length cells → f < length (cell_faces (cell_at cells i).0 (cell_at cells i).1) → slice_index (row_at (local_points cells).face_places i) f ≡ place_in (faces_among cells) (point_of (sight_at (cell_faces (cell_at cells i).0 (cell_at cells i).1) f)) }
    ensures edges { (cells : List (ℕ × Cell)) (i e : ℕ) → i < length cells → e < length (cell_edges (cell_at cells i).0 (cell_at cells i).1) → slice_index (row_at (local_points cells).edge_places i) e ≡ place_in (edges_among cells) (point_of (sight_at (cell_edges (cell_at cells i).0 (cell_at cells i).1) e)) }
{}
