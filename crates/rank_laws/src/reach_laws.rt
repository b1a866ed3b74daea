//! Laws of what cells contain: exactly what is reached from them by facets of facets, in tables and in diagrams.
//!
//! Each function below does nothing: its contract is the law, and its proof is the law's.

ghost use Rattle.std.specs.Prelude.{◌≡◌, ℕ, List, Contains, length};
ghost use Rattle.std.specs.List.{list_any};
ghost use Rattle.mesh_defs.specs.Tables.{dim_of, corner_count};
ghost use Rattle.mesh_defs.specs.Mesh.{Mesh, Cell};
ghost use Rattle.mesh_defs.specs.Points.{Point, Sight, same_point, point_on, point_of, shows, contains};
ghost use Rattle.mesh_defs.specs.Diagram.{chart, place_in, diagram, IsAccepted};
ghost use Rattle.mesh_defs.specs.RightMesh.{IsSoundMesh, CellsDiffer, AreCells, in_some};
ghost use Rattle.walk_defs.specs.Cones.{reaches};
ghost use Rattle.rank_defs.specs.Ranks.{held_cells, held};
ghost use Rattle.rank_laws.specs.reach_laws.Reached.{reached};

/// A cell contains exactly the points that are reached from it by facets of facets: its table of edges and the facets of its
/// faces tell the same edges.
pub fn cells_contain_what_facets_reach()
    ensures { (cell : Cell) (p : Point) → length cell.vertices ≡ corner_count cell.poly → contains cell p ≡ list_any (same_point p) (reached (dim_of cell.poly) cell.poly cell.vertices) }
{}

/// The chart of some cells shows exactly the points that the cells contain.
pub fn charts_show_what_cells_contain()
    ensures { (m : Mesh) (cells : List (ℕ × Cell)) (p : Point) → IsSoundMesh m → AreCells m cells → list_any (shows p) (chart m cells) ≡ in_some p cells }
{}

/// In the diagram of some cells of an accepted mesh, as in that of the cells that a rank holds, the cone entries from a cell on
/// lead to exactly the points that the cell contains: what its cells contain, a diagram tells without lists of vertices.
pub fn cones_tell_what_cells_contain()
    ensures some_cells { (m : Mesh) (cells : List (ℕ × Cell)) → IsSoundMesh m → IsAccepted m → CellsDiffer m → AreCells m cells → (c : ℕ × Cell) (s : Sight) → Contains cells c → Contains (chart m cells) s → reaches (diagram m cells) m.dim (place_in (chart m cells) (point_of s)) (place_in (chart m cells) (point_on c.1.poly c.1.vertices)) ≡ contains c.1 (point_of s) }
    ensures cells_of_ranks { (m : Mesh) (a : List ℕ) (r : ℕ) (k : ℕ) → IsSoundMesh m → IsAccepted m → CellsDiffer m → (c : ℕ × Cell) (s : Sight) → Contains (held_cells m a r k) c → Contains (held m a r k) s → reaches (diagram m (held_cells m a r k)) m.dim (place_in (held m a r k) (point_of s)) (place_in (held m a r k) (point_on c.1.poly c.1.vertices)) ≡ contains c.1 (point_of s) }
{}
