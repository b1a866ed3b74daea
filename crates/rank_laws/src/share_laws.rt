//! Laws of the points that ranks share: what each rank sees of its own cells tells which points are the same.
//!
//! Each function below does nothing: its contract is the law, and its proof is the law's.

ghost use Rattle.std.specs.Prelude.{◌≡◌, ◌==◌, ◌<◌, ℕ, List, true, get_or, length};
ghost use Rattle.std.specs.List.{list_any, position_or_len};
ghost use Rattle.mesh_defs.specs.Mesh.{Mesh, Cell, placed_cells};
ghost use Rattle.mesh_defs.specs.Points.{Point, shows};
ghost use Rattle.mesh_defs.specs.Sights.{points_differ};
ghost use Rattle.mesh_defs.specs.RightMesh.{IsFlatOrSolid, IsSoundMesh, AreCells, in_some};
ghost use Rattle.rank_defs.specs.Ranks.{IsAssignment, assigned, owner, is_shared};
ghost use Rattle.rank_defs.specs.Spread.{point_forest, own_chart};
ghost use Rattle.rank_laws.specs.share_laws.Charts.{vertex_point, own_charts, points_of, forest_of_charts};
ghost use Rattle.rank_laws.specs.share_laws.Packed.{IsPackable, packed};

/// The own chart of some cells shows exactly the points that the cells contain, each once.
pub fn own_charts_show_what_cells_contain()
    ensures members { (m : Mesh) (cells : List (ℕ × Cell)) → IsSoundMesh m → AreCells m cells → (p : Point) → list_any (shows p) (own_chart m cells) ≡ in_some p cells }
    ensures once { (m : Mesh) (cells : List (ℕ × Cell)) → IsFlatOrSolid m → points_differ (own_chart m cells) ≡ true }
{}

/// The owner of a point of some cell is the first rank whose own chart shows it.
pub fn owner_is_the_first_holder()
    ensures { (m : Mesh) (n : ℕ) (a : List ℕ) (p : Point) → IsSoundMesh m → IsAssignment m n a → in_some p (placed_cells m) ≡ true → owner m a p ≡ position_or_len (list_any (shows p)) (own_charts m a n) }
{}

/// The forest of shared points of own charts is that which the points of the charts tell alone, without cells and owners.
pub fn charts_tell_the_shared_points()
    ensures { (m : Mesh) (n : ℕ) (a : List ℕ) → IsSoundMesh m → IsAssignment m n a → point_forest m a (own_charts m a n) ≡ forest_of_charts (points_of (own_charts m a n)) }
{}

/// A rank that has a point has its vertices.
pub fn ranks_have_the_vertices_of_their_points()
    ensures { (m : Mesh) (a : List ℕ) (r : ℕ) (p : Point) (v : ℕ) → IsSoundMesh m → in_some p (assigned m a r) ≡ true → list_any (λ w. w == v) p.vertices ≡ true → in_some (vertex_point v) (assigned m a r) ≡ true }
{}

/// The vertices of a point that ranks share are shared: where one rank alone has a vertex, it alone has the points on it.
pub fn shared_points_have_shared_vertices()
    ensures { (m : Mesh) (a : List ℕ) (p : Point) (v : ℕ) → IsSoundMesh m → is_shared m a p ≡ true → list_any (λ w. w == v) p.vertices ≡ true → is_shared m a (vertex_point v) ≡ true }
{}

/// Sets of vertices that are packed alike are one.
pub fn packed_sets_tell_the_sets()
    ensures { (s : List ℕ) (t : List ℕ) → IsPackable s → IsPackable t → packed s ≡ packed t → s ≡ t }
{}
