//! Laws of overlap: a layer of cells is told vertex by vertex and rank by rank, and charts shrink again in one step.
//!
//! Each function below does nothing: its contract is the law, and its proof is the law's.

ghost use Rattle.std.specs.Prelude.{◌≡◌, ◌==◌, ◌+◌, Bool, ℕ, List, Contains, filter, length, true};
ghost use Rattle.std.specs.List.{list_any};
ghost use Rattle.plain_lists.specs.Lists.{below};
ghost use Rattle.mesh_defs.specs.Mesh.{Mesh, Cell, placed_cells};
ghost use Rattle.mesh_defs.specs.Points.{Sight, point_on, point_of, shows, contains};
ghost use Rattle.mesh_defs.specs.Diagram.{chart};
ghost use Rattle.mesh_defs.specs.RightMesh.{IsFlatOrSolid, IsSoundMesh, CellsDiffer, AreCells, in_some};
ghost use Rattle.rank_defs.specs.Ranks.{IsAssignment, rank_of, assigned, layer, held_cells, held, owner};
ghost use Rattle.rank_defs.specs.Spread.{vertices_among};
ghost use Rattle.rank_laws.specs.share_laws.Charts.{vertex_point};
ghost use Rattle.sf_defs.specs.Asks.{IsRising};
ghost use Rattle.rank_laws.specs.orient_laws.Named.{keys_of, chart_stratum};
ghost use Rattle.rank_laws.specs.layer_laws.Around.{cells_at};

// ---- layers

/// The vertices of the chart of some cells are those that the cells contain, rising.
pub fn charts_have_the_vertices_of_their_cells()
    ensures { (m : Mesh) (cells : List (ℕ × Cell)) → IsFlatOrSolid m → vertices_among (chart m cells) ≡ filter (λ v. in_some (vertex_point v) cells) (below (length m.at)) }
{}

/// One more layer around some cells is the cells at the vertices of their chart.
pub fn layers_are_the_cells_at_vertices()
    ensures { (m : Mesh) (cells : List (ℕ × Cell)) → IsSoundMesh m → AreCells m cells → layer m cells ≡ filter (λ c. list_any (λ v. contains c.1 (vertex_point v)) (vertices_among (chart m cells))) (placed_cells m) }
{}

/// The ranks that know cells at a vertex are those that hold it without overlap.
pub fn holders_know_cells_at_vertices()
    ensures { (m : Mesh) (a : List ℕ) (r : ℕ) (v : ℕ) → IsSoundMesh m → list_any (λ c. true) (cells_at m a r v) ≡ list_any (shows (vertex_point v)) (held m a r 0) }
{}

/// The cells that a rank holds with one more layer are those that the ranks know at the vertices that it holds.
pub fn ranks_tell_layers()
    ensures { (m : Mesh) (n : ℕ) (a : List ℕ) (r : ℕ) (k : ℕ) (test : ℕ × Cell → Bool) → IsSoundMesh m → IsAssignment m n a → list_any test (held_cells m a r (k + 1)) ≡ list_any (λ v. list_any (λ q. list_any test (cells_at m a q v)) (below n)) (vertices_among (held m a r k)) }
{}

/// Rising numbers that are the keys of the charts of the cells which the ranks know at the vertices that a rank holds are the
/// keys of its chart with one more layer.
pub fn ranks_tell_the_keys_of_layers()
    ensures { (m : Mesh) (n : ℕ) (a : List ℕ) (r : ℕ) (k : ℕ) (dim : ℕ) (keys : List ℕ) → IsSoundMesh m → IsAssignment m n a → IsRising keys → ((j : ℕ) → list_any (λ i. j == i) keys ≡ list_any (λ v. list_any (λ q. list_any (λ i. j == i) (keys_of (chart_stratum m (cells_at m a q v) dim))) (below n)) (vertices_among (held m a r k))) → keys ≡ keys_of (chart_stratum m (held_cells m a r (k + 1)) dim) }
{}

// ---- back to no overlap

/// Without overlap a rank holds those of its points that its assigned cells contain, however many layers it had.
pub fn charts_shrink_in_one_step()
    ensures { (m : Mesh) (a : List ℕ) (r : ℕ) (k : ℕ) → filter (λ s. in_some (point_of s) (assigned m a r)) (held m a r k) ≡ held m a r 0 }
{}

/// The owner of a cell is the rank to which it is assigned.
pub fn cells_are_owned_by_their_ranks()
    ensures { (m : Mesh) (a : List ℕ) (c : ℕ × Cell) → IsSoundMesh m → CellsDiffer m → Contains (placed_cells m) c → owner m a (point_on c.1.poly c.1.vertices) ≡ rank_of a c }
{}

/// The cells that a rank owns of those that it holds are its assigned cells, in the order of its chart.
pub fn owned_cells_are_assigned_cells()
    ensures { (m : Mesh) (a : List ℕ) (r : ℕ) (k : ℕ) → IsSoundMesh m → CellsDiffer m → filter (λ s. owner m a (point_of s) == r) (chart_stratum m (held_cells m a r k) m.dim) ≡ chart_stratum m (assigned m a r) m.dim }
{}
