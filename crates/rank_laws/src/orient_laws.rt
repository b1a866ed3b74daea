//! Laws of charts that ranks put in the order of keys.
//!
//! Each function below does nothing: its contract is the law, and its proof is the law's.

ghost use Rattle.std.specs.Prelude.{◌≡◌, ◌≢◌, ◌==◌, ◌++◌, ◌<◌, if◌then◌else◌, nat_lt, ℕ, List, Contains, IsPermutation, map, length, get_or, flat_map, filter_map, true, false, []};
ghost use Rattle.std.specs.List.{list_any};
ghost use Rattle.plain_lists.specs.Lists.{below};
ghost use Rattle.mesh_defs.specs.Mesh.{Mesh, Cell};
ghost use Rattle.mesh_defs.specs.Points.{Point, Sight, same_point, point_of, first_sight, key};
ghost use Rattle.mesh_defs.specs.Diagram.{stratum, chart, twist_key};
ghost use Rattle.mesh_defs.specs.RightMesh.{IsSoundMesh, CellsDiffer, AreCells, in_some};
ghost use Rattle.sf_defs.specs.Asks.{IsRising};
ghost use Rattle.sf_defs.specs.Forest.{degree};
ghost use Rattle.rank_defs.specs.Ranks.{IsAssignment, least, assigned, owner, is_shared, own_key};
ghost use Rattle.rank_defs.specs.Spread.{point_forest, own_stratum, own_chart};
ghost use Rattle.rank_defs.specs.Home.{home_points};
ghost use Rattle.rank_laws.specs.share_laws.Charts.{own_charts};
ghost use Rattle.rank_laws.specs.orient_laws.Named.{keys_of, chart_stratum, seen_first, own_sight, own_twist, StandInOrder, IsMiddle, own_home, home_part};

// ---- keys

/// Strictly rising lists with the same members are equal.
pub fn rising_lists_with_the_same_members_are_equal()
    ensures { (xs : List ℕ) (ys : List ℕ) → IsRising xs → IsRising ys → ((n : ℕ) → list_any (λ k. n == k) xs ≡ list_any (λ k. n == k) ys) → xs ≡ ys }
{}

/// Keys rise strictly along a stratum, and along a stratum of the chart of some cells.
pub fn keys_rise_along_strata()
    ensures whole { (m : Mesh) (dim : ℕ) → IsRising (keys_of (stratum m dim)) }
    ensures charts { (m : Mesh) (cells : List (ℕ × Cell)) (dim : ℕ) → IsRising (keys_of (chart_stratum m cells dim)) }
{}

/// Points of one dimension with one key are one.
pub fn a_key_names_one_point()
    ensures { (m : Mesh) (dim : ℕ) (s : Sight) (t : Sight) → Contains (stratum m dim) s → Contains (stratum m dim) t → s.key ≡ t.key → s ≡ t }
{}

// ---- the chart of a rank

/// The chart of some cells is its strata: cells, vertices, faces where the mesh is solid, edges.
pub fn charts_are_their_strata()
    ensures { (m : Mesh) (cells : List (ℕ × Cell)) → chart m cells ≡ chart_stratum m cells m.dim ++ chart_stratum m cells 0 ++ (if m.dim == 3 then chart_stratum m cells 2 else []) ++ chart_stratum m cells 1 }
{}

/// The faces or edges of a chart are those that its cells see by themselves, each as it is first seen, and sorted by key in
/// whatever way.
pub fn held_points_are_own_points_by_key()
    ensures { (m : Mesh) (cells : List (ℕ × Cell)) (dim : ℕ) (sorted : List Sight) → AreCells m cells → dim ≢ 0 → IsPermutation (map (seen_first m) (own_stratum cells dim)) sorted → IsRising (keys_of sorted) → sorted ≡ chart_stratum m cells dim }
{}

/// The cells of a rank stand in its chart as the rank sees them by itself.
pub fn held_cells_are_own_cells()
    ensures { (m : Mesh) (a : List ℕ) (r : ℕ) → IsSoundMesh m → CellsDiffer m → own_stratum (assigned m a r) m.dim ≡ chart_stratum m (assigned m a r) m.dim }
{}

// ---- first sights

/// A rank that alone has a face or an edge sees it first as the whole mesh does: its own key is the key.
pub fn points_of_one_rank_are_first_seen_by_it()
    ensures { (m : Mesh) (a : List ℕ) (r : ℕ) (p : Point) → p.dim ≢ 0 → is_shared m a p ≡ false → in_some p (assigned m a r) ≡ true → own_sight m a r p ≡ first_sight m p }
{}

/// Where a rank's own key of a face or an edge is the key, its own first sight is the first sight.
pub fn own_sights_are_first_where_keys_agree()
    ensures { (m : Mesh) (a : List ℕ) (r : ℕ) (p : Point) → p.dim ≢ 0 → own_key m a r p ≡ key m p → own_sight m a r p ≡ first_sight m p }
{}

/// The twist key is the least of the ranks' own twist keys.
pub fn twist_key_is_the_least_own_twist()
    ensures { (m : Mesh) (n : ℕ) (a : List ℕ) → IsAssignment m n a → least (filter_map (own_twist m a) (below n)) ≡ twist_key m }
{}

// ---- the home round

/// A point that a rank owns is shared just where its root has a leaf in the forest of shared points.
pub fn shared_points_have_leaves()
    ensures { (m : Mesh) (n : ℕ) (a : List ℕ) (r : ℕ) (i : ℕ) (d : Sight) → IsSoundMesh m → IsAssignment m n a → r < n → i < length (own_chart m (assigned m a r)) → owner m a (point_of (get_or (own_chart m (assigned m a r)) i d)) ≡ r → is_shared m a (point_of (get_or (own_chart m (assigned m a r)) i d)) ≡ nat_lt 0 (degree (point_forest m a (own_charts m a n)) r i) }
{}

/// The points of the home round's words stand rank by rank, faces before edges; a flat mesh has none for faces.
pub fn home_points_are_parts_of_ranks()
    ensures parts { (m : Mesh) (a : List ℕ) (n : ℕ) → home_points m a n ≡ flat_map (λ r. home_part m a r 2 ++ home_part m a r 1) (below n) }
    ensures flat { (m : Mesh) (a : List ℕ) (r : ℕ) → m.dim ≡ 2 → home_part m a r 2 ≡ [] }
{}

/// A rank's part of them is what it sees by itself, owns and shares, put in the order of vertices in whatever way.
pub fn home_parts_are_own_points_in_order()
    ensures { (m : Mesh) (a : List ℕ) (r : ℕ) (dim : ℕ) (points : List Point) → IsSoundMesh m → IsMiddle m dim → StandInOrder points → ((p : Point) → list_any (same_point p) points ≡ list_any (same_point p) (own_home m a r dim)) → points ≡ home_part m a r dim }
{}
