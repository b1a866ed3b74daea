//! Laws of forests and of meshes over ranks: what follows from the definitions alone.
//!
//! Each function below does nothing: its contract is the law, and its proof is the law's.
#![tactic(auto)]

pub mod cell_laws;
pub mod diagram_laws;
pub mod keyed_laws;
pub mod layer_laws;
pub mod meet_laws;
pub mod orient_laws;
pub mod reach_laws;
pub mod share_laws;
pub mod trace_laws;

ghost use Rattle.std.specs.Prelude.{◌≡◌, ◌≢◌, if◌then◌else◌, Bool, ◌↔◌, ◌==◌, ◌<◌, ◌≤◌, ℕ, ◌+◌, List, None, Some, Option, Contains, IsPermutation, length, map, slice_index, slice_index_or, filter, filter_map, flat_map, option_and_then, true};
ghost use Rattle.std.specs.List.{list_any};
ghost use Rattle.plain_lists.specs.Lists.{below, picked};
ghost use Rattle.mesh_defs.specs.Tables.{Facet, facets_of};
ghost use Rattle.mesh_defs.specs.Mesh.{Mesh, Cell, placed_cells};
ghost use Rattle.mesh_defs.specs.Points.{Point, Sight, point_on, point_of, shows, sights, key, arrangement};
ghost use Rattle.mesh_defs.specs.Diagram.{strata, chart, diagram, IsAccepted};
ghost use Rattle.mesh_defs.specs.Sights.{points_differ};
ghost use Rattle.plex_defs.specs.Closure.{IsArranged, arrangements};
ghost use Rattle.sf_defs.specs.Forest.{Forest, IsForest, root_at, leaves_on, MeansSame, FitsLocals, root_of, compose, invert, shared_root, is_kept, embed_roots, embed_leaves};
ghost use Rattle.rank_defs.specs.Ranks.{IsAssignment, least, assigned, held_cells, held, owner, owned, own_key};
ghost use Rattle.rank_defs.specs.Spread.{charts, point_forest, migration_forest, trace};
ghost use Rattle.rank_defs.specs.Home.{home_points, IsHomeRound};
ghost use Rattle.sf_defs.specs.Rounds.{Round};
ghost use Rattle.mesh_defs.specs.RightMesh.{UsesVertices, IsFlatOrSolid, IsSoundMesh, CellsDiffer, AreCells, in_some};

// ---- points

/// A point of a mesh stands in its chart under its key and with its arrangement.
pub fn points_stand_as_first_seen()
    ensures { (m : Mesh) (s : Sight) → Contains (strata m) s → (key m (point_of s) ≡ Some s.key) × (arrangement m (point_of s) ≡ Some s.arrangement) }
{}

/// No two points of the chart of a mesh of dimension 2 or 3 are one.
pub fn points_stand_once()
    ensures { (m : Mesh) → IsFlatOrSolid m → points_differ (strata m) ≡ true }
{}

/// The arrangements of an accepted mesh of sound cells arrange its diagram: closure and star, which are defined for
/// diagrams that lists arrange, may be taken by them. Where no two cells have the same vertices, they also arrange the
/// diagram of any of the cells, and so that of a rank.
pub fn arrangements_arrange_the_diagram()
    ensures all_cells { (m : Mesh) → IsSoundMesh m → IsAccepted m → IsArranged (diagram m (placed_cells m)) (arrangements (chart m (placed_cells m))) }
    ensures some_cells { (m : Mesh) (cells : List (ℕ × Cell)) → IsSoundMesh m → IsAccepted m → CellsDiffer m → AreCells m cells → IsArranged (diagram m cells) (arrangements (chart m cells)) }
    ensures cells_of_ranks { (m : Mesh) (a : List ℕ) (r k : ℕ) → IsSoundMesh m → IsAccepted m → CellsDiffer m → IsArranged (diagram m (held_cells m a r k)) (arrangements (held m a r k)) }
{}

// ---- what ranks hold and own

/// The owner of a point is no more than any rank with an assigned cell that contains the point.
pub fn owner_is_the_least_rank()
    ensures { (m : Mesh) (a : List ℕ) (r : ℕ) (p : Point) → in_some p (assigned m a r) ≡ true → owner m a p ≤ r }
{}

/// The owner of a point that stands in some cell is one of the ranks.
pub fn owners_are_ranks()
    ensures { (m : Mesh) (n : ℕ) (a : List ℕ) (p : Point) → IsAssignment m n a → in_some p (placed_cells m) ≡ true → owner m a p < n }
{}

/// The owner of a point that stands in some cell holds it without overlap.
pub fn owner_holds_its_points()
    ensures { (m : Mesh) (a : List ℕ) (s : Sight) → Contains (strata m) s → in_some (point_of s) (placed_cells m) ≡ true → Contains (held m a (owner m a (point_of s)) 0) s }
{}

/// The owned points of the ranks are all points, each once.
pub fn owned_points_are_all_points()
    ensures { (m : Mesh) (n : ℕ) (a : List ℕ) → UsesVertices m → IsAssignment m n a → IsPermutation (strata m) (flat_map (owned m a) (below n)) }
{}

/// The chart with k layers is the part of the chart with one more layer that the cells with k layers contain.
pub fn charts_grow()
    ensures { (m : Mesh) (a : List ℕ) (r : ℕ) (k : ℕ) → filter (λ s. in_some (point_of s) (held_cells m a r k)) (held m a r (k + 1)) ≡ held m a r k }
{}

/// A rank that holds a point holds the points that it covers, with any overlap, so that cones stay within charts.
pub fn charts_are_closed()
    ensures { (m : Mesh) (a : List ℕ) (r : ℕ) (k : ℕ) → IsSoundMesh m → IsAccepted m → CellsDiffer m → (s : Sight) (f : Facet) → Contains (held m a r k) s → Contains (facets_of s.poly) f → list_any (shows (point_on f.poly (picked s.arrangement f.corners))) (held m a r k) ≡ true }
{}

/// Of the points that a rank holds with k layers, those that it owns are its owned points, in the same order.
pub fn owned_points_keep_their_order()
    ensures { (m : Mesh) (a : List ℕ) (r : ℕ) (k : ℕ) → filter (λ s. owner m a (point_of s) == r) (held m a r k) ≡ owned m a r }
{}

/// A rank's own key for a face or an edge is the least key under which its assigned cells see it.
pub fn own_key_is_least()
    ensures { (m : Mesh) (a : List ℕ) (r : ℕ) (p : Point) (s : Sight) → Contains (sights (assigned m a r)) s → shows p s ≡ true → (k : ℕ) × (own_key m a r p ≡ Some k) × (k ≤ s.key) }
{}

/// The key of a face or an edge is the least of the ranks' own least keys.
pub fn key_is_the_least_own_key()
    ensures { (m : Mesh) (n : ℕ) (a : List ℕ) (p : Point) → p.dim ≢ 0 → IsAssignment m n a → least (filter_map (λ r. own_key m a r p) (below n)) ≡ key m p }
{}

/// After every legal home round the last value of each word is the key of the word's point.
pub fn home_round_gives_the_keys()
    ensures { (m : Mesh) (n : ℕ) (a : List ℕ) (r : Round) → IsAssignment m n a → IsHomeRound m a n r → (w : ℕ) (d : Point) → w < length (home_points m a n) → key m (slice_index_or (home_points m a n) w d) ≡ Some (slice_index r.after w) }
{}

// ---- forests of points

/// The forest of shared points is a forest: ghosts have places of their own, and their roots are there.
pub fn point_forests_are_forests()
    ensures { (m : Mesh) (n : ℕ) (a : List ℕ) (k : ℕ) → IsAssignment m n a → IsForest (point_forest m a (charts m a n k)) }
{}

/// The forest of a redistribution is a forest.
pub fn redistributions_are_forests()
    ensures { (m : Mesh) (n : ℕ) (a : List ℕ) (b : List ℕ) → IsAssignment m n a → IsForest (migration_forest m a b n) }
{}

/// In the forest of a redistribution from the first assignment the roots of a rank's leaves are the traces of its owned points.
pub fn roots_are_traces()
    ensures { (m : Mesh) (n : ℕ) (a : List ℕ) (b : List ℕ) (r : ℕ) → r < n → map root_at (leaves_on (migration_forest m a b n) r) ≡ map (λ s. trace m a n (point_of s)) (owned m b r) }
{}

/// A redistribution from a to b and then one from b to c are the redistribution from a to c.
pub fn redistributions_compose()
    ensures { (m : Mesh) (n : ℕ) (a : List ℕ) (b : List ℕ) (c : List ℕ) → IsAssignment m n b → compose (migration_forest m a b n) (migration_forest m b c n) ≡ migration_forest m a c n }
{}

// ---- forests

/// What a composition looks up is what the second forest looks up, looked up in the first.
pub fn composition_is_of_maps()
    ensures { (a : Forest) (b : Forest) → IsForest b → (rank : ℕ) (local : ℕ) → root_of (compose a b) rank local ≡ option_and_then (λ (r : ℕ × ℕ). root_of a r.0 r.1) (root_of b rank local) }
{}

/// Composition is associative, list by list.
pub fn composition_is_associative()
    ensures { (a : Forest) (b : Forest) (c : Forest) → IsForest b → compose (compose a b) c ≡ compose a (compose b c) }
{}

/// In the inverse of a forest without shared roots a root looks up a leaf just where the leaf looks up the root.
pub fn inverse_is_the_converse()
    ensures { (f : Forest) (roots : List ℕ) → IsForest f → shared_root f ≡ None → (r : ℕ) (i : ℕ) (s : ℕ) (l : ℕ) → (root_of (invert f roots) r i ≡ Some (s, l)) ↔ (root_of f s l ≡ Some (r, i)) }
{}

/// Inverting twice gives a forest that means the same.
pub fn inverting_twice_means_the_same()
    ensures { (f : Forest) (roots : List ℕ) → IsForest f → shared_root f ≡ None → FitsLocals f roots → MeansSame (invert (invert f roots) f.roots) f }
{}

/// Embedding by roots is restriction to the leaves on kept roots.
pub fn embedding_is_restriction()
    ensures { (f : Forest) (keep : List (List Bool)) → IsForest f → (rank : ℕ) (local : ℕ) → root_of (embed_roots f keep) rank local ≡ option_and_then (λ (root : ℕ × ℕ). if is_kept keep root then Some root else None) (root_of f rank local) }
{}

/// What composition, inversion and embedding make of forests are forests.
pub fn forests_are_made_of_forests()
    ensures compositions { (a : Forest) (b : Forest) → IsForest a → IsForest b → IsForest (compose a b) }
    ensures inverses { (f : Forest) (roots : List ℕ) → IsForest f → FitsLocals f roots → IsForest (invert f roots) }
    ensures embeddings_by_root { (f : Forest) (keep : List (List Bool)) → IsForest f → IsForest (embed_roots f keep) }
    ensures embeddings_by_place { (f : Forest) (keep : List (List Bool)) → IsForest f → IsForest (embed_leaves f keep) }
{}
