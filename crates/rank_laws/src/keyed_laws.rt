//! Laws of charts by keys: what ranks tell each other of points when a mesh is redistributed.
//!
//! Each function below does nothing: its contract is the law, and its proof is the law's.

ghost use Rattle.std.specs.Prelude.{◌≡◌, ℕ, ◌==◌, Bool, List, Some, Contains, length, filter, flat_map, map, true};
ghost use Rattle.std.specs.List.{list_any, AllByRecursion};
ghost use Rattle.plain_lists.specs.Lists.{below};
ghost use Rattle.mesh_defs.specs.Mesh.{Mesh, Cell};
ghost use Rattle.mesh_defs.specs.Points.{Point, Sight, key};
ghost use Rattle.mesh_defs.specs.Diagram.{chart, diagram, place_in, IsAccepted};
ghost use Rattle.mesh_defs.specs.RightMesh.{IsFlatOrSolid, IsSoundMesh, CellsDiffer, AreCells, in_some};
ghost use Rattle.sf_defs.specs.Asks.{IsRising};
ghost use Rattle.rank_defs.specs.Ranks.{IsAssignment, rank_of, assigned};
ghost use Rattle.rank_laws.specs.orient_laws.Named.{keys_of, chart_stratum};
ghost use Rattle.rank_laws.specs.keyed_laws.Keyed.{KeyedPoint, KeyedChart, point_keys, keyed_point, keyed_stratum, keyed_chart, IsKeyedPoint, IsToldChart, keyed_place, diagram_of_keyed, keyed_at};

// ---- numbers

/// The number of a point in the chart of some cells is told by its key: the place of the key in its stratum, behind what stands
/// before the stratum.
pub fn keys_tell_places()
    ensures { (m : Mesh) (cells : List (ℕ × Cell)) (p : Point) (k : ℕ) → IsSoundMesh m → AreCells m cells → in_some p cells ≡ true → key m p ≡ Some k → place_in (chart m cells) p ≡ keyed_place (keyed_chart m cells) p.dim k }
{}

/// The diagram of some cells of an accepted mesh is told by their chart by keys.
pub fn keyed_charts_tell_diagrams()
    ensures { (m : Mesh) (cells : List (ℕ × Cell)) → IsSoundMesh m → IsAccepted m → CellsDiffer m → AreCells m cells → diagram_of_keyed (keyed_chart m cells) ≡ diagram m cells }
{}

/// What there is to tell of the points of a chart can be read off its diagram and the keys of its numbers.
pub fn diagrams_and_keys_tell_points()
    ensures { (m : Mesh) (cells : List (ℕ × Cell)) → IsSoundMesh m → IsAccepted m → CellsDiffer m → AreCells m cells → map (keyed_at (diagram m cells) (keys_of (chart m cells))) (below (length (chart m cells))) ≡ map (keyed_point m) (chart m cells) }
{}

// ---- points by rising key

/// Points by rising key are one list where they are the same points.
pub fn keyed_points_stand_one_way()
    ensures { (xs : List KeyedPoint) (ys : List KeyedPoint) → IsRising (point_keys xs) → IsRising (point_keys ys) → ((q : KeyedPoint) → Contains xs q → Contains ys q) → ((q : KeyedPoint) → Contains ys q → Contains xs q) → xs ≡ ys }
{}

/// Points of a mesh in one dimension are the stratum of some cells where their keys are the keys of the stratum, rising:
/// whoever told of a point, it is told alike.
pub fn keys_tell_strata()
    ensures { (m : Mesh) (cells : List (ℕ × Cell)) (dim : ℕ) (qs : List KeyedPoint) → AllByRecursion (IsKeyedPoint m dim) qs → point_keys qs ≡ keys_of (chart_stratum m cells dim) → qs ≡ keyed_stratum m cells dim }
{}

/// Points of a mesh that have the keys of the strata of some cells, in order, make the chart of the cells by keys.
pub fn told_points_make_charts()
    ensures { (m : Mesh) (cells : List (ℕ × Cell)) (x : KeyedChart) → IsToldChart m cells x → x ≡ keyed_chart m cells }
{}

// ---- charts of cells from several lists

/// What the chart of cells from several lists has in one dimension, the charts of the lists have.
pub fn unions_have_the_points_of_their_parts()
    ensures { (m : Mesh) (parts : List (List (ℕ × Cell))) (dim : ℕ) (test : Sight → Bool) → list_any test (chart_stratum m (flat_map (λ part. part) parts) dim) ≡ list_any (λ part. list_any test (chart_stratum m part dim)) parts }
{}

/// Rising numbers that are the keys of the charts of several lists of cells, each once, are the keys of the chart of all of them.
pub fn unions_have_the_keys_of_their_parts()
    ensures { (m : Mesh) (parts : List (List (ℕ × Cell))) (dim : ℕ) (keys : List ℕ) → IsRising keys → ((k : ℕ) → list_any (λ j. k == j) keys ≡ list_any (λ part. list_any (λ j. k == j) (keys_of (chart_stratum m part dim))) parts) → keys ≡ keys_of (chart_stratum m (flat_map (λ part. part) parts) dim) }
{}

/// A chart depends on which cells there are alone, in whatever order and however often.
pub fn charts_depend_on_which_cells()
    ensures charts { (m : Mesh) (xs : List (ℕ × Cell)) (ys : List (ℕ × Cell)) → ((test : ℕ × Cell → Bool) → list_any test xs ≡ list_any test ys) → chart m xs ≡ chart m ys }
    ensures strata { (m : Mesh) (xs : List (ℕ × Cell)) (ys : List (ℕ × Cell)) (dim : ℕ) → ((test : ℕ × Cell → Bool) → list_any test xs ≡ list_any test ys) → chart_stratum m xs dim ≡ chart_stratum m ys dim }
{}

/// The chart that a rank has after a redistribution is that of the cells which the ranks give it, each of those that it had.
pub fn ranks_give_each_other_charts()
    ensures { (m : Mesh) (n : ℕ) (a : List ℕ) (b : List ℕ) (r : ℕ) → IsAssignment m n a → chart m (assigned m b r) ≡ chart m (flat_map (λ q. filter (λ c. rank_of b c == r) (assigned m a q)) (below n)) }
{}

/// Rising numbers that are the keys of the charts of the cells which the ranks give to a rank are the keys of its new chart.
pub fn ranks_give_each_other_keys()
    ensures { (m : Mesh) (n : ℕ) (a : List ℕ) (b : List ℕ) (r : ℕ) (dim : ℕ) (keys : List ℕ) → IsAssignment m n a → IsRising keys → ((k : ℕ) → list_any (λ j. k == j) keys ≡ list_any (λ q. list_any (λ j. k == j) (keys_of (chart_stratum m (filter (λ c. rank_of b c == r) (assigned m a q)) dim))) (below n)) → keys ≡ keys_of (chart_stratum m (assigned m b r) dim) }
{}
