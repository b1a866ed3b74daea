//! Laws of traces: what a rank's owned points keep of the first assignment, leaf by leaf.
//!
//! Each function below does nothing: its contract is the law, and its proof is the law's.

ghost use Rattle.std.specs.Prelude.{◌≡◌, ◌<◌, ℕ, List, length, map};
ghost use Rattle.mesh_defs.specs.Mesh.{Mesh};
ghost use Rattle.mesh_defs.specs.Points.{Sight, point_of};
ghost use Rattle.mesh_defs.specs.RightMesh.{IsFlatOrSolid};
ghost use Rattle.sf_defs.specs.Forest.{leaf, leaves_on, compose};
ghost use Rattle.rank_defs.specs.Ranks.{IsAssignment, held, owned};
ghost use Rattle.rank_defs.specs.Spread.{charts, owned_places, migration_forest, trace};

/// A redistribution has the points of the old charts as roots, and a leaf for each point that a rank owns next, at its place
/// there, on the point's trace.
pub fn leaves_are_owned_points()
    ensures roots { (m : Mesh) (n : ℕ) (a : List ℕ) (b : List ℕ) → (migration_forest m a b n).roots ≡ map length (charts m a n 0) }
    ensures leaves { (m : Mesh) (n : ℕ) (a : List ℕ) (b : List ℕ) (r : ℕ) → r < n → leaves_on (migration_forest m a b n) r ≡ map (λ (s : ℕ × Sight). leaf s.0 (trace m a n (point_of s.1))) (owned_places m b r (held m b r 0)) }
{}

/// Leaf i of a rank belongs to point i of those that it owns, whatever the overlap.
pub fn owned_places_are_of_owned_points()
    ensures { (m : Mesh) (a : List ℕ) (r : ℕ) (k : ℕ) → map (λ (s : ℕ × Sight). s.1) (owned_places m a r (held m a r k)) ≡ owned m a r }
{}

/// The first trace is the redistribution from the first assignment to itself: each point that a rank owns, on itself, by its
/// place there.
pub fn first_traces_are_own_places()
    ensures { (m : Mesh) (n : ℕ) (a : List ℕ) (r : ℕ) → IsFlatOrSolid m → r < n → leaves_on (migration_forest m a a n) r ≡ map (λ (s : ℕ × Sight). leaf s.0 (r, s.0)) (owned_places m a r (held m a r 0)) }
{}

/// A redistribution after the first trace is that redistribution, and one after a trace is the next trace.
pub fn traces_go_on()
    ensures first { (m : Mesh) (n : ℕ) (a : List ℕ) (b : List ℕ) → IsAssignment m n a → compose (migration_forest m a a n) (migration_forest m a b n) ≡ migration_forest m a b n }
    ensures next { (m : Mesh) (n : ℕ) (a : List ℕ) (b : List ℕ) (c : List ℕ) → IsAssignment m n b → compose (migration_forest m a b n) (migration_forest m b c n) ≡ migration_forest m a c n }
{}
