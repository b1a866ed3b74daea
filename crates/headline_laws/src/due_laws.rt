//! Rounds that are due may be run.
//!
//! Each function below does nothing: its contract is the law, and its proof is the law's.

ghost use Rattle.std.specs.Prelude.{◌≤◌, ◌*◌, ◌∷◌, ℕ, List, [], length, map};
ghost use Rattle.mesh_defs.specs.Mesh.{Mesh};
ghost use Rattle.mesh_defs.specs.Diagram.{strata};
ghost use Rattle.mesh_defs.specs.RightMesh.{IsSoundMesh, IsRightMesh};
ghost use Rattle.plain_lists.specs.Lists.{below};
ghost use Rattle.sf_defs.specs.Rounds.{MeetsConditions};
ghost use Rattle.rank_defs.specs.Ranks.{IsRightAssignment};
ghost use Rattle.rank_defs.specs.Home.{home_points, home_words, home_asks, number_asks};

/// A sound mesh has at most 8 vertices and 27 points for each cell.
pub fn cells_have_few_points()
    ensures vertices { (m : Mesh) → IsSoundMesh m → length m.at ≤ 8 * length m.cells }
    ensures points { (m : Mesh) → IsSoundMesh m → length (strata m) ≤ 27 * length m.cells }
{}

/// The home round meets the conditions of a round.
pub fn home_rounds_may_be_run()
    ensures { (m : Mesh) (a : List ℕ) (n : ℕ) → IsRightMesh m → IsRightAssignment m n a → MeetsConditions (home_words m a (home_points m a n)) (map (home_asks m a (home_points m a n)) (below n)) }
{}

/// So does the number round.
pub fn number_rounds_may_be_run()
    ensures { (m : Mesh) (a : List ℕ) (n : ℕ) → IsRightMesh m → IsRightAssignment m n a → MeetsConditions (0 ∷ []) (number_asks m a n) }
{}
