//! Laws of what ranks are given before they know which points they share: cells, vertices, owners, marks.
//!
//! Each function below does nothing: its contract is the law, and its proof is the law's.

ghost use Rattle.std.specs.Prelude.{◌≡◌, ℕ, ◌<◌, ◌^◌, List, length, get_or};
ghost use Rattle.mesh_defs.specs.Mesh.{Mesh, Cell};
ghost use Rattle.mesh_defs.specs.RightMesh.{IsRightMesh, AreCells};
ghost use Rattle.sf_defs.specs.Rounds.{Round, MeetsConditions, IsLegal};
ghost use Rattle.rank_defs.specs.Ranks.{IsRightAssignment, owner};
ghost use Rattle.rank_defs.specs.Spread.{scatter_part};
ghost use Rattle.headline_laws.specs.seed_laws.Given.{given, vertex_point};
ghost use Rattle.headline_laws.specs.seed_laws.Asked.{before_owners, holder_asks};

/// What a rank is given that holds some cells of a right mesh: the vertices that some of them has, and the marks on points
/// that some of them contains.
pub fn parts_go_by_cells()
    ensures { (m : Mesh) (a : List ℕ) (cells : List (ℕ × Cell)) → IsRightMesh m → AreCells m cells → scatter_part m a cells ≡ given m a cells }
{}

/// What ranks ask at the vertices that they hold meets the conditions of a round.
pub fn holders_may_ask()
    ensures { (m : Mesh) (a : List ℕ) (n : ℕ) → IsRightAssignment m n a → length m.at < 2 ^ 32 → MeetsConditions (before_owners m) (holder_asks m a n) }
{}

/// The last values of a legal round in which each rank asks the minimum with its own number at each vertex that it holds are
/// the owners of the vertices.
pub fn owners_are_the_least_holders()
    ensures { (m : Mesh) (a : List ℕ) (n : ℕ) (r : Round) → IsRightMesh m → IsRightAssignment m n a → IsLegal r → r.before ≡ before_owners m → r.asks ≡ holder_asks m a n → (v : ℕ) → v < length m.at → get_or r.after v 0 ≡ owner m a (vertex_point v) }
{}
