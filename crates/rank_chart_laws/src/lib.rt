//! Laws between the points that ranks see of a mesh and the sets of vertices by which they meet.
//!
//! Each function below does nothing: its contract is the law, and its proof is the law's.
#![tactic(auto)]

pub mod field_laws;
pub mod home_laws;
pub mod key_laws;
pub mod label_laws;
pub mod mark_laws;
pub mod meeting_laws;
pub mod moved_laws;
pub mod rank_diagram_laws;

ghost use Rattle.std.specs.Prelude.{◌≡◌, ◌<◌, ℕ, List, length};
ghost use Rattle.std.specs.List.{AllByRecursion};
ghost use Rattle.mesh_defs.specs.Mesh.{Mesh};
ghost use Rattle.mesh_defs.specs.Points.{Sight, point_of};
ghost use Rattle.mesh_defs.specs.RightMesh.{CellsDiffer, IsRightMesh, IsSoundMesh};
ghost use Rattle.rank_defs.specs.Ranks.{IsAssignment, IsRightAssignment, assigned};
ghost use Rattle.rank_defs.specs.Spread.{own_chart, own_stratum, point_forest, scatter_part, vertices_among};
ghost use Rattle.rank_laws.specs.share_laws.Charts.{first_holder, own_charts, points_of};
ghost use Rattle.rank_chart_laws.specs.meeting_laws.Sets.{AreRankCharts, forest_of_sets};
ghost use Rattle.rank_chart_laws.specs.OwnRanks.{own_rank_chart, own_rank_charts};

/// A cell is on its own rank alone: the first rank whose chart has it is the rank to which it is assigned.
pub fn cells_are_on_one_rank()
    ensures { (m : Mesh) (n : ℕ) (a : List ℕ) (r : ℕ) → IsSoundMesh m → CellsDiffer m → IsAssignment m n a → r < n → AllByRecursion (λ (s : Sight). first_holder (points_of (own_charts m a n)) (point_of s) ≡ r) (own_stratum (assigned m a r) m.dim) }
{}

/// What the ranks of a right mesh have by their own cells are right charts: the ranks may meet.
pub fn ranks_of_a_mesh_may_meet()
    ensures { (m : Mesh) (n : ℕ) (a : List ℕ) → IsRightMesh m → IsRightAssignment m n a → AreRankCharts (own_rank_charts m a n) }
{}

/// The forest of shared points is that which the sets of vertices below the cells tell.
pub fn sets_tell_the_shared_points()
    ensures { (m : Mesh) (n : ℕ) (a : List ℕ) → IsRightMesh m → IsRightAssignment m n a → point_forest m a (own_charts m a n) ≡ forest_of_sets (own_rank_charts m a n) }
{}

/// What a rank is given of a sound mesh has the cells, the vertices and the owners of the rank's chart.
pub fn ranks_are_given_their_charts()
    ensures cells { (m : Mesh) (a : List ℕ) (r : ℕ) → (own_rank_chart m a r).cells ≡ length (scatter_part m a (assigned m a r)).cells }
    ensures vertices { (m : Mesh) (a : List ℕ) (r : ℕ) → IsSoundMesh m → (own_rank_chart m a r).vertices ≡ (scatter_part m a (assigned m a r)).vertices }
    ensures owners { (m : Mesh) (a : List ℕ) (r : ℕ) → IsSoundMesh m → (own_rank_chart m a r).owners ≡ (scatter_part m a (assigned m a r)).owners }
    ensures own_vertices { (m : Mesh) (a : List ℕ) (r : ℕ) → IsSoundMesh m → (own_rank_chart m a r).vertices ≡ vertices_among (own_chart m (assigned m a r)) }
{}
