//! Laws of labels and fields over ranks.
//!
//! Each function below does nothing: its contract is the law, and its proof is the law's.

ghost use Rattle.std.specs.Prelude.{◌≡◌, ◌<◌, ℕ, List, length, get_or, sum_by};
ghost use Rattle.plain_lists.specs.Lists.{below};
ghost use Rattle.mesh_defs.specs.Mesh.{Mesh, Cell};
ghost use Rattle.mesh_defs.specs.Points.{Point, point_of};
ghost use Rattle.mesh_defs.specs.RightMesh.{IsFlatOrSolid, IsSoundMesh, IsRightMesh, AreCells};
ghost use Rattle.plex_defs.specs.Fields.{weight};
ghost use Rattle.plex_defs.specs.Labels.{label_of, mesh_label};
ghost use Rattle.rank_defs.specs.Ranks.{IsAssignment, IsRightAssignment, assigned};
ghost use Rattle.rank_defs.specs.Spread.{own_chart, point_forest};
ghost use Rattle.rank_chart_laws.specs.label_laws.Marks.{marked_pairs};
ghost use Rattle.rank_laws.specs.share_laws.Charts.{own_charts};
ghost use Rattle.sf_defs.specs.sums.Sums.{home, sum_at, SumsFit};
ghost use Rattle.rank_chart_laws.specs.field_laws.Kept.{kept_marks};
ghost use Rattle.rank_chart_laws.specs.field_laws.Weights.{weight_in, rank_weights, point_at};

/// The weight of a point is the sum over all ranks of what their own cells give it.
pub fn weights_add_up_over_ranks()
    ensures { (m : Mesh) (n : ℕ) (a : List ℕ) (p : Point) → IsAssignment m n a → weight m p ≡ sum_by (λ r. weight_in (assigned m a r) p) (below n) }
{}

/// Where each rank has the weights of its own cells at the points that it sees, the sum over the copies of
/// a point is its weight.
pub fn copies_add_up_to_weights()
    ensures { (m : Mesh) (n : ℕ) (a : List ℕ) (r : ℕ) (i : ℕ) → IsFlatOrSolid m → IsSoundMesh m → IsAssignment m n a → r < n → i < length (own_chart m (assigned m a r)) → sum_at (point_forest m a (own_charts m a n)) (rank_weights m a n) (home (point_forest m a (own_charts m a n)) r i) ≡ weight m (point_at (own_chart m (assigned m a r)) i) }
{}

/// These sums are below 2^64.
pub fn sums_over_copies_fit()
    ensures { (m : Mesh) (n : ℕ) (a : List ℕ) → IsFlatOrSolid m → IsRightMesh m → IsRightAssignment m n a → SumsFit (point_forest m a (own_charts m a n)) (rank_weights m a n) }
{}

/// The labels of the points that some cells see by themselves are those of the marks on points of these
/// cells, by the places of the marks' points.
pub fn kept_marks_make_the_labels()
    ensures { (m : Mesh) (cells : List (ℕ × Cell)) (dim : ℕ) → IsFlatOrSolid m → IsSoundMesh m → AreCells m cells → mesh_label m dim (own_chart m cells) ≡ label_of (marked_pairs (own_chart m cells) dim (kept_marks m cells)) }
{}
