//! Laws of the fields of the points that ranks see of what they are given.
//!
//! Each function below does nothing: its contract is the law, and its proof is the law's.

ghost use Rattle.std.specs.Prelude.{◌≡◌, ◌<◌, ◌^◌, ◌++◌, ℕ, List, map, length};
ghost use Rattle.std.specs.List.{AllByRecursion};
ghost use Rattle.mesh_defs.specs.Mesh.{Mesh, Section};
ghost use Rattle.mesh_defs.specs.Points.{Point, Sight};
ghost use Rattle.mesh_defs.specs.RightMesh.{IsRightMesh};
ghost use Rattle.sf_ops.specs.Asked.{AreRootValues, CoverLeaves};
ghost use Rattle.plex_defs.specs.Fields.{AreRightDofs, fields, weight};
ghost use Rattle.rank_defs.specs.Ranks.{IsRightAssignment, assigned};
ghost use Rattle.rank_defs.specs.Spread.{PlainScatter, IsScatter, own_chart, point_forest, scatter_part};
ghost use Rattle.rank_chart_laws.specs.meeting_laws.Sets.{forest_of_sets};
ghost use Rattle.rank_laws.specs.share_laws.Charts.{own_charts};
ghost use Rattle.sf_defs.specs.sums.Sums.{AreSums};
ghost use Rattle.rank_chart_laws.specs.field_laws.Weights.{own_weights, rank_weights};
ghost use Rattle.interp_share.specs.own_field_laws.Own.{part_chart, part_data, part_dofs, part_points, part_weights, total_weights, whole_weights};

/// The own chart of a rank is the points of what the rank is given, and so are the weights of its own cells.
pub fn own_charts_are_of_parts()
    ensures points { (m : Mesh) (a : List ℕ) (r : ℕ) → IsRightMesh m → own_chart m (assigned m a r) ≡ part_points (scatter_part m a (assigned m a r)) }
    ensures weights { (m : Mesh) (a : List ℕ) (r : ℕ) → IsRightMesh m → own_weights m (assigned m a r) ≡ part_weights (scatter_part m a (assigned m a r)) }
{}

/// What ranks are given tells which points are the same.
pub fn parts_tell_the_shared_points()
    ensures { (s : PlainScatter) (m : Mesh) (dofs : List (List ℕ)) (a : List ℕ) (n : ℕ) → IsScatter s m dofs a n → point_forest m a (own_charts m a n) ≡ forest_of_sets (map part_chart s.parts) }
{}

/// There is a word of own weights for each point and each copy, and what these add up to over the copies are the weights of
/// the points.
pub fn sums_of_own_weights_are_weights()
    ensures roots { (m : Mesh) (a : List ℕ) (n : ℕ) → AreRootValues (point_forest m a (own_charts m a n)) (rank_weights m a n) }
    ensures leaves { (m : Mesh) (a : List ℕ) (n : ℕ) → CoverLeaves (point_forest m a (own_charts m a n)) (rank_weights m a n) }
    ensures sums { (m : Mesh) (a : List ℕ) (n : ℕ) (sums : List (List ℕ)) → IsRightMesh m → IsRightAssignment m n a → AreSums (point_forest m a (own_charts m a n)) (rank_weights m a n) sums → sums ≡ total_weights m a n }
{}

/// No weight reaches 2^40.
pub fn weights_are_low()
    ensures { (m : Mesh) (points : List Sight) → IsRightMesh m → AllByRecursion (λ w. w < 2 ^ 40) (whole_weights m points) }
{}

/// The fields of a rank's own points are the words of its rows, and then the multiples of the weights.
pub fn fields_are_by_parts()
    ensures { (m : Mesh) (dofs : List (List ℕ)) (a : List ℕ) (r : ℕ) → IsRightMesh m → AreRightDofs dofs → fields m dofs (own_chart m (assigned m a r)) ≡ part_data (map (λ (f : Section). (f.on, f.comps)) m.fields) (scatter_part m a (assigned m a r)) ++ part_dofs dofs (scatter_part m a (assigned m a r)) (whole_weights m (own_chart m (assigned m a r))) }
{}
