//! What ranks are given, and the points that they have, in the words of their charts.
//!
//! Each function below does nothing: its contract is the law, and its proof is the law's.
ghost use Rattle.std.specs.Prelude.{◌≡◌, ◌<◌, ◌^◌, ℕ, List, length, map};
ghost use Rattle.std.specs.List.{AllByRecursion};
ghost use Rattle.mesh_defs.specs.Mesh.{Mesh};
ghost use Rattle.mesh_defs.specs.Points.{point_of};
ghost use Rattle.mesh_defs.specs.RightMesh.{IsRightMesh};
ghost use Rattle.local_points.specs.Cells.{AreFit};
ghost use Rattle.rank_defs.specs.Ranks.{assigned};
ghost use Rattle.rank_defs.specs.Spread.{PlainScatter, ScatterPart, own_chart, scatter_part, IsScatter};
ghost use Rattle.dist_state.specs.scatter_state.Whole.{part_at};
ghost use Rattle.interp_share.specs.rank_points.Seen.{part_points, part_sets};

/// The points of a rank's own chart are its cells, the vertices that it is given, and the faces and edges
/// that its cells see; so are their sets of vertices.
pub fn own_charts_by_strata()
    ensures points { (m : Mesh) (a : List ℕ) (r : ℕ) → IsRightMesh m → own_chart m (assigned m a r) ≡ part_points (scatter_part m a (assigned m a r)) }
    ensures sets { (m : Mesh) (a : List ℕ) (r : ℕ) → IsRightMesh m → part_sets (scatter_part m a (assigned m a r)) ≡ map (λ s. (point_of s).vertices) (own_chart m (assigned m a r)) }
    ensures few { (m : Mesh) (a : List ℕ) (r : ℕ) → IsRightMesh m → length (own_chart m (assigned m a r)) < 2 ^ 32 }
{}

/// Each rank of a scatter is given the part of its cells, which fit the faces and edges of local points,
/// and has the points of its own chart.
pub fn scatters_give_parts()
    ensures ranks { (s : PlainScatter) (m : Mesh) (dofs : List (List ℕ)) (a : List ℕ) (n : ℕ) → IsScatter s m dofs a n → length s.parts ≡ n }
    ensures parts { (s : PlainScatter) (m : Mesh) (dofs : List (List ℕ)) (a : List ℕ) (n : ℕ) → IsScatter s m dofs a n → (r : ℕ) → r < n → part_at s.parts r ≡ scatter_part m a (assigned m a r) }
    ensures fit { (s : PlainScatter) (m : Mesh) (dofs : List (List ℕ)) (a : List ℕ) (n : ℕ) → IsScatter s m dofs a n → AllByRecursion (λ (part : ScatterPart). AreFit part.cells) s.parts }
    ensures points { (s : PlainScatter) (m : Mesh) (dofs : List (List ℕ)) (a : List ℕ) (n : ℕ) → IsScatter s m dofs a n → (r : ℕ) → r < n → own_chart m (assigned m a r) ≡ part_points (part_at s.parts r) }
    ensures few { (s : PlainScatter) (m : Mesh) (dofs : List (List ℕ)) (a : List ℕ) (n : ℕ) → IsScatter s m dofs a n → (r : ℕ) → r < n → length (part_points (part_at s.parts r)) < 2 ^ 32 }
{}
