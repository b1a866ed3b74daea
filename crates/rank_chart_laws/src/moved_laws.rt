//! Laws of points that a rank puts in another order: its labels, fields and forest of shared points move with them.
//!
//! Each function below does nothing: its contract is the law, and its proof is the law's.

ghost use Rattle.std.specs.Prelude.{◌≡◌, ◌<◌, ℕ, List, [], map, length, unwrap_or};
ghost use Rattle.mesh_defs.specs.Mesh.{Mesh};
ghost use Rattle.mesh_defs.specs.Points.{Sight, point_of, key};
ghost use Rattle.mesh_defs.specs.RightMesh.{IsRightMesh};
ghost use Rattle.plex_defs.specs.Labels.{mesh_label};
ghost use Rattle.plex_defs.specs.Fields.{fields};
ghost use Rattle.rank_defs.specs.Ranks.{IsRightAssignment, assigned, held, owner};
ghost use Rattle.rank_defs.specs.Spread.{own_chart, charts, labels, point_forest};
ghost use Rattle.rank_laws.specs.share_laws.Charts.{own_charts};
ghost use Rattle.rank_chart_laws.specs.moved_laws.Moves.{IsReordering, moved_list, moved_label, moved_forest};
ghost use Rattle.rank_chart_laws.specs.moved_laws.Sames.{AreSamePoints, HaveSameNumbers, moves_between, rank_moves, all_moves};

// ---- two charts of the same points

/// Where two charts have the same points, the moves from one to the other put as many places in another order.
pub fn moves_between_charts_reorder()
    ensures order { (old : List Sight) (new : List Sight) → AreSamePoints old new → IsReordering (moves_between old new) }
    ensures as_many { (old : List Sight) (new : List Sight) → AreSamePoints old new → length new ≡ length old }
{}

/// The label of one dimension moves with the points.
pub fn labels_move()
    ensures { (m : Mesh) (dim : ℕ) (old : List Sight) (new : List Sight) → AreSamePoints old new → mesh_label m dim new ≡ moved_label (moves_between old new) (mesh_label m dim old) }
{}

/// The words of all fields move with the points, where cells and vertices have the same keys.
pub fn fields_move()
    ensures { (m : Mesh) (dofs : List (List ℕ)) (old : List Sight) (new : List Sight) → AreSamePoints old new → HaveSameNumbers m old new → fields m dofs new ≡ map (moved_list [] (moves_between old new)) (fields m dofs old) }
{}

/// So do the owners of points.
pub fn owners_move()
    ensures { (m : Mesh) (a : List ℕ) (old : List Sight) (new : List Sight) → AreSamePoints old new → map (λ s. owner m a (point_of s)) new ≡ moved_list 0 (moves_between old new) (map (λ s. owner m a (point_of s)) old) }
{}

// ---- the charts of a rank

/// A rank's own chart and its chart in the order of keys have the same points, and in both cells and vertices
/// have the same keys.
pub fn charts_of_a_rank_have_the_same_points()
    ensures points { (m : Mesh) (a : List ℕ) (r : ℕ) → IsRightMesh m → AreSamePoints (own_chart m (assigned m a r)) (held m a r 0) }
    ensures numbers { (m : Mesh) (a : List ℕ) (r : ℕ) → IsRightMesh m → HaveSameNumbers m (own_chart m (assigned m a r)) (held m a r 0) }
{}

/// The labels, the fields, the owners and the keys of a rank's points in the order of keys are those of its own
/// chart, moved.
pub fn what_a_rank_has_moves()
    ensures label { (m : Mesh) (a : List ℕ) (r : ℕ) (dim : ℕ) → IsRightMesh m → mesh_label m dim (held m a r 0) ≡ moved_label (rank_moves m a r) (mesh_label m dim (own_chart m (assigned m a r))) }
    ensures labels { (m : Mesh) (a : List ℕ) (r : ℕ) → IsRightMesh m → labels m (held m a r 0) ≡ map (moved_label (rank_moves m a r)) (labels m (own_chart m (assigned m a r))) }
    ensures fields { (m : Mesh) (dofs : List (List ℕ)) (a : List ℕ) (r : ℕ) → IsRightMesh m → fields m dofs (held m a r 0) ≡ map (moved_list [] (rank_moves m a r)) (fields m dofs (own_chart m (assigned m a r))) }
    ensures owners { (m : Mesh) (a : List ℕ) (r : ℕ) → IsRightMesh m → map (λ s. owner m a (point_of s)) (held m a r 0) ≡ moved_list 0 (rank_moves m a r) (map (λ s. owner m a (point_of s)) (own_chart m (assigned m a r))) }
    ensures keys { (m : Mesh) (a : List ℕ) (r : ℕ) → IsRightMesh m → map (λ (s : Sight). s.key) (held m a r 0) ≡ moved_list 0 (rank_moves m a r) (map (λ s. unwrap_or (key m (point_of s)) 0) (own_chart m (assigned m a r))) }
{}

/// The forest of shared points over the charts in the order of keys is that over the own charts, moved.
pub fn forests_move()
    ensures { (m : Mesh) (n : ℕ) (a : List ℕ) → IsRightMesh m → IsRightAssignment m n a → point_forest m a (charts m a n 0) ≡ moved_forest (all_moves m a n) (point_forest m a (own_charts m a n)) }
{}
