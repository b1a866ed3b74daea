//! What the points of some cells are once they stand by key.
//!
//! The function below does nothing: its contract is the law, and its proof is the law's.

ghost use Rattle.std.specs.Prelude.{◌≡◌, ℕ, List, map};
ghost use Rattle.mesh_defs.specs.Mesh.{Mesh, Cell};
ghost use Rattle.mesh_defs.specs.RightMesh.{IsSoundMesh, AreCells};
ghost use Rattle.rank_laws.specs.orient_laws.Named.{seen_first};
ghost use Rattle.local_points.specs.Points.{faces_among, edges_among};
ghost use Rattle.rank_cones.specs.held_points.Held.{Held, AreByKey, held_of};

/// The faces and edges of cells of a mesh, each as the whole mesh sees it first, are by key the strata of the cells' chart, and each
/// goes to its place there. A flat mesh has no faces beside its cells.
pub fn points_by_key_are_a_chart()
    ensures { (m : Mesh) (cells : List (ℕ × Cell)) (held : Held) → IsSoundMesh m → AreCells m cells → AreByKey (map (seen_first m) (faces_among cells)) held.faces held.face_moves → AreByKey (map (seen_first m) (edges_among cells)) held.edges held.edge_moves → held ≡ held_of m cells }
{}
