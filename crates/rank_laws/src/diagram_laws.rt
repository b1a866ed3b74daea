//! Laws of the diagram of a whole mesh: its strata, cones and twist by the places of first sights.
//!
//! Each function below does nothing: its contract is the law, and its proof is the law's.

ghost use Rattle.std.specs.Prelude.{◌≡◌, ℕ, List, map};
ghost use Rattle.mesh_defs.specs.declared.Poly.{Poly};
ghost use Rattle.mesh_defs.specs.Tables.{dim_of};
ghost use Rattle.mesh_defs.specs.Mesh.{Mesh, placed_cells};
ghost use Rattle.mesh_defs.specs.Points.{Sight};
ghost use Rattle.mesh_defs.specs.Diagram.{chart, seen_under, twist_key, diagram};
ghost use Rattle.mesh_defs.specs.RightMesh.{IsRightMesh};
ghost use Rattle.rank_laws.specs.diagram_laws.Strata.{face_sights, mesh_faces, mesh_edges, mesh_points, mesh_keys, mesh_diagram, turn_among, first_twist};

/// The chart of all cells of a right mesh has the cells as they see themselves, the vertices, and the first sights of what the
/// cells see of faces and of edges.
pub fn chart_has_first_sights()
    ensures points { (m : Mesh) → IsRightMesh m → chart m (placed_cells m) ≡ mesh_points m }
    ensures keys { (m : Mesh) → IsRightMesh m → map (λ (s : Sight). s.key) (chart m (placed_cells m)) ≡ mesh_keys m }
{}

/// An edge, or a face of a solid mesh, is seen under the orientation that relates it to its first sight among the edges or the
/// faces.
pub fn orientations_are_by_first_sights()
    ensures edges { (m : Mesh) → IsRightMesh m → (poly : Poly) (list : List ℕ) → dim_of poly ≡ 1 → seen_under m poly list ≡ turn_among (mesh_edges m) poly list }
    ensures faces { (m : Mesh) → IsRightMesh m → m.dim ≡ 3 → (poly : Poly) (list : List ℕ) → dim_of poly ≡ 2 → seen_under m poly list ≡ turn_among (mesh_faces m) poly list }
{}

/// The diagram of all cells of a right mesh has in each cone the place of a facet among the first sights of its dimension,
/// behind all that stands before them, and the orientation that relates the facet to its first sight.
pub fn diagram_is_by_places()
    ensures { (m : Mesh) → IsRightMesh m → diagram m (placed_cells m) ≡ mesh_diagram m }
{}

/// The twist key of a right mesh is the key of the first face of a cell, by rising key, that nothing relates to the first sight
/// of its point. In a flat mesh there is none.
pub fn twist_is_the_first_unrelated_face()
    ensures { (m : Mesh) → IsRightMesh m → twist_key m ≡ first_twist (mesh_faces m) (face_sights (placed_cells m)) }
{}
