//! Laws of the diagram of what a rank holds without overlap: its strata, cones and own twist by places.
//!
//! Each function below does nothing: its contract is the law, and its proof is the law's.

ghost use Rattle.std.specs.Prelude.{◌≡◌, ℕ, List, None};
ghost use Rattle.mesh_defs.specs.Mesh.{Mesh};
ghost use Rattle.mesh_defs.specs.Diagram.{diagram};
ghost use Rattle.mesh_defs.specs.RightMesh.{IsRightMesh};
ghost use Rattle.rank_defs.specs.Ranks.{assigned};
ghost use Rattle.rank_laws.specs.orient_laws.Named.{own_twist};
ghost use Rattle.rank_laws.specs.diagram_laws.Strata.{face_sights, first_twist};
ghost use Rattle.rank_chart_laws.specs.rank_diagram_laws.Parts.{held_faces, parts_of, parts_diagram, AreParts};

/// Where a rank's cells see no face under no orientation, the diagram of the cells has in each cone the place of a facet among the
/// points of its dimension, behind all that stands before them, and the orientation that relates the facet to the point there.
pub fn rank_diagram_is_by_places()
    ensures { (m : Mesh) (a : List ℕ) (r : ℕ) → IsRightMesh m → own_twist m a r ≡ None → diagram m (assigned m a r) ≡ parts_diagram (parts_of m (assigned m a r)) }
{}

/// A rank's own twist key is the key of the first face of its cells, by rising key, that nothing relates to the face that stands in
/// the rank's chart.
pub fn own_twist_is_the_first_unrelated_face()
    ensures { (m : Mesh) (a : List ℕ) (r : ℕ) → IsRightMesh m → own_twist m a r ≡ first_twist (held_faces m (assigned m a r)) (face_sights (assigned m a r)) }
{}

/// What a rank has of a right mesh fits together: the facets of its points are points of it.
pub fn ranks_have_whole_parts()
    ensures { (m : Mesh) (a : List ℕ) (r : ℕ) → IsRightMesh m → AreParts (parts_of m (assigned m a r)) }
{}
