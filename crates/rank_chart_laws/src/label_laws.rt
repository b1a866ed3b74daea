//! Laws of labels: a label depends on which pairs it has alone, and so is made of a mesh's marks one by one.
//!
//! The function below does nothing: its contract is the law, and its proof is the law's.

ghost use Rattle.std.specs.Prelude.{◌≡◌, ℕ, true, List};
ghost use Rattle.std.specs.List.{AllByRecursion};
ghost use Rattle.mesh_defs.specs.Mesh.{Mesh};
ghost use Rattle.mesh_defs.specs.Points.{Sight};
ghost use Rattle.mesh_defs.specs.Sights.{points_differ};
ghost use Rattle.plex_defs.specs.Labels.{label_of, mesh_label};
ghost use Rattle.rank_chart_laws.specs.label_laws.Marks.{IsAmong, marked_pairs};

/// The label of one dimension, on points of which no two are one and on which all marks are, has for each mark of that
/// dimension the place of its point with its value.
pub fn labels_are_of_marks()
    ensures { (m : Mesh) (dim : ℕ) (points : List Sight) → points_differ points ≡ true → AllByRecursion (IsAmong points) m.marks → mesh_label m dim points ≡ label_of (marked_pairs points dim m.marks) }
{}
