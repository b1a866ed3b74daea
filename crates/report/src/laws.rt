//! Laws of the text on one rank.
//!
//! Each function below does nothing: its contract is the law, and its proof is the law's.

ghost use Rattle.std.specs.Prelude.{◌≡◌, ◌<◌, ℕ, List, [], ◌∷◌, length, get_or, true};
ghost use Rattle.std.specs.List.{list_any};
ghost use Rattle.mesh_defs.specs.Tables.{dim_of};
ghost use Rattle.mesh_defs.specs.Mesh.{Mesh, placed_cells};
ghost use Rattle.mesh_defs.specs.Points.{Point, Sight, point_of, shows};
ghost use Rattle.mesh_defs.specs.Diagram.{chart, place_in};
ghost use Rattle.plex_defs.specs.Labels.{values_at, mesh_label};
ghost use Rattle.input_defs.specs.text_defs.Text.{alone, number_of};
ghost use Rattle.input_defs.specs.Further.{labels_at};

/// On one rank the number of each point of the chart is its place there.
pub fn numbers_on_one_rank_are_places()
    ensures { (m : Mesh) (p : Point) → list_any (shows p) (chart m (placed_cells m)) ≡ true → number_of (alone m ∷ []) p ≡ place_in (chart m (placed_cells m)) p }
{}

/// The label of a dimension, on points that are numbered by their places, has at each point of this
/// dimension the values that the mesh's marks put on the point.
pub fn labels_have_the_values_of_marks()
    ensures { (m : Mesh) (points : List Sight) (p : ℕ) (d : Sight) → p < length points → values_at (mesh_label m (dim_of (get_or points p d).poly) points) p ≡ labels_at m (point_of (get_or points p d)) }
{}
