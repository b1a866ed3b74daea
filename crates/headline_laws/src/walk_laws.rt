//! Laws of walks: closures and stars by cones are those by lists of vertices.
//!
//! Each function below does nothing: its contract is the law, and its proof is the law's.

ghost use Rattle.std.specs.Prelude.{◌≡◌, ◌<◌, ℕ, ℤ, List, length};
ghost use Rattle.mesh_defs.specs.Diagram.{Diagram};
ghost use Rattle.poly_orient.specs.Group.{IsOrientation};
ghost use Rattle.plex_defs.specs.Closure.{point_in, IsArranged, closure, star};
ghost use Rattle.plex_chart.specs.Chart.{IsPlex};
ghost use Rattle.walk_defs.specs.Cones.{closure_by_cones, star_by_cones};

/// Where lists of vertices arrange a whole diagram, the closure by cones is the closure that finds each facet by its
/// vertices.
pub fn closures_by_cones_are_by_lists()
    ensures { (x : Diagram) (lists : List (List ℕ)) (p : ℕ) (o : ℤ) → IsPlex x → IsArranged x lists → p < length x.points → IsOrientation (point_in x p).poly o → closure_by_cones x p o ≡ closure x lists p o }
{}

/// Under the same conditions, the points from which a point is reached by entries of cones are those whose closure by
/// lists has it: the star by cones is the star by lists.
pub fn stars_by_cones_are_by_lists()
    ensures { (x : Diagram) (lists : List (List ℕ)) (p : ℕ) → IsPlex x → IsArranged x lists → star_by_cones x p ≡ star x lists p }
{}
