//! Laws of meshes and their diagrams: what follows from the definitions alone, for every mesh.
//!
//! Each function below does nothing: its contract is the law, and its proof is the law's.
#![tactic(auto)]

ghost use Rattle.std.specs.Prelude.{◌≡◌, ◌≢◌, ◌<◌, ◌≤◌, ◌==◌, ℕ, ℤ, List, Some, Contains, length, true};
ghost use Rattle.std.specs.List.{list_any};
ghost use Rattle.mesh_defs.specs.declared.Poly.{Poly};
ghost use Rattle.mesh_defs.specs.Orientation.{act};
ghost use Rattle.mesh_defs.specs.Mesh.{Mesh, Cell, placed_cells};
ghost use Rattle.mesh_defs.specs.Points.{Point, Sight, point_on, shows, sights, key, arrangement};
ghost use Rattle.mesh_defs.specs.RightMesh.{UsesVertices};
ghost use Rattle.mesh_defs.specs.Diagram.{seen_under, chart, strata};

/// The key of a face or an edge is the least key under which a cell sees it.
pub fn key_is_least()
    ensures { (m : Mesh) (p : Point) (s : Sight) → p.dim ≢ 0 → Contains (sights (placed_cells m)) s → shows p s ≡ true → (k : ℕ) × (key m p ≡ Some k) × (k ≤ s.key) }
{}

/// An orientation in a cone carries the arrangement of the covered point onto the facet that is seen.
pub fn orientation_carries_arrangement()
    ensures { (m : Mesh) (poly : Poly) (seen : List ℕ) (o : ℤ) → seen_under m poly seen ≡ Some o → (own : List ℕ) × (arrangement m (point_on poly seen) ≡ Some own) × (act poly o own ≡ seen) }
{}

/// All cells together contain every point of a mesh whose vertices each stand in some cell.
pub fn all_cells_have_every_point()
    ensures { (m : Mesh) → UsesVertices m → chart m (placed_cells m) ≡ strata m }
{}
