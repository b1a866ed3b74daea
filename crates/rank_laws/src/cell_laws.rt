//! Laws of the points that one cell contains.
//!
//! Each function below does nothing: its contract is the law, and its proof is the law's.

ghost use Rattle.std.specs.Prelude.{◌≡◌, ◌≤◌, ℕ, length};
ghost use Rattle.std.specs.List.{list_any};
ghost use Rattle.mesh_defs.specs.Mesh.{Mesh, Cell};
ghost use Rattle.mesh_defs.specs.Points.{Point, shows, contains};
ghost use Rattle.mesh_defs.specs.RightMesh.{IsFlatOrSolid, IsSoundCell};
ghost use Rattle.rank_laws.specs.cell_laws.Cells.{cell_all, Once};

/// A cell contains itself, its vertices, its faces where it is a solid, and its edges.
pub fn cells_contain_what_they_see()
    ensures { (p : Point) (c : ℕ) (cell : Cell) → list_any (shows p) (cell_all c cell) ≡ contains cell p }
{}

/// Of these no two are one point, and they are few.
pub fn cells_see_points_once()
    ensures once { (m : Mesh) (c : ℕ) (cell : Cell) (p : Point) → IsFlatOrSolid m → IsSoundCell m cell → Once (shows p) (cell_all c cell) }
    ensures few { (m : Mesh) (c : ℕ) (cell : Cell) → IsSoundCell m cell → length (cell_all c cell) ≤ 64 }
{}
