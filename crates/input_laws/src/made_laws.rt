//! Laws of generated meshes: what follows from their definition alone.
//!
//! Each function below does nothing: its contract is the law, and its proof is the law's.

ghost use Rattle.std.specs.Prelude.{ℕ, ◌≤◌};
ghost use Rattle.mesh_defs.specs.RightMesh.{IsRightMesh};
ghost use Rattle.input_defs.specs.declared.Kind.{Kind};
ghost use Rattle.input_defs.specs.Words.{most};
ghost use Rattle.input_defs.specs.Generated.{made};

/// Every generated mesh of a size that is accepted is a right mesh: its cells are sound and few, no two have the same vertices,
/// and each grid point is in use.
pub fn made_meshes_are_right()
    ensures { (kind : Kind) (n : ℕ) → 1 ≤ n → n ≤ most kind → IsRightMesh (made kind n) }
{}
