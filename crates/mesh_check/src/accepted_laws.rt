//! Laws of accepted meshes: what of a file its mesh depends on.
//!
//! Each function below does nothing: its contract is the law, and its proof is the law's.

ghost use Rattle.std.specs.Prelude.{◌≡◌, ◌-◌, length, Ok};
ghost use Rattle.std.specs.List.{AllByRecursion};
ghost use Rattle.mesh_defs.specs.Mesh.{Mesh, Section};
ghost use Rattle.input_defs.specs.Content.{Content};
ghost use Rattle.input_defs.specs.RightContent.{IsRight};
ghost use Rattle.input_defs.specs.Meshes.{accepted, kept};
ghost use Rattle.mesh_check.specs.accepted_laws.Loose.{without_loose, NamesOnPoints};

/// Loose elements and repeats of them may be taken out of a file, where no row of data has the number of one: the mesh
/// differs in the counts of loose and merged elements alone. Where element numbers differ, a row has the number of the one
/// element that it names.
pub fn loose_elements_may_go()
    ensures { (c : Content) (m : Mesh) → IsRight c → AllByRecursion (λ (s : Section). NamesOnPoints c s.on s.rows) c.fields → accepted c ≡ Ok m → accepted (without_loose c) ≡ Ok (record m { loose = 0; merged = length (without_loose c).elements - length (kept (without_loose c)) }) }
{}
