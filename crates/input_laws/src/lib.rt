//! Laws of what comes in: what follows from the definitions of mesh files, plans and words alone.
//!
//! Each function below does nothing: its contract is the law, and its proof is the law's.
#![tactic(auto)]

pub mod command_laws;
pub mod made_laws;
pub mod place_laws;
pub mod reading_laws;
pub mod sort_laws;
pub mod word_laws;
pub mod written_laws;

ghost use Rattle.std.specs.Prelude.{◌≡◌, ◌<◌, ◌≤◌, ℕ, List, [], ◌∷◌, ◌++◌, length, take, Ok, Err, None, Some, Contains, map, find, true, Option};
ghost use Rattle.std.specs.List.{AllByRecursion};
ghost use Rattle.plain_lists.specs.Lists.{sorted, differ_as_sets};
ghost use Rattle.mesh_defs.specs.Mesh.{Mesh, Cell, Mark};
ghost use Rattle.mesh_defs.specs.RightMesh.{IsRightMesh};
ghost use Rattle.input_defs.specs.line_defs.Rows.{lines_of};
ghost use Rattle.input_defs.specs.Content.{Element, Content};
ghost use Rattle.input_defs.specs.declared.MshFault.{MshFault};
ghost use Rattle.input_defs.specs.Files.{content};
ghost use Rattle.input_defs.specs.RightContent.{IsRight};
ghost use Rattle.input_defs.specs.Meshes.{accepted, cell_elements, cell_of, vertex_nodes, dim, same_place, is_point_of};
ghost use Rattle.plex_defs.specs.Fields.{AreRightDofs};
ghost use Rattle.rank_defs.specs.Ranks.{IsRightAssignment};
ghost use Rattle.input_defs.specs.Plans.{Plan, DofsLine, Spread, Part, plan_of, misfit, rank_by};
ghost use Rattle.input_defs.specs.States.{State, states, first_ranks};
ghost use Rattle.input_defs.specs.Words.{mesh_name};
ghost use Rattle.input_defs.specs.Refused.{Task, fitting_task};
ghost use Rattle.input_laws.specs.FaultLines.{line_of};
ghost use Rattle.input_laws.specs.Sublists.{IsSublist, differ_in_place};

/// A part gives a rank of the plan to every cell of a mesh that the plan fits.
pub fn rank_is_below_ranks()
    ensures { (bytes : List ℕ) (plan : Plan) (cells line : ℕ) (spread : Spread) (cell : ℕ) → plan_of bytes ≡ Ok plan → misfit plan cells ≡ None → Contains plan.moves (line, Part spread) → cell < cells → rank_by plan.ranks spread cell cells < plan.ranks }
{}

/// What a plan that fits a mesh assigns is right: each step gives each cell one of its 1 to 64 ranks. Its `dofs` lines have
/// right counts.
pub fn plans_assign_right_ranks()
    ensures steps { (bytes : List ℕ) (plan : Plan) (m : Mesh) (s : State) → plan_of bytes ≡ Ok plan → misfit plan (length m.cells) ≡ None → Contains (states m plan) s → IsRightAssignment m plan.ranks s.ranks }
    ensures first { (bytes : List ℕ) (plan : Plan) (m : Mesh) → plan_of bytes ≡ Ok plan → misfit plan (length m.cells) ≡ None → IsRightAssignment m plan.ranks (first_ranks m plan) }
    ensures dofs { (bytes : List ℕ) (plan : Plan) → plan_of bytes ≡ Ok plan → AreRightDofs (map (λ (d : DofsLine). d.dofs) plan.dofs) }
{}

/// What words and files give to do is right: the mesh of a file, the assignments of the plan's steps, and the counts of its
/// `dofs` lines.
pub fn tasks_are_right()
    ensures meshes { (words : List (List ℕ)) (plan_file mesh_file : Option (List ℕ)) (task : Task) (name : List ℕ) → mesh_name words ≡ Some name → fitting_task words plan_file mesh_file ≡ Ok task → IsRightMesh task.mesh }
    ensures steps { (words : List (List ℕ)) (plan_file mesh_file : Option (List ℕ)) (task : Task) (s : State) → fitting_task words plan_file mesh_file ≡ Ok task → Contains (states task.mesh task.plan) s → IsRightAssignment task.mesh task.plan.ranks s.ranks }
    ensures first { (words : List (List ℕ)) (plan_file mesh_file : Option (List ℕ)) (task : Task) → fitting_task words plan_file mesh_file ≡ Ok task → IsRightAssignment task.mesh task.plan.ranks (first_ranks task.mesh task.plan) }
    ensures dofs { (words : List (List ℕ)) (plan_file mesh_file : Option (List ℕ)) (task : Task) → fitting_task words plan_file mesh_file ≡ Ok task → AreRightDofs (map (λ (d : DofsLine). d.dofs) task.plan.dofs) }
{}

/// Every label value is on a point of the mesh.
pub fn labels_are_on_points()
    ensures { (c : Content) (m : Mesh) → accepted c ≡ Ok m → AllByRecursion (λ (mark : Mark). is_point_of m.cells (record { dim = mark.dim; vertices = sorted mark.vertices }) ≡ true) m.marks }
{}

/// The cells of a mesh are elements of its dimension in file order, each the first one on its nodes, and no two on the same nodes.
pub fn cells_are_first_of_their_sets()
    ensures cells { (c : Content) (m : Mesh) → accepted c ≡ Ok m → m.cells ≡ map (cell_of (vertex_nodes c)) (cell_elements c) }
    ensures order { (c : Content) → IsSublist (cell_elements c) c.elements }
    ensures first { (c : Content) → AllByRecursion (λ (e : Element). find (same_place e) c.elements ≡ Some e) (cell_elements c) }
    ensures dims { (c : Content) (m : Mesh) → accepted c ≡ Ok m → AllByRecursion (λ (e : Element). dim e ≡ m.dim) (cell_elements c) }
    ensures different { (c : Content) → differ_in_place (cell_elements c) ≡ true }
{}

/// The content of a right file has what `IsRight` lists: numbers in range and known where they are named, node numbers that
/// differ, as many corners as an element's type has, values for each component, and no more of anything than the limits allow.
pub fn right_files_have_right_content()
    ensures { (bytes : List ℕ) (c : Content) → content bytes ≡ Ok c → IsRight c }
{}

/// The mesh of a right content is a right mesh, and so is that of a right file.
pub fn right_contents_have_right_meshes()
    ensures contents { (c : Content) (m : Mesh) → IsRight c → accepted c ≡ Ok m → IsRightMesh m }
    ensures files { (bytes : List ℕ) (c : Content) (m : Mesh) → content bytes ≡ Ok c → accepted c ≡ Ok m → IsRightMesh m }
{}

/// The cells of the mesh of a right file have different sets of vertices.
pub fn vertex_sets_differ()
    ensures { (bytes : List ℕ) (c : Content) (m : Mesh) → content bytes ≡ Ok c → accepted c ≡ Ok m → differ_as_sets (map (λ (cell : Cell). cell.vertices) m.cells) ≡ true }
{}

/// The first fault of a mesh file depends on the file up to the end of the fault's line alone. For a fault at the end of the
/// file that is the whole file. On the last line of a file that does not end with LF, a fault is at the end where an LF
/// after the file changes it.
pub fn fault_is_local()
    ensures before_the_last_line { (a b : List ℕ) (fault : MshFault) (line : ℕ) → content a ≡ Err fault → line_of fault ≤ line → line < length (lines_of a) → take line (lines_of a) ≡ take line (lines_of b) → content b ≡ Err fault }
    ensures on_the_last_line { (a b : List ℕ) (fault : MshFault) (line : ℕ) → content (a ++ 10 ∷ []) ≡ Err fault → line_of fault ≤ line → line ≤ length (lines_of a) → take line (lines_of a) ≡ take line (lines_of b) → content b ≡ Err fault }
{}
