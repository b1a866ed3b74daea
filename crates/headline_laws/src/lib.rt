//! Laws of texts: what follows from the definitions alone.
//!
//! Each function below does nothing: its contract is the law, and its proof is the law's.
#![tactic(auto)]

pub mod due_laws;
pub mod seed_laws;
pub mod step_laws;
pub mod walk_laws;

ghost use Rattle.std.specs.Prelude.{◌≡◌, ℕ, ◌+◌, ◌<◌, ◌==◌, List, [], ◌++◌, length, map, take, slice_index, count_by, Contains, Some, true};
ghost use Rattle.std.specs.List.{list_any};
ghost use Rattle.mesh_defs.specs.Mesh.{Mesh, placed_cells};
ghost use Rattle.mesh_defs.specs.Points.{Point, Sight, point_of, shows};
ghost use Rattle.mesh_defs.specs.Diagram.{strata, chart, cone, IsAccepted};
ghost use Rattle.input_defs.specs.text_defs.Text.{number_of};
ghost use Rattle.sf_defs.specs.Rounds.{Round};
ghost use Rattle.rank_defs.specs.Ranks.{IsAssignment};
ghost use Rattle.rank_defs.specs.Home.{IsNumberRound, bases_of, point_number};
ghost use Rattle.mesh_defs.specs.RightMesh.{IsFlatOrSolid, IsSoundMesh, in_some};
ghost use Rattle.input_defs.specs.Further.{full_text};
ghost use Rattle.input_defs.specs.Plans.{plain_plan};
ghost use Rattle.input_defs.specs.States.{State};
ghost use Rattle.headline_defs.specs.Rounds.{due, AreAll};
ghost use Rattle.headline_defs.specs.StepText.{Subject, ranks_with, numbered, step_text, whole_text, known_text};

/// The text of a step depends on the rounds that were kept up to it alone: on the home round, and
/// on the number round of the step's part.
pub fn step_shows_its_own_rounds()
    ensures { (x : Subject) (rounds others : List Round) (s : State) → take (s.parts + 1) rounds ≡ take (s.parts + 1) others → step_text x rounds s ≡ step_text x others s }
{}

/// What is known of a text once some first rounds are kept begins the whole text, whatever rounds
/// follow.
pub fn known_text_begins_the_whole()
    ensures { (x : Subject) (rounds : List Round) (n : ℕ) (text : List ℕ) → known_text x (take n rounds) ≡ Some text → (rest : List ℕ) × (whole_text x rounds ≡ text ++ rest) }
{}

/// After a legal number round the numbers that are printed, of all ranks together, are those from 0
/// up to the word's last value, each once: there are as many as this value, and each number below it
/// is among them once.
pub fn numbers_are_drawn_once()
    ensures { (m : Mesh) (n : ℕ) (ranks : List ℕ) (layers : ℕ) (r : Round) → IsNumberRound m ranks n r →
        let printed = map (λ (p : ℕ × Sight). p.0) (numbered (ranks_with m n ranks layers (bases_of r))) in
        (length printed ≡ slice_index r.after 0) × ((k : ℕ) → k < slice_index r.after 0 → count_by (λ x. x == k) printed ≡ 1) }
{}

/// Without a plan file the whole text is the text of the mesh on one rank, whatever legal rounds were
/// kept.
pub fn plain_plan_prints_the_full_text()
    ensures { (m : Mesh) (rounds : List Round) → AreAll m 1 (due m plain_plan) rounds → whole_text (record { mesh = m; plan = plain_plan; show = plain_plan.shows }) rounds ≡ full_text m [] }
{}

/// The number by which a cone names a point is the number under which the point is printed: its
/// owner's base, and its place among the points that the owner owns. So it is for each point of the
/// chart of all cells, for each point in some cell of a sound mesh, and thus for each entry of a cone
/// in an accepted mesh of sound cells. In a mesh of dimension 2 or 3 each printed point stands under
/// this number.
pub fn cones_name_printed_numbers()
    ensures points { (m : Mesh) (n : ℕ) (ranks : List ℕ) (layers : ℕ) (bases : List ℕ) (p : Point) → IsAssignment m n ranks → list_any (shows p) (chart m (placed_cells m)) ≡ true → number_of (ranks_with m n ranks layers bases) p ≡ point_number m ranks bases p }
    ensures sound { (m : Mesh) (n : ℕ) (ranks : List ℕ) (layers : ℕ) (bases : List ℕ) (p : Point) → IsSoundMesh m → IsAssignment m n ranks → in_some p (placed_cells m) ≡ true → number_of (ranks_with m n ranks layers bases) p ≡ point_number m ranks bases p }
    ensures cones { (m : Mesh) (n : ℕ) (ranks : List ℕ) (layers : ℕ) (bases : List ℕ) (s : Sight) → IsSoundMesh m → IsAccepted m → IsAssignment m n ranks → Contains (strata m) s → cone m (number_of (ranks_with m n ranks layers bases)) s ≡ cone m (point_number m ranks bases) s }
    ensures printed { (m : Mesh) (n : ℕ) (ranks : List ℕ) (layers : ℕ) (bases : List ℕ) (x : ℕ × Sight) → IsFlatOrSolid m → Contains (numbered (ranks_with m n ranks layers bases)) x → x.0 ≡ point_number m ranks bases (point_of x.1) }
{}
