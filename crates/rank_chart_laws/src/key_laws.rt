//! How ranks learn the keys of what they share: the steps, and what they come to.
//!
//! Each function below does nothing: its contract is the law, and its proof is the law's.

ghost use Rattle.std.specs.Prelude.{◌≡◌, ℕ, List, length, map};
ghost use Rattle.mesh_defs.specs.Mesh.{Mesh};
ghost use Rattle.sf_defs.specs.Rounds.{Round};
ghost use Rattle.sf_ops.specs.Asked.{words_of};
ghost use Rattle.sf_ops.specs.Copies.{AreCopies};
ghost use Rattle.rank_defs.specs.Home.{IsHomeRound};
ghost use Rattle.rank_defs.specs.Spread.{PlainShared, IsShared};
ghost use Rattle.rank_chart_laws.specs.key_laws.Keys.{own_point_keys};
ghost use Rattle.rank_chart_laws.specs.key_laws.Words.{told_keys, word_numbers, AreAllWords, IsKeyRound, IsLaidOut};

/// What stands for a mesh has as many points on each rank as the rank's cells see, and faces and edges on
/// few vertices.
pub fn ranks_are_laid_out()
    ensures { (s : PlainShared) (m : Mesh) (dofs : List (List ℕ)) (a : List ℕ) (n : ℕ) → IsShared s m dofs a n → IsLaidOut s }
{}

/// The round that ranks run over their words and what they were told of them is the home round.
pub fn key_rounds_are_home_rounds()
    ensures { (s : PlainShared) (m : Mesh) (dofs : List (List ℕ)) (a : List ℕ) (n : ℕ) (places : List (List ℕ)) (numbers : List (List ℕ)) (r : Round) → IsShared s m dofs a n → AreAllWords s places → AreCopies s.forest (word_numbers s places) (word_numbers s places) numbers → IsKeyRound s places numbers r → IsHomeRound m a n r }
{}

/// After the home round the words' last values, put at their places and handed to the copies, are the keys.
pub fn told_keys_are_the_keys()
    ensures { (s : PlainShared) (m : Mesh) (dofs : List (List ℕ)) (a : List ℕ) (n : ℕ) (places : List (List ℕ)) (r : Round) (least : List (List ℕ)) (keys : List (List ℕ)) → IsShared s m dofs a n → AreAllWords s places → IsHomeRound m a n r → map length least ≡ map length places → words_of least ≡ r.after → AreCopies s.forest (told_keys s places least) (told_keys s places least) keys → map length keys ≡ s.forest.roots → keys ≡ own_point_keys m a n }
{}
