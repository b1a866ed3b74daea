//! The home round as one fetch-and-op on a star forest.
//!
//! Each function below does nothing: its contract is the law, and its proof is the law's.

ghost use Rattle.std.specs.Prelude.{◌≡◌, ℕ, List, [], Some, get_or, length, map};
ghost use Rattle.std.specs.List.{AllByRecursion};
ghost use Rattle.plain_lists.specs.Lists.{below};
ghost use Rattle.mesh_defs.specs.Mesh.{Mesh};
ghost use Rattle.mesh_defs.specs.Points.{Point, key};
ghost use Rattle.sf_defs.specs.declared.Op.TheVariants.{Min};
ghost use Rattle.sf_defs.specs.declared.Tag.TheVariants.{Home};
ghost use Rattle.sf_defs.specs.Rounds.{Round, IsLegal};
ghost use Rattle.sf_ops.specs.Asked.{asks_of, words_of};
ghost use Rattle.rank_defs.specs.Ranks.{IsAssignment};
ghost use Rattle.rank_defs.specs.Home.{home_points, home_words, home_asks, IsHomeRound};
ghost use Rattle.rank_chart_laws.specs.home_laws.HomeForest.{home_counts, home_values, home_roots, home_forest, HaveOwnKeys};

/// The words of the home round are the values of the roots of its forest, by rank and place.
pub fn home_words_are_roots()
    ensures { (m : Mesh) (a : List ℕ) (n : ℕ) → words_of (home_values m a n) ≡ home_words m a (home_points m a n) }
{}

/// The asks of the home round are the leaves of its forest, whose values are the ranks' own keys.
pub fn home_asks_are_leaves()
    ensures { (m : Mesh) (a : List ℕ) (n : ℕ) (local : ℕ → Point → ℕ) (values : List (List ℕ)) → HaveOwnKeys m a n local values → asks_of (home_forest m a n local) Min values ≡ map (home_asks m a (home_points m a n)) (below n) }
{}

/// A legal round of Min on the forest of the words, tagged as the home round, is the home round.
pub fn home_round_is_one_fetch_and_op()
    ensures { (m : Mesh) (a : List ℕ) (n : ℕ) (local : ℕ → Point → ℕ) (values : List (List ℕ)) (r : Round) → HaveOwnKeys m a n local values → r.tag ≡ Home → r.before ≡ words_of (home_values m a n) → r.asks ≡ asks_of (home_forest m a n local) Min values → IsLegal r → IsHomeRound m a n r }
{}

/// After the home round each root of its forest has the key of its point.
pub fn home_roots_have_the_keys()
    ensures { (m : Mesh) (n : ℕ) (a : List ℕ) (r : Round) (roots : List (List ℕ)) → IsAssignment m n a → IsHomeRound m a n r → map length roots ≡ home_counts m a n → words_of roots ≡ r.after → AllByRecursion (λ (w : (ℕ × ℕ) × Point). key m w.1 ≡ Some (get_or (get_or roots w.0.0 []) w.0.1 0)) (home_roots m a n) }
{}
