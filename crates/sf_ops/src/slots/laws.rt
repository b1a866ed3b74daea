//! Laws of slots: what follows from the definitions alone. Each function below does nothing: its contract is the law.
ghost use Rattle.std.specs.Prelude.{◌≡◌, ◌<◌, ◌==◌, ℕ, List, [], length, get_or, count_by, Some};
ghost use Rattle.std.specs.List.{AllByRecursion};
ghost use Rattle.sf_defs.specs.Asks.{on_word};
ghost use Rattle.sf_defs.specs.Rounds.{Round, IsLegal, entries, asks_on};
ghost use Rattle.sf_defs.specs.Forest.{Forest, IsForest, root_of};
ghost use Rattle.sf_defs.specs.slots.Slots.{HasLoneLeaves};
ghost use Rattle.sf_ops.specs.Copies.{AreCopies};
ghost use Rattle.sf_ops.specs.slots.Gathered.{gathered};
ghost use Rattle.sf_ops.specs.slots.Ones.{AddsOne};

/// On a word that is 0 at first and that n asks add 1 to, a legal round hands out 0 to n - 1, each once.
pub fn sums_of_one_draw_each_number_once()
    ensures { (r : Round) → IsLegal r → (w : ℕ) → w < length r.before → get_or r.before w 0 ≡ 0 → AllByRecursion AddsOne (asks_on w r.asks) → (n : ℕ) → n < length (asks_on w r.asks) → count_by (λ e. e.got == n) (on_word w (entries r.asks r.got)) ≡ 1 }
{}

/// Where each slot has one leaf, words that are gathered at slots and scattered come back to each leaf.
pub fn gathered_words_come_back()
    ensures { (m : Forest) (words : List (List ℕ)) (before : List (List ℕ)) (after : List (List ℕ)) → IsForest m → HasLoneLeaves m → AreCopies m (gathered m words) before after → (rank : ℕ) (local : ℕ) (root : ℕ × ℕ) → root_of m rank local ≡ Some root → get_or (get_or after rank []) local 0 ≡ get_or (get_or words rank []) local 0 }
{}
