//! Laws of rounds: what follows from the definitions alone, for all asks and all orders.
//!
//! Each function below does nothing: its contract is the law, and its proof is the law's.
#![tactic(auto)]

ghost use Rattle.std.specs.Prelude.{◌≡◌, ℕ, ◌<◌, ◌≤◌, true, ◌↔◌, List, map, length, get_or, count_by, IsPermutation};
ghost use Rattle.std.specs.List.{AllByRecursion};
ghost use Rattle.sf_defs.specs.declared.Op.TheVariants.{Load, Sum, Min};
ghost use Rattle.sf_defs.specs.declared.Tag.{Tag};
ghost use Rattle.sf_defs.specs.declared.Ask.{Ask};
ghost use Rattle.sf_defs.specs.Asks.{Entry, Replays, on_word, HasOwnOrder, IsOrderOf, word_after};
ghost use Rattle.sf_defs.specs.PrintedOrder.{kind_of, printed_order};
ghost use Rattle.sf_defs.specs.Rounds.{Round, SuitsWord, MeetsConditions, IsLegal, asks_on, entries, in_order, is_legal, meets_conditions};
ghost use Rattle.sf_defs.specs.Script.{Event, queues, walk, round_of, scripted};
ghost use Rattle.round_laws.specs.LastValues.{IsLeast, took};
ghost use Rattle.round_laws.specs.ReplayingOrders.{AreNeighboursInOrder, HasReplayingOrders, IsPrinted, IsScheduleOf};

/// Where some order of a word's entries, each rank's own in its order, replays from the word's
/// first value to a last one, and the asks suit the word, the printed order has each rank's own in
/// its order and replays with the same fetched values to the same last one.
pub fn printed_order_replays()
    ensures { (first last : ℕ) (all es : List Entry) → HasOwnOrder all → SuitsWord first (map (λ (e : Entry). e.ask) all) → IsOrderOf all es → Replays first es last → IsOrderOf all (printed_order first all) × Replays first (printed_order first all) last }
{}

/// The printed order is one, however a word's entries are mixed to begin with.
pub fn printed_order_is_one()
    ensures { (first : ℕ) (all es : List Entry) → SuitsWord first (map (λ (e : Entry). e.ask) all) → IsOrderOf all es → printed_order first es ≡ printed_order first all }
{}

/// The printed order is found by any sort: a list of the entries on a word whose neighbours stand
/// rightly is the printed order, be it another arrangement of them or an order of them.
pub fn sorted_entries_are_printed()
    ensures rearranged { (first : ℕ) (asks : List (List Ask)) (got : List (List ℕ)) (w : ℕ) (es : List Entry) → IsPermutation (on_word w (entries asks got)) es → AreNeighboursInOrder first (on_word w (entries asks got)) es → es ≡ printed_order first (on_word w (entries asks got)) }
    ensures reordered { (first : ℕ) (asks : List (List Ask)) (got : List (List ℕ)) (w : ℕ) (es : List Entry) → IsOrderOf (on_word w (entries asks got)) es → AreNeighboursInOrder first (on_word w (entries asks got)) es → es ≡ printed_order first (on_word w (entries asks got)) }
{}

/// The last value of a word does not depend on the order of its asks: it is what they leave when they
/// are done rank by rank.
pub fn last_values_in_any_order()
    ensures word { (first last : ℕ) (all es : List Entry) → SuitsWord first (map (λ (e : Entry). e.ask) all) → IsOrderOf all es → Replays first es last → last ≡ word_after first (map (λ (e : Entry). e.ask) all) }
    ensures round { (r : Round) → IsLegal r → (w : ℕ) → w < length r.before → get_or r.after w 0 ≡ word_after (get_or r.before w 0) (asks_on w r.asks) }
{}

/// In a legal round each ask on a word of Loads alone fetches the first value, which stays.
pub fn loads_fetch_the_first_value()
    ensures { (r : Round) → IsLegal r → (w : ℕ) → w < length r.before → kind_of (asks_on w r.asks) ≡ Load → AllByRecursion (λ (e : Entry). e.got ≡ get_or r.before w 0) (on_word w (entries r.asks r.got)) × (get_or r.after w 0 ≡ get_or r.before w 0) }
{}

/// In a legal round the last value of a word of Min is the least of its first one and all that it was
/// asked with.
pub fn min_leaves_the_least()
    ensures { (r : Round) → IsLegal r → (w : ℕ) → w < length r.before → kind_of (asks_on w r.asks) ≡ Min → IsLeast (get_or r.before w 0) (asks_on w r.asks) (get_or r.after w 0) }
{}

/// In a legal round the Sums on a word take its numbers apart: each number from the first value up to
/// the last one is taken by exactly one of them, which fetched it or a number below and added past it.
pub fn sums_take_numbers_apart()
    ensures { (r : Round) → IsLegal r → (w n : ℕ) → w < length r.before → kind_of (asks_on w r.asks) ≡ Sum → get_or r.before w 0 ≤ n → n < get_or r.after w 0 → count_by (took n) (on_word w (entries r.asks r.got)) ≡ 1 }
{}

/// A round is legal exactly where its orders are the printed ones and each word has some order that
/// replays: which steps were done first on a word is no part of it.
pub fn replaying_orders_make_a_legal_round()
    ensures { (r : Round) → (IsPrinted r × HasReplayingOrders r) ↔ IsLegal r }
{}

/// In a legal round the order of a word has each of its entries once, each rank's own in its order.
pub fn legal_order_has_each_entry_once()
    ensures { (r : Round) → IsLegal r → (w : ℕ) → w < length r.before → IsOrderOf (on_word w (entries r.asks r.got)) (in_order r w) }
{}

/// The test of a legal round answers true exactly for legal rounds, and that of the conditions
/// exactly where they are met.
pub fn legal_is_decided()
    ensures legal { (r : Round) → (is_legal r ≡ true) ↔ IsLegal r }
    ensures conditions { (before : List ℕ) (asks : List (List Ask)) → (meets_conditions before asks ≡ true) ↔ MeetsConditions before asks }
{}

/// The events of any picks have each ask once, each rank's own in its order.
pub fn walk_is_a_schedule()
    ensures { (picks : List ℕ) (asks : List (List Ask)) → IsScheduleOf asks (walk picks (queues asks)) }
{}

/// Where the conditions are met, the round that does its asks one after another is legal, in whatever
/// order the ranks take their turns.
pub fn scheduled_round_is_legal()
    ensures { (tag : Tag) (words : List ℕ) (asks : List (List Ask)) (events : List Event) → IsScheduleOf asks events → MeetsConditions words asks → IsLegal (round_of tag words asks events) }
{}

/// Where the conditions are met, the scripted round of any picks is legal.
pub fn scripted_round_is_legal()
    ensures { (tag : Tag) (words : List ℕ) (asks : List (List Ask)) (picks : List ℕ) → MeetsConditions words asks → IsLegal (scripted tag words asks picks) }
{}
