//! The asks of one rank.
ghost use Rattle.std.specs.Prelude.{◌≡◌, ◌+◌, ◌<◌, [], ◌∷◌, ◌++◌, length};
ghost use Rattle.sf_threads.specs.thread_rule.Rule.{view};
ghost use Rattle.sf_threads.specs.Doing.{IsDoable, AreDoable, dones};

use crate::gate::Gate;
use crate::thread_rule::{Ands, Key, Loads, Maxes, Mins, Ors, Replaces, RoundRule, Sums, View};
use atomic_table::{Seat, Shared};
use sf_defs::{Ask, Op};

/// The words as ranks share them.
pub(crate) type Words = Shared<(), View, Key, RoundRule>;

/// What some ranks know of the words.
pub(crate) type RankSeat = Seat<(), View>;

/// Does one ask, of the first rank of a seat, and answers what it fetched.
fn do_ask(words: &Words, seat: &mut RankSeat, ask: Ask) -> u64
    requires table { seat.old.table_id ≡ words.now.table_id }
    requires count { words.now.table_id.words ≡ length words.now.key.words.items }
    requires rank { seat.old.me.0.first < seat.old.me.0.end }
    requires slots { seat.old.me.1 ≡ [] }
    requires ask { IsDoable (length words.now.key.words.items) ask }
    ensures same { (seat.new.table_id ≡ seat.old.table_id) × (seat.new.id ≡ seat.old.id) }
    ensures done { seat.new.me ≡ (view seat.old.me.0.first seat.old.me.0.end (seat.old.me.0.done ++ record { rank = seat.old.me.0.first; index = length seat.old.me.0.done; ask = ask; got = result } ∷ []), []) }
{
    let word = ask.word as usize;
    match ask.op {
        Op::Load => words.load::<Loads>(seat, word),
        Op::Sum => words.fetch_add::<Sums>(seat, word, ask.value),
        Op::Min => words.fetch_min::<Mins>(seat, word, ask.value),
        Op::Max => words.fetch_max::<Maxes>(seat, word, ask.value),
        Op::Or => words.fetch_or::<Ors>(seat, word, ask.value),
        Op::And => words.fetch_and::<Ands>(seat, word, ask.value),
        Op::Replace => words.swap::<Replaces>(seat, word, ask.value),
    }
}

/// Does the asks of a rank in their order, and puts what each fetched into `got`.
pub(crate) fn do_asks<G: Gate>(
    words: &Words,
    seat: &mut RankSeat,
    gate: &G,
    rank: u32,
    asks: &[Ask],
    got: &mut [u64],
)
    requires table { seat.old.table_id ≡ words.now.table_id }
    requires count { words.now.table_id.words ≡ length words.now.key.words.items }
    requires seat { seat.old.me ≡ (view rank (rank + 1) [], []) }
    requires asks { AreDoable (length words.now.key.words.items) asks.now }
    requires got { length got.old ≡ length asks.now }
    ensures same { (seat.new.table_id ≡ seat.old.table_id) × (seat.new.id ≡ seat.old.id) }
    ensures got { length got.new ≡ length asks.now }
    ensures done { seat.new.me ≡ (view rank (rank + 1) (dones rank asks.now got.new), []) }
{
    for i in 0..asks.len() {
        gate.arrive(rank, i as u32);
        got[i] = do_ask(words, seat, asks[i]);
    }
}
