//! All ranks at once.
ghost use Rattle.std.specs.Prelude.{◌≡◌, ◌+◌, ◌<◌, ◌≤◌, ◌^◌, [], length, map};
ghost use Rattle.std.specs.List.{AllByRecursion, sum_by};
ghost use Rattle.std.specs.Thread.{IsSync};
ghost use Rattle.plain_lists.specs.Vectors.{lists_of};
ghost use Rattle.sf_fabric.specs.Cut.{shared};
ghost use Rattle.sf_threads.specs.thread_rule.Rule.{view};
ghost use Rattle.sf_threads.specs.Doing.{AreDoable, dones, all_dones};

use crate::asking::{RankSeat, Words, do_asks};
use crate::gate::Gate;
use crate::thread_rule::{Halves, Joined};
use sf_defs::Ask;
use std::thread::{Threads, join_mut};

/// Does the asks of all ranks from `first` on, each rank's in a thread of its own where one can be started, and
/// puts what they fetched into `got`, one rank's after another's.
#[cycle(ranks)]
pub(crate) fn do_all<R: Threads, G: Gate>(
    rt: &R,
    words: &Words,
    seat: &mut RankSeat,
    gate: &G,
    first: u32,
    asks: &[Vec<Ask>],
    got: &mut [u64],
)
    requires table { seat.old.table_id ≡ words.now.table_id }
    requires count { words.now.table_id.words ≡ length words.now.key.words.items }
    requires some_word { 0 < words.now.table_id.words }
    requires seat { seat.old.me ≡ (view first (first + length asks.now) [], []) }
    requires room { first + length asks.now < 2 ^ 32 }
    requires asks { AllByRecursion (AreDoable (length words.now.key.words.items)) (lists_of asks.now) }
    requires got { length got.old ≡ sum_by length (lists_of asks.now) }
    ensures same { (seat.new.table_id ≡ seat.old.table_id) × (seat.new.id ≡ seat.old.id) }
    ensures got { length got.new ≡ sum_by length (lists_of asks.now) }
    ensures done { seat.new.me ≡ (view first (first + length asks.now) (all_dones first (lists_of asks.now) (shared (map length (lists_of asks.now)) got.new)), []) }
{
    let Some((own, others)) = asks.split_first() else {
        return;
    };
    let (mine, theirs) = got.split_at_mut(own.len());
    let mut rest = words.split_seat::<Halves>(seat);
    do_both(
        rt, words, seat, gate, first, own, mine, &mut rest, others, theirs,
    );
    words.join_seat::<Joined>(seat, rest);
}

/// Does the asks of rank `first` in a thread of its own where one can be started, and those of the ranks after it.
#[cycle(ranks)]
fn do_both<R: Threads, G: Gate>(
    rt: &R,
    words: &Words,
    seat: &mut RankSeat,
    gate: &G,
    first: u32,
    own: &[Ask],
    mine: &mut [u64],
    rest: &mut RankSeat,
    others: &[Vec<Ask>],
    theirs: &mut [u64],
)
    requires tables { (seat.old.table_id ≡ words.now.table_id) × (rest.old.table_id ≡ words.now.table_id) }
    requires count { (words.now.table_id.words ≡ length words.now.key.words.items) × (0 < words.now.table_id.words) }
    requires seats { (seat.old.me ≡ (view first (first + 1) [], [])) × (rest.old.me ≡ (view (first + 1) (first + 1 + length others.now) [], [])) }
    requires room { first + 1 + length others.now < 2 ^ 32 }
    requires own { AreDoable (length words.now.key.words.items) own.now × (length mine.old ≡ length own.now) }
    requires others { AllByRecursion (AreDoable (length words.now.key.words.items)) (lists_of others.now) × (length theirs.old ≡ sum_by length (lists_of others.now)) }
    ensures same { (seat.new.table_id ≡ seat.old.table_id) × (seat.new.id ≡ seat.old.id) × (rest.new.table_id ≡ rest.old.table_id) × (rest.new.id ≡ rest.old.id) }
    ensures got { (length mine.new ≡ length own.now) × (length theirs.new ≡ sum_by length (lists_of others.now)) }
    ensures own { seat.new.me ≡ (view first (first + 1) (dones first own.now mine.new), []) }
    ensures others { rest.new.me ≡ (view (first + 1) (first + 1 + length others.now) (all_dones (first + 1) (lists_of others.now) (shared (map length (lists_of others.now)) theirs.new)), []) }
{
    let mut front = ||
        requires { IsSync G.row × (seat.now.table_id ≡ words.now.table_id) × (words.now.table_id.words ≡ length words.now.key.words.items)
            × (seat.now.me ≡ (view first (first + 1) [], [])) × AreDoable (length words.now.key.words.items) own.now × (length mine.now ≡ length own.now) }
        ensures { (seat.exit.now.table_id ≡ seat.entry.now.table_id) × (seat.exit.now.id ≡ seat.entry.now.id) × (length mine.exit.now ≡ length own.entry.now)
            × (seat.exit.now.me ≡ (view first (first + 1) (dones first own.entry.now mine.exit.now), [])) }
    { do_asks(words, seat, gate, first, own, mine) };
    let mut back = ||
        requires { IsSync G.row × (rest.now.table_id ≡ words.now.table_id) × (words.now.table_id.words ≡ length words.now.key.words.items) × (0 < words.now.table_id.words)
            × (rest.now.me ≡ (view (first + 1) (first + 1 + length others.now) [], [])) × (first + 1 + length others.now < 2 ^ 32)
            × AllByRecursion (AreDoable (length words.now.key.words.items)) (lists_of others.now) × (length theirs.now ≡ sum_by length (lists_of others.now)) }
        ensures { (rest.exit.now.table_id ≡ rest.entry.now.table_id) × (rest.exit.now.id ≡ rest.entry.now.id) × (length theirs.exit.now ≡ sum_by length (lists_of others.entry.now))
            × (rest.exit.now.me ≡ (view (first + 1) (first + 1 + length others.entry.now) (all_dones (first + 1) (lists_of others.entry.now) (shared (map length (lists_of others.entry.now)) theirs.exit.now)), [])) }
    { do_all(rt, words, rest, gate, first + 1, others, theirs) };
    join_mut(rt, &mut front, &mut back);
}
