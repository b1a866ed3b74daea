//! A table of words, and what ranks leave on it.
ghost use Rattle.std.specs.Prelude.{◌≡◌, ◌<◌, length, map, IfOk};
ghost use Rattle.std.specs.List.{sum_by};
ghost use Rattle.plain_lists.specs.Vectors.{lists_of};
ghost use Rattle.sf_fabric.specs.Cut.{shared};
ghost use Rattle.atomic_table.specs.Table.{Final, Seen};
ghost use Rattle.std.specs.Mem.Slots.{slots_items, slots_len, IsFull};
ghost use Rattle.sf_threads.specs.thread_rule.Rule.{Kept};
ghost use Rattle.sf_threads.specs.Played.{HasPlayed, IsPlayable};

use crate::asking::RankSeat;
use crate::gate::Gate;
use crate::ranks::do_all;
use crate::thread_rule::{Key, RoundRule, View};
use atomic_table::{Closed, Table};
use plex_base::NoMemory;
use sf_defs::Ask;
use std::alloc::Global;
use std::thread::Threads;

/// Does all asks on a table of the key's words, puts what they fetched into `got`, one rank's after another's, and answers the words afterwards.
pub(crate) fn play<R: Threads, G: Gate>(
    rt: &R,
    alloc: Global,
    gate: &G,
    key: &Key,
    asks: &[Vec<Ask>],
    got: &mut [u64],
) -> Result<Vec<u64>, NoMemory>
    requires playable { IsPlayable key.now (lists_of asks.now) }
    requires got { length got.old ≡ sum_by length (lists_of asks.now) }
    ensures got { length got.new ≡ sum_by length (lists_of asks.now) }
    ensures count { IfOk result (λ after. length after.items ≡ length key.now.words.items) }
    ensures played { IfOk result (λ after. HasPlayed key.now (lists_of asks.now) (shared (map length (lists_of asks.now)) got.new) after.items) }
{
    let mut after = Vec::from_slice(alloc, &key.words)?;
    let (table, mut seat) = Table::<(), View, Key, RoundRule, Global>::of_words(
        alloc, &key.words, key,
    )?;
    do_all(rt, &table.shared, &mut seat, gate, 0, asks, got);
    let closed = table.close_with(seat);
    read_words(&closed, &mut after);
    closed.free();
    Ok(after)
}

/// The words of a table that is closed.
fn read_words(closed: &Closed<(), Global>, after: &mut [u64])
    requires full { IsFull closed.now.words }
    requires count { length after.old ≡ slots_len closed.now.words }
    ensures { after.new ≡ slots_items closed.now.words }
{
    for i in 0..after.len() {
        after[i] = closed.word(i);
    }
}
