//! The round of threads.
ghost use Rattle.std.specs.Prelude.{◌≡◌, length, map, IfOk};
ghost use Rattle.std.specs.List.{sum_by};
ghost use Rattle.plain_lists.specs.Vectors.{lists_of};
ghost use Rattle.sf_defs.specs.Rounds.{IsLegal, MeetsConditions};
ghost use Rattle.sf_fabric.specs.Cut.{shared};
ghost use Rattle.sf_threads.specs.Played.{HaveOrders};

use crate::gate::Gate;
use crate::play::play;
use crate::thread_rule::Key;
use plex_base::NoMemory;
use sf_defs::{Ask, Tag};
use sf_fabric::orders::printed_orders;
use sf_fabric::{FlatLists, Round};
use std::alloc::Global;
use std::thread::Threads;

/// The round in which each rank does its asks in a thread of its own.
pub(crate) fn thread_round<R: Threads, G: Gate>(
    rt: &R,
    alloc: Global,
    gate: &G,
    tag: Tag,
    words: Vec<u64>,
    asks: Vec<Vec<Ask>>,
) -> Result<Round, NoMemory>
    requires { MeetsConditions words.items (lists_of asks.items) }
    ensures legal { IfOk result (λ r. IsLegal r) }
    ensures tag { IfOk result (λ r. r.tag ≡ tag) }
    ensures before { IfOk result (λ r. r.before ≡ words.items) }
    ensures asks { IfOk result (λ r. r.asks ≡ lists_of asks.items) }
{
    let mut got = zeros(alloc, &asks)?;
    let key = Key {
        words,
        ranks: asks.len() as u32,
    };
    let after = play_all(rt, alloc, gate, &key, &asks, &mut got)?;
    let asks = FlatLists::of_nested(alloc, asks)?;
    let got = asks.alike(alloc, got)?;
    let order = printed_orders(alloc, &key.words, &asks, &got)?;
    Ok(Round::flat(tag, key.words, asks, got, after, order))
}

/// Does all asks, puts what they fetched into `got`, one rank's after another's, and answers the words
/// afterwards. Where there is no word, nothing is asked.
fn play_all<R: Threads, G: Gate>(
    rt: &R,
    alloc: Global,
    gate: &G,
    key: &Key,
    asks: &[Vec<Ask>],
    got: &mut [u64],
) -> Result<Vec<u64>, NoMemory>
    requires ranks { key.now.ranks ≡ length asks.now }
    requires asks { MeetsConditions key.now.words.items (lists_of asks.now) }
    requires got { length got.old ≡ sum_by length (lists_of asks.now) }
    ensures got { length got.new ≡ sum_by length (lists_of asks.now) }
    ensures count { IfOk result (λ after. length after.items ≡ length key.now.words.items) }
    ensures orders { IfOk result (λ after. HaveOrders key.now.words.items (lists_of asks.now) (shared (map length (lists_of asks.now)) got.new) after.items) }
{
    if key.words.is_empty() {
        return Ok(Vec::new(alloc));
    }
    play(rt, alloc, gate, key, asks, got)
}

/// A value for each ask.
fn zeros(alloc: Global, asks: &[Vec<Ask>]) -> Result<Vec<u64>, NoMemory>
    ensures { IfOk result (λ got. length got.items ≡ sum_by length (lists_of asks.now)) }
{
    let mut got = Vec::new(alloc);
    for own in asks {
        let past = got.len() + own.len();
        got.resize(past, 0)?;
    }
    Ok(got)
}
