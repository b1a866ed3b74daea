//! What a round has to be before the orders of its words are looked at.
ghost use Rattle.std.specs.Prelude.{◌≡◌, ◌≤◌, ◌↔◌, IsTrue, length, map, get_or};
ghost use Rattle.std.specs.List.{AllByRecursion};
ghost use Rattle.sf_fabric.specs.replays.Right.{HasRightAsks, HasRightLengths, are_right};

use crate::{Ask, Op, Round};

/// Whether there are as many ranks, words, asks and lists as there may be.
pub(crate) fn has_right_lengths(round: &Round) -> bool
    ensures { IsTrue result ↔ HasRightLengths round.now }
{
    let ranks = round.ranks();
    if ranks < 1 || ranks > 64 || round.before().len() > u32::MAX as usize || !round.is_complete() {
        return false;
    }
    for rank in 0..ranks as u32 {
        let asks = round.asks(rank).len();
        if asks > u32::MAX as usize || round.got(rank).len() != asks {
            return false;
        }
    }
    true
}

/// Whether each ask names a word and no `Load` has a value.
pub(crate) fn has_right_asks(round: &Round) -> bool
    requires { HasRightLengths round.now }
    ensures { IsTrue result ↔ HasRightAsks round.now }
{
    let words = round.before().len();
    for rank in 0..round.ranks() as u32 {
        if !are_right(round.asks(rank), words) {
            return false;
        }
    }
    true
}

/// Whether each of these asks names one of so many words and no `Load` has a value.
fn are_right(asks: &[Ask], words: usize) -> bool
    ensures { result ≡ are_right asks.now words }
{
    asks.iter().all(|ask| (ask.word as usize) < words && (!ask.op.is_load() || ask.value == 0))
}
