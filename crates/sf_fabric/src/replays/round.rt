//! The test of a whole round.
ghost use Rattle.std.specs.Prelude.{◌≡◌, ◌↔◌, IsTrue, length};
ghost use Rattle.sf_defs.specs.Rounds.{IsLegal};
ghost use Rattle.sf_fabric.specs.replays.Right.{HasRightAsks, HasRightLengths, HasRightOrders, ask_count};

use crate::Round;
use crate::replays::conditions::{has_right_asks, has_right_lengths};
use crate::replays::walk::is_right_order;

/// Whether a round is legal: one that `Fabric::run` may answer. It takes no memory, and looks at each
/// ask and each turn a fixed number of times.
///
/// It is not where words and asks miss a condition of `Fabric::run`, where a list has another length
/// than it should, where a word's order has a turn that names no ask on the word, lacks one, has one
/// twice or two asks of one rank out of the rank's order, where the order replayed from the first value
/// does not give each fetched and the last one, and where it is not the printed order.
pub fn replays(round: &Round) -> bool
    ensures { IsTrue result ↔ IsLegal round.now }
{
    has_right_lengths(round) && has_right_asks(round) && has_right_orders(round)
}

/// Whether the words' orders are right and have as many turns as there are asks, so that no ask is
/// left out.
fn has_right_orders(round: &Round) -> bool
    requires { HasRightLengths round.now }
    ensures { IsTrue result ↔ HasRightOrders round.now }
{
    let mut left = ask_count(round);
    for word in 0..round.before().len() as u32 {
        let turns = round.order(word).len();
        if turns > left || !is_right_order(round, word) {
            return false;
        }
        left -= turns;
    }
    left == 0
}

/// How many asks there are.
#[tactic(auto, unfolding(crate::specs::replays::Right::ask_count))]
fn ask_count(round: &Round) -> usize
    requires { HasRightLengths round.now }
    ensures { result ≡ ask_count round.now }
{
    let mut count = 0;
    for rank in 0..round.ranks() as u32 {
        count += round.asks(rank).len();
    }
    count
}
