//! Where asks stand in printed orders.
ghost use Rattle.std.specs.Prelude.{◌≡◌, ◌<◌, ◌^◌};
ghost use Rattle.sf_fabric.specs.orders.Places.{fetched_key, place_of, turn_at};

use sf_defs::{Ask, Op, Turn};

/// An ask's word, and its place in the printed order of the word: places are compared field by field.
#[derive(Clone, Copy, Debug, PartialEq, Eq, PartialOrd, Ord)]
pub(crate) struct Place {
    pub(crate) word: u32,
    /// What the ask fetched, as a number that rises along the order.
    fetched: u64,
    /// Whether the ask changed the word.
    changes: bool,
    rank: u32,
    index: u32,
}

impl Place {
    /// The place of an ask that fetched `got`, on a word of this kind with this first value.
    pub(crate) fn new(kind: Op, first: u64, turn: Turn, ask: Ask, got: u64) -> Place
        ensures { result ≡ place_of kind first record { rank = turn.rank; index = turn.index; ask = ask; got = got } }
    {
        Place {
            word: ask.word,
            fetched: fetched_key(kind, first, got),
            changes: ask.op.apply(ask.value, got) != got,
            rank: turn.rank,
            index: turn.index,
        }
    }

    /// The ask's name.
    pub(crate) fn turn(&self) -> Turn
        ensures { result ≡ turn_at self.now }
    {
        Turn {
            rank: self.rank,
            index: self.index,
        }
    }
}

/// A number that rises along the printed order of a word as what was fetched goes on.
fn fetched_key(kind: Op, first: u64, got: u64) -> u64
    ensures { result ≡ fetched_key kind first got }
{
    match kind {
        Op::Min | Op::And => u64::MAX - got,
        Op::Replace => u64::from(got != first),
        _ => got,
    }
}
