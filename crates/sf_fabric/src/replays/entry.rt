//! Asks with what they fetched.
ghost use Rattle.std.specs.Prelude.{◌≡◌, ℕ, ◌+◌, ◌^◌, ◌<◌, true, false, ◌||◌, MatchOption, [], length, map, get_or};
ghost use Rattle.sf_defs.specs.Asks.{after_ask};
ghost use Rattle.sf_defs.specs.PrintedOrder.{changes, fetched_before, is_load, kind_of, stands_before, then_by};
ghost use Rattle.sf_defs.specs.Rounds.{added, entry_at, same_op};
ghost use Rattle.sf_fabric.specs.replays.Right.{HasRightLengths};
ghost use Rattle.sf_fabric.specs.replays.Walks.{ask_of, names};

use crate::{Ask, Op, Round, Turn};
use std::marker::Model;

/// An ask of a rank, and the value that it fetched.
#[derive(Debug, Drop)]
pub(crate) struct Entry {
    pub(crate) rank: u32,
    pub(crate) index: u32,
    pub(crate) ask: Ask,
    pub(crate) got: u64,
}

impl Model for Entry {
    ghost use Rattle.sf_defs.specs.Asks.{Entry as Record};

    ghost Value = { Record };

    ghost view = { λ e. record { rank = e.rank; index = e.index; ask = e.ask; got = e.got } };
}

impl Entry {
    /// Whether the ask changed the word.
    pub(crate) fn changes(&self) -> bool
        ensures { result ≡ changes self.now }
    {
        self.ask.op.apply(self.ask.value, self.got) != self.got
    }

    /// Whether it stands before another one in the printed order of a word of this kind, with this
    /// first value.
    #[tactic(auto, unfolding(sf_defs::specs::PrintedOrder::stands_before))]
    pub(crate) fn stands_before(&self, kind: Op, first: u64, other: &Entry) -> bool
        ensures { result ≡ stands_before kind first self.now other.now }
    {
        then_by(
            fetched_before(kind, first, self.got, other.got),
            fetched_before(kind, first, other.got, self.got),
            then_by(
                !self.changes() && other.changes(),
                !other.changes() && self.changes(),
                then_by(
                    self.rank < other.rank,
                    other.rank < self.rank,
                    self.index <= other.index,
                ),
            ),
        )
    }
}

/// One goes before the other, or neither does and the rest decides.
fn then_by(before: bool, after: bool, rest: bool) -> bool
    ensures { result ≡ then_by before after rest }
{
    before || (!after && rest)
}

/// Whether asks that fetched `m` stand before those that fetched `n`.
#[tactic(auto, unfolding(sf_defs::specs::PrintedOrder::fetched_before))]
fn fetched_before(kind: Op, first: u64, m: u64, n: u64) -> bool
    ensures { result ≡ fetched_before kind first m n }
{
    match kind {
        Op::Min | Op::And => n < m,
        Op::Replace => m == first && n != first,
        _ => m < n,
    }
}

/// What the ask adds to its word.
pub(crate) fn added(ask: Ask) -> u64
    ensures { result ≡ added ask }
{
    match ask.op {
        Op::Sum => ask.value,
        _ => 0,
    }
}

/// Whether an operation may stand on a word of this kind.
pub(crate) fn suits(op: Op, kind: Op) -> bool
    ensures { result ≡ (is_load op || same_op op kind) }
{
    match (op, kind) {
        (Op::Load, _)
        | (Op::Sum, Op::Sum)
        | (Op::Min, Op::Min)
        | (Op::Max, Op::Max)
        | (Op::Or, Op::Or)
        | (Op::And, Op::And)
        | (Op::Replace, Op::Replace) => true,
        _ => false,
    }
}

/// The kind of a word with this order: its first operation besides `Load`.
pub(crate) fn kind_of(round: &Round, order: &[Turn]) -> Op
    ensures { result ≡ kind_of (map (ask_of round.now.asks) order.now) }
{
    for turn in order {
        if let Some(ask) = ask_at(round, *turn) {
            if !ask.op.is_load() {
                return ask.op;
            }
        }
    }
    Op::Load
}

/// The ask that a turn names.
fn ask_at(round: &Round, turn: Turn) -> Option<Ask>
    ensures { MatchOption result (is_load (ask_of round.now.asks turn).op ≡ true) (λ ask. ask ≡ ask_of round.now.asks turn) }
{
    if turn.rank as usize >= round.ranks() {
        return None;
    }
    round.asks(turn.rank).get(turn.index as usize).copied()
}

/// The entry that a turn names, where it is on a word.
pub(crate) fn entry_on(round: &Round, word: u32, turn: Turn) -> Option<Entry>
    requires { HasRightLengths round.now }
    ensures { MatchOption result (names round.now.asks word turn ≡ false) (λ e. (names round.now.asks word turn ≡ true) × (e ≡ entry_at round.now.asks round.now.got turn)) }
{
    if turn.rank as usize >= round.ranks() {
        return None;
    }
    let index = turn.index as usize;
    match round.asks(turn.rank).get(index) {
        Some(ask) if ask.word == word => Some(Entry {
            rank: turn.rank,
            index: turn.index,
            ask: *ask,
            got: round.got(turn.rank)[index],
        }),
        _ => None,
    }
}
