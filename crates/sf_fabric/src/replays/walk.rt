//! A walk along the order of one word.
ghost use Rattle.std.specs.Prelude.{◌≡◌, ◌^◌, ◌<◌, true, length, map, get_or};
ghost use Rattle.sf_fabric.specs.replays.Walks.{follows, is_right_order, start, taken, takes};
ghost use Rattle.sf_fabric.specs.replays.Right.{HasRightLengths};

use crate::replays::entry::{Entry, added, entry_on, kind_of, suits};
use crate::{Op, Round};

/// Where a walk along the order of a word stands.
#[derive(Debug, Drop)]
struct Walk {
    /// The word's kind and first value.
    kind: Op,
    first: u64,
    /// For each rank, the place after its last ask so far.
    next: [usize; 64],
    /// The word as it stands.
    word: u64,
    /// Whether a `Replace` was among the asks so far.
    replaced: bool,
    /// The first value and all `Sum`s so far.
    total: u64,
    last: Option<Entry>,
}

impl Walk {
    /// Before the first turn.
    #[tactic(auto, unfolding(crate::specs::replays::Walks::start))]
    fn new(kind: Op, first: u64) -> Walk
        ensures { result ≡ start kind first }
    {
        Walk {
            kind,
            first,
            next: [0; 64],
            word: first,
            replaced: false,
            total: first,
            last: None,
        }
    }

    /// Whether the order may go on with this entry.
    #[tactic(auto, unfolding(crate::specs::replays::Walks::takes))]
    fn takes(&self, entry: &Entry) -> bool
        requires { entry.now.rank < length self.now.next }
        ensures { result ≡ takes self.now entry.now }
    {
        self.next[entry.rank as usize] <= entry.index as usize
            && entry.got == self.word
            && suits(entry.ask.op, self.kind)
            && !(self.replaced && matches!(entry.ask.op, Op::Replace))
            && self.total.checked_add(added(entry.ask)).is_some()
            && self.follows(entry)
    }

    /// Whether the entry may stand after the last one in the printed order.
    fn follows(&self, entry: &Entry) -> bool
        ensures { result ≡ follows self.now.kind self.now.first self.now.last entry.now }
    {
        match &self.last {
            Some(last) => last.stands_before(self.kind, self.first, entry),
            None => true,
        }
    }

    /// Goes on with the entry.
    #[tactic(auto, unfolding(crate::specs::replays::Walks::takes, crate::specs::replays::Walks::taken))]
    fn take(&mut self, entry: Entry)
        requires rank { entry.rank < length self.old.next }
        requires takes { takes self.old entry ≡ true }
        ensures { self.new ≡ taken self.old entry }
    {
        self.next[entry.rank as usize] = entry.index as usize + 1;
        self.word = entry.ask.op.apply(entry.ask.value, entry.got);
        self.replaced = self.replaced || matches!(entry.ask.op, Op::Replace);
        self.total += added(entry.ask);
        self.last = Some(entry);
    }
}

/// Whether the order of a word has asks on it alone, each rank's in the rank's order, is the printed
/// one of these, and replayed gives what they fetched and the last value.
#[tactic(auto, unfolding(crate::specs::replays::Walks::is_right_order))]
pub(crate) fn is_right_order(round: &Round, word: u32) -> bool
    requires lengths { HasRightLengths round.now }
    requires word { word < length round.now.before }
    ensures right { result ≡ is_right_order round.now word }
    ensures small { get_or round.now.before word 0 < 2 ^ 64 }
{
    let order = round.order(word);
    let first = round.before()[word as usize];
    let mut walk = Walk::new(kind_of(round, order), first);
    for turn in order {
        match entry_on(round, word, *turn) {
            Some(entry) if walk.takes(&entry) => walk.take(entry),
            _ => return false,
        }
    }
    walk.word == round.after()[word as usize]
}
