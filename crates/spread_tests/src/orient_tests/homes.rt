//! What home rounds of two ranks say.
use sf_fabric::{Ask, Op, Round, Tag};
use std::process::Abort;
use std::test::Fail;

/// The words of a home round of two ranks in which rank 1 alone asks.
#[derive(Clone, Copy, Debug)]
pub(crate) struct Home<'a> {
    pub(crate) before: &'a [u64],
    /// The keys that rank 1 asks, one of each word.
    pub(crate) asked: &'a [u64],
    pub(crate) after: &'a [u64],
}

/// Rank 1 asks the least of each word, in the order of the words, and rank 0 owns all and asks nothing.
pub(crate) fn check_home(rt: &impl Abort, round: &Round, home: &Home) -> Result<(), Fail> {
    assert_eq!(rt; (round.tag(), round.ranks()), (Tag::Home, 2));
    assert_eq!(rt; round.before(), home.before);
    assert_eq!(rt; round.after(), home.after);
    assert_eq!(rt; round.asks(0).len(), 0);
    check_asks(rt, round.asks(1), home.asked);
    Ok(())
}

/// The least of each word is asked, with these keys.
fn check_asks(rt: &impl Abort, asks: &[Ask], keys: &[u64]) {
    assert_eq!(rt; asks.len(), keys.len());
    for (word, (ask, key)) in asks.iter().zip(keys).enumerate() {
        assert_eq!(rt; (ask.word as usize, ask.op), (word, Op::Min));
        assert_eq!(rt; ask.value, *key);
    }
}

/// The home round is kept, and no other round is.
pub(crate) fn check_alone(rt: &impl Abort, kept: &[Round], home: &Home) -> Result<(), Fail> {
    let [round] = kept else {
        return Err(Fail::from("not one round is kept"));
    };
    check_home(rt, round, home)
}
