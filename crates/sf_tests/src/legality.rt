//! Rounds that are legal and rounds that are not.
//!
//! A row of a table is a round of two ranks on one word (or on as many as there are values): the first
//! values, what ranks 0 and 1 ask, what they fetched, the last values, the order, and whether the round
//! is legal. An ask is a letter for the operation, a digit for the word and one for the value (`M` is
//! the last number); a turn is a digit for the rank and one for the place.
use crate::texts::{asks_of, turns_of, values_of};
use sf_fabric::replays::replays;
use sf_fabric::{Ask, Op, Round, Tag, Turn};
use std::alloc::{AllocError, Global};
use std::process::Abort;
use std::test::Fail;

/// One Sum: right, the value after the update, a turn twice, a turn missing, the last value. Three Sums
/// in the orders of three scripts, and in other orders.
const SUMS: &str = "\
0 | s07 |  | 0 |  | 7 | 00 | legal
0 | s07 |  | 7 |  | 7 | 00 | not
0 | s07 |  | 0 |  | 7 | 00 00 | not
0 | s07 |  | 0 |  | 7 |  | not
0 | s07 |  | 0 |  | 8 | 00 | not
3 | s05 | s00 s00 | 3 | 38 | 8 | 10 00 11 | legal
3 | s05 | s00 s00 | 3 | 88 | 8 | 00 10 11 | legal
3 | s05 | s00 s00 | 3 | 33 | 8 | 10 11 00 | legal
3 | s05 | s00 s00 | 3 | 38 | 8 | 00 10 11 | not
3 | s05 | s00 s00 | 3 | 33 | 8 | 11 10 00 | not
3 | s05 | s00 s00 | 3 | 88 | 8 | 00 11 10 | not";

/// Turns that name no ask, and lists that are too short or too long. No asks at all, and no words.
const LENGTHS: &str = "\
3 | s05 | s00 s00 | 3 | 38 | 8 | 10 00 12 | not
3 | s05 | s00 s00 | 3 | 38 | 8 | 10 00 21 | not
3 | s05 | s00 s00 | 3 | 38 | 8 | 10 00 11 11 | not
3 | s05 | s00 s00 | 3 | 3 | 8 | 10 00 11 | not
3 | s05 | s00 s00 | 3 | 388 | 8 | 10 00 11 | not
3 | s05 | s00 s00 | 3 | 38 |  | 10 00 11 | not
3 | s05 | s00 s00 | 3 | 38 | 88 | 10 00 11 | not
5 |  |  |  |  | 5 |  | legal
5 |  |  |  |  | 6 |  | not
 |  |  |  |  |  |  | not";

/// A word that is not there. Loads: alone, with a value, before and after an update.
const LOADS: &str = "\
0 | s17 |  | 0 |  | 0 |  | not
0 | s17 |  | 0 |  | 7 | 00 | not
4 | l00 | l00 | 4 | 4 | 4 | 00 10 | legal
4 | l00 | l00 | 4 | 4 | 4 | 10 00 | not
4 | l01 |  | 4 |  | 4 | 00 | not
3 | l00 | s04 | 7 | 3 | 7 | 10 00 | legal
3 | l00 | s04 | 3 | 3 | 7 | 00 10 | legal
3 | l00 | s04 | 7 | 3 | 7 | 00 10 | not";

/// Each other operation, with rank 1 first. Mins that change nothing come by rank, before the one that
/// changes.
const OPERATIONS: &str = "\
9 | i02 | i05 | 5 | 9 | 2 | 10 00 | legal
9 | i02 | i05 | 9 | 9 | 2 | 00 10 | not
2 | a09 | a05 | 5 | 2 | 9 | 10 00 | legal
1 | o04 | o02 | 3 | 1 | 7 | 10 00 | legal
7 | n03 | n05 | 5 | 7 | 1 | 10 00 | legal
3 | l00 | r01 | 1 | 3 | 1 | 10 00 | legal
3 | l00 | r01 | 3 | 3 | 1 | 00 10 | legal
9 | i09 | i05 | 9 | 9 | 5 | 00 10 | legal
5 | i09 | i07 | 5 | 5 | 5 | 10 00 | not";

/// Two kinds, two Replaces, and Sums past the last number. Asks of one rank out of their order.
const CONDITIONS: &str = "\
3 | s01 | a09 | 3 | 4 | 9 | 00 10 | not
3 | r01 | r02 | 3 | 1 | 2 | 00 10 | not
1 | s0M |  | 1 |  | 0 | 00 | not
0 | s0M |  | 0 |  | M | 00 | legal
0 | s01 s02 |  | 02 |  | 3 | 00 01 | not
0 | s01 s02 |  | 20 |  | 3 | 01 00 | not
0 | s01 s02 |  | 01 |  | 3 | 00 01 | legal";

/// The round of a row, and whether it is said to be legal.
fn round_of(alloc: Global, row: &str) -> Result<(Round, bool), Fail> {
    let fields: Vec<&str> = row.split('|').collect(alloc)?;
    let [
        before,
        first,
        second,
        first_got,
        second_got,
        after,
        order,
        legal,
    ] = fields.as_slice()
    else {
        return Err(Fail::from("not a row"));
    };
    let asks = [asks_of(alloc, first)?, asks_of(alloc, second)?];
    let got = [values_of(alloc, first_got)?, values_of(alloc, second_got)?];
    let round = Round::raw(
        Tag::Free,
        values_of(alloc, before)?,
        Vec::from_array(alloc, asks)?,
        Vec::from_array(alloc, got)?,
        values_of(alloc, after)?,
        vec![in alloc; turns_of(alloc, order)?]?,
    );
    Ok((round, *legal == " legal"))
}

/// Each row's round is legal where the row says so, and not where it does not.
fn check(rt: &impl Abort, alloc: Global, rows: &str) -> Result<(), Fail> {
    for row in rows.split('\n') {
        let (round, legal) = round_of(alloc, row)?;
        assert_eq!(rt; replays(&round), legal, "{row}");
    }
    Ok(())
}

#[test]
fn sums_on_one_word(rt: HostRuntime) -> Result<(), Fail> {
    check(&rt, rt.alloc(), SUMS)
}

#[test]
fn lists_of_other_lengths(rt: HostRuntime) -> Result<(), Fail> {
    check(&rt, rt.alloc(), LENGTHS)
}

#[test]
fn words_and_loads(rt: HostRuntime) -> Result<(), Fail> {
    check(&rt, rt.alloc(), LOADS)
}

#[test]
fn other_operations(rt: HostRuntime) -> Result<(), Fail> {
    check(&rt, rt.alloc(), OPERATIONS)
}

#[test]
fn conditions_and_own_order(rt: HostRuntime) -> Result<(), Fail> {
    check(&rt, rt.alloc(), CONDITIONS)
}

/// A round of so many ranks, each of which asks Sum 0 of the one word.
fn of_ranks(alloc: Global, ranks: u32) -> Result<Round, AllocError> {
    let sum = Ask {
        word: 0,
        op: Op::Sum,
        value: 0,
    };
    let mut asks = Vec::new(alloc);
    let mut got = Vec::new(alloc);
    let mut turns = Vec::new(alloc);
    for rank in 0..ranks {
        asks.push(Vec::from_array(alloc, [sum])?)?;
        got.push(Vec::from_array(alloc, [4])?)?;
        turns.push(Turn { rank, index: 0 })?;
    }
    let words = Vec::from_array(alloc, [4])?;
    let after = Vec::from_array(alloc, [4])?;
    let order = vec![in alloc; turns]?;
    Ok(Round::raw(Tag::Free, words, asks, got, after, order))
}

#[test]
fn numbers_of_ranks(rt: HostRuntime) -> Result<(), Fail> {
    for (ranks, legal) in [(0, false), (1, true), (2, true), (64, true), (65, false)] {
        let round = of_ranks(rt.alloc(), ranks)?;
        assert_eq!(rt; replays(&round), legal, "{ranks}");
    }
    Ok(())
}
