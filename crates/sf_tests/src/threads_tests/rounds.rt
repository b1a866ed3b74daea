ghost use Rattle.std.specs.Prelude.{◌≡◌, IfOk, replicate};
ghost use Rattle.sf_defs.specs.declared.Op.TheVariants.{Sum};

use plex_base::NoMemory;
use sf_fabric::replays::replays;
use sf_fabric::{Ask, Op, Round, Tag, Turn};
use sf_threads::{NoGate, ThreadFabric};
use std::alloc::Global;
use std::test::Fail;
use std::thread::Threads;

/// An ask of this word.
fn ask(word: u32, op: Op, value: u64) -> Ask
    ensures { result ≡ record { word = word; op = op; value = value } }
{
    Ask { word, op, value }
}

/// One rank asks Sum 7 of one word that is 0.
fn one_sum<R: Threads>(rt: &R, alloc: Global) -> Result<Round, NoMemory> {
    let words = Vec::from_array(alloc, [0])?;
    let own = Vec::from_array(alloc, [ask(0, Op::Sum, 7)])?;
    let asks = Vec::from_array(alloc, [own])?;
    ThreadFabric::new(rt, alloc, NoGate).run_gated(Tag::Free, words, asks)
}

#[test]
fn sum_fetches_the_first_value(rt: HostRuntime) -> Result<(), Fail> {
    let round = one_sum(&rt, rt.alloc())?;
    assert!(rt; replays(&round));
    assert_eq!(rt; round.got(0), [0].as_slice());
    assert_eq!(rt; round.after(), [7].as_slice());
    assert_eq!(rt; round.order(0), [Turn { rank: 0, index: 0 }].as_slice());
    Ok(())
}

/// A thousand times Sum 1 of the first word.
fn thousand(alloc: Global) -> Result<Vec<Ask>, NoMemory>
    ensures { IfOk result (λ asks. asks.items ≡ replicate 1000 (record { word = 0; op = Sum; value = 1 })) }
{
    let one = ask(0, Op::Sum, 1);
    Ok(Vec::from_array(alloc, [one; 1000])?)
}

/// Four ranks ask 1,000 times Sum 1 of one word that is 0.
fn many_sums<R: Threads>(rt: &R, alloc: Global) -> Result<Round, NoMemory> {
    let words = Vec::from_array(alloc, [0])?;
    let (first, second) = (thousand(alloc)?, thousand(alloc)?);
    let (third, fourth) = (thousand(alloc)?, thousand(alloc)?);
    let asks = Vec::from_array(alloc, [first, second, third, fourth])?;
    ThreadFabric::new(rt, alloc, NoGate).run_gated(Tag::Free, words, asks)
}

#[test]
fn sums_draw_each_number_once(rt: HostRuntime) -> Result<(), Fail> {
    let round = many_sums(&rt, rt.alloc())?;
    assert!(rt; replays(&round));
    assert_eq!(rt; round.after(), [4000].as_slice());
    let mut drawn = Vec::new(rt.alloc());
    for rank in 0..round.ranks() {
        drawn.extend_from_slice(round.got(rank as u32))?;
    }
    drawn.sort_unstable();
    assert_eq!(rt; drawn.len(), 4000);
    for (i, number) in drawn.iter().enumerate() {
        assert_eq!(rt; *number, i as u64);
    }
    Ok(())
}

/// Four ranks ask each operation of a word of its own, but that the last one alone replaces.
fn all_operations<R: Threads>(rt: &R, alloc: Global) -> Result<Round, NoMemory> {
    let words = Vec::from_array(alloc, [9, 3, 50, 50, 1, 255, 7])?;
    let first = Vec::from_array(
        alloc,
        [
            ask(0, Op::Load, 0),
            ask(1, Op::Sum, 1),
            ask(2, Op::Min, 40),
            ask(3, Op::Max, 60),
            ask(4, Op::Or, 2),
            ask(5, Op::And, 254),
        ],
    )?;
    let second = Vec::from_array(
        alloc,
        [
            ask(1, Op::Sum, 2),
            ask(2, Op::Min, 41),
            ask(3, Op::Max, 59),
            ask(4, Op::Or, 6),
            ask(5, Op::And, 253),
            ask(6, Op::Load, 0),
        ],
    )?;
    let third = Vec::from_array(
        alloc,
        [
            ask(6, Op::Load, 0),
            ask(5, Op::And, 251),
            ask(4, Op::Or, 8),
            ask(3, Op::Max, 61),
            ask(2, Op::Min, 39),
            ask(1, Op::Sum, 4),
        ],
    )?;
    let fourth = Vec::from_array(
        alloc,
        [
            ask(6, Op::Replace, 70),
            ask(1, Op::Sum, 8),
            ask(1, Op::Load, 0),
        ],
    )?;
    let asks = Vec::from_array(alloc, [first, second, third, fourth])?;
    ThreadFabric::new(rt, alloc, NoGate).run_gated(Tag::Free, words, asks)
}

#[test]
fn every_operation_a_hundred_times(rt: HostRuntime) -> Result<(), Fail> {
    for _ in 0..100 {
        let round = all_operations(&rt, rt.alloc())?;
        assert!(rt; replays(&round));
        assert_eq!(rt; round.after(), [9, 18, 39, 61, 15, 248, 70].as_slice());
    }
    Ok(())
}
