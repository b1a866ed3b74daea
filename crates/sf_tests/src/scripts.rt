ghost use Rattle.std.specs.Prelude.{◌≡◌};
ghost use Rattle.sf_defs.specs.declared.Op.TheVariants.{Sum};

use plex_base::NoMemory;
use sf_fabric::replays::replays;
use sf_fabric::script::ScriptFabric;
use sf_fabric::{Ask, Op, Round, Tag, Turn};
use std::alloc::Global;
use std::test::Fail;

/// A Sum on the one word.
fn sum(value: u64) -> Ask
    ensures { result ≡ record { word = 0; op = Sum; value = value } }
{
    Ask {
        word: 0,
        op: Op::Sum,
        value,
    }
}

/// The round of these picks in which rank 0 asks Sum 5 of a word that is 3, and rank 1 Sum 0 twice.
fn three_sums(alloc: Global, picks: Vec<u32>) -> Result<Round, NoMemory> {
    let words = Vec::from_array(alloc, [3])?;
    let first = Vec::from_array(alloc, [sum(5)])?;
    let second = Vec::from_array(alloc, [sum(0), sum(0)])?;
    let asks = Vec::from_array(alloc, [first, second])?;
    ScriptFabric::new(picks).run_script(Tag::Free, words, asks)
}

#[test]
fn fetch_and_sum_in_three_orders(rt: HostRuntime) -> Result<(), Fail> {
    for (picks, second, order) in [
        ([1, 0, 1], [3, 8], [(1, 0), (0, 0), (1, 1)]),
        ([0, 64, 9], [8, 8], [(0, 0), (1, 0), (1, 1)]),
        ([1, 1, 0], [3, 3], [(1, 0), (1, 1), (0, 0)]),
    ] {
        let picks = Vec::from_array(rt.alloc(), picks)?;
        let round = three_sums(rt.alloc(), picks)?;
        if !round.is_complete() || round.ranks() != 2 || round.before().len() != 1 {
            return Err(Fail::from("another round"));
        }
        assert!(rt; replays(&round));
        assert_eq!(rt;
            (round.got(0), round.got(1)),
            ([3].as_slice(), second.as_slice())
        );
        assert_eq!(rt; round.after(), [8].as_slice());
        let turns = order.map(|(rank, index)| Turn { rank, index });
        assert_eq!(rt; round.order(0), turns.as_slice());
    }
    Ok(())
}
