//! Fetch and operate in orders that scripts give.
ghost use Rattle.std.specs.Prelude.{◌≡◌, IfOk};
ghost use Rattle.sf_tests.specs.OneRoot.{leaf_at, one_root};

use crate::texts::turns_of;
use sf_fabric::replays::replays;
use sf_fabric::script::ScriptFabric;
use sf_fabric::{Op, Round, Tag};
use sf_graph::{Forest, ForestFault, Leaf};
use sf_ops::fetch_and_op;
use std::alloc::Global;
use std::test::Fail;

/// A leaf on the one root.
fn leaf(local: u32) -> Leaf
    ensures { result ≡ leaf_at local }
{
    Leaf {
        local,
        rank: 0,
        index: 0,
    }
}

/// The forest of one root on rank 0, with one leaf of rank 0 and two of rank 1.
fn three_leaves(alloc: Global) -> Result<Forest, ForestFault>
    ensures { IfOk result (λ f. f ≡ one_root) }
{
    let first = Vec::from_array(alloc, [leaf(0)])?;
    let second = Vec::from_array(alloc, [leaf(0), leaf(1)])?;
    let leaves = Vec::from_array(alloc, [first, second])?;
    let roots = Vec::from_array(alloc, [1, 0])?;
    Forest::new(alloc, roots, leaves)
}

/// The round of these picks in which the leaf of rank 0 adds 5 to the root, which is 3, and those of rank
/// 1 add 0.
fn fetch_and_sum(alloc: Global, picks: Vec<u32>) -> Result<Round, Fail> {
    let forest = three_leaves(alloc)?;
    let first = Vec::from_array(alloc, [5])?;
    let second = Vec::from_array(alloc, [0, 0])?;
    let leaves = [first, second];
    let root = Vec::from_array(alloc, [3])?;
    let mut roots = [root, Vec::new(alloc)];
    let mut fabric = ScriptFabric::new(picks);
    let round = fetch_and_op(
        alloc,
        &forest,
        &leaves,
        &mut roots,
        Op::Sum,
        Tag::Free,
        &mut fabric,
    )?;
    Ok(round)
}

#[test]
fn leaves_fetch_in_three_orders(rt: HostRuntime) -> Result<(), Fail> {
    for (picks, second, order) in [
        ("101", [3, 8], "10 00 11"),
        ("0", [8, 8], "00 10 11"),
        ("110", [3, 3], "10 11 00"),
    ] {
        let mut numbers = Vec::new(rt.alloc());
        for pick in picks.as_bytes() {
            numbers.push(u32::from(*pick & 15))?;
        }
        let round = fetch_and_sum(rt.alloc(), numbers)?;
        if !round.is_complete() || round.ranks() != 2 || round.before().len() != 1 {
            return Err(Fail::from("another round"));
        }
        assert!(rt; replays(&round));
        assert_eq!(rt;
            (round.got(0), round.got(1)),
            ([3].as_slice(), second.as_slice())
        );
        assert_eq!(rt; round.after(), [8].as_slice());
        let turns = turns_of(rt.alloc(), order)?;
        assert_eq!(rt; round.order(0), turns.as_slice());
    }
    Ok(())
}
