//! Leaves meet in whatever order their ranks take their turns, and through the rounds of the fabric.
ghost use Rattle.std.specs.Prelude.{◌≡◌, IfOk};
ghost use Rattle.sf_defs.specs.Forest.{leaf as plain_leaf};
ghost use Rattle.sf_tests.specs.meet_tests.TwoRoots.{two_roots};

use crate::{NoFabric, RefusingFabric};
use plex_base::NoMemory;
use sf_fabric::script::ScriptFabric;
use sf_fabric::{Fabric, Tag};
use sf_graph::{Forest, Leaf};
use shared_forest::sf_meet::meet;
use std::alloc::Global;
use std::test::Fail;

/// A leaf on a root of rank 0.
fn leaf(local: u32, index: u32) -> Leaf
    ensures { result ≡ plain_leaf local (0, index) }
{
    Leaf {
        local,
        rank: 0,
        index,
    }
}

/// The first root has a leaf of rank 0 and three of rank 1, the other one leaf of rank 1.
fn two_roots(alloc: Global) -> Result<Forest, NoMemory>
    ensures { IfOk result (λ f. f ≡ two_roots) }
{
    let first = Vec::from_array(alloc, [leaf(0, 0)])?;
    let second = Vec::from_array(alloc, [leaf(0, 0), leaf(2, 0), leaf(3, 1), leaf(4, 0)])?;
    let leaves = Vec::from_array(alloc, [first, second])?;
    let roots = Vec::from_array(alloc, [2, 0])?;
    Forest::new(alloc, roots, leaves).map_err(|_| NoMemory)
}

/// What leaves with these keys and ids learn over a fabric.
fn meet_on<F: Fabric>(alloc: Global, fabric: &mut F) -> Result<Vec<Vec<u64>>, NoMemory> {
    let forest = two_roots(alloc)?;
    let first = Vec::from_array(alloc, [[7, 1]])?;
    let second = Vec::from_array(alloc, [[7, 2], [7, 1], [7, 1], [7, 1], [7, 2]])?;
    let keys = [first, second];
    let first = Vec::from_array(alloc, [40])?;
    let second = Vec::from_array(alloc, [50, 10, 30, 20, 60])?;
    let ids = [first, second];
    meet(alloc, &forest, &keys, &ids, fabric)
}

#[test]
fn leaves_meet_in_any_order(rt: HostRuntime) -> Result<(), Fail> {
    for picks in [
        [0, 1, 1, 1, 1],
        [1, 1, 1, 1, 0],
        [1, 0, 1, 1, 1],
        [9, 1, 1, 0, 1],
    ] {
        let picks = Vec::from_array(rt.alloc(), picks)?;
        let met = meet_on(rt.alloc(), &mut ScriptFabric::new(picks))?;
        assert_eq!(rt; met.len(), 2);
        assert_eq!(rt; met[0].as_slice(), [30].as_slice());
        assert_eq!(rt; met[1].as_slice(), [50, 10, 30, 20, 50].as_slice());
    }
    Ok(())
}

#[test]
fn five_rounds_go_through_the_fabric(rt: HostRuntime) -> Result<(), Fail> {
    assert!(rt; meet_on(rt.alloc(), &mut NoFabric).is_err());
    for rounds in 0..6 {
        let inner = ScriptFabric::new(Vec::new(rt.alloc()));
        let mut fabric = RefusingFabric::new(inner, Tag::Free, rounds);
        assert_eq!(rt; meet_on(rt.alloc(), &mut fabric).is_ok(), rounds == 5);
    }
    Ok(())
}
