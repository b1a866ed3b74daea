use sf_graph::{Forest, ForestFault, Leaf};
use std::alloc::Global;
use std::test::Fail;

/// A leaf with its root on rank 0.
fn leaf(local: u32, index: u32) -> Leaf {
    Leaf {
        local,
        rank: 0,
        index,
    }
}

/// The forest with at most nine roots on rank 0, none on rank 1, and two leaves on rank 1.
fn two_ranks(alloc: Global, roots: u32, leaves: [(u32, u32); 2]) -> Result<Forest, ForestFault> {
    let roots = Vec::from_array(alloc, [roots.min(9), 0])?;
    let [first, second] = leaves;
    let own = Vec::from_array(alloc, [leaf(first.0, first.1), leaf(second.0, second.1)])?;
    let leaves = Vec::from_array(alloc, [Vec::new(alloc), own])?;
    Forest::new(alloc, roots, leaves)
}

#[test]
fn faults_of_forests(rt: HostRuntime) -> Result<(), Fail> {
    let out_of_range = ForestFault::RootRange { rank: 1, leaf: 0 };
    let twice = ForestFault::LeafTwice { rank: 1, local: 4 };
    for (roots, leaves, fault) in [
        (1, [(0, 1), (1, 0)], Some(out_of_range)),
        (1, [(4, 0), (4, 0)], Some(twice)),
        (2, [(0, 1), (3, 0)], None),
    ] {
        let forest = two_ranks(rt.alloc(), roots, leaves);
        assert_eq!(rt; forest.err(), fault, "{roots}");
    }
    Ok(())
}
