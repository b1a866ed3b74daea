//! The search for a root with two leaves.
ghost use Rattle.std.specs.Prelude.{◌≡◌, ◌<◌, nat_lt, find, length};
ghost use Rattle.plain_lists.specs.Lists.{below};
ghost use Rattle.sf_defs.specs.Forest.{degree, roots_on, shared_root};

use sf_graph::Forest;

/// The first root with two leaves, by rank and index.
pub(crate) fn first_shared(forest: &Forest) -> Option<(u32, u32)>
    ensures { result ≡ shared_root forest.now }
{
    for rank in 0..forest.ranks() {
        if let Some(index) = first_shared_on(forest, rank) {
            return Some((rank, index));
        }
    }
    None
}

/// The first root of a rank with two leaves.
fn first_shared_on(forest: &Forest, rank: u32) -> Option<u32>
    requires { rank < length forest.now.roots }
    ensures { result ≡ find (λ i. nat_lt 1 (degree forest.now rank i)) (below (roots_on forest.now rank)) }
{
    for index in 0..forest.roots(rank) {
        if forest.degree(rank, index) > 1 {
            return Some(index);
        }
    }
    None
}
