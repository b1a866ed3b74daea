ghost use Rattle.std.specs.Prelude.{◌≡◌, ◌+◌, ◌<◌, ◌^◌};

use rank_run::{RankWork, each_rank};
use std::test::Fail;

/// Adds its rank to a number.
struct AddRank;

impl RankWork<u64> for AddRank {
    ghost accepts = { λ work rank item. (rank + item < 2 ^ 64) };

    ghost changes = { λ work rank before after. after ≡ before + rank };

    fn step(&self, rank: u32, item: &mut u64) {
        *item += u64::from(rank);
    }
}

#[test]
fn each_rank_does_its_step(rt: HostRuntime) -> Result<(), Fail> {
    let mut items = [7, 7, 7, 7];
    each_rank(&rt, &mut items, &AddRank);
    assert_eq!(rt; items, [7, 8, 9, 10]);
    Ok(())
}
