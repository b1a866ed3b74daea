//! Numbers of points.
ghost use Rattle.std.specs.Prelude.{◌≡◌, ◌<◌, [], length, get_or, slice_index};
ghost use Rattle.plain_lists.specs.Vectors.{lists_of};

use std::marker::Model;

/// The number of each point that a rank holds. Contracts see it as the numbers of each rank's points.
/// No call takes memory.
#[derive(Debug, Drop)]
pub struct Numbers {
    numbers: Vec<Vec<u64>>,
}

impl Model for Numbers {
    ghost use Rattle.std.specs.Prelude.{ℕ, List};
    ghost use Rattle.plain_lists.specs.Vectors.{lists_of};

    ghost Value = { List (List ℕ) };

    ghost view = { λ n. lists_of n.numbers.items };
}

impl Numbers {
    pub(crate) fn from_ranks(numbers: Vec<Vec<u64>>) -> Numbers
        ensures { result ≡ lists_of numbers.items }
    {
        Numbers { numbers }
    }

    /// The number of a point that a rank holds, by its local number there.
    pub fn of(&self, rank: u32, p: u32) -> u64
        requires rank { rank < length self.now }
        requires point { p < length (get_or self.now rank []) }
        ensures { result ≡ slice_index (get_or self.now rank []) p }
    {
        self.numbers[rank as usize][p as usize]
    }
}
