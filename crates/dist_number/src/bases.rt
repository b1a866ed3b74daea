//! What ranks drew.
ghost use Rattle.std.specs.Prelude.{◌≡◌, ◌<◌, ◌≤◌, length, slice_index};
ghost use Rattle.dist_number.specs.Drawn.{drawn_in, HasOneWord};

use sf_fabric::Round;
use std::marker::Model;

/// The base from which each rank numbers the points that it owns, and how many points there are.
/// No call takes memory.
#[derive(Debug, Drop)]
pub struct Bases {
    bases: Vec<u64>,
    total: u64,
}

impl Model for Bases {
    ghost use Rattle.dist_number.specs.Drawn.{Drawn};

    ghost Value = { Drawn };

    ghost view = { λ b. record { bases = b.bases.items; total = b.total } };
}

impl Bases {
    /// What the ranks drew in a round with one word, put in the place of as many numbers.
    pub(crate) fn of(mut bases: Vec<u64>, round: &Round) -> Bases
        requires word { HasOneWord round.now }
        requires ranks { length round.now.got ≤ 64 }
        requires count { length bases.items ≡ length round.now.got }
        ensures { result ≡ drawn_in round.now }
    {
        for rank in 0..bases.len() {
            bases[rank] = round.got(rank as u32)[0];
        }
        Bases {
            bases,
            total: round.after()[0],
        }
    }

    /// The base of a rank.
    pub fn base(&self, rank: u32) -> u64
        requires { rank < length self.now.bases }
        ensures { result ≡ slice_index self.now.bases rank }
    {
        self.bases[rank as usize]
    }

    /// The number of points of the whole mesh.
    pub fn total(&self) -> u64
        ensures { result ≡ self.now.total }
    {
        self.total
    }
}
