//! Numbers in a list, and the first place of each.

ghost use Rattle.std.specs.Prelude.{◌≡◌, ℕ, ◌==◌, ◌^◌, ◌<◌, length, position, IfOk};
ghost use Rattle.mesh_check.specs.mesh_vertices.FirstPlaces.{place_of};

use crate::mesh_vertices::first_places::FirstPlaces;
use plex_base::NoMemory;
use std::alloc::Global;
use std::marker::Model;

/// A list of numbers that tells at which place a number stands first.
///
/// Numbers below twice their count, as those from 1 on in their order are, need no hashing.
#[derive(Debug, Drop)]
pub struct NumberTable {
    numbers: Vec<u32>,
    places: FirstPlaces,
}

impl Model for NumberTable {
    ghost use Rattle.std.specs.Prelude.{ℕ, List};

    ghost Value = { List ℕ };

    ghost view = { λ t. t.numbers.items };

    ghost use Rattle.std.specs.Prelude.{◌≡◌, ◌==◌, position};
    ghost use Rattle.mesh_check.specs.mesh_vertices.FirstPlaces.{place_of};

    ghost invariant = { λ t. (n : ℕ) → place_of t.places n ≡ position (λ m. m == n) t.numbers.items };
}

/// The first place of each number.
fn first_places(alloc: Global, numbers: &[u32]) -> Result<FirstPlaces, NoMemory>
    requires { length numbers.now < 2 ^ 32 }
    ensures { IfOk result (λ places. (n : ℕ) → place_of places n ≡ position (λ m. m == n) numbers.now) }
{
    let mut places = FirstPlaces::new(alloc, 2 * numbers.len())?;
    for place in (0..numbers.len()).rev() {
        places.set(numbers[place], place as u32)?;
    }
    Ok(places)
}

impl NumberTable {
    /// The table of these numbers, of which there are fewer than 2^32.
    pub fn of(alloc: Global, numbers: Vec<u32>) -> Result<NumberTable, NoMemory>
        requires { length numbers.items < 2 ^ 32 }
        ensures { IfOk result (λ table. table ≡ numbers.items) }
    {
        let places = first_places(alloc, &numbers)?;
        Ok(NumberTable { numbers, places })
    }

    /// The first place at which a number stands, from 0, or none where it stands nowhere.
    pub fn place(&self, number: u32) -> Option<u32>
        ensures { result ≡ position (λ m. m == number) self.now }
    {
        self.places.get(number)
    }
}
