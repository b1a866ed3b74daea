//! A place for each of some numbers.

ghost use Rattle.std.specs.Prelude.{◌≡◌, ℕ, None, Some, if◌then◌else◌, nat_eq, length, IfOk, OnOk};
ghost use Rattle.mesh_check.specs.mesh_vertices.FirstPlaces.{place_of};

use std::alloc::{AllocError, Global};
use std::collections::HashMap;

/// A place for each of some numbers. Low numbers need no hashing.
#[derive(Debug, Drop)]
pub(crate) struct FirstPlaces {
    low: Vec<Option<u32>>,
    high: HashMap<u32, u32>,
}

impl FirstPlaces {
    /// No number has a place. Those below `low` will need no hashing.
    pub(crate) fn new(alloc: Global, low: usize) -> Result<FirstPlaces, AllocError>
        ensures { IfOk result (λ places. (n : ℕ) → place_of places n ≡ None) }
    {
        Ok(FirstPlaces {
            low: vec![in alloc; None; low]?,
            high: HashMap::new(alloc),
        })
    }

    /// Gives a number a place, in place of the one that it had.
    pub(crate) fn set(&mut self, number: u32, place: u32) -> Result<(), AllocError>
        ensures { OnOk result ((n : ℕ) → place_of self.new n ≡ (if nat_eq number n then Some place else place_of self.old n)) }
    {
        if (number as usize) < self.low.len() {
            self.low[number as usize] = Some(place);
        } else {
            self.high.insert(number, place)?;
        }
        Ok(())
    }

    /// The place of a number.
    pub(crate) fn get(&self, number: u32) -> Option<u32>
        ensures { result ≡ place_of self.now number }
    {
        if (number as usize) < self.low.len() {
            self.low[number as usize]
        } else {
            self.high.get(&number).copied()
        }
    }
}
