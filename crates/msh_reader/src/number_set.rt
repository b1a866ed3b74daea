//! Numbers of nodes or elements.

ghost use Rattle.std.specs.Prelude.{◌≡◌, ℕ, suc, ◌==◌, ◌||◌, false, map, OnOk};
ghost use Rattle.plain_lists.specs.Lists.{below};
ghost use Rattle.input_defs.specs.Sections.{has_number};
ghost use Rattle.msh_reader.specs.NumberSets.{numbers_of};

use msh_data::Numbers;
use std::alloc::{AllocError, Global};
use std::collections::HashSet;

/// A set of numbers. Those from 1 on that come in their order need no hashing.
#[derive(Drop)]
pub struct NumberSet {
    /// All numbers from 1 to this one.
    in_order: u32,
    /// Numbers that came out of order.
    others: HashSet<u32>,
}

impl NumberSet {
    /// No number.
    pub fn new(alloc: Global) -> NumberSet
        ensures { (n : ℕ) → has_number (numbers_of result) n ≡ false }
    {
        NumberSet {
            in_order: 0,
            others: HashSet::new(alloc),
        }
    }

    /// Puts a number in.
    pub fn insert(&mut self, number: u32) -> Result<(), AllocError>
        ensures { OnOk result ((n : ℕ) → has_number (numbers_of self.new) n ≡ ((number == n) || has_number (numbers_of self.old) n)) }
    {
        if number > 0 && number - 1 == self.in_order {
            self.in_order = number;
            return Ok(());
        }
        self.others.insert(number)?;
        Ok(())
    }

    fn is_in_order(&self, number: u32) -> bool
        ensures { result ≡ has_number (map suc (below self.now.in_order)) number }
    {
        1 <= number && number <= self.in_order
    }

    fn is_other(&self, number: u32) -> bool
        ensures { result ≡ has_number self.now.others.keys number }
    {
        self.others.contains(&number)
    }
}

impl Numbers for NumberSet {
    ghost known = { numbers_of };

    fn knows(&self, number: u32) -> bool {
        self.is_in_order(number) || self.is_other(number)
    }
}
