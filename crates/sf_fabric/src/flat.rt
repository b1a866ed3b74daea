//! Lists that lie in one vector.
ghost use Rattle.std.specs.Prelude.{◌≡◌, ◌+◌, ◌<◌, ◌≤◌, [], length, map, set, get_or, IfOk};
ghost use Rattle.std.specs.List.{sum_by};
ghost use Rattle.plain_lists.specs.Vectors.{lists_of};
ghost use Rattle.sf_fabric.specs.Cut.{cut, part, shared, AreCuts};

use plex_base::NoMemory;
use std::alloc::Global;
use std::marker::Model;

/// Lists of `T` that lie in one vector, one after another.
#[derive(Debug, Drop)]
pub struct FlatLists<T> {
    items: Vec<T>,
    /// Where each list begins; one place more, where the last one ends.
    firsts: Vec<usize>,
}

impl<T> Model for FlatLists<T> {
    ghost use Rattle.std.specs.Prelude.{List};

    ghost Value = { List (List T) };

    ghost use Rattle.sf_fabric.specs.Cut.{cut, AreCuts};

    ghost view = { λ lists. cut lists.items.items lists.firsts.items };

    ghost invariant = { λ lists. AreCuts lists.items.items lists.firsts.items };
}

impl<T> FlatLists<T> {
    /// The lists that lie in `items` one after another: list `k` from place `firsts[k]` to before
    /// `firsts[k + 1]`. The places go from 0 to the number of items and do not fall; there is one more
    /// than lists. Takes no memory.
    pub fn new(items: Vec<T>, firsts: Vec<usize>) -> FlatLists<T>
        requires { AreCuts items.items firsts.items }
        ensures { result ≡ cut items.items firsts.items }
    {
        FlatLists { items, firsts }
    }

    /// How many lists there are.
    pub fn len(&self) -> usize
        ensures { result ≡ length self.now }
    {
        self.firsts.len() - 1
    }

    /// How many items all lists have together.
    pub fn total(&self) -> usize
        ensures { result ≡ sum_by length self.now }
    {
        self.items.len()
    }

    /// List `k`.
    pub fn list(&self, k: usize) -> &[T]
        requires { k < length self.now }
        ensures { result.now ≡ get_or self.now k [] }
    {
        part(&self.items, &self.firsts, k)
    }

    /// Lists of these items, each with as many as the list here. There are as many items as here.
    pub fn alike<U: Drop>(&self, alloc: Global, items: Vec<U>) -> Result<FlatLists<U>, NoMemory>
        requires { length items.items ≡ sum_by length self.now }
        ensures lists { IfOk result (λ lists. lists ≡ shared (map length self.now) items.items) }
        ensures lengths { IfOk result (λ lists. map length lists ≡ map length self.now) }
    {
        let firsts = Vec::from_slice(alloc, &self.firsts)?;
        Ok(FlatLists::new(items, firsts))
    }
}

impl<T: Copy> FlatLists<T> {
    /// The lists of these vectors.
    pub fn of_nested(alloc: Global, lists: Vec<Vec<T>>) -> Result<FlatLists<T>, NoMemory>
        ensures { IfOk result (λ flat. flat ≡ lists_of lists.items) }
    {
        let mut items = Vec::new(alloc);
        let mut firsts = Vec::new(alloc);
        firsts.push(0)?;
        for list in lists {
            items.extend_from_slice(&list)?;
            firsts.push(items.len())?;
        }
        Ok(FlatLists::new(items, firsts))
    }

    /// Puts an item into place `i` of list `k`.
    pub fn put(&mut self, k: usize, i: usize, item: T)
        requires list { k < length self.old }
        requires place { i < length (get_or self.old k []) }
        ensures { self.new ≡ set self.old k (set (get_or self.old k []) i item) }
    {
        let place = self.firsts[k] + i;
        self.items[place] = item;
    }

    /// The same lists again.
    pub fn try_clone(&self, alloc: Global) -> Result<FlatLists<T>, NoMemory>
        ensures { IfOk result (λ lists. lists ≡ self.now) }
    {
        let items = Vec::from_slice(alloc, &self.items)?;
        let firsts = Vec::from_slice(alloc, &self.firsts)?;
        Ok(FlatLists::new(items, firsts))
    }
}

/// The items from one place to the next.
fn part<'a, T>(items: &'a [T], firsts: &[usize], k: usize) -> &'a [T]
    requires place { k + 1 < length firsts.now }
    requires rising { get_or firsts.now k 0 ≤ get_or firsts.now (k + 1) 0 }
    requires within { get_or firsts.now (k + 1) 0 ≤ length items.now }
    ensures { result.now ≡ part items.now firsts.now k }
{
    &items[firsts[k]..firsts[k + 1]]
}
