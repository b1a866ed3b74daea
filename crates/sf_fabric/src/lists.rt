//! Lists of lists.
ghost use Rattle.std.specs.Prelude.{◌≡◌, ◌<◌, [], length, get_or, IfOk};
ghost use Rattle.plain_lists.specs.Vectors.{lists_of};
ghost use Rattle.sf_fabric.specs.Stored.{lists_in};

use crate::flat::FlatLists;
use plex_base::NoMemory;
use std::alloc::Global;

/// Lists of `T`: either a vector for each, or all in one vector.
#[derive(Debug, Drop)]
pub(crate) enum Lists<T> {
    Nested(Vec<Vec<T>>),
    Flat(FlatLists<T>),
}

impl<T> Lists<T> {
    /// How many lists there are.
    pub(crate) fn len(&self) -> usize
        ensures { result ≡ length (lists_in self.now) }
    {
        match self {
            Lists::Nested(lists) => lists.len(),
            Lists::Flat(lists) => lists.len(),
        }
    }

    /// List `k`.
    pub(crate) fn list(&self, k: usize) -> &[T]
        requires { k < length (lists_in self.now) }
        ensures { result.now ≡ get_or (lists_in self.now) k [] }
    {
        match self {
            Lists::Nested(lists) => &lists[k],
            Lists::Flat(lists) => lists.list(k),
        }
    }
}

impl<T: Copy> Lists<T> {
    /// The same lists again.
    pub(crate) fn try_clone(&self, alloc: Global) -> Result<Lists<T>, NoMemory>
        ensures { IfOk result (λ lists. lists_in lists ≡ lists_in self.now) }
    {
        match self {
            Lists::Nested(lists) => Ok(Lists::Nested(copies(alloc, lists)?)),
            Lists::Flat(lists) => Ok(Lists::Flat(lists.try_clone(alloc)?)),
        }
    }
}

/// Each list again.
fn copies<T: Copy>(alloc: Global, lists: &[Vec<T>]) -> Result<Vec<Vec<T>>, NoMemory>
    ensures { IfOk result (λ copies. lists_of copies.items ≡ lists_of lists.now) }
{
    let mut copies = Vec::with_capacity(alloc, lists.len())?;
    for list in lists {
        copies.push(Vec::from_slice(alloc, list)?)?;
    }
    Ok(copies)
}
