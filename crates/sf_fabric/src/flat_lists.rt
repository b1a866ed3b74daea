//! Lists that lie one after another in one vector, made list by list.

ghost use Rattle.std.specs.Prelude.{◌≡◌, [], ◌∷◌, ◌++◌, IfOk, OnOk, OnErr};

use crate::FlatLists;
use plex_base::NoMemory;
use std::alloc::Global;
use std::marker::Model;

/// Lists that are pushed one after another. Contracts see the lists so far.
#[derive(Drop)]
pub struct ListsBuilder<T> {
    items: Vec<T>,
    /// Where each list begins, and one place more, where the last one ends.
    firsts: Vec<usize>,
}

impl<T> Model for ListsBuilder<T> {
    ghost use Rattle.std.specs.Prelude.{List};
    ghost use Rattle.sf_fabric.specs.Cut.{cut, AreCuts};

    ghost Value = { List (List T) };

    ghost view = { λ b. cut b.items.items b.firsts.items };

    ghost invariant = { λ b. AreCuts b.items.items b.firsts.items };
}

impl<T: Copy> ListsBuilder<T> {
    /// No lists. It keeps the allocator. Fails only for want of memory.
    pub fn new(alloc: Global) -> Result<ListsBuilder<T>, NoMemory>
        ensures { IfOk result (λ b. b ≡ []) }
    {
        let firsts = vec![in alloc; 0usize]?;
        Ok(ListsBuilder {
            items: Vec::new(alloc),
            firsts,
        })
    }

    /// Puts a list at the end. Fails only for want of memory, and then has added nothing.
    pub fn push(&mut self, list: &[T]) -> Result<(), NoMemory>
        ensures ok { OnOk result (self.new ≡ self.old ++ list.now ∷ []) }
        ensures err { OnErr result (self.new ≡ self.old) }
    {
        self.firsts.reserve(1)?;
        self.items.extend_from_slice(list)?;
        self.firsts.push_reserved(self.items.len());
        Ok(())
    }

    /// The lists. Takes no memory.
    pub fn finish(self) -> FlatLists<T>
        ensures { result ≡ self }
    {
        let ListsBuilder { items, firsts } = self;
        FlatLists::new(items, firsts)
    }
}
