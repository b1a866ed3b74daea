//! One round.
ghost use Rattle.std.specs.Prelude.{◌≡◌, ◌<◌, ◌↔◌, [], length, get_or, IfOk, IsTrue};
ghost use Rattle.plain_lists.specs.Vectors.{lists_of};
ghost use Rattle.sf_fabric.specs.Complete.{IsComplete};

use crate::flat::FlatLists;
use crate::lists::Lists;
use plex_base::NoMemory;
use sf_defs::{Ask, Tag, Turn};
use std::alloc::Global;
use std::marker::Model;

/// What was asked of words in a round, what each ask fetched, what the words are afterwards, and in
/// which order the asks on each word stand. It need not be legal: `Fabric::run` answers legal rounds.
#[derive(Debug, Drop)]
pub struct Round {
    tag: Tag,
    before: Vec<u64>,
    asks: Lists<Ask>,
    got: Lists<u64>,
    after: Vec<u64>,
    order: Lists<Turn>,
}

impl Model for Round {
    ghost use Rattle.sf_defs.specs.Rounds.{Round as Record};

    ghost Value = { Record };

    ghost use Rattle.sf_fabric.specs.Stored.{lists_in};

    ghost view = { λ r. record {
      tag = r.tag;
      before = r.before.items;
      asks = lists_in r.asks;
      got = lists_in r.got;
      after = r.after.items;
      order = lists_in r.order;
    } };
}

impl Round {
    /// The round with these parts, whatever they are: first values, the asks of each rank and what
    /// each fetched, last values, and the order of each word's asks. It keeps the vectors that it is
    /// given, and takes no memory.
    pub fn raw(
        tag: Tag,
        before: Vec<u64>,
        asks: Vec<Vec<Ask>>,
        got: Vec<Vec<u64>>,
        after: Vec<u64>,
        order: Vec<Vec<Turn>>,
    ) -> Round
        ensures { result ≡ record { tag = tag; before = before.items; asks = lists_of asks.items; got = lists_of got.items; after = after.items; order = lists_of order.items } }
    {
        Round {
            tag,
            before,
            asks: Lists::Nested(asks),
            got: Lists::Nested(got),
            after,
            order: Lists::Nested(order),
        }
    }

    /// The same from lists that lie flat, so that a round of many words needs no vector for each: the
    /// asks of all ranks are one vector, what they fetched is one, and the orders of all words are one.
    pub fn flat(
        tag: Tag,
        before: Vec<u64>,
        asks: FlatLists<Ask>,
        got: FlatLists<u64>,
        after: Vec<u64>,
        order: FlatLists<Turn>,
    ) -> Round
        ensures { result ≡ record { tag = tag; before = before.items; asks = asks; got = got; after = after.items; order = order } }
    {
        Round {
            tag,
            before,
            asks: Lists::Flat(asks),
            got: Lists::Flat(got),
            after,
            order: Lists::Flat(order),
        }
    }

    /// Whether there is a list of fetched values for each rank, and a last value and an order for
    /// each word. A round of `Fabric::run` has them all.
    pub fn is_complete(&self) -> bool
        ensures { IsTrue result ↔ IsComplete self.now }
    {
        self.got.len() == self.asks.len()
            && self.after.len() == self.before.len()
            && self.order.len() == self.before.len()
    }

    /// The same round again.
    pub fn try_clone(&self, alloc: Global) -> Result<Round, NoMemory>
        ensures { IfOk result (λ r. r ≡ self.now) }
    {
        Ok(Round {
            tag: self.tag,
            before: Vec::from_slice(alloc, &self.before)?,
            asks: self.asks.try_clone(alloc)?,
            got: self.got.try_clone(alloc)?,
            after: Vec::from_slice(alloc, &self.after)?,
            order: self.order.try_clone(alloc)?,
        })
    }

    /// What the round is for.
    pub fn tag(&self) -> Tag
        ensures { result ≡ self.now.tag }
    {
        self.tag
    }

    /// The first value of each word.
    pub fn before(&self) -> &[u64]
        ensures { result.now ≡ self.now.before }
    {
        &self.before
    }

    /// How many ranks asked.
    pub fn ranks(&self) -> usize
        ensures { result ≡ length self.now.asks }
    {
        self.asks.len()
    }

    /// What a rank asked, in its order.
    pub fn asks(&self, rank: u32) -> &[Ask]
        requires { rank < length self.now.asks }
        ensures { result.now ≡ get_or self.now.asks rank [] }
    {
        self.asks.list(rank as usize)
    }

    /// What each ask of a rank fetched.
    pub fn got(&self, rank: u32) -> &[u64]
        requires { rank < length self.now.got }
        ensures { result.now ≡ get_or self.now.got rank [] }
    {
        self.got.list(rank as usize)
    }

    /// The last value of each word.
    pub fn after(&self) -> &[u64]
        ensures { result.now ≡ self.now.after }
    {
        &self.after
    }

    /// The order of the asks on a word.
    pub fn order(&self, word: u32) -> &[Turn]
        requires { word < length self.now.order }
        ensures { result.now ≡ get_or self.now.order word [] }
    {
        self.order.list(word as usize)
    }
}
