//! The asks of a round, done one after another.
ghost use Rattle.std.specs.Prelude.{◌≡◌, ℕ, ◌+◌, ◌^◌, ◌<◌, ◌≤◌, [], length, map, get_or, IfOk};
ghost use Rattle.std.specs.List.{AllByRecursion};
ghost use Rattle.sf_defs.specs.declared.Ask.{Ask as AskRecord};
ghost use Rattle.sf_defs.specs.Rounds.{all_asks};
ghost use Rattle.sf_defs.specs.Script.{fetched_by_rank, fetching, queues, walk, words_after_all};
ghost use Rattle.sf_fabric.specs.script.Walks.{done, done_next, ending};

use crate::{Ask, FlatLists};
use plex_base::NoMemory;
use std::alloc::Global;
use std::marker::Model;

/// Where a walk stands: the words, and what each rank's asks fetched so far.
#[derive(Debug, Drop)]
pub(crate) struct Walk {
    words: Vec<u64>,
    /// A value for each ask: what it fetched, where it is done.
    got: FlatLists<u64>,
    /// How many asks of each rank are done.
    done: Vec<usize>,
}

impl Model for Walk {
    ghost use Rattle.std.specs.Prelude.{length, map};
    ghost use Rattle.sf_fabric.specs.script.Walks.{Course, taken, AreThere};

    ghost Value = { Course };

    ghost view = { λ w. record { at = record { words = w.words.items; got = taken w.done.items w.got }; rooms = map length w.got } };

    ghost invariant = { λ w. AreThere w.done.items w.got };
}

impl Walk {
    /// Does all asks: as picked, and then what is left, rank by rank.
    pub(crate) fn through(
        alloc: Global,
        picks: &[u32],
        words: &[u64],
        asks: &FlatLists<Ask>,
    ) -> Result<Walk, NoMemory>
        requires { AllByRecursion (λ (a : AskRecord). a.word < length words.now) (all_asks asks.now) }
        ensures words { IfOk result (λ w. w.at.words ≡ words_after_all words.now (walk picks.now (queues asks.now))) }
        ensures got { IfOk result (λ w. w.at.got ≡ fetched_by_rank (length asks.now) (fetching words.now (walk picks.now (queues asks.now)))) }
        ensures rooms { IfOk result (λ w. w.rooms ≡ map length asks.now) }
    {
        let values = vec![in alloc; 0; asks.total()]?;
        let mut walk = Walk {
            words: Vec::from_slice(alloc, words)?,
            got: asks.alike(alloc, values)?,
            done: vec![in alloc; 0; asks.len()]?,
        };
        for pick in picks {
            walk.do_next(asks, *pick as usize);
        }
        for rank in 0..asks.len() {
            walk.finish(asks, rank);
        }
        Ok(walk)
    }

    /// The words and what each ask fetched, once all are done.
    pub(crate) fn into_parts(self) -> (Vec<u64>, FlatLists<u64>)
        requires { map length self.at.got ≡ self.rooms }
        ensures { (result.0.items ≡ self.at.words) × (result.1 ≡ self.at.got) }
    {
        (self.words, self.got)
    }

    /// Does a rank's next ask, where there is such a rank and it has one.
    fn do_next(&mut self, asks: &FlatLists<Ask>, rank: usize)
        requires ranks { length self.old.at.got ≡ length asks.now }
        requires rooms { self.old.rooms ≡ map length asks.now }
        requires in_range { AllByRecursion (λ (a : AskRecord). a.word < length self.old.at.words) (all_asks asks.now) }
        ensures at { self.new.at ≡ done_next asks.now self.old.at rank }
        ensures rooms { self.new.rooms ≡ self.old.rooms }
    {
        if rank >= asks.len() {
            return;
        }
        let (own, next) = (asks.list(rank), self.fetched(rank));
        if next < own.len() {
            self.fetch(rank, own[next]);
        }
    }

    /// How many asks of a rank are done.
    fn fetched(&self, rank: usize) -> usize
        requires { rank < length self.now.at.got }
        ensures { result ≡ length (get_or self.now.at.got rank []) }
    {
        self.done[rank]
    }

    /// Does an ask of a rank.
    fn fetch(&mut self, rank: usize, ask: Ask)
        requires rank { rank < length self.old.at.got }
        requires room { length (get_or self.old.at.got rank []) < get_or self.old.rooms rank 0 }
        requires small { length (get_or self.old.at.got rank []) + 1 < 2 ^ 64 }
        requires word { ask.word < length self.old.at.words }
        ensures at { self.new.at ≡ done self.old.at rank ask }
        ensures rooms { self.new.rooms ≡ self.old.rooms }
    {
        let place = ask.word as usize;
        let word = self.words[place];
        let next = self.done[rank];
        self.got.put(rank, next, word);
        self.done[rank] = next + 1;
        self.words[place] = ask.op.apply(ask.value, word);
    }

    /// Does all asks that a rank has left, where the ranks before have none.
    fn finish(&mut self, asks: &FlatLists<Ask>, rank: usize)
        requires rank { rank < length asks.now }
        requires ranks { length self.old.at.got ≡ length asks.now }
        requires rooms { self.old.rooms ≡ map length asks.now }
        requires in_range { AllByRecursion (λ (a : AskRecord). a.word < length self.old.at.words) (all_asks asks.now) }
        requires before { (k : ℕ) → k < rank → length (get_or asks.now k []) ≤ length (get_or self.old.at.got k []) }
        ensures ending { ending asks.now self.new.at [] ≡ ending asks.now self.old.at [] }
        ensures ranks { length self.new.at.got ≡ length asks.now }
        ensures rooms { self.new.rooms ≡ self.old.rooms }
        ensures words { length self.new.at.words ≡ length self.old.at.words }
        ensures upto { (k : ℕ) → k < rank + 1 → length (get_or asks.now k []) ≤ length (get_or self.new.at.got k []) }
    {
        while self.fetched(rank) < asks.list(rank).len() {
            self.do_next(asks, rank);
        }
    }
}
