//! The fabric of threads.
ghost use Rattle.std.specs.Prelude.{◌≡◌, [], IfOk, OnErr};
ghost use Rattle.plain_lists.specs.Vectors.{lists_of};
ghost use Rattle.sf_defs.specs.Rounds.{IsLegal, MeetsConditions};
ghost use Rattle.sf_fabric.specs.Kept.{kept_with};

use crate::gate::{Gate, NoGate};
use crate::round::thread_round;
use plex_base::NoMemory;
use sf_fabric::{Ask, Fabric, Round, Tag};
use std::alloc::Global;
use std::thread::Threads;

/// A fabric that does each rank's asks in a thread of its own, on shared words.
///
/// Where a thread can't be started, the caller does that rank's asks itself. No thread waits for another.
#[derive(Drop)]
pub struct ThreadFabric<'a, R: Threads, G: Gate> {
    rt: &'a R,
    gate: G,
    kept: Vec<Round>,
}

impl<'a, R: Threads, G: Gate> ThreadFabric<'a, R, G> {
    /// A fabric of this runtime and gate that has kept no round.
    pub fn new(rt: &'a R, alloc: Global, gate: G) -> ThreadFabric<'a, R, G>
        ensures { result.kept.items ≡ [] }
    {
        ThreadFabric {
            rt,
            gate,
            kept: Vec::new(alloc),
        }
    }

    /// The rounds tagged `Home` or `Number` so far.
    pub fn kept(&self) -> &[Round]
        ensures { result.now ≡ self.now.kept.items }
    {
        &self.kept
    }

    /// The gate.
    pub fn gate(&self) -> &G
        ensures { result.now ≡ self.now.gate }
    {
        &self.gate
    }

    /// Runs a round, as [`Fabric::run`] does, and calls the gate before each ask.
    pub fn run_gated(
        &mut self,
        tag: Tag,
        words: Vec<u64>,
        asks: Vec<Vec<Ask>>,
    ) -> Result<Round, NoMemory>
        requires { MeetsConditions words.items (lists_of asks.items) }
        ensures legal { IfOk result (λ r. IsLegal r) }
        ensures tag { IfOk result (λ r. r.tag ≡ tag) }
        ensures before { IfOk result (λ r. r.before ≡ words.items) }
        ensures asks { IfOk result (λ r. r.asks ≡ lists_of asks.items) }
        ensures kept { IfOk result (λ r. self.new.kept.items ≡ kept_with self.old.kept.items r) }
        ensures no_memory { OnErr result (self.new.kept.items ≡ self.old.kept.items) }
    {
        let alloc = *words.allocator();
        let round = thread_round(self.rt, alloc, &self.gate, tag, words, asks)?;
        if tag.is_kept() {
            self.kept.push(round.try_clone(alloc)?)?;
        }
        Ok(round)
    }
}

impl<'a, R: Threads> Fabric for ThreadFabric<'a, R, NoGate> {
    ghost kept = { λ f. f.kept.items };

    fn run(&mut self, tag: Tag, words: Vec<u64>, asks: Vec<Vec<Ask>>) -> Result<Round, NoMemory> {
        self.run_gated(tag, words, asks)
    }
}
