//! The fabric of a script.
ghost use Rattle.std.specs.Prelude.{◌≡◌, [], IfOk, OnErr};
ghost use Rattle.plain_lists.specs.Vectors.{lists_of};
ghost use Rattle.sf_defs.specs.Rounds.{IsLegal, MeetsConditions};
ghost use Rattle.sf_defs.specs.Script.{scripted};
ghost use Rattle.sf_fabric.specs.Kept.{kept_with};

use crate::script::round::scripted_round;
use crate::{Ask, Fabric, Round, Tag};
use plex_base::NoMemory;

/// A fabric that does the asks of its rounds in a given order.
///
/// Each run starts at the first pick. A pick lets its rank do its next ask; a pick of a rank without
/// asks left, or of no rank, is skipped. After the picks the ranks finish in ascending order.
#[derive(Debug, Drop)]
pub struct ScriptFabric {
    picks: Vec<u32>,
    kept: Vec<Round>,
}

impl ScriptFabric {
    /// A fabric with these picks that has kept no round.
    pub fn new(picks: Vec<u32>) -> ScriptFabric
        ensures picks { result.picks.items ≡ picks.items }
        ensures kept { result.kept.items ≡ [] }
    {
        let kept = Vec::new(*picks.allocator());
        ScriptFabric { picks, kept }
    }

    /// The rounds tagged `Home` or `Number` so far.
    pub fn kept(&self) -> &[Round]
        ensures { result.now ≡ self.now.kept.items }
    {
        &self.kept
    }

    /// Runs a round, as [`Fabric::run`] does: the scripted round of the picks.
    pub fn run_script(
        &mut self,
        tag: Tag,
        words: Vec<u64>,
        asks: Vec<Vec<Ask>>,
    ) -> Result<Round, NoMemory>
        requires { MeetsConditions words.items (lists_of asks.items) }
        ensures scripted { IfOk result (λ r. r ≡ scripted tag words.items (lists_of asks.items) self.old.picks.items) }
        ensures picks { self.new.picks.items ≡ self.old.picks.items }
        ensures legal { IfOk result (λ r. IsLegal r) }
        ensures tag { IfOk result (λ r. r.tag ≡ tag) }
        ensures before { IfOk result (λ r. r.before ≡ words.items) }
        ensures asks { IfOk result (λ r. r.asks ≡ lists_of asks.items) }
        ensures kept { IfOk result (λ r. self.new.kept.items ≡ kept_with self.old.kept.items r) }
        ensures no_memory { OnErr result (self.new.kept.items ≡ self.old.kept.items) }
    {
        let alloc = *words.allocator();
        let round = scripted_round(alloc, &self.picks, tag, words, asks)?;
        if tag.is_kept() {
            self.kept.push(round.try_clone(alloc)?)?;
        }
        Ok(round)
    }
}

impl Fabric for ScriptFabric {
    ghost kept = { λ s. s.kept.items };

    fn run(&mut self, tag: Tag, words: Vec<u64>, asks: Vec<Vec<Ask>>) -> Result<Round, NoMemory> {
        self.run_script(tag, words, asks)
    }
}
