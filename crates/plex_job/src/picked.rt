//! The fabric of a replay.
ghost use Rattle.std.specs.Prelude.{◌≡◌, []};
ghost use Rattle.plex_job.specs.Picked.{told_before};

use plex_base::NoMemory;
use sf_fabric::script::ScriptFabric;
use sf_fabric::{Ask, Fabric, Round, Tag};

/// A fabric that goes by picks.
///
/// Contracts see its picks before the rounds that it keeps. So whoever adds rounds to those kept is
/// seen to leave the picks as they are, though its contract knows nothing of picks.
#[derive(Debug, Drop)]
pub(crate) struct PickedFabric {
    script: ScriptFabric,
}

impl PickedFabric {
    /// A fabric with these picks that has kept no round.
    pub(crate) fn new(picks: Vec<u32>) -> PickedFabric
        ensures picks { result.script.picks.items ≡ picks.items }
        ensures kept { result.script.kept.items ≡ [] }
    {
        PickedFabric {
            script: ScriptFabric::new(picks),
        }
    }
}

impl Fabric for PickedFabric {
    ghost kept = { λ f. told_before f.script.picks.items f.script.kept.items };

    fn run(&mut self, tag: Tag, words: Vec<u64>, asks: Vec<Vec<Ask>>) -> Result<Round, NoMemory> {
        self.script.run_script(tag, words, asks)
    }
}
