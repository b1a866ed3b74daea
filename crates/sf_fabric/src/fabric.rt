//! What runs rounds.
ghost use Rattle.std.specs.Prelude.{◌≡◌, List, IfOk, OnErr};
ghost use Rattle.plain_lists.specs.Vectors.{lists_of};
ghost use Rattle.sf_defs.specs.Rounds.{Round as Record, MeetsConditions, IsLegal};
ghost use Rattle.sf_fabric.specs.Kept.{kept_with};

use crate::round::Round;
use plex_base::NoMemory;
use sf_defs::{Ask, Tag};

/// Runs rounds of atomic steps on shared words, in whatever order its ranks take their turns.
pub trait Fabric {
    /// The rounds tagged `Home` or `Number` so far.
    ghost kept: { Self → List Record };

    /// Does each rank's asks in the rank's order, each as one atomic step on its word.
    ///
    /// There are 1 to 64 lists of asks, fewer than 2^32 words and fewer than 2^32 asks of a rank.
    /// Each ask names a word; a `Load` has the value 0; on a word there is one kind of operation
    /// besides `Load`, and at most one `Replace`; the first value and all `Sum`s on a word add up to
    /// less than 2^64.
    ///
    /// Memory comes from the allocator of `words`, and its want is the only fault: then the round is
    /// not kept. A `Free` round never is.
    fn run(&mut self, tag: Tag, words: Vec<u64>, asks: Vec<Vec<Ask>>) -> Result<Round, NoMemory>
        requires { MeetsConditions words.items (lists_of asks.items) }

        // Ok gives a legal round with this tag, on these words, of these asks.
        ensures legal { IfOk result (λ r. IsLegal r) }
        ensures tag { IfOk result (λ r. r.tag ≡ tag) }
        ensures before { IfOk result (λ r. r.before ≡ words.items) }
        ensures asks { IfOk result (λ r. r.asks ≡ lists_of asks.items) }

        // The round is kept exactly where it is not Free.
        ensures kept { IfOk result (λ r. kept self.new ≡ kept_with (kept self.old) r) }
        ensures no_memory { OnErr result (kept self.new ≡ kept self.old) };
}
