//! A fabric whose memory is soon used up.
ghost use Rattle.std.specs.Prelude.{◌≡◌};

use plex_base::NoMemory;
use sf_fabric::{Ask, Fabric, Round, Tag};

/// A fabric that lets some rounds through to another fabric, and answers `NoMemory` to each later one.
#[derive(Debug, Drop)]
pub(crate) struct FewRounds<F> {
    inner: F,
    left: u32,
}

impl<F: Fabric> FewRounds<F> {
    /// So many rounds go through to `inner`.
    pub(crate) fn new(inner: F, rounds: u32) -> FewRounds<F>
        ensures { result ≡ record { inner = inner; left = rounds } }
    {
        FewRounds {
            inner,
            left: rounds,
        }
    }

    /// The other fabric.
    pub(crate) fn inner(&self) -> &F
        ensures { result.now ≡ self.now.inner }
    {
        &self.inner
    }
}

impl<F: Fabric> Fabric for FewRounds<F> {
    ghost kept = { λ s. F.kept s.inner };

    fn run(&mut self, tag: Tag, words: Vec<u64>, asks: Vec<Vec<Ask>>) -> Result<Round, NoMemory> {
        if self.left == 0 {
            return Err(NoMemory);
        }
        self.left -= 1;
        self.inner.run(tag, words, asks)
    }
}
