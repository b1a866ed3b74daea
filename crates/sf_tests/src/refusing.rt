//! Lawful fabrics that answer want of memory where they are told to.
ghost use Rattle.std.specs.Prelude.{◌≡◌, []};

use plex_base::NoMemory;
use sf_fabric::{Ask, Fabric, Round, Tag};

/// A fabric that runs no round: it always answers `NoMemory`.
#[derive(Debug, Drop)]
pub struct NoFabric;

impl Fabric for NoFabric {
    ghost kept = { λ _. [] };

    fn run(
        &mut self,
        _tag: Tag,
        _words: Vec<u64>,
        _asks: Vec<Vec<Ask>>,
    ) -> Result<Round, NoMemory> {
        Err(NoMemory)
    }
}

/// A fabric that lets some rounds of a tag through to another fabric, and answers `NoMemory` to each
/// later one of this tag.
#[derive(Debug, Drop)]
pub struct RefusingFabric<F> {
    inner: F,
    refused: Tag,
    let_through: u32,
}

impl<F: Fabric> RefusingFabric<F> {
    /// Rounds tagged `refused` go through `let_through` times, all others always.
    pub fn new(inner: F, refused: Tag, let_through: u32) -> RefusingFabric<F>
        ensures { result ≡ record { inner = inner; refused = refused; let_through = let_through } }
    {
        RefusingFabric {
            inner,
            refused,
            let_through,
        }
    }
}

impl<F: Fabric> Fabric for RefusingFabric<F> {
    ghost kept = { λ s. F.kept s.inner };

    fn run(&mut self, tag: Tag, words: Vec<u64>, asks: Vec<Vec<Ask>>) -> Result<Round, NoMemory> {
        if tag == self.refused {
            if self.let_through == 0 {
                return Err(NoMemory);
            }
            self.let_through -= 1;
        }
        self.inner.run(tag, words, asks)
    }
}
