//! Rounds of atomic steps on shared words, the orders in which they stand, scripted rounds, and star
//! forests.
//!
//! The definitions stand in `specs/`, over plain lists and numbers, after the chapter on PetscSF of
//! the PETSc/TAO Users Manual. Here are the types that they share with the code above, which the
//! crates that use them hand on.
#![tactic(auto)]

pub mod meeting;
pub mod slots;
pub mod sums;

ghost use Rattle.std.specs.Prelude.{◌≡◌, ◌↔◌, ◌≢◌, IsTrue};
ghost use Rattle.sf_defs.specs.declared.Op.TheVariants.{Load};
ghost use Rattle.sf_defs.specs.declared.Tag.TheVariants.{Free};
ghost use Rattle.sf_defs.specs.Asks.{step};

/// One atomic operation on a word of 64 bits. Each fetches the word as it was just before.
#[derive(Clone, Copy, Debug, PartialEq, Eq)]
pub enum Op {
    /// Leaves the word as it is.
    Load,
    /// Adds, modulo 2^64.
    Sum,
    Min,
    Max,
    /// The bitwise or.
    Or,
    /// The bitwise and.
    And,
    /// Puts the value in the word's place.
    Replace,
}

impl Op {
    /// The word after this operation with `value`, where it was `word`.
    #[tactic(auto, unfolding(crate::specs::Asks::step))]
    pub fn apply(self, value: u64, word: u64) -> u64
        ensures { result ≡ step self value word }
    {
        match self {
            Op::Load => word,
            Op::Sum => word.wrapping_add(value),
            Op::Min => word.min(value),
            Op::Max => word.max(value),
            Op::Or => word | value,
            Op::And => word & value,
            Op::Replace => value,
        }
    }

    /// Whether it is the one that changes no word.
    pub fn is_load(self) -> bool
        ensures { IsTrue result ↔ (self ≡ Load) }
    {
        matches!(self, Op::Load)
    }
}

/// What a round is for. Rounds of keys and of numbers are kept, all others are free.
#[derive(Clone, Copy, Debug, PartialEq, Eq)]
pub enum Tag {
    Free,
    /// The keys of points that several ranks hold.
    Home,
    /// The bases of the ranks' global numbers.
    Number,
}

impl Tag {
    /// Whether rounds of this tag are kept.
    pub fn is_kept(self) -> bool
        ensures { IsTrue result ↔ (self ≢ Free) }
    {
        !matches!(self, Tag::Free)
    }
}

/// One operation with its value, asked on one word of a round.
#[derive(Clone, Copy, Debug, PartialEq, Eq)]
pub struct Ask {
    /// The word's place in the round.
    pub word: u32,
    pub op: Op,
    /// 0 for a `Load`.
    pub value: u64,
}

/// The name of an ask: the rank that asks, and the ask's place in that rank's list.
#[derive(Clone, Copy, Debug, PartialEq, Eq)]
pub struct Turn {
    pub rank: u32,
    pub index: u32,
}

/// A leaf of a star forest: its local index on its own rank, and the rank and index of its root.
#[derive(Clone, Copy, Debug, PartialEq, Eq)]
pub struct Leaf {
    pub local: u32,
    pub rank: u32,
    pub index: u32,
}
