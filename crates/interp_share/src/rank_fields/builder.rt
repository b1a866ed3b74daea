//! Fields, made point by point.

ghost use Rattle.std.specs.Prelude.{◌≡◌, ◌+◌, ◌<◌, ◌≤◌, ◌^◌, [], ◌∷◌, ◌++◌, map, IfOk, OnOk};
ghost use Rattle.std.specs.List.{AllByRecursion};
ghost use Rattle.plex_defs.specs.Fields.{word_of};
ghost use Rattle.interp_share.specs.rank_fields.Words.{multiples, no_words};

use plex_base::NoMemory;
use plex_section::{Field, Section};
use std::alloc::Global;
use std::marker::Model;

/// So many words no field has: memory for them can't be had.
const TOO_MANY_WORDS: usize = 4_294_967_296;

/// A field whose points are pushed one after another, in the order of the chart. Contracts see it as
/// the words of each point so far.
#[derive(Drop)]
pub struct FieldBuilder {
    dofs: Vec<u32>,
    words: Vec<u64>,
}

impl Model for FieldBuilder {
    ghost use Rattle.std.specs.Prelude.{◌≡◌, ◌<◌, ◌^◌, ℕ, List, length, sum};
    ghost use Rattle.plex_section.specs.Words.{words_by};

    ghost Value = { List (List ℕ) };

    ghost view = { λ b. words_by b.dofs.items b.words.items };

    ghost invariant = { λ b. (length b.words.items ≡ sum b.dofs.items) × (sum b.dofs.items < 2 ^ 32) };
}

impl FieldBuilder {
    /// A field without points.
    pub fn new(alloc: Global) -> FieldBuilder
        ensures { result ≡ [] }
    {
        FieldBuilder {
            dofs: Vec::new(alloc),
            words: Vec::new(alloc),
        }
    }

    /// Pushes the next point with its words. Fails only for want of memory: memory for 2^32 words of a field
    /// can't be had.
    pub fn push(&mut self, words: &[u64]) -> Result<(), NoMemory>
        ensures { OnOk result (self.new ≡ self.old ++ words.now ∷ []) }
    {
        if words.len() >= TOO_MANY_WORDS - self.words.len() {
            return Err(NoMemory);
        }
        self.dofs.reserve(1)?;
        self.words.extend_from_slice(words)?;
        self.dofs.push_reserved(words.len() as u32);
        Ok(())
    }

    /// Pushes so many points without words.
    pub(crate) fn push_empty(&mut self, count: u32) -> Result<(), NoMemory>
        ensures { OnOk result (self.new ≡ self.old ++ no_words count) }
    {
        for _point in 0..count {
            self.push(&[])?;
        }
        Ok(())
    }

    /// Pushes points with these weights, each with the first `count` multiples of its weight.
    pub(crate) fn push_multiples(
        &mut self,
        alloc: Global,
        weights: &[u64],
        count: u32,
    ) -> Result<(), NoMemory>
        requires few { count ≤ 16 }
        requires low { AllByRecursion (λ w. w < 2 ^ 40) weights.now }
        ensures { OnOk result (self.new ≡ self.old ++ map (multiples count) weights.now) }
    {
        let mut words = Vec::new(alloc);
        for weight in weights {
            list_multiples(&mut words, *weight, count)?;
            self.push(&words)?;
        }
        Ok(())
    }

    /// The field of all points. Fails only for want of memory.
    pub fn finish(self, alloc: Global) -> Result<Field, NoMemory>
        ensures { IfOk result (λ field. field ≡ self) }
    {
        let FieldBuilder { dofs, words } = self;
        let section = Section::layout(alloc, &dofs)?;
        Ok(Field::new(section, words))
    }
}

/// The first multiples of a weight, into `words`.
fn list_multiples(words: &mut Vec<u64>, weight: u64, count: u32) -> Result<(), NoMemory>
    requires few { count ≤ 16 }
    requires low { weight < 2 ^ 40 }
    ensures { OnOk result (words.new.items ≡ multiples count weight) }
{
    words.clear();
    for i in 0..count {
        words.push((u64::from(i) + 1) * weight)?;
    }
    Ok(())
}

/// A signed value as its two's complement.
fn word_of(value: i64) -> u64
    ensures { result ≡ word_of value }
{
    value.cast_unsigned()
}

/// Puts the words of these values behind others.
pub(crate) fn push_words(words: &mut Vec<u64>, values: &[i64]) -> Result<(), NoMemory>
    ensures { OnOk result (words.new.items ≡ words.old.items ++ map word_of values.now) }
{
    for value in values {
        words.push(word_of(*value))?;
    }
    Ok(())
}
