//! Words on points.
ghost use Rattle.std.specs.Prelude.{◌≡◌, ◌<◌, [], length, sum, get_or};
ghost use Rattle.plex_section.specs.Words.{words_by};

use crate::section::Section;
use std::marker::Model;

/// Words on points, after a vector with its PetscSection. A signed value is carried as its two's
/// complement word. Contracts see it as the words of each point.
#[derive(Debug, Drop)]
pub struct Field {
    section: Section,
    words: Vec<u64>,
}

impl Model for Field {
    ghost use Rattle.std.specs.Prelude.{◌≡◌, ℕ, List, length, sum};
    ghost use Rattle.plex_section.specs.Words.{words_by};

    ghost Value = { List (List ℕ) };

    ghost view = { λ f. words_by f.section f.words.items };

    ghost invariant = { λ f. length f.words.items ≡ sum f.section };
}

impl Field {
    /// These words by this layout, as many as its size. Takes no memory.
    pub fn new(section: Section, words: Vec<u64>) -> Field
        requires { length words.items ≡ sum section }
        ensures { result ≡ words_by section words.items }
    {
        Field { section, words }
    }

    /// The words of a point. Takes no memory.
    pub fn at(&self, p: u32) -> &[u64]
        requires { p < length self.now }
        ensures { result.now ≡ get_or self.now p [] }
    {
        let start = self.section.offset(p) as usize;
        &self.words[start..start + self.section.dof(p) as usize]
    }
}
