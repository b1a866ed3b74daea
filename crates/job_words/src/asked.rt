//! What words ask for.

ghost use Rattle.std.specs.Prelude.{◌≡◌};
ghost use Rattle.input_defs.specs.Words.{is_file_name};

use input_defs::Kind;

/// Where the mesh comes from.
#[derive(Clone, Copy, Debug, PartialEq, Eq)]
pub enum Source<'a> {
    /// The file of this name.
    File(&'a str),
    /// The generated mesh of this kind and number, which is from 1 to the greatest of the kind.
    Made(Kind, u32),
}

/// What accepted words ask for.
#[derive(Clone, Copy, Debug, PartialEq, Eq)]
pub struct Request<'a> {
    /// The name of the plan's file, where there is one.
    pub plan: Option<&'a str>,
    pub source: Source<'a>,
    /// Whether one line of sums stands for each step.
    pub summary: bool,
}

/// Whether a word may name a file: it is not empty and does not begin with `-`.
pub(crate) fn is_file_name(word: &[u8]) -> bool
    ensures { result ≡ is_file_name word.now }
{
    match word {
        [] => false,
        [first, ..] => *first != b'-',
    }
}
