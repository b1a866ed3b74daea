//! Generated meshes by their words, `KIND:N`.

ghost use Rattle.std.specs.Prelude.{◌≡◌, ◌≤◌, ◌==◌, length, option_map};
ghost use Rattle.std.specs.List.{before_first, after_first, position_or_len};
ghost use Rattle.input_defs.specs.Words.{kind_named, made_of, made_of_size};
ghost use Rattle.job_words.specs.Asking.{made_view};

use input_defs::Kind;
use mesh_make::most;
use scan::read_uint;

/// How many bytes stand before the first colon, or in all.
fn end_of_kind(word: &[u8]) -> usize
    ensures value { result ≡ position_or_len (λ b. b == 58) word.now }
    ensures bound { result ≤ length word.now }
{
    let end = word.iter().position(|byte| *byte == b':');
    end.unwrap_or(word.len())
}

/// What stands before the first colon, or all, and what stands after it.
fn split_at_colon(word: &[u8]) -> (&[u8], &[u8])
    ensures before { result.0.now ≡ before_first (λ b. b == 58) word.now }
    ensures after { result.1.now ≡ after_first (λ b. b == 58) word.now }
{
    let end = end_of_kind(word);
    if end == word.len() {
        return (word, &[]);
    }
    (&word[..end], &word[end + 1..])
}

/// The kind of this name.
fn kind_named(name: &[u8]) -> Option<Kind>
    ensures { result ≡ kind_named name.now }
{
    if name == b"tri".as_slice() {
        Some(Kind::Tri)
    } else if name == b"quad".as_slice() {
        Some(Kind::Quad)
    } else if name == b"tet".as_slice() {
        Some(Kind::Tet)
    } else if name == b"hex".as_slice() {
        Some(Kind::Hex)
    } else {
        None
    }
}

/// The number that digits write without a zero in front, from 1 to the greatest of the kind.
fn size_of(kind: Kind, digits: &[u8]) -> Option<u32>
    ensures { option_map (λ n. made_view (kind, n)) result ≡ made_of_size kind digits.now }
{
    if digits.is_empty() || digits[0] == b'0' {
        return None;
    }
    let n = read_uint(digits).ok()?;
    if n > most(kind) { None } else { Some(n) }
}

/// The kind and the number of a generated mesh.
#[tactic(auto, unfolding(input_defs::specs::Words::made_of))]
pub(crate) fn made_of(word: &[u8]) -> Option<(Kind, u32)>
    ensures { option_map made_view result ≡ made_of word.now }
{
    let (name, digits) = split_at_colon(word);
    let kind = kind_named(name)?;
    let n = size_of(kind, digits)?;
    Some((kind, n))
}
