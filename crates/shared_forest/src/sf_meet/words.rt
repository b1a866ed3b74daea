//! Words that leaves hand to their slots.
ghost use Rattle.std.specs.Prelude.{◌≡◌, ◌<◌, length, map, get_or, IfOk, OnOk};
ghost use Rattle.std.specs.List.{AllByRecursion};
ghost use Rattle.plain_lists.specs.Vectors.{lists_of};

use plex_base::NoMemory;
use std::alloc::Global;

/// One of the two words of each key.
pub(crate) fn key_words(
    alloc: Global,
    keys: &[Vec<[u64; 2]>],
    which: usize,
) -> Result<Vec<Vec<u64>>, NoMemory>
    requires { which < 2 }
    ensures words { IfOk result (λ words. lists_of words.items ≡ map (map (λ key. get_or key which 0)) (lists_of keys.now)) }
    ensures pairs { OnOk result (AllByRecursion (AllByRecursion (λ key. length key ≡ 2)) (lists_of keys.now)) }
{
    let mut words = Vec::with_capacity(alloc, keys.len())?;
    for own in keys {
        words.push(own_words(alloc, own, which)?)?;
    }
    Ok(words)
}

/// One of the two words of each key of a rank.
fn own_words(alloc: Global, keys: &[[u64; 2]], which: usize) -> Result<Vec<u64>, NoMemory>
    requires { which < 2 }
    ensures words { IfOk result (λ words. words.items ≡ map (λ key. get_or key which 0) keys.now) }
    ensures pairs { OnOk result (AllByRecursion (λ key. length key ≡ 2) keys.now) }
{
    let mut words = Vec::with_capacity(alloc, keys.len())?;
    for key in keys {
        words.push(key[which])?;
    }
    Ok(words)
}

/// The same lists again.
pub(crate) fn copies(alloc: Global, lists: &[Vec<u64>]) -> Result<Vec<Vec<u64>>, NoMemory>
    ensures { IfOk result (λ copies. lists_of copies.items ≡ lists_of lists.now) }
{
    let mut copies = Vec::with_capacity(alloc, lists.len())?;
    for list in lists {
        copies.push(Vec::from_slice(alloc, list)?)?;
    }
    Ok(copies)
}
