//! What the words ask for.

ghost use Rattle.std.specs.Prelude.{◌≤◌, IfOk};
ghost use Rattle.sf_count.specs.Asks.{IsRunnable, IsWanted};

use crate::trouble::Trouble;

/// The size of a round: 1 to 64 ranks, the asks of each, and at least one word.
#[derive(Clone, Copy)]
pub(crate) struct Size {
    pub(crate) ranks: u32,
    pub(crate) asks: u32,
    pub(crate) words: u32,
}

/// What is to be run.
#[derive(Clone, Copy)]
pub(crate) enum Wanted {
    /// A round in which rank follows rank.
    Round(Size),
    /// A round of which each rank has a thread of its own.
    Threads(Size),
    /// A forest with at most 2^29 leaves on each of four ranks.
    Forest { leaves: u32 },
    /// Such a forest, each root of which has one leaf: made, composed with itself, or inverted.
    Made { leaves: u32 },
    Composed { leaves: u32 },
    Inverted { leaves: u32 },
}

/// The most leaves on a rank: roots and leaves of four ranks are fewer than 2^32.
const MOST_LEAVES: u32 = 1 << 29;

fn number(word: &str) -> Result<u32, Trouble> {
    word.parse::<u32>().map_err(|_| Trouble::Words)
}

/// The size that these words tell.
fn size_of(ranks: &str, asks: &str, words: &str) -> Result<Size, Trouble>
    ensures { IfOk result IsRunnable }
{
    let (ranks, asks, words) = (number(ranks)?, number(asks)?, number(words)?);
    if ranks == 0 || ranks > 64 || words == 0 {
        return Err(Trouble::Words);
    }
    Ok(Size { ranks, asks, words })
}

/// What the words after the program's name ask for.
pub(crate) fn read_wanted(words: &[String]) -> Result<Wanted, Trouble>
    ensures { IfOk result IsWanted }
{
    match words {
        [kind, ranks, asks, words] => {
            let size = size_of(ranks.as_str(), asks.as_str(), words.as_str())?;
            match kind.as_str() {
                "round" => Ok(Wanted::Round(size)),
                "threads" => Ok(Wanted::Threads(size)),
                _ => Err(Trouble::Words),
            }
        }
        [kind, leaves] => {
            let leaves = number(leaves.as_str())?;
            if leaves > MOST_LEAVES {
                return Err(Trouble::Words);
            }
            match kind.as_str() {
                "forest" => Ok(Wanted::Forest { leaves }),
                "made" => Ok(Wanted::Made { leaves }),
                "compose" => Ok(Wanted::Composed { leaves }),
                "invert" => Ok(Wanted::Inverted { leaves }),
                _ => Err(Trouble::Words),
            }
        }
        _ => Err(Trouble::Words),
    }
}
