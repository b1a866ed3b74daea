//! The round that is run.

ghost use Rattle.std.specs.Prelude.{◌≡◌, ◌<◌, ◌≤◌, ◌^◌, ℕ, IfOk, get_or, length};
ghost use Rattle.std.specs.List.{AllByRecursion};
ghost use Rattle.plain_lists.specs.Vectors.{lists_of};
ghost use Rattle.sf_count.specs.Asks.{AreMins, IsMin, IsRunnable};

use crate::trouble::Trouble;
use crate::wanted::Size;
use plex_base::NoMemory;
use sf_fabric::{Ask, Fabric, Op, Round, Tag, Turn};
use std::alloc::Global;

/// Ask `index` of a rank: the least of its word and a number that looks like any other.
fn ask_at(rank: u32, index: u32, words: u32) -> Ask
    requires { 0 < words }
    ensures { IsMin words result }
{
    let mixed = (u64::from(rank) << 32 | u64::from(index)).wrapping_mul(0x9E37_79B9_7F4A_7C15);
    Ask {
        word: ((mixed >> 20) % u64::from(words)) as u32,
        op: Op::Min,
        value: mixed,
    }
}

/// The asks of a rank.
#[tactic(auto, using(plain_lists::proofs::Each::all_append))]
fn own_asks(alloc: Global, rank: u32, asks: u32, words: u32) -> Result<Vec<Ask>, NoMemory>
    requires { 0 < words }
    ensures { IfOk result (λ own. AreMins words own.items) }
{
    let mut own = Vec::with_capacity(alloc, asks as usize)?;
    for index in 0..asks {
        own.push(ask_at(rank, index, words))?;
    }
    Ok(own)
}

/// The asks of all ranks.
#[tactic(auto, using(plain_lists::proofs::Each::all_append))]
fn all_asks(alloc: Global, ranks: u32, asks: u32, words: u32) -> Result<Vec<Vec<Ask>>, NoMemory>
    requires { 0 < words }
    ensures ranks { IfOk result (λ all. length all.items ≡ ranks) }
    ensures asks { IfOk result (λ all. AllByRecursion (AreMins words) (lists_of all.items)) }
{
    let mut all = Vec::with_capacity(alloc, ranks as usize)?;
    for rank in 0..ranks {
        all.push(own_asks(alloc, rank, asks, words)?)?;
    }
    Ok(all)
}

/// Words are below 2^64. Does nothing.
fn words_fit(words: &[u64])
    ensures { (w : ℕ) → get_or words.now w 0 < 2 ^ 64 }
{}

/// The round of this size, as the fabric runs it.
fn round_of<F: Fabric>(alloc: Global, fabric: &mut F, size: Size) -> Result<Round, NoMemory>
    requires { IsRunnable size }
    ensures ranks { IfOk result (λ r. length r.asks ≡ size.ranks) }
    ensures words { IfOk result (λ r. length r.before ≡ size.words) }
{
    let asks = all_asks(alloc, size.ranks, size.asks, size.words)?;
    let values = vec![in alloc; u64::MAX; size.words as usize]?;
    words_fit(&values);
    fabric.run(Tag::Free, values, asks)
}

/// A number with more numbers mixed in.
fn mixed(sum: u64, values: &[u64]) -> u64 {
    let mut sum = sum;
    for value in values {
        sum = sum.wrapping_mul(31).wrapping_add(*value);
    }
    sum
}

/// A number with turns mixed in.
fn mixed_turns(sum: u64, turns: &[Turn]) -> u64 {
    let mut sum = sum;
    for turn in turns {
        let name = u64::from(turn.rank) << 32 | u64::from(turn.index);
        sum = sum.wrapping_mul(31).wrapping_add(name);
    }
    sum
}

/// What was fetched, as one number.
fn fetched(round: &Round, ranks: u32) -> u64
    requires { ranks ≤ length round.now.got }
{
    let mut sum = 0;
    for rank in 0..ranks {
        sum = mixed(sum, round.got(rank));
    }
    sum
}

/// The printed order, as one number.
fn order(round: &Round, words: u32) -> u64
    requires { words ≤ length round.now.order }
{
    let mut sum = 0;
    for word in 0..words {
        sum = mixed_turns(sum, round.order(word));
    }
    sum
}

/// Runs the round of this size: the lines `fetched N` and `order N`.
pub(crate) fn round_text<F: Fabric>(
    alloc: Global,
    fabric: &mut F,
    size: Size,
) -> Result<String, Trouble>
    requires { IsRunnable size }
{
    let round = round_of(alloc, fabric, size)?;
    if !round.is_complete() {
        return Err(Trouble::Words);
    }
    let (fetched, order) = (fetched(&round, size.ranks), order(&round, size.words));
    Ok(format!(in alloc; "fetched {fetched}\norder {order}\n")?)
}
