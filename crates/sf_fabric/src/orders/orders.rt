//! The printed orders of all words.
ghost use Rattle.std.specs.Prelude.{◌≡◌, ℕ, ◌+◌, ◌^◌, ◌<◌, ◌≤◌, ◌++◌, List, [], length, map, get_or, IfOk, OnOk};
ghost use Rattle.std.specs.List.{AllByRecursion};
ghost use Rattle.plain_lists.specs.Lists.{below};
ghost use Rattle.sf_defs.specs.declared.Op.TheVariants.{Load};
ghost use Rattle.sf_defs.specs.declared.Ask.{Ask as AskRecord};
ghost use Rattle.sf_defs.specs.PrintedOrder.{kind_of};
ghost use Rattle.sf_defs.specs.Rounds.{asks_on, printed_turns};
ghost use Rattle.sf_fabric.specs.orders.Places.{AreAsked, IsByWord, below_word, entries_of, place_in, places_of, turn_at};

use crate::orders::kinds::kinds_of;
use crate::orders::place::Place;
use crate::{Ask, FlatLists, Op, Turn};
use plex_base::NoMemory;
use std::alloc::Global;

/// The printed order of each word of a round, from the first values of the words, the asks of each rank
/// and what each ask fetched.
///
/// Each ask names a word, and has a fetched value; there are fewer than 2^32 words, ranks, and asks of a
/// rank. Takes memory for a number of bytes for each ask, and time for one sort.
pub fn printed_orders(
    alloc: Global,
    words: &[u64],
    asks: &FlatLists<Ask>,
    got: &FlatLists<u64>,
) -> Result<FlatLists<Turn>, NoMemory>
    requires { AreAsked words.now asks.now got.now }
    ensures { IfOk result (λ orders. orders ≡ map (printed_turns words.now asks.now got.now) (below (length words.now))) }
{
    let mut places = places_of(alloc, words, asks, got)?;
    places.sort_unstable();
    let firsts = firsts_of(alloc, &places, words.len())?;
    let turns = turns_of(alloc, &places)?;
    Ok(FlatLists::new(turns, firsts))
}

/// The places of all asks, by rank and index.
fn places_of(
    alloc: Global,
    words: &[u64],
    asks: &FlatLists<Ask>,
    got: &FlatLists<u64>,
) -> Result<Vec<Place>, NoMemory>
    requires { AreAsked words.now asks.now got.now }
    ensures small { OnOk result ((rank k : ℕ) → rank < length got.now → get_or (get_or got.now rank []) k 0 < 2 ^ 64) }
    ensures places { IfOk result (λ places. places.items ≡ places_of words.now asks.now got.now) }
{
    let kinds = kinds_of(alloc, words.len(), asks)?;
    let mut places = Vec::with_capacity(alloc, asks.total())?;
    for rank in 0..asks.len() {
        add_places(
            &mut places,
            rank as u32,
            asks.list(rank),
            got.list(rank),
            words,
            &kinds,
        )?;
    }
    Ok(places)
}

/// Adds the places of the asks of a rank.
fn add_places(
    places: &mut Vec<Place>,
    rank: u32,
    asks: &[Ask],
    got: &[u64],
    words: &[u64],
    kinds: &[Op],
) -> Result<(), NoMemory>
    requires few { length asks.now < 2 ^ 32 }
    requires fetched { length got.now ≡ length asks.now }
    requires in_range { AllByRecursion (λ (a : AskRecord). a.word < length words.now) asks.now }
    requires kinds { length kinds.now ≡ length words.now }
    ensures small { (k : ℕ) → get_or got.now k 0 < 2 ^ 64 }
    ensures added { OnOk result (places.new.items ≡ places.old.items ++ map (place_in kinds.now words.now) (entries_of rank 0 asks.now got.now)) }
{
    for index in 0..asks.len() {
        let ask = asks[index];
        let word = ask.word as usize;
        let turn = Turn {
            rank,
            index: index as u32,
        };
        places.push(Place::new(kinds[word], words[word], turn, ask, got[index]))?;
    }
    Ok(())
}

/// How many places are of words below each word, and how many there are.
fn firsts_of(alloc: Global, places: &[Place], words: usize) -> Result<Vec<usize>, NoMemory>
    requires sorted { IsByWord places.now }
    requires few { words < 2 ^ 32 }
    ensures length { IfOk result (λ firsts. length firsts.items ≡ words + 1) }
    ensures firsts { IfOk result (λ firsts. (w : ℕ) → w ≤ words → get_or firsts.items w 0 ≡ below_word w places.now) }
{
    let mut firsts = Vec::with_capacity(alloc, words + 1)?;
    let mut first = 0;
    for word in 0..words as u32 {
        firsts.push(first)?;
        first = past_word(places, first, word);
    }
    firsts.push(first)?;
    Ok(firsts)
}

/// The first place past those of a word, from the first one of the word on.
fn past_word(places: &[Place], first: usize, word: u32) -> usize
    requires sorted { IsByWord places.now }
    requires first { first ≡ below_word word places.now }
    ensures { result ≡ below_word (word + 1) places.now }
{
    let mut past = first;
    while past < places.len() && places[past].word == word {
        past += 1;
    }
    past
}

/// The names of the asks at these places.
fn turns_of(alloc: Global, places: &[Place]) -> Result<Vec<Turn>, NoMemory>
    ensures { IfOk result (λ turns. turns.items ≡ map turn_at places.now) }
{
    Ok(places.iter().map(|place| place.turn()).collect(alloc)?)
}
