//! The round of a script.
ghost use Rattle.std.specs.Prelude.{◌≡◌, length, IfOk};
ghost use Rattle.plain_lists.specs.Vectors.{lists_of};
ghost use Rattle.sf_defs.specs.Rounds.{IsLegal, MeetsConditions};
ghost use Rattle.sf_defs.specs.Script.{scripted};

use crate::orders::printed_orders;
use crate::script::walk::Walk;
use crate::{Ask, FlatLists, Round, Tag};
use plex_base::NoMemory;
use std::alloc::Global;

/// The round in which the asks are done as picked, and then what is left, rank by rank.
pub(crate) fn scripted_round(
    alloc: Global,
    picks: &[u32],
    tag: Tag,
    words: Vec<u64>,
    asks: Vec<Vec<Ask>>,
) -> Result<Round, NoMemory>
    requires { MeetsConditions words.items (lists_of asks.items) }
    ensures round { IfOk result (λ r. r ≡ scripted tag words.items (lists_of asks.items) picks.now) }
    ensures legal { IfOk result (λ r. IsLegal r) }
    ensures tag { IfOk result (λ r. r.tag ≡ tag) }
    ensures before { IfOk result (λ r. r.before ≡ words.items) }
    ensures asks { IfOk result (λ r. r.asks ≡ lists_of asks.items) }
{
    let asks = FlatLists::of_nested(alloc, asks)?;
    let walk = Walk::through(alloc, picks, &words, &asks)?;
    let (after, got) = walk.into_parts();
    let order = printed_orders(alloc, &words, &asks, &got)?;
    Ok(Round::flat(tag, words, asks, got, after, order))
}
