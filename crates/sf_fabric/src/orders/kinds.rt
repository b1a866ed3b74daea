//! The kinds of words.
ghost use Rattle.std.specs.Prelude.{◌≡◌, ℕ, ◌<◌, ◌++◌, List, length, get_or, filter, IfOk};
ghost use Rattle.std.specs.List.{AllByRecursion};
ghost use Rattle.sf_defs.specs.declared.Op.TheVariants.{Load};
ghost use Rattle.sf_defs.specs.declared.Ask.{Ask as AskRecord};
ghost use Rattle.sf_defs.specs.PrintedOrder.{kind_of};
ghost use Rattle.sf_defs.specs.Rounds.{all_asks, asks_on};
ghost use Rattle.sf_fabric.specs.orders.Places.{is_on, then_kind};

use crate::{Ask, FlatLists, Op};
use plex_base::NoMemory;
use std::alloc::Global;

/// The kind of each word: the first operation besides `Load` that is asked on it.
pub(crate) fn kinds_of(
    alloc: Global,
    words: usize,
    asks: &FlatLists<Ask>,
) -> Result<Vec<Op>, NoMemory>
    requires { AllByRecursion (λ (a : AskRecord). a.word < words) (all_asks asks.now) }
    ensures length { IfOk result (λ kinds. length kinds.items ≡ words) }
    ensures kinds { IfOk result (λ kinds. (w : ℕ) → get_or kinds.items w Load ≡ kind_of (asks_on w asks.now)) }
{
    let mut kinds = vec![in alloc; Op::Load; words]?;
    for rank in 0..asks.len() {
        note_kinds(&mut kinds, asks.list(rank));
    }
    Ok(kinds)
}

/// Notes the kinds of the words of these asks, where they have none yet.
fn note_kinds(kinds: &mut Vec<Op>, asks: &[Ask])
    requires { AllByRecursion (λ (a : AskRecord). a.word < length kinds.old.items) asks.now }
    ensures length { length kinds.new.items ≡ length kinds.old.items }
    ensures kinds { (w : ℕ) (rest : List AskRecord) → then_kind (get_or kinds.new.items w Load) rest ≡ then_kind (get_or kinds.old.items w Load) (filter (is_on w) asks.now ++ rest) }
{
    for ask in asks {
        let kind = &mut kinds[ask.word as usize];
        if kind.is_load() {
            *kind = ask.op;
        }
    }
}
