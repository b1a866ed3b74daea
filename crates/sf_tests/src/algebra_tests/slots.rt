//! Slots that leaves draw in orders that scripts give, and words that go to slots and back.
use crate::algebra_tests::texts::{forest_of, text_of};
use crate::algebra_tests::words::{leaf_words, words_text};
use sf_fabric::script::ScriptFabric;
use sf_graph::Forest;
use sf_ops::slots::{SlotForest, gather, multi, scatter};
use std::alloc::Global;
use std::test::Fail;

const THREE_LEAVES: &str = "1 0-0.0 / 0 0-0.0 1-0.0";

const OWN_ROOTS: &str = "2 0-0.1 1-0.0 / 1 3-0.1 0-1.0 / 0";

/// The fabric of picks of one digit.
fn script(alloc: Global, picks: &str) -> Result<ScriptFabric, Fail> {
    let mut ranks = Vec::new(alloc);
    for pick in picks.as_bytes() {
        ranks.push(u32::from(*pick & 15))?;
    }
    Ok(ScriptFabric::new(ranks))
}

/// A forest, the picks of a script, and the forest of slots that its leaves then draw.
const DRAWN: &[(&str, &str, &str)] = &[
    (THREE_LEAVES, "101", "3 0-0.1 / 0 0-0.0 1-0.2"),
    (THREE_LEAVES, "0", "3 0-0.0 / 0 0-0.1 1-0.2"),
    (THREE_LEAVES, "110", "3 0-0.2 / 0 0-0.0 1-0.1"),
    (OWN_ROOTS, "", "3 0-0.1 1-0.0 / 1 3-0.2 0-1.0 / 0"),
    (OWN_ROOTS, "1", "3 0-0.2 1-0.0 / 1 3-0.1 0-1.0 / 0"),
    ("3 / 0 / 4 7-0.2 2-2.3", "210", "1 / 0 / 1 7-0.0 2-2.0"),
    ("0 / 2", "", "0 / 0"),
];

/// The slots of a forest by these picks, and the fabric after they were drawn.
fn draw(alloc: Global, a: &Forest, picks: &str) -> Result<(SlotForest, ScriptFabric), Fail> {
    let mut fabric = script(alloc, picks)?;
    let slots = multi(alloc, a, &mut fabric)?;
    Ok((slots, fabric))
}

#[test]
fn leaves_draw_slots_in_the_order_of_the_script(rt: HostRuntime) -> Result<(), Fail> {
    for (forest, picks, slots) in DRAWN {
        let a = forest_of(rt.alloc(), forest)?;
        let (drawn, _) = draw(rt.alloc(), &a, picks)?;
        let text = text_of(rt.alloc(), drawn.forest())?;
        assert_eq!(rt; text.as_str(), *slots, "{forest} by {picks}");
    }
    Ok(())
}

/// What slots have when these words were gathered, and what leaves whose words were 9 have when the words
/// of the slots were scattered.
fn there_and_back(
    alloc: Global,
    a: &Forest,
    picks: &str,
    words: &str,
) -> Result<(String, String), Fail> {
    let (slots, mut fabric) = draw(alloc, a, picks)?;
    let leaves = leaf_words(alloc, slots.forest(), words)?;
    let gathered = gather(alloc, &slots, &leaves, &mut fabric)?;
    let mut back = leaf_words(alloc, slots.forest(), "")?;
    scatter(alloc, &slots, &gathered, &mut back, &mut fabric)?;
    Ok((words_text(alloc, &gathered)?, words_text(alloc, &back)?))
}

/// A forest, picks, the words of its leaves, those of the slots, and those of the leaves again.
const MOVED: &[(&str, &str, &str, &str, &str)] = &[
    (THREE_LEAVES, "101", "5 / 7 8", " 7 5 8 /", " 5 / 7 8"),
    (THREE_LEAVES, "0", "5 / 7 8", " 5 7 8 /", " 5 / 7 8"),
    (THREE_LEAVES, "110", "5 / 7 8", " 7 8 5 /", " 5 / 7 8"),
    (
        OWN_ROOTS,
        "",
        "5 6 / 7 1 1 8 /",
        " 6 5 8 / 7 /",
        " 5 6 / 7 9 9 8 /",
    ),
    (
        OWN_ROOTS,
        "1",
        "5 6 / 7 1 1 8 /",
        " 6 8 5 / 7 /",
        " 5 6 / 7 9 9 8 /",
    ),
];

#[test]
fn words_go_to_slots_and_back(rt: HostRuntime) -> Result<(), Fail> {
    for (forest, picks, words, slots, back) in MOVED {
        let a = forest_of(rt.alloc(), forest)?;
        let (there, again) = there_and_back(rt.alloc(), &a, picks, words)?;
        assert_eq!(rt; there.as_str(), *slots, "{forest} by {picks}");
        assert_eq!(rt; again.as_str(), *back, "{forest} by {picks}");
    }
    Ok(())
}

/// The forest in which 32 leaves of each of ranks 1 and 2 are on root 1 of rank 0.
fn sixty_four_leaves(alloc: Global) -> Result<Forest, Fail> {
    let mut text = String::from_str(alloc, "3")?;
    for _ in 0..2 {
        text.push_str(" / 0")?;
        for local in 0..32 {
            text.push_str(&format!(in alloc; " {local}-0.1")?)?;
        }
    }
    forest_of(alloc, &text)
}

/// The words 10 to 41 on rank 1, and 50 to 81 on rank 2.
const WORDS: &str = "\
/ 10 11 12 13 14 15 16 17 18 19 20 21 22 23 24 25 \
26 27 28 29 30 31 32 33 34 35 36 37 38 39 40 41 / \
50 51 52 53 54 55 56 57 58 59 60 61 62 63 64 65 \
66 67 68 69 70 71 72 73 74 75 76 77 78 79 80 81";

/// Them on the slots of the root where rank 1 draws first.
const BY_RANK: &str = " 10 11 12 13 14 15 16 17 18 19 20 21 22 23 24 25 \
26 27 28 29 30 31 32 33 34 35 36 37 38 39 40 41 \
50 51 52 53 54 55 56 57 58 59 60 61 62 63 64 65 \
66 67 68 69 70 71 72 73 74 75 76 77 78 79 80 81 / /";

/// Them where rank 2 draws three slots and rank 1 two, by turns, and then rank 1.
const BY_TURNS: &str = " 50 10 51 11 52 \
12 13 14 15 16 17 18 19 20 21 22 23 24 25 26 \
27 28 29 30 31 32 33 34 35 36 37 38 39 40 41 \
53 54 55 56 57 58 59 60 61 62 63 64 65 66 67 \
68 69 70 71 72 73 74 75 76 77 78 79 80 81 / /";

/// Picks, and the words of the slots.
const TURNS: &[(&str, &str)] = &[("", BY_RANK), ("21212", BY_TURNS)];

#[test]
fn a_root_with_sixty_four_leaves(rt: HostRuntime) -> Result<(), Fail> {
    let a = sixty_four_leaves(rt.alloc())?;
    for (picks, slots) in TURNS {
        let (there, again) = there_and_back(rt.alloc(), &a, picks, WORDS)?;
        assert_eq!(rt; there.as_str(), *slots, "by {picks}");
        assert_eq!(rt; again.trim(), WORDS, "by {picks}");
    }
    Ok(())
}
