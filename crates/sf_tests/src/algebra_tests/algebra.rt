//! Composition, inversion and restriction.
ghost use Rattle.std.specs.Prelude.{◌≡◌, ◌^◌, ◌<◌, true, length, sum, IfOk, OnOk};
ghost use Rattle.sf_defs.specs.Forest.{FitsLocals};

use crate::algebra_tests::texts::{forest_of, text_of};
use crate::algebra_tests::words::{leaf_flags, reach, root_flags};
use sf_algebra::{InvertFault, compose, embed_leaves, embed_roots, invert};
use sf_graph::Forest;
use std::alloc::Global;
use std::test::Fail;

const A: &str = "2 / 0 0-0.1 3-0.0";

const B: &str = "0 5-1.3 6-1.1 / 4 9-1.0";

const THREE_LEAVES: &str = "1 0-0.0 / 0 0-0.0 1-0.0";

/// The composition of the forests of two texts, as a text.
fn composed(alloc: Global, a: &str, b: &str) -> Result<String, Fail> {
    let a = forest_of(alloc, a)?;
    let b = forest_of(alloc, b)?;
    if a.ranks() != b.ranks() {
        return Err(Fail::from("other ranks"));
    }
    text_of(alloc, &compose(alloc, &a, &b)?)
}

#[test]
fn leaves_of_the_second_reach_roots_of_the_first(rt: HostRuntime) -> Result<(), Fail> {
    for (a, b, both) in [
        (A, B, "2 5-0.0 / 0 9-0.1"),
        (A, "0 / 4", "2 / 0"),
        ("2 / 0", B, "2 / 0"),
        (
            "0 / 3 0-1.2 / 0",
            "1 8-0.0 / 0 / 0 7-0.0 2-0.0",
            "0 / 3 / 0",
        ),
        (
            "1 4-1.1 / 2 1-0.0",
            "5 9-0.4 / 2 3-1.1 2-0.4 1-1.1",
            "1 9-1.1 / 2 3-0.0 2-1.1 1-0.0",
        ),
        (
            "2 0-0.1 1-0.0",
            "2 9-0.0 4-0.1 7-0.0",
            "2 9-0.1 4-0.0 7-0.1",
        ),
    ] {
        assert_eq!(rt; composed(rt.alloc(), a, b)?.as_str(), both, "{a} and {b}");
    }
    Ok(())
}

/// How many roots each rank has.
fn roots_of(alloc: Global, forest: &Forest) -> Result<Vec<u32>, Fail>
    ensures roots { IfOk result (λ roots. roots.items ≡ forest.now.roots) }
    ensures few { OnOk result (sum forest.now.roots < 2 ^ 32) }
{
    let mut roots = Vec::new(alloc);
    for rank in 0..forest.ranks() {
        roots.push(forest.roots(rank))?;
    }
    Ok(roots)
}

/// Whether the local indices of the leaves of `a` are indices of roots of `b`.
fn fits(a: &Forest, b: &Forest) -> bool
    requires { length a.now.roots ≡ length b.now.roots }
    ensures { result ≡ true → FitsLocals a.now b.now.roots }
{
    for rank in 0..a.ranks() {
        if reach(a, rank) > b.roots(rank) as usize {
            return false;
        }
    }
    true
}

/// The converse of a forest, with as many roots on each rank as another forest has.
fn converse(alloc: Global, a: &Forest, b: &Forest) -> Result<Result<Forest, InvertFault>, Fail> {
    if a.ranks() != b.ranks() || !fits(a, b) {
        return Err(Fail::from("too few roots"));
    }
    let roots = roots_of(alloc, b)?;
    Ok(invert(alloc, a, &roots))
}

#[test]
fn roots_become_leaves(rt: HostRuntime) -> Result<(), Fail> {
    for (a, back) in [
        (A, "0 0-1.3 1-1.0 / 4"),
        ("0 0-1.3 1-1.0 / 4", A),
        ("0 / 4", "0 / 0"),
        ("3 5-0.2 1-0.0", "6 0-0.1 2-0.5"),
        ("0 / 2 / 0 4-1.1", "0 / 0 1-2.4 / 5"),
        ("2 0-1.0 1-0.0 / 1 0-0.1", "2 0-0.1 1-1.0 / 1 0-0.0"),
    ] {
        let forest = forest_of(rt.alloc(), a)?;
        let shape = forest_of(rt.alloc(), back)?;
        let other = converse(rt.alloc(), &forest, &shape)??;
        assert_eq!(rt; text_of(rt.alloc(), &other)?.as_str(), back, "{a}");
    }
    Ok(())
}

#[test]
fn shared_roots_have_no_converse(rt: HostRuntime) -> Result<(), Fail> {
    for (a, roots, rank, root) in [
        (THREE_LEAVES, "1 / 2", 0, 0),
        ("1 0-1.2 1-1.2 / 3 2-1.1 5-1.1 7-0.0", "2 / 8", 1, 1),
        ("2 0-1.0 1-0.1 / 1 0-0.1 1-1.0", "2 / 2", 0, 1),
    ] {
        let forest = forest_of(rt.alloc(), a)?;
        let shape = forest_of(rt.alloc(), roots)?;
        let fault = converse(rt.alloc(), &forest, &shape)?.err();
        assert_eq!(rt; fault, Some(InvertFault::Shared { rank, root }), "{a}");
    }
    Ok(())
}

#[test]
fn leaves_of_kept_roots_stay(rt: HostRuntime) -> Result<(), Fail> {
    for (a, keep, kept) in [
        (A, "01 /", "2 / 0 0-0.1"),
        (A, "11 /", A),
        (THREE_LEAVES, "0 /", "1 / 0"),
        (
            "2 0-0.1 1-0.0 / 1 3-0.1 0-1.0 / 0 2-1.0",
            "01 / 0 /",
            "2 0-0.1 / 1 3-0.1 / 0",
        ),
    ] {
        let forest = forest_of(rt.alloc(), a)?;
        let keep = root_flags(rt.alloc(), &forest, keep)?;
        let few = embed_roots(rt.alloc(), &forest, &keep)?;
        assert_eq!(rt; text_of(rt.alloc(), &few)?.as_str(), kept, "{a}");
    }
    Ok(())
}

#[test]
fn kept_leaves_stay(rt: HostRuntime) -> Result<(), Fail> {
    for (a, keep, kept) in [
        (A, "/ 01", "2 / 0 3-0.0"),
        (A, "/ 00", "2 / 0"),
        (THREE_LEAVES, "1 / 10", "1 0-0.0 / 0 0-0.0"),
        (
            "2 0-0.1 1-0.0 / 1 3-0.1 0-1.0 / 0 2-1.0",
            "10 / 01 / 1",
            "2 0-0.1 / 1 0-1.0 / 0 2-1.0",
        ),
    ] {
        let forest = forest_of(rt.alloc(), a)?;
        let keep = leaf_flags(rt.alloc(), &forest, keep)?;
        let few = embed_leaves(rt.alloc(), &forest, &keep)?;
        assert_eq!(rt; text_of(rt.alloc(), &few)?.as_str(), kept, "{a}");
    }
    Ok(())
}
