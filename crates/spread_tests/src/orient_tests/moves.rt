//! Three points of a rank that trade places: point 0 goes to place 1, point 1 to place 2 and point 2 to
//! place 0.
ghost use Rattle.std.specs.Prelude.{◌≡◌, length, IfOk};
ghost use Rattle.spread_tests.specs.orient_tests.TwoShared.{two_shared};

use orient_iface::moved_points::{moved_field, moved_forest, moved_label};
use plex_label::Label;
use plex_section::{Field, Section};
use sf_graph::{Forest, Leaf};
use std::alloc::Global;
use std::process::Abort;
use std::test::Fail;

/// The values 5 and -2 of point 0 and 7 of point 2 after the points moved.
fn moved_values(alloc: Global) -> Result<Label, Fail> {
    let mut label = Label::new(alloc);
    label.add(0, 5)?;
    label.add(0, -2)?;
    label.add(2, 7)?;
    Ok(moved_label(alloc, &label, &[1, 2, 0])?)
}

/// Points with their values.
const VALUES: &[(u32, &[i32])] = &[(0, &[7]), (1, &[-2, 5]), (2, &[])];

/// The points have these values.
fn check_values(rt: &impl Abort, label: &Label, values: &[(u32, &[i32])]) -> Result<(), Fail> {
    for (p, own) in values {
        assert_eq!(rt; label.values_at(*p)?.as_slice(), *own);
    }
    Ok(())
}

#[test]
fn values_go_with_their_points(rt: HostRuntime) -> Result<(), Fail> {
    let moved = moved_values(rt.alloc())?;
    check_values(&rt, &moved, VALUES)
}

/// Three points with one word, none and two.
fn three_points(alloc: Global) -> Result<Field, Fail>
    ensures { IfOk result (λ field. length field ≡ 3) }
{
    let section = Section::layout(alloc, &[1, 0, 2])?;
    Ok(Field::new(section, vec![in alloc; 7u64, 8, 9]?))
}

/// Their words after they moved.
fn moved_words(alloc: Global) -> Result<Field, Fail>
    ensures { IfOk result (λ field. length field ≡ 3) }
{
    let field = three_points(alloc)?;
    Ok(moved_field(alloc, &field, &[1, 2, 0])?)
}

/// Points with their words.
const WORDS: &[(u32, &[u64])] = &[(0, &[8, 9]), (1, &[7]), (2, &[])];

/// The points have these words.
fn check_words(rt: &impl Abort, field: &Field, words: &[(u32, &[u64])])
    requires { length field.now ≡ 3 }
{
    for (p, own) in words {
        assert!(rt; *p < 3);
        assert_eq!(rt; field.at(*p), *own);
    }
}

#[test]
fn words_go_with_their_points(rt: HostRuntime) -> Result<(), Fail> {
    let moved = moved_words(rt.alloc())?;
    check_words(&rt, &moved, WORDS);
    Ok(())
}

/// A leaf on a point of rank 0.
fn leaf(local: u32, index: u32) -> Leaf
    ensures { result ≡ record { local = local; rank = 0; index = index } }
{
    Leaf {
        local,
        rank: 0,
        index,
    }
}

/// Three points of rank 0 and two of rank 1, which are the third and the first of rank 0.
fn two_shared(alloc: Global) -> Result<Forest, Fail>
    ensures { IfOk result (λ f. f ≡ two_shared) }
{
    let copies = vec![in alloc; leaf(0, 2), leaf(1, 0)]?;
    let leaves = vec![in alloc; Vec::new(alloc), copies]?;
    Ok(Forest::new(alloc, vec![in alloc; 3u32, 2]?, leaves)?)
}

#[test]
fn leaves_and_roots_go_with_their_points(rt: HostRuntime) -> Result<(), Fail> {
    let forest = two_shared(rt.alloc())?;
    let first = vec![in rt.alloc(); 1u32, 2, 0]?;
    let moves = [first, vec![in rt.alloc(); 1u32, 0]?];
    let moved = moved_forest(rt.alloc(), &forest, &moves)?;
    assert_eq!(rt; moved.ranks(), 2);
    assert_eq!(rt; (moved.roots(0), moved.roots(1)), (3, 2));
    assert_eq!(rt; (moved.leaf_count(0), moved.leaf_count(1)), (0, 2));
    assert_eq!(rt; moved.leaf(1, 0), leaf(0, 1));
    assert_eq!(rt; moved.leaf(1, 1), leaf(1, 0));
    Ok(())
}
