use sf_fabric::{Ask, FlatLists, Op, Round, Tag, Turn};
use std::process::Abort;
use std::test::Fail;

#[test]
fn flat_lists_are_nested_lists(rt: HostRuntime) -> Result<(), Fail> {
    let alloc = rt.alloc();
    let flat = FlatLists::new(
        Vec::from_array(alloc, [5, 6, 7])?,
        Vec::from_array(alloc, [0, 2, 2, 3])?,
    );
    let vectors = vec![in alloc;
        Vec::from_array(alloc, [5, 6])?,
        Vec::new(alloc),
        Vec::from_array(alloc, [7])?,
    ]?;
    let nested = FlatLists::of_nested(alloc, vectors)?;
    reads_three_lists(&rt, &flat);
    reads_three_lists(&rt, &flat.try_clone(alloc)?);
    reads_three_lists(&rt, &nested);
    Ok(())
}

/// They are [5, 6], [] and [7].
fn reads_three_lists(rt: &impl Abort, lists: &FlatLists<u64>) {
    assert_eq!(rt; lists.len(), 3);
    assert_eq!(rt; lists.total(), 3);
    assert_eq!(rt; lists.list(0), [5, 6].as_slice());
    assert!(rt; lists.list(1).is_empty());
    assert_eq!(rt; lists.list(2), [7].as_slice());
}

#[test]
fn items_are_put_and_shared_out(rt: HostRuntime) -> Result<(), Fail> {
    let alloc = rt.alloc();
    let mut lists = FlatLists::new(
        Vec::from_array(alloc, [5, 6, 7])?,
        Vec::from_array(alloc, [0, 2, 3])?,
    );
    assert_eq!(rt; lists.len(), 2);
    assert_eq!(rt; lists.list(0).len(), 2);
    lists.put(0, 1, 8);
    assert_eq!(rt; lists.len(), 2);
    assert_eq!(rt; lists.list(0), [5, 8].as_slice());
    assert_eq!(rt; lists.list(1), [7].as_slice());
    assert_eq!(rt; lists.total(), 3);
    let alike = lists.alike(alloc, Vec::from_array(alloc, [true, false, true])?)?;
    assert_eq!(rt; alike.len(), 2);
    assert_eq!(rt; alike.list(0), [true, false].as_slice());
    assert_eq!(rt; alike.list(1), [true].as_slice());
    Ok(())
}

#[test]
fn reads_a_round(rt: HostRuntime) -> Result<(), Fail> {
    let alloc = rt.alloc();
    let sum = Ask {
        word: 0,
        op: Op::Sum,
        value: 7,
    };
    let turn = Turn { rank: 0, index: 0 };
    let round = Round::raw(
        Tag::Number,
        Vec::from_array(alloc, [0])?,
        vec![in alloc; Vec::from_array(alloc, [sum])?]?,
        vec![in alloc; Vec::from_array(alloc, [0])?]?,
        Vec::from_array(alloc, [7])?,
        vec![in alloc; Vec::from_array(alloc, [turn])?]?,
    );
    assert_eq!(rt; round.tag(), Tag::Number);
    assert_eq!(rt;
        (round.ranks(), round.before(), round.after()),
        (1, [0].as_slice(), [7].as_slice())
    );
    assert_eq!(rt;
        (round.asks(0), round.got(0)),
        ([sum].as_slice(), [0].as_slice())
    );
    assert_eq!(rt; round.order(0), [turn].as_slice());
    Ok(())
}
