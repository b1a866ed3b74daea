use sf_defs::{Ask, Leaf, Op, Tag, Turn};

#[test]
fn applies_each_operation(rt: HostRuntime) {
    let rows = [
        (Op::Load, 0, 12),
        (Op::Sum, 5, 17),
        (Op::Sum, u64::MAX, 11),
        (Op::Min, 5, 5),
        (Op::Max, 5, 12),
        (Op::Or, 5, 13),
        (Op::And, 5, 4),
        (Op::Replace, 5, 5),
    ];
    for (op, value, after) in rows {
        assert_eq!(rt; op.apply(value, 12), after, "12 and {value}");
        assert_eq!(rt; op.is_load(), op == Op::Load);
    }
}

#[test]
fn keeps_rounds_of_keys_and_numbers(rt: HostRuntime) {
    for (tag, kept) in [(Tag::Free, false), (Tag::Home, true), (Tag::Number, true)] {
        assert_eq!(rt; tag.is_kept(), kept);
    }
}

#[test]
fn compares_asks_and_turns(rt: HostRuntime) {
    let ask = Ask {
        word: 3,
        op: Op::Min,
        value: 74,
    };
    assert_eq!(rt;
        ask,
        Ask {
            word: 3,
            op: Op::Min,
            value: 74
        }
    );
    assert!(rt;
        ask != Ask {
            word: 3,
            op: Op::Max,
            value: 74
        }
    );
    let turn = Turn { rank: 1, index: 0 };
    assert_eq!(rt; turn, Turn { rank: 1, index: 0 });
    assert!(rt; turn != Turn { rank: 0, index: 1 });
}

#[test]
fn compares_leaves(rt: HostRuntime) {
    let leaf = Leaf {
        local: 4,
        rank: 0,
        index: 5,
    };
    assert_eq!(rt;
        leaf,
        Leaf {
            local: 4,
            rank: 0,
            index: 5
        }
    );
    assert!(rt;
        leaf != Leaf {
            local: 4,
            rank: 1,
            index: 5
        }
    );
}
