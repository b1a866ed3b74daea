use crate::orient_tests::homes::{Home, check_alone, check_home};
use crate::{THREE_TRIANGLES, shared_of};
use orient_iface::iface_keys::home_keys;
use plex_base::NoMemory;
use sf_fabric::Tag;
use sf_fabric::script::ScriptFabric;
use sf_tests::RefusingFabric;
use std::process::Abort;
use std::test::Fail;

/// The first triangle on rank 1, the others on rank 0.
const APART: &str = "ranks 2\npart 1 0 0\n";

/// The edges (0, 2) and (1, 2), which rank 0 owns and the first triangle sees under the least keys.
const HOME: Home = Home {
    before: &[72, 136],
    asked: &[10, 9],
    after: &[10, 9],
};

/// The keys of both ranks, by place.
const KEYS: &[&[u64]] = &[
    &[64, 128, 0, 1, 2, 3, 4, 10, 73, 74, 9, 137, 138],
    &[0, 0, 1, 2, 8, 9, 10],
];

/// The ranks have these keys.
fn check_keys(rt: &impl Abort, keys: &[Vec<u64>], expected: &[&[u64]]) {
    assert_eq!(rt; keys.len(), expected.len());
    for (own, expected) in keys.iter().zip(expected) {
        assert_eq!(rt; own.as_slice(), *expected);
    }
}

#[test]
fn keys_are_the_least_of_all_ranks(rt: HostRuntime) -> Result<(), Fail> {
    let shared = shared_of(&rt, rt.alloc(), THREE_TRIANGLES, APART)?;
    let mut fabric = ScriptFabric::new(Vec::new(rt.alloc()));
    let (keys, round) = home_keys(rt.alloc(), &shared, &mut fabric)?;
    check_keys(&rt, keys.as_slice(), KEYS);
    check_home(&rt, &round, &HOME)?;
    check_alone(&rt, fabric.kept(), &HOME)
}

#[test]
fn the_home_round_may_find_no_memory(rt: HostRuntime) -> Result<(), Fail> {
    let shared = shared_of(&rt, rt.alloc(), THREE_TRIANGLES, APART)?;
    let inner = ScriptFabric::new(Vec::new(rt.alloc()));
    let mut fabric = RefusingFabric::new(inner, Tag::Home, 0);
    let found = home_keys(rt.alloc(), &shared, &mut fabric);
    assert_eq!(rt; found.err(), Some(NoMemory));
    Ok(())
}
