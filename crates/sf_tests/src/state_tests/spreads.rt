ghost use Rattle.std.specs.Prelude.{◌≡◌, [], ◌∷◌, length, map, IfOk};
ghost use Rattle.sf_tests.specs.state_tests.Triangles.{two_ranks};

use crate::state_tests::triangles::two_ranks;
use dist_number::{Bases, Numbers, number, spread};
use dist_state::Dist;
use plex_base::{Dim, PointKey};
use sf_fabric::script::ScriptFabric;
use std::alloc::Global;
use std::test::Fail;

#[test]
fn readers_give_what_went_in(rt: HostRuntime) -> Result<(), Fail> {
    let d = two_ranks(rt.alloc())?;
    assert_eq!(rt; d.ranks(), 2);
    assert_eq!(rt; d.cells(), 2);
    assert_eq!(rt; d.overlap(), 0);
    assert_eq!(rt; d.sections(), 0);
    assert_eq!(rt; d.points().root_of(1, 4), Some((0, 5)));
    let local = d.local(1);
    assert_eq!(rt; local.plex().chart(), 7);
    assert_eq!(rt; local.key(5), PointKey(72));
    assert_eq!(rt; local.owner(4), 0);
    assert_eq!(rt; local.at(3), [10_000_000_000i64, 10_000_000_000, 0]);
    assert_eq!(rt; local.label(Dim::One).has(4, 1), false);
    assert_eq!(rt; local.fields(), 0);
    Ok(())
}

/// The bases of the ranks and the numbers of their points, where ranks come by these picks.
fn numbered(alloc: Global, d: &Dist, picks: [u32; 2]) -> Result<(Bases, Numbers), Fail>
    requires { d.now ≡ two_ranks }
    ensures count { IfOk result (λ r. length r.0.bases ≡ 2) }
    ensures shape { IfOk result (λ r. map length r.1 ≡ 7 ∷ 7 ∷ []) }
{
    let mut fabric = ScriptFabric::new(Vec::from_array(alloc, picks)?);
    let (bases, round) = number(alloc, d, &mut fabric)?;
    let numbers = spread(alloc, d, &bases, &mut fabric)?;
    Ok((bases, numbers))
}

#[test]
fn numbers_start_at_the_bases(rt: HostRuntime) -> Result<(), Fail> {
    let rows = [([0u32, 1], [0u64, 7]), ([1, 0], [4, 0])];
    let d = two_ranks(rt.alloc())?;
    for (picks, expected) in rows {
        let (bases, numbers) = numbered(rt.alloc(), &d, picks)?;
        assert_eq!(rt; [bases.base(0), bases.base(1)], expected);
        assert_eq!(rt; bases.total(), 11);
        assert_eq!(rt; [numbers.of(0, 0), numbers.of(1, 0)], expected);
    }
    Ok(())
}

#[test]
fn ghosts_have_the_numbers_of_their_owners(rt: HostRuntime) -> Result<(), Fail> {
    let d = two_ranks(rt.alloc())?;
    let (bases, numbers) = numbered(rt.alloc(), &d, [0, 1])?;
    let expected = [7u64, 2, 3, 8, 5, 9, 10];
    for p in 0..7u32 {
        assert_eq!(rt; numbers.of(1, p), expected[p as usize]);
    }
    Ok(())
}
