use orient_iface::iface_twist::least_twist;
use plex_base::PointKey;
use sf_fabric::script::ScriptFabric;
use std::test::Fail;

#[test]
fn no_rank_has_a_twist(rt: HostRuntime) -> Result<(), Fail> {
    let mut fabric = ScriptFabric::new(Vec::new(rt.alloc()));
    let least = least_twist(rt.alloc(), &[None, None], &mut fabric)?;
    assert_eq!(rt; least, None);
    assert_eq!(rt; fabric.kept().len(), 0);
    Ok(())
}

#[test]
fn two_of_three_ranks_have_a_twist(rt: HostRuntime) -> Result<(), Fail> {
    let mut fabric = ScriptFabric::new(Vec::new(rt.alloc()));
    let own = [Some(PointKey(130)), None, Some(PointKey(65))];
    let least = least_twist(rt.alloc(), &own, &mut fabric)?;
    assert_eq!(rt; least, Some(PointKey(65)));
    assert_eq!(rt; fabric.kept().len(), 0);
    Ok(())
}
