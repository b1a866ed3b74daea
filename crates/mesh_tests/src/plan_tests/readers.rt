use plan_reader::{Plan, PlanFault, Show, Step, read_plan};
use std::alloc::Global;
use std::test::Fail;

/// The plan of a short text.
fn plan_of(alloc: Global, text: &str) -> Result<Plan, Fail> {
    if text.len() > 1000 {
        return Err(Fail::from("too long"));
    }
    Ok(read_plan(alloc, text.as_bytes())?)
}

#[test]
fn what_the_lines_say(rt: HostRuntime) -> Result<(), Fail> {
    let text =
        "# two ranks\r\n\nranks 002\n\tpart 1 0 1\r\noverlap 2\noverlap 0\npart stripe\ndofs u_1 1 2 3 16\nshow local\nshow trace\nshow local";
    let plan = plan_of(rt.alloc(), text)?;
    assert_eq!(rt; plan.ranks(), 2);
    assert_eq!(rt; plan.steps(), 4);
    for (i, want) in [Step::Part, Step::Overlap(2), Step::Overlap(0), Step::Part]
        .iter()
        .enumerate()
    {
        assert!(rt; i < plan.steps());
        assert_eq!(rt; plan.step(i), *want);
    }
    let mut shows = Show::default();
    shows.local = true;
    shows.trace = true;
    assert_eq!(rt; plan.show(), shows);
    assert_eq!(rt; plan.ahead(), Some(5));
    Ok(())
}

#[test]
fn sections(rt: HostRuntime) -> Result<(), Fail> {
    let plan = plan_of(rt.alloc(), "ranks 1\ndofs u_1 1 2 3 16\npart block\n")?;
    assert!(rt; plan.dofs() == 1);
    let (name, dofs) = plan.dof(0);
    assert_eq!(rt; name, b"u_1".as_slice());
    assert_eq!(rt; dofs, [1, 2, 3, 16]);
    Ok(())
}

#[test]
fn without_a_file(rt: HostRuntime) -> Result<(), Fail> {
    let plan = Plan::plain(rt.alloc())?;
    assert_eq!(rt;
        (plan.ranks(), plan.steps(), plan.dofs(), plan.ahead()),
        (1, 1, 0, None)
    );
    let mut shows = Show::default();
    shows.points = true;
    assert_eq!(rt; plan.show(), shows);
    assert_eq!(rt; plan.fits(250_000), Ok(()));
    Ok(())
}

#[test]
fn lines_that_are_not_built_yet(rt: HostRuntime) -> Result<(), Fail> {
    for (text, ahead) in [
        ("ranks 1\npart block\npart stripe\nshow points\n", None),
        ("ranks 2\npart block\nshow points\n", None),
        ("ranks 2\npart block\noverlap 1\n", Some(3)),
        ("ranks 2\npart block\n\npart stripe\n", Some(4)),
        ("ranks 1\npart block\n\noverlap 0\nshow local\n", Some(4)),
        ("dofs u 0 0 0 0\nranks 1\npart block\n", None),
        ("ranks 1\nshow points\nshow windows\npart block\n", None),
    ] {
        assert_eq!(rt; plan_of(rt.alloc(), text)?.ahead(), ahead, "{text:?}");
    }
    Ok(())
}

#[test]
fn plans_and_meshes(rt: HostRuntime) -> Result<(), Fail> {
    for (text, cells, want) in [
        (
            "ranks 17\npart block\noverlap 1\n",
            250_000,
            Err(PlanFault::Weight {
                line: 3,
                cells: 250_000,
                ranks: 17,
            }),
        ),
        ("ranks 16\npart block\noverlap 1\n", 250_000, Ok(())),
        ("ranks 17\npart block\noverlap 0\n", 250_000, Ok(())),
        (
            "ranks 2\npart 0\n",
            2,
            Err(PlanFault::PartLength {
                line: 2,
                want: 2,
                got: 1,
            }),
        ),
        (
            "ranks 2\npart 0 2\n",
            2,
            Err(PlanFault::PartRank { line: 2, rank: 2 }),
        ),
        (
            "ranks 2\npart 5 3\n",
            2,
            Err(PlanFault::PartRank { line: 2, rank: 5 }),
        ),
        ("ranks 2\npart 1 0\n", 2, Ok(())),
        (
            "ranks 2\npart 1 0\npart 1 0 1\npart 7 7\n",
            2,
            Err(PlanFault::PartLength {
                line: 3,
                want: 2,
                got: 3,
            }),
        ),
    ] {
        assert_eq!(rt; plan_of(rt.alloc(), text)?.fits(cells), want, "{text:?}");
    }
    Ok(())
}

#[test]
#[tactic(auto, unfolding(input_defs::specs::Plans::misfit, input_defs::specs::Plans::misfits))]
fn ranks_of_cells(rt: HostRuntime) -> Result<(), Fail> {
    let plan = Plan::plain(rt.alloc())?;
    for cell in 0..3 {
        assert_eq!(rt; plan.rank_of(0, cell, 3), 0);
    }
    Ok(())
}
