use plan_reader::{PlanFault, read_plan};
use std::alloc::Global;
use std::test::Fail;

/// The first fault of a plan, if it has one.
fn fault_of(alloc: Global, text: &str) -> Result<Option<PlanFault>, Fail> {
    if text.len() > 1000 {
        return Err(Fail::from("too long"));
    }
    match read_plan(alloc, text.as_bytes()) {
        Ok(_) => Ok(None),
        Err(PlanFault::NoMemory) => Err(Fail::from("no memory")),
        Err(fault) => Ok(Some(fault)),
    }
}

/// A text, and then a line so often.
fn with_lines(alloc: Global, text: &str, line: &str, count: u32) -> Result<String, Fail> {
    let mut all = String::from_str(alloc, text)?;
    for _ in 0..count {
        all.push_str(line)?;
    }
    Ok(all)
}

#[test]
fn lines_without_a_form(rt: HostRuntime) -> Result<(), Fail> {
    for (text, line) in [
        ("ranks 1\nparts block\n", 2),
        ("ranks\npart block\n", 1),
        ("ranks 1 1\npart block\n", 1),
        ("ranks 0000000001\npart block\n", 1),
        ("ranks +1\npart block\n", 1),
        ("ranks x\n", 1),
        ("Ranks 1\n", 1),
        ("\n\nranks 1\n $part block\n", 4),
        ("ranks 1\npart\n", 2),
        ("ranks 1\npart blocks\n", 2),
        ("ranks 1\npart block stripe\n", 2),
        ("ranks 1\npart 0 0 x\n", 2),
        ("ranks 1\npart 0 # none\n", 2),
        ("ranks 1\npart block\noverlap\n", 3),
        ("ranks 1\npart block\noverlap 1 1\n", 3),
        ("ranks 1\npart block\ndofs u 1 1 1\n", 3),
        ("ranks 1\npart block\ndofs u 1 1 1 1 1\n", 3),
        ("ranks 1\npart block\ndofs u 1 1 1 x\n", 3),
        ("ranks 1\npart block\nshow\n", 3),
        ("ranks 1\npart block\nshow points local\n", 3),
        ("ranks 1\npart block\nshow point\n", 3),
    ] {
        assert_eq!(rt;
            fault_of(rt.alloc(), text)?,
            Some(PlanFault::Word { line }),
            "{text:?}"
        );
    }
    Ok(())
}

#[test]
fn lines_at_the_wrong_place(rt: HostRuntime) -> Result<(), Fail> {
    for (text, fault) in [
        ("ranks 1\nranks 1\n", PlanFault::Word { line: 2 }),
        ("ranks 1\nranks 0\n", PlanFault::Word { line: 2 }),
        ("part block\nranks 1\n", PlanFault::Word { line: 1 }),
        (
            "ranks 1\noverlap 1\npart block\n",
            PlanFault::NoPart { line: 2 },
        ),
        ("overlap 0\n", PlanFault::NoPart { line: 1 }),
        ("", PlanFault::NoPart { line: 1 }),
        ("# nothing", PlanFault::NoPart { line: 1 }),
        ("ranks 1", PlanFault::NoPart { line: 1 }),
        ("ranks 1\n", PlanFault::NoPart { line: 2 }),
        ("ranks 1\nshow points\n\n", PlanFault::NoPart { line: 4 }),
    ] {
        assert_eq!(rt; fault_of(rt.alloc(), text)?, Some(fault), "{text:?}");
    }
    Ok(())
}

#[test]
fn numbers_out_of_range(rt: HostRuntime) -> Result<(), Fail> {
    for (text, fault) in [
        (
            "ranks 0\npart block\n",
            PlanFault::Ranks { line: 1, got: 0 },
        ),
        (
            "ranks 65\npart block\n",
            PlanFault::Ranks { line: 1, got: 65 },
        ),
        (
            "ranks 999999999\n",
            PlanFault::Ranks {
                line: 1,
                got: 999_999_999,
            },
        ),
        (
            "ranks 1\npart block\noverlap 5\n",
            PlanFault::Overlap { line: 3, total: 5 },
        ),
        (
            "ranks 1\npart block\noverlap 3\noverlap 2\n",
            PlanFault::Overlap { line: 4, total: 5 },
        ),
        (
            "ranks 1\npart block\noverlap 4\noverlap 999999999\n",
            PlanFault::Overlap {
                line: 4,
                total: 1_000_000_003,
            },
        ),
        ("ranks 1\ndofs u 0 0 17 0\n", PlanFault::Dofs { line: 2 }),
        ("dofs a-b 0 0 0 0\n", PlanFault::Dofs { line: 1 }),
        (
            "dofs u 0 0 0 0\ndofs v 0 0 0 0\ndofs u 1 1 1 1\n",
            PlanFault::Dofs { line: 3 },
        ),
        (
            "dofs u23456789012345678901234567890123 0 0 0 0\n",
            PlanFault::Dofs { line: 1 },
        ),
    ] {
        assert_eq!(rt; fault_of(rt.alloc(), text)?, Some(fault), "{text:?}");
    }
    Ok(())
}

#[test]
fn one_line_too_many(rt: HostRuntime) -> Result<(), Fail> {
    for (line, count, fault) in [
        ("part block\n", 31, None),
        ("part block\n", 32, Some(PlanFault::Steps { line: 34 })),
        ("overlap 0\n", 32, Some(PlanFault::Steps { line: 34 })),
        ("overlap 1\n", 4, None),
        ("overlap 1\noverlap 0\n", 15, None),
        (
            "overlap 9\n",
            1,
            Some(PlanFault::Overlap { line: 3, total: 9 }),
        ),
    ] {
        let text = with_lines(rt.alloc(), "ranks 1\npart block\n", line, count)?;
        assert_eq!(rt; fault_of(rt.alloc(), &text)?, fault, "{line:?}");
    }
    Ok(())
}

#[test]
fn nine_sections(rt: HostRuntime) -> Result<(), Fail> {
    let eight =
        "dofs a 1 0 0 0\ndofs b 1 0 0 0\ndofs c 1 0 0 0\ndofs d 1 0 0 0\ndofs e 1 0 0 0\ndofs f 1 0 0 0\ndofs g 1 0 0 0\ndofs h 16 0 0 0\nranks 1\npart block\n";
    for (count, fault) in [(0, None), (1, Some(PlanFault::Dofs { line: 11 }))] {
        let text = with_lines(rt.alloc(), eight, "dofs i 1 0 0 0\n", count)?;
        assert_eq!(rt; fault_of(rt.alloc(), &text)?, fault);
    }
    Ok(())
}
