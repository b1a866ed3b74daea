//! The lines and statuses of refusals.

ghost use Rattle.report.specs.Refusals.{HasLine};

use input_defs::{MeshFault, MshFault, PlanFault, Status, What};
use plex_base::PointKey;
use report::{Refusal, write_refusal};
use shelf_io::MemorySink;
use std::alloc::Global;
use std::test::Fail;

/// Whether a refusal has this status and this line.
fn is_written(alloc: Global, refusal: Refusal<'_>, status: Status, line: &str) -> Result<bool, Fail>
    requires { HasLine refusal }
{
    let room = vec![in alloc; 0; 256]?;
    let mut out = MemorySink::new(room, Vec::new(alloc));
    write_refusal(alloc, &refusal, &mut out)?;
    Ok(refusal.status() == status && out.bytes() == line.as_bytes() && out.flushed() == line.len())
}

#[test]
fn words_and_files(rt: HostRuntime) -> Result<(), Fail> {
    let alloc = rt.alloc();
    assert!(rt; is_written(alloc, Refusal::Words, Status::Words, "refused: words\n")?);
    assert!(rt;
        is_written(
            alloc,
            Refusal::Read("a b"),
            Status::ReadFault,
            "refused: read a b\n"
        )?
    );
    assert!(rt;
        is_written(
            alloc,
            Refusal::TooLong("m"),
            Status::TooLong,
            "refused: too long m 268435457\n"
        )?
    );
    assert!(rt;
        is_written(
            alloc,
            Refusal::Twist(PointKey(66)),
            Status::Mesh,
            "refused: twist cell 1 face 1\n"
        )?
    );
    Ok(())
}

#[test]
fn plans(rt: HostRuntime) -> Result<(), Fail> {
    let alloc = rt.alloc();
    let word = Refusal::Plan(PlanFault::Word { line: 3 });
    assert!(rt; is_written(alloc, word, Status::Plan, "refused: plan line 3 word\n")?);
    let length = Refusal::Plan(PlanFault::PartLength {
        line: 2,
        want: 8,
        got: 7,
    });
    assert!(rt;
        is_written(
            alloc,
            length,
            Status::Plan,
            "refused: plan line 2 part length 7 want 8\n"
        )?
    );
    let weight = Refusal::Plan(PlanFault::Weight {
        line: 4,
        cells: 250_000,
        ranks: 64,
    });
    assert!(rt;
        is_written(
            alloc,
            weight,
            Status::Plan,
            "refused: plan line 4 weight 250000 64\n"
        )?
    );
    Ok(())
}

#[test]
fn meshes(rt: HostRuntime) -> Result<(), Fail> {
    let alloc = rt.alloc();
    let missing = Refusal::Msh(MshFault::MissingSection {
        line: 9,
        nodes: true,
    });
    assert!(rt;
        is_written(
            alloc,
            missing,
            Status::Mesh,
            "refused: mesh line 9 missing section Nodes\n"
        )?
    );
    let kind = Refusal::Msh(MshFault::ElementType { line: 12, kind: 8 });
    assert!(rt;
        is_written(
            alloc,
            kind,
            Status::Mesh,
            "refused: mesh line 12 element type 8\n"
        )?
    );
    let names = Refusal::Msh(MshFault::TooMany {
        line: 5,
        what: What::Names,
    });
    assert!(rt;
        is_written(
            alloc,
            names,
            Status::Mesh,
            "refused: mesh line 5 too many names\n"
        )?
    );
    let flat = Refusal::Mesh(MeshFault::NoCells { greatest: 1 });
    assert!(rt; is_written(alloc, flat, Status::Mesh, "refused: mesh no cells 1\n")?);
    let twist = Refusal::Mesh(MeshFault::CellTwist {
        element: 7,
        earlier: 2,
    });
    assert!(rt; is_written(alloc, twist, Status::Mesh, "refused: mesh cell twist 7 2\n")?);
    Ok(())
}
