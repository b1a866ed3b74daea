//! A shelf and a sink that fail.

use crate::files::{TWO_TRIANGLES, TWO_TRIANGLES_TEXT};
use crate::runs::{File, MESH_OF_TWO, ONE_RANK, PLANNED, Run, Want, check_both};
use plex_job::Status;
use std::test::Fail;

/// The take that fails, the call of the sink that fails after so many bytes, and what is written.
const FAULTS: &[Run] = &[
    Run {
        files: MESH_OF_TWO,
        failing_takes: &[0],
        failing_calls: &[(9, 0)],
        status: Status::ReadFault,
        want: Want::Text("refused: read mesh\n"),
        rounds: 0,
        ..ONE_RANK
    },
    Run {
        files: MESH_OF_TWO,
        failing_takes: &[0],
        failing_calls: &[(0, 3)],
        status: Status::WriteFault,
        want: Want::Text("ref"),
        rounds: 0,
        ..ONE_RANK
    },
    Run {
        files: MESH_OF_TWO,
        failing_takes: &[0],
        failing_calls: &[(1, 0)],
        status: Status::WriteFault,
        want: Want::Text("refused: read mesh\n"),
        rounds: 0,
        ..ONE_RANK
    },
    Run {
        files: MESH_OF_TWO,
        failing_takes: &[9],
        failing_calls: &[(2, 5)],
        status: Status::WriteFault,
        want: Want::Text("mesh dim 2 cells 2 vertices 4 unused 0 loose 0 merged 0\nranks 1\nstep "),
        rounds: 2,
        ..ONE_RANK
    },
    Run {
        files: MESH_OF_TWO,
        failing_takes: &[9],
        failing_calls: &[(17, 0)],
        status: Status::WriteFault,
        want: Want::Text(TWO_TRIANGLES_TEXT),
        rounds: 2,
        ..ONE_RANK
    },
    // The third write fails, of two ranks.
    Run {
        files: &[
            ("mesh", File::Pieces(&[TWO_TRIANGLES])),
            (
                "p",
                File::Pieces(&["ranks 2\npart 1 0\nshow points\nshow windows\n"]),
            ),
        ],
        failing_calls: &[(2, 5)],
        status: Status::WriteFault,
        want: Want::Text("mesh dim 2 cells 2 vertices 4 unused 0 loose 0 merged 0\nranks 2\nstep "),
        ..PLANNED
    },
];

#[test]
fn faults(rt: HostRuntime) -> Result<(), Fail> {
    check_both(&rt, rt.alloc(), FAULTS)
}
