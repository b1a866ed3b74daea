//! Plans for one rank, and plans that are refused.

use crate::files::{
    CLOSURES_PLAN, CLOSURES_TEXT, SHOWN_PLAN, SHOWN_TEXT, TWO_TRIANGLES, WINDOWS_PLAN, WINDOWS_TEXT,
};
use crate::runs::{File, PLANNED, Run, Want, check_both};
use plex_job::Status;
use std::test::Fail;

/// What plans show.
const SHOWN_PLANS: &[Run] = &[
    Run {
        files: &[
            ("mesh", File::Triangle(&[])),
            ("p", File::Pieces(&[WINDOWS_PLAN])),
        ],
        want: Want::Text(WINDOWS_TEXT),
        ..PLANNED
    },
    Run {
        files: &[
            ("mesh", File::Pieces(&[TWO_TRIANGLES])),
            ("p", File::Pieces(&[CLOSURES_PLAN])),
        ],
        want: Want::Text(CLOSURES_TEXT),
        ..PLANNED
    },
    Run {
        files: &[
            ("mesh", File::Pieces(&[TWO_TRIANGLES])),
            ("p", File::Pieces(&[SHOWN_PLAN])),
        ],
        want: Want::Text(SHOWN_TEXT),
        rounds: 3,
        ..PLANNED
    },
];

/// A plan that is refused.
const REFUSED: Run = Run {
    status: Status::Plan,
    rounds: 0,
    ..PLANNED
};

/// Why plans are refused.
const REFUSED_PLANS: &[Run] = &[
    Run {
        files: &[
            ("mesh", File::Pieces(&[TWO_TRIANGLES])),
            ("p", File::Pieces(&["ranks 0\npart block\n"])),
        ],
        want: Want::Text("refused: plan line 1 ranks 0\n"),
        ..REFUSED
    },
    Run {
        files: &[
            ("mesh", File::Pieces(&[TWO_TRIANGLES])),
            ("p", File::Pieces(&["ranks 65\npart block\n"])),
        ],
        want: Want::Text("refused: plan line 1 ranks 65\n"),
        ..REFUSED
    },
    Run {
        files: &[
            ("mesh", File::Pieces(&[TWO_TRIANGLES])),
            ("p", File::Pieces(&["ranks 1\npart 0\n"])),
        ],
        want: Want::Text("refused: plan line 2 part length 1 want 2\n"),
        ..REFUSED
    },
    Run {
        files: &[
            ("mesh", File::Pieces(&[TWO_TRIANGLES])),
            ("p", File::Pieces(&["ranks 1\npart block\noverlap 5\n"])),
        ],
        want: Want::Text("refused: plan line 3 overlap 5\n"),
        ..REFUSED
    },
    Run {
        files: &[
            ("mesh", File::Pieces(&[TWO_TRIANGLES])),
            ("p", File::Pieces(&["ranks 1\n"])),
        ],
        want: Want::Text("refused: plan line 2 no part\n"),
        ..REFUSED
    },
    Run {
        files: &[
            ("mesh", File::Pieces(&[TWO_TRIANGLES])),
            ("p", File::Pieces(&["ranks 1\nparts block\n"])),
        ],
        want: Want::Text("refused: plan line 2 word\n"),
        ..REFUSED
    },
    Run {
        files: &[
            ("mesh", File::Pieces(&[TWO_TRIANGLES])),
            ("p", File::Pieces(&["ranks 2\npart 0\n"])),
        ],
        want: Want::Text("refused: plan line 2 part length 1 want 2\n"),
        ..REFUSED
    },
    Run {
        files: &[
            ("mesh", File::Pieces(&[TWO_TRIANGLES])),
            ("p", File::Pieces(&["ranks 2\npart 0 2\n"])),
        ],
        want: Want::Text("refused: plan line 2 part rank 2\n"),
        ..REFUSED
    },
    Run {
        files: &[
            ("mesh", File::Pieces(&[TWO_TRIANGLES])),
            ("p", File::Pieces(&["ranks 2\npart 0 1\npart 1 0\n"])),
        ],
        want: Want::Text("refused: plan line 3 not yet\n"),
        ..REFUSED
    },
    Run {
        files: &[
            ("mesh", File::Pieces(&[TWO_TRIANGLES])),
            ("p", File::Pieces(&["ranks 2\npart 0 1\noverlap 1\n"])),
        ],
        want: Want::Text("refused: plan line 3 not yet\n"),
        ..REFUSED
    },
];

#[test]
fn shown_plans(rt: HostRuntime) -> Result<(), Fail> {
    check_both(&rt, rt.alloc(), SHOWN_PLANS)
}

#[test]
fn refused_plans(rt: HostRuntime) -> Result<(), Fail> {
    check_both(&rt, rt.alloc(), REFUSED_PLANS)
}
