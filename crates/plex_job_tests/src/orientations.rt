//! How a second cell sees the face that it shares with the first.

use crate::files::{HEXAHEDRA, LAST_LINE, TETRAHEDRA};
use crate::runs::{File, ONE_RANK, Run, Want, check_both};
use plex_job::Status;
use std::test::Fail;

/// Two tetrahedra with a common face.
const TETRAHEDRA_TOTAL: &str = "total 23 cells 2 vertices 5 faces 7 edges 9";

/// Two hexahedra with a common face.
const HEXAHEDRA_TOTAL: &str = "total 45 cells 2 vertices 12 faces 11 edges 20";

/// The second tetrahedron has these nodes.
const TETRAHEDRA_SHARE_A_FACE: &[Run] = &[
    Run {
        files: &[("mesh", File::Pieces(&[TETRAHEDRA, "2 3 4 5", LAST_LINE]))],
        want: Want::Lines(&[TETRAHEDRA_TOTAL, "P 1 c1 9:-1 "]),
        ..ONE_RANK
    },
    Run {
        files: &[("mesh", File::Pieces(&[TETRAHEDRA, "2 4 3 5", LAST_LINE]))],
        want: Want::Lines(&[TETRAHEDRA_TOTAL, "P 1 c1 9:0 "]),
        ..ONE_RANK
    },
    Run {
        files: &[("mesh", File::Pieces(&[TETRAHEDRA, "3 2 4 5", LAST_LINE]))],
        want: Want::Lines(&[TETRAHEDRA_TOTAL, "P 1 c1 9:1 "]),
        ..ONE_RANK
    },
    Run {
        files: &[("mesh", File::Pieces(&[TETRAHEDRA, "3 4 2 5", LAST_LINE]))],
        want: Want::Lines(&[TETRAHEDRA_TOTAL, "P 1 c1 9:-2 "]),
        ..ONE_RANK
    },
    Run {
        files: &[("mesh", File::Pieces(&[TETRAHEDRA, "4 2 3 5", LAST_LINE]))],
        want: Want::Lines(&[TETRAHEDRA_TOTAL, "P 1 c1 9:-3 "]),
        ..ONE_RANK
    },
    Run {
        files: &[("mesh", File::Pieces(&[TETRAHEDRA, "4 3 2 5", LAST_LINE]))],
        want: Want::Lines(&[TETRAHEDRA_TOTAL, "P 1 c1 9:2 "]),
        ..ONE_RANK
    },
];

/// The second hexahedron has these nodes.
const HEXAHEDRA_SHARE_A_FACE: &[Run] = &[
    Run {
        files: &[(
            "mesh",
            File::Pieces(&[HEXAHEDRA, "5 6 7 8 9 10 11 12", LAST_LINE]),
        )],
        want: Want::Lines(&[HEXAHEDRA_TOTAL, "P 1 c1 15:-1 "]),
        ..ONE_RANK
    },
    Run {
        files: &[(
            "mesh",
            File::Pieces(&[HEXAHEDRA, "6 7 8 5 9 10 11 12", LAST_LINE]),
        )],
        want: Want::Lines(&[HEXAHEDRA_TOTAL, "P 1 c1 15:-2 "]),
        ..ONE_RANK
    },
    Run {
        files: &[(
            "mesh",
            File::Pieces(&[HEXAHEDRA, "7 8 5 6 9 10 11 12", LAST_LINE]),
        )],
        want: Want::Lines(&[HEXAHEDRA_TOTAL, "P 1 c1 15:-3 "]),
        ..ONE_RANK
    },
    Run {
        files: &[(
            "mesh",
            File::Pieces(&[HEXAHEDRA, "8 5 6 7 9 10 11 12", LAST_LINE]),
        )],
        want: Want::Lines(&[HEXAHEDRA_TOTAL, "P 1 c1 15:-4 "]),
        ..ONE_RANK
    },
    Run {
        files: &[(
            "mesh",
            File::Pieces(&[HEXAHEDRA, "5 8 7 6 9 10 11 12", LAST_LINE]),
        )],
        want: Want::Lines(&[HEXAHEDRA_TOTAL, "P 1 c1 15:0 "]),
        ..ONE_RANK
    },
    Run {
        files: &[(
            "mesh",
            File::Pieces(&[HEXAHEDRA, "6 5 8 7 9 10 11 12", LAST_LINE]),
        )],
        want: Want::Lines(&[HEXAHEDRA_TOTAL, "P 1 c1 15:1 "]),
        ..ONE_RANK
    },
    Run {
        files: &[(
            "mesh",
            File::Pieces(&[HEXAHEDRA, "7 6 5 8 9 10 11 12", LAST_LINE]),
        )],
        want: Want::Lines(&[HEXAHEDRA_TOTAL, "P 1 c1 15:2 "]),
        ..ONE_RANK
    },
    Run {
        files: &[(
            "mesh",
            File::Pieces(&[HEXAHEDRA, "8 7 6 5 9 10 11 12", LAST_LINE]),
        )],
        want: Want::Lines(&[HEXAHEDRA_TOTAL, "P 1 c1 15:3 "]),
        ..ONE_RANK
    },
    // A crossed face is a twist.
    Run {
        files: &[(
            "mesh",
            File::Pieces(&[HEXAHEDRA, "5 7 6 8 9 10 11 12", LAST_LINE]),
        )],
        status: Status::Mesh,
        want: Want::Text("refused: twist cell 1 face 0\n"),
        rounds: 1,
        ..ONE_RANK
    },
];

#[test]
fn tetrahedra_share_a_face(rt: HostRuntime) -> Result<(), Fail> {
    check_both(&rt, rt.alloc(), TETRAHEDRA_SHARE_A_FACE)
}

#[test]
fn hexahedra_share_a_face(rt: HostRuntime) -> Result<(), Fail> {
    check_both(&rt, rt.alloc(), HEXAHEDRA_SHARE_A_FACE)
}
