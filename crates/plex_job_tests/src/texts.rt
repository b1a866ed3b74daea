//! Texts of meshes on one rank.

use crate::files::{
    MERGED_TEXT, ONE_TRIANGLE_TEXT, PLATE, PLATE_TEXT, TEMPERATURES, TEMPERATURES_TEXT,
    TWO_TRIANGLES, TWO_TRIANGLES_TEXT,
};
use crate::runs::{File, ONE_RANK, Run, Want, check_both};
use std::test::Fail;

/// Mesh files and their texts.
const WHOLE_FILES: &[Run] = &[
    Run {
        files: &[("mesh", File::Pieces(&[TWO_TRIANGLES]))],
        want: Want::Text(TWO_TRIANGLES_TEXT),
        ..ONE_RANK
    },
    Run {
        files: &[("mesh", File::Pieces(&[PLATE]))],
        want: Want::Text(PLATE_TEXT),
        ..ONE_RANK
    },
];

/// The file of one triangle with some lines changed, and its texts.
const CHANGED_TRIANGLES: &[Run] = &[
    Run {
        files: &[("mesh", File::Triangle(&[]))],
        want: Want::Text(ONE_TRIANGLE_TEXT),
        ..ONE_RANK
    },
    // The tags of a partition are read and dropped.
    Run {
        files: &[("mesh", File::Triangle(&[(12, "1 2 4 0 1 1 1 1 2 3")]))],
        want: Want::Text(ONE_TRIANGLE_TEXT),
        ..ONE_RANK
    },
    Run {
        files: &[(
            "mesh",
            File::Triangle(&[(7, "2 1.00000000001e0 0 -0"), (8, "3 .0 10.e-1 0")]),
        )],
        want: Want::Text(ONE_TRIANGLE_TEXT),
        ..ONE_RANK
    },
    // The triangle is there twice, in two physical groups.
    Run {
        files: &[(
            "mesh",
            File::Triangle(&[(11, "2"), (12, "1 2 2 5 1 1 2 3\n2 2 2 6 1 2 3 1")]),
        )],
        want: Want::Text(MERGED_TEXT),
        ..ONE_RANK
    },
    Run {
        files: &[("mesh", File::Triangle(&[(13, TEMPERATURES)]))],
        want: Want::Text(TEMPERATURES_TEXT),
        ..ONE_RANK
    },
];

#[test]
fn whole_files(rt: HostRuntime) -> Result<(), Fail> {
    check_both(&rt, rt.alloc(), WHOLE_FILES)
}

#[test]
fn changed_triangles(rt: HostRuntime) -> Result<(), Fail> {
    check_both(&rt, rt.alloc(), CHANGED_TRIANGLES)
}
