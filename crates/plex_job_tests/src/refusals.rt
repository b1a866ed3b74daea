//! Mesh files and words that are refused.

use crate::runs::{File, ONE_RANK, REFUSED_WORDS, Run, Want, check_both};
use plex_job::Status;
use std::test::Fail;

/// A mesh file that is refused.
const REFUSED: Run = Run {
    status: Status::Mesh,
    rounds: 0,
    ..ONE_RANK
};

/// The file of one triangle with some lines changed, and why it is refused.
const MESHES: &[Run] = &[
    Run {
        files: &[("mesh", File::Triangle(&[(12, "1 8 2 0 1 1 2 3")]))],
        want: Want::Text("refused: mesh line 12 element type 8\n"),
        ..REFUSED
    },
    Run {
        files: &[("mesh", File::Triangle(&[(12, "1 2 2 0 1 1 2 4")]))],
        want: Want::Text("refused: mesh line 12 unknown node 4\n"),
        ..REFUSED
    },
    Run {
        files: &[("mesh", File::Triangle(&[(12, "1 2 2 0 1 1 2 2")]))],
        want: Want::Text("refused: mesh line 12 repeated node 2\n"),
        ..REFUSED
    },
    Run {
        files: &[("mesh", File::Triangle(&[(13, "")]))],
        want: Want::Text("refused: mesh line 13 unclosed\n"),
        ..REFUSED
    },
    Run {
        files: &[("mesh", File::Triangle(&[(11, "2")]))],
        want: Want::Text("refused: mesh line 13 bad count\n"),
        ..REFUSED
    },
    Run {
        files: &[("mesh", File::Triangle(&[(2, "2.2 1 8")]))],
        want: Want::Text("refused: mesh line 2 binary\n"),
        ..REFUSED
    },
    Run {
        files: &[("mesh", File::Triangle(&[(2, "4.1 0 8")]))],
        want: Want::Text("refused: mesh line 2 version\n"),
        ..REFUSED
    },
    Run {
        files: &[("mesh", File::Triangle(&[(7, "2 900000001 0 0")]))],
        want: Want::Text("refused: mesh line 7 out of range\n"),
        ..REFUSED
    },
    Run {
        files: &[("mesh", File::Triangle(&[(7, "2 x 0 0")]))],
        want: Want::Text("refused: mesh line 7 bad number\n"),
        ..REFUSED
    },
    Run {
        files: &[("mesh", File::Triangle(&[(8, "2 0 1 0")]))],
        want: Want::Text("refused: mesh line 8 repeated node number 2\n"),
        ..REFUSED
    },
    Run {
        files: &[(
            "mesh",
            File::Triangle(&[(10, ""), (11, ""), (12, ""), (13, "")]),
        )],
        want: Want::Text("refused: mesh line 10 missing section Elements\n"),
        ..REFUSED
    },
    Run {
        files: &[(
            "mesh",
            File::Triangle(&[(4, ""), (5, ""), (6, ""), (7, ""), (8, ""), (9, "")]),
        )],
        want: Want::Text("refused: mesh line 4 missing section Nodes\n"),
        ..REFUSED
    },
    Run {
        files: &[("mesh", File::Triangle(&[(12, "1 1 2 0 1 1 2")]))],
        want: Want::Text("refused: mesh no cells 1\n"),
        ..REFUSED
    },
    Run {
        files: &[(
            "mesh",
            File::Triangle(&[
                (5, "4"),
                (8, "3 1 1 0\n4 0 1 0"),
                (11, "2"),
                (12, "7 3 2 0 1 1 2 3 4\n9 3 2 0 1 1 3 2 4"),
            ]),
        )],
        want: Want::Text("refused: mesh cell twist 9 7\n"),
        ..REFUSED
    },
];

/// A shelf with an empty file.
const EMPTY_FILE: &[(&str, File)] = &[("mesh", File::Pieces(&[]))];

/// Words on a shelf whose only file is empty.
const WORDS_AND_FILES: &[Run] = &[
    Run {
        files: EMPTY_FILE,
        want: Want::Text("refused: mesh line 1 not msh\n"),
        ..REFUSED
    },
    Run {
        words: &["T3"],
        files: EMPTY_FILE,
        status: Status::ReadFault,
        want: Want::Text("refused: read T3\n"),
        ..REFUSED
    },
    Run {
        words: &[],
        files: EMPTY_FILE,
        ..REFUSED_WORDS
    },
    Run {
        words: &["mesh", "mesh"],
        files: EMPTY_FILE,
        ..REFUSED_WORDS
    },
    Run {
        words: &[""],
        files: EMPTY_FILE,
        ..REFUSED_WORDS
    },
    Run {
        words: &["--help"],
        files: EMPTY_FILE,
        ..REFUSED_WORDS
    },
];

#[test]
fn meshes(rt: HostRuntime) -> Result<(), Fail> {
    check_both(&rt, rt.alloc(), MESHES)
}

#[test]
fn words_and_files(rt: HostRuntime) -> Result<(), Fail> {
    check_both(&rt, rt.alloc(), WORDS_AND_FILES)
}
