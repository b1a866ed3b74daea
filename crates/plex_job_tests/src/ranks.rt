//! Meshes that are spread over ranks by the first part of a plan.

use crate::files::{HEXAHEDRA, LAST_LINE, TWO_TRIANGLES};
use crate::rank_texts::{
    FOUR_TRIANGLES_ON_FOUR, KEY_FROM_THE_OTHER_RANK, LAST_OF_SIXTY_FOUR, LOCAL_OF_TWO,
    POINTS_OF_THREE, POINTS_OF_THREE_BY_1_2_0, POINTS_OF_THREE_BY_2_0_1, WINDOWS_OF_THREE,
};
use crate::runs::{File, PLANNED, Run, Want, check, check_by, check_replays, script};
use plex_job::Status;
use sf_fabric::{Ask, Op, Round};
use std::process::Abort;
use std::test::Fail;

/// Four triangles round a vertex.
const FOUR_TRIANGLES: &str = "$MeshFormat
2.2 0 8
$EndMeshFormat
$Nodes
5
1 0 0 0
2 1 0 0
3 0 1 0
4 -1 0 0
5 0 -1 0
$EndNodes
$Elements
4
1 2 2 0 1 1 2 3
2 2 2 0 1 1 3 4
3 2 2 0 1 1 4 5
4 2 2 0 1 1 5 2
$EndElements
";

/// Ranks take their turns one after another.
const TEXTS_BY_TURNS: &[Run] = &[
    Run {
        files: &[
            ("mesh", File::Pieces(&[TWO_TRIANGLES])),
            (
                "p",
                File::Pieces(&["ranks 2\npart 0 1\nshow local\nshow windows\n"]),
            ),
        ],
        want: Want::Text(LOCAL_OF_TWO),
        ..PLANNED
    },
    Run {
        files: &[
            ("mesh", File::Pieces(&[TWO_TRIANGLES])),
            ("p", File::Pieces(&["ranks 3\npart 0 2\nshow windows\n"])),
        ],
        want: Want::Text(WINDOWS_OF_THREE),
        ..PLANNED
    },
    Run {
        files: &[
            ("mesh", File::Pieces(&[TWO_TRIANGLES])),
            (
                "p",
                File::Pieces(&["ranks 2\npart 1 0\nshow points\nshow windows\n"]),
            ),
        ],
        want: Want::Text(KEY_FROM_THE_OTHER_RANK),
        ..PLANNED
    },
    Run {
        files: &[
            ("mesh", File::Pieces(&[TWO_TRIANGLES])),
            (
                "p",
                File::Pieces(&["ranks 3\npart 0 2\nshow points\nshow windows\n"]),
            ),
        ],
        want: Want::Text(POINTS_OF_THREE),
        ..PLANNED
    },
    Run {
        files: &[
            ("mesh", File::Pieces(&[FOUR_TRIANGLES])),
            ("p", File::Pieces(&["ranks 4\npart 0 1 2 3\n"])),
        ],
        want: Want::Text(FOUR_TRIANGLES_ON_FOUR),
        ..PLANNED
    },
    // One cell on the last of 64 ranks.
    Run {
        files: &[
            ("mesh", File::Triangle(&[])),
            ("p", File::Pieces(&["ranks 64\npart 63\n"])),
        ],
        want: Want::Text(LAST_OF_SIXTY_FOUR),
        ..PLANNED
    },
];

/// Two triangles on the first and the third of three ranks.
const SPREAD_OVER_THREE: &[(&str, File)] = &[
    ("mesh", File::Pieces(&[TWO_TRIANGLES])),
    (
        "p",
        File::Pieces(&["ranks 3\npart 0 2\nshow points\nshow windows\n"]),
    ),
];

/// Every cone by tags is one and the same, whatever numbers are drawn.
const TEXTS_BY_PICKS: &[Run] = &[
    Run {
        words: &["-", "--plan", "p", "mesh"],
        files: SPREAD_OVER_THREE,
        want: Want::Text(POINTS_OF_THREE),
        ..PLANNED
    },
    Run {
        words: &["2,0,1", "--plan", "p", "mesh"],
        files: SPREAD_OVER_THREE,
        want: Want::Text(POINTS_OF_THREE_BY_2_0_1),
        ..PLANNED
    },
    Run {
        words: &["1,2,0", "--plan", "p", "mesh"],
        files: SPREAD_OVER_THREE,
        want: Want::Text(POINTS_OF_THREE_BY_1_2_0),
        ..PLANNED
    },
];

/// The second of two hexahedra, on another rank, sees the shared face in another cyclic order.
const CROSSED: &Run = &Run {
    files: &[
        (
            "mesh",
            File::Pieces(&[HEXAHEDRA, "5 7 6 8 9 10 11 12", LAST_LINE]),
        ),
        ("p", File::Pieces(&["ranks 2\npart 0 1\n"])),
    ],
    status: Status::Mesh,
    want: Want::Text("refused: twist cell 1 face 0\n"),
    rounds: 1,
    ..PLANNED
};

/// What the second rank asks: the least of each key.
const ASKS_OF_CROSSED: &[Ask] = &[
    Ask {
        word: 0,
        op: Op::Min,
        value: 65,
    },
    Ask {
        word: 1,
        op: Op::Min,
        value: 75,
    },
    Ask {
        word: 2,
        op: Op::Min,
        value: 73,
    },
];

#[test]
fn texts_by_turns(rt: HostRuntime) -> Result<(), Fail> {
    check(&rt, rt.alloc(), TEXTS_BY_TURNS)
}

#[test]
fn texts_by_picks(rt: HostRuntime) -> Result<(), Fail> {
    check_replays(&rt, rt.alloc(), TEXTS_BY_PICKS)
}

/// The twist is known to all ranks once they have met, and its home round is kept.
#[test]
fn crossed_face_between_two_ranks(rt: HostRuntime) -> Result<(), Fail> {
    let mut fabric = script(rt.alloc());
    check_by(&rt, rt.alloc(), 0, CROSSED, &mut fabric)?;
    check_home(&rt, fabric.kept())
}

/// The only round is the home round of the crossed face.
fn check_home<R: Abort>(rt: &R, kept: &[Round]) -> Result<(), Fail> {
    let [home] = kept else {
        return Err(Fail::from("not one round is kept"));
    };
    if home.ranks() != 2 {
        return Err(Fail::from("the round is not of two ranks"));
    }
    assert_eq!(rt; home.before(), [2, 15, 13].as_slice());
    assert_eq!(rt; home.after(), [2, 15, 13].as_slice());
    assert_eq!(rt; home.asks(0).len(), 0);
    assert_eq!(rt; home.asks(1), ASKS_OF_CROSSED);
    Ok(())
}
