//! Meshes that are made and not read.

use crate::runs::{File, MESH_OF_TWO, ONE_RANK, REFUSED_WORDS, Run, Want, check_both};
use plex_job::Status;
use std::test::Fail;

/// Words for made meshes, and some that are refused.
const MADE_MESHES_AND_WORDS: &[Run] = &[
    Run {
        words: &["--make", "tri:1", "--summary"],
        files: MESH_OF_TWO,
        want: Want::Text(
            "mesh dim 2 cells 2 vertices 4 unused 0 loose 0 merged 0\nranks 1\nstep 0 part\nsum held 11 owned 11 entries 16 back 1 at 4 data 0 dofs 0\nend\n",
        ),
        ..ONE_RANK
    },
    Run {
        words: &["--make=hex:20", "--summary"],
        files: MESH_OF_TWO,
        want: Want::Text(
            "mesh dim 3 cells 8000 vertices 9261 unused 0 loose 0 merged 0\nranks 1\nstep 0 part\nsum held 68921 owned 68921 entries 201720 back 72440 at 277830 data 0 dofs 0\nend\n",
        ),
        ..ONE_RANK
    },
    Run {
        words: &["--make", "hex:63"],
        files: MESH_OF_TWO,
        ..REFUSED_WORDS
    },
    Run {
        words: &["--plan", "p", "--plan", "q", "mesh"],
        files: MESH_OF_TWO,
        ..REFUSED_WORDS
    },
    Run {
        words: &["--make", "tri:1", "mesh"],
        files: MESH_OF_TWO,
        ..REFUSED_WORDS
    },
    Run {
        words: &["--make", "tri:01"],
        files: MESH_OF_TWO,
        ..REFUSED_WORDS
    },
    Run {
        words: &["--plan", "p", "mesh"],
        files: MESH_OF_TWO,
        status: Status::ReadFault,
        want: Want::Text("refused: read p\n"),
        rounds: 0,
        ..ONE_RANK
    },
];

/// Two cells along each side. Sums are those of `bench/plain.cpp` on the same grids as files.
const MADE_GRIDS_OF_EACH_KIND: &[Run] = &[
    Run {
        words: &["--make", "tri:2", "--summary"],
        want: Want::Text(
            "mesh dim 2 cells 8 vertices 9 unused 0 loose 0 merged 0\nranks 1\nstep 0 part\nsum held 33 owned 33 entries 56 back 8 at 18 data 0 dofs 0\nend\n",
        ),
        ..ONE_RANK
    },
    Run {
        words: &["--make", "quad:2", "--summary"],
        want: Want::Text(
            "mesh dim 2 cells 4 vertices 9 unused 0 loose 0 merged 0\nranks 1\nstep 0 part\nsum held 25 owned 25 entries 40 back 4 at 18 data 0 dofs 0\nend\n",
        ),
        ..ONE_RANK
    },
    Run {
        words: &["--make", "tet:2", "--summary"],
        want: Want::Text(
            "mesh dim 3 cells 48 vertices 27 unused 0 loose 0 merged 0\nranks 1\nstep 0 part\nsum held 293 owned 293 entries 748 back 204 at 81 data 0 dofs 0\nend\n",
        ),
        ..ONE_RANK
    },
    Run {
        words: &["--make", "hex:2", "--summary"],
        want: Want::Text(
            "mesh dim 3 cells 8 vertices 27 unused 0 loose 0 merged 0\nranks 1\nstep 0 part\nsum held 125 owned 125 entries 300 back 80 at 81 data 0 dofs 0\nend\n",
        ),
        ..ONE_RANK
    },
];

/// The sums are those of the whole mesh.
const SUMS_OF_A_GRID: &[Run] = &[Run {
    words: &["--make", "hex:20", "--summary", "--plan", "p"],
    files: &[(
        "p",
        File::Pieces(&["ranks 8\ndofs u 0 0 0 1\npart block\n"]),
    )],
    want: Want::Text(
        "mesh dim 3 cells 8000 vertices 9261 unused 0 loose 0 merged 0\nfield 0 dofs \"u\" 0 0 0 1\nranks 8\nstep 0 part\nsum held 81016 owned 68921 entries 201720 back 72440 at 277830 data 0 dofs 32004000\nend\n",
    ),
    ..ONE_RANK
}];

#[test]
fn made_meshes_and_words(rt: HostRuntime) -> Result<(), Fail> {
    check_both(&rt, rt.alloc(), MADE_MESHES_AND_WORDS)
}

#[test]
fn made_grids_of_each_kind(rt: HostRuntime) -> Result<(), Fail> {
    check_both(&rt, rt.alloc(), MADE_GRIDS_OF_EACH_KIND)
}

#[test]
fn sums_of_a_grid(rt: HostRuntime) -> Result<(), Fail> {
    check_both(&rt, rt.alloc(), SUMS_OF_A_GRID)
}
