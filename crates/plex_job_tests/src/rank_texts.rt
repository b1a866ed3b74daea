//! Texts of meshes that are spread over ranks, by another program.

/// Two triangles on two ranks: what each holds, and the rounds.
pub(crate) const LOCAL_OF_TWO: &str = "mesh dim 2 cells 2 vertices 4 unused 0 loose 0 merged 0
ranks 2
step 0 part
rank 0 cells 1 held 7 owned 7 base 0
rank 1 cells 1 held 7 owned 4 base 7
ghost 1 0 3
total 11 cells 2 vertices 4 faces 0 edges 5
L 0 0 c0 0 0 4:0 5:0 6:0
L 0 1 v0 0 1 @ 0 0 0
L 0 2 v1 0 2 @ 1 0 0
L 0 3 v2 0 3 @ 0 1 0
L 0 4 e8 0 4 1:0 2:0
L 0 5 e9 0 5 2:0 3:0
L 0 6 e10 0 6 3:0 1:0
L 1 0 c1 1 0 5:0 6:0 4:-1
L 1 1 v1 0 2 @ 1 0 0
L 1 2 v2 0 3 @ 0 1 0
L 1 3 v3 1 3 @ 1 1 0
L 1 4 e9 0 5 1:0 2:0
L 1 5 e72 1 5 1:0 3:0
L 1 6 e73 1 6 3:0 2:0
W home 0 9 9 1:74:9
W number 0 0 11 0:7:0 1:4:7
end
";

/// Two triangles on three ranks, of which the second has none.
pub(crate) const WINDOWS_OF_THREE: &str = "mesh dim 2 cells 2 vertices 4 unused 0 loose 0 merged 0
ranks 3
step 0 part
rank 0 cells 1 held 7 owned 7 base 0
rank 1 cells 0 held 0 owned 0 base 7
rank 2 cells 1 held 7 owned 4 base 7
ghost 2 0 3
total 11 cells 2 vertices 4 faces 0 edges 5
W home 0 9 9 2:74:9
W number 0 0 11 0:7:0 1:0:7 2:4:7
end
";

/// The owner's own cell gives the shared edge 74, and its key comes from the other rank.
pub(crate) const KEY_FROM_THE_OTHER_RANK: &str =
    "mesh dim 2 cells 2 vertices 4 unused 0 loose 0 merged 0
ranks 2
step 0 part
rank 0 cells 1 held 7 owned 7 base 0
rank 1 cells 1 held 7 owned 4 base 7
ghost 1 0 3
total 11 cells 2 vertices 4 faces 0 edges 5
P 0 c1 5:0 6:0 4:-1
P 1 v1 @ 1 0 0
P 2 v2 @ 0 1 0
P 3 v3 @ 1 1 0
P 4 e9 1:0 2:0
P 5 e72 1:0 3:0
P 6 e73 3:0 2:0
P 7 c0 9:0 4:0 10:0
P 8 v0 @ 0 0 0
P 9 e8 8:0 1:0
P 10 e10 2:0 8:0
W home 0 74 9 1:9:74
W number 0 0 11 0:7:0 1:4:7
end
";

/// Ranks draw their numbers by turns.
pub(crate) const POINTS_OF_THREE: &str = "mesh dim 2 cells 2 vertices 4 unused 0 loose 0 merged 0
ranks 3
step 0 part
rank 0 cells 1 held 7 owned 7 base 0
rank 1 cells 0 held 0 owned 0 base 7
rank 2 cells 1 held 7 owned 4 base 7
ghost 2 0 3
total 11 cells 2 vertices 4 faces 0 edges 5
P 0 c0 4:0 5:0 6:0
P 1 v0 @ 0 0 0
P 2 v1 @ 1 0 0
P 3 v2 @ 0 1 0
P 4 e8 1:0 2:0
P 5 e9 2:0 3:0
P 6 e10 3:0 1:0
P 7 c1 9:0 10:0 5:-1
P 8 v3 @ 1 1 0
P 9 e72 2:0 8:0
P 10 e73 8:0 3:0
W home 0 9 9 2:74:9
W number 0 0 11 0:7:0 1:0:7 2:4:7
end
";

/// The third rank draws first, the second last.
pub(crate) const POINTS_OF_THREE_BY_2_0_1: &str =
    "mesh dim 2 cells 2 vertices 4 unused 0 loose 0 merged 0
ranks 3
step 0 part
rank 0 cells 1 held 7 owned 7 base 4
rank 1 cells 0 held 0 owned 0 base 11
rank 2 cells 1 held 7 owned 4 base 0
ghost 2 0 3
total 11 cells 2 vertices 4 faces 0 edges 5
P 4 c0 8:0 9:0 10:0
P 5 v0 @ 0 0 0
P 6 v1 @ 1 0 0
P 7 v2 @ 0 1 0
P 8 e8 5:0 6:0
P 9 e9 6:0 7:0
P 10 e10 7:0 5:0
P 0 c1 2:0 3:0 9:-1
P 1 v3 @ 1 1 0
P 2 e72 6:0 1:0
P 3 e73 1:0 7:0
W home 0 9 9 2:74:9
W number 0 0 11 2:4:0 0:7:4 1:0:11
end
";

/// The second rank draws first, the first last.
pub(crate) const POINTS_OF_THREE_BY_1_2_0: &str =
    "mesh dim 2 cells 2 vertices 4 unused 0 loose 0 merged 0
ranks 3
step 0 part
rank 0 cells 1 held 7 owned 7 base 4
rank 1 cells 0 held 0 owned 0 base 0
rank 2 cells 1 held 7 owned 4 base 0
ghost 2 0 3
total 11 cells 2 vertices 4 faces 0 edges 5
P 4 c0 8:0 9:0 10:0
P 5 v0 @ 0 0 0
P 6 v1 @ 1 0 0
P 7 v2 @ 0 1 0
P 8 e8 5:0 6:0
P 9 e9 6:0 7:0
P 10 e10 7:0 5:0
P 0 c1 2:0 3:0 9:-1
P 1 v3 @ 1 1 0
P 2 e72 6:0 1:0
P 3 e73 1:0 7:0
W home 0 9 9 2:74:9
W number 0 0 11 1:0:0 2:4:0 0:7:4
end
";

/// Four triangles round a vertex, each on a rank of its own.
pub(crate) const FOUR_TRIANGLES_ON_FOUR: &str =
    "mesh dim 2 cells 4 vertices 5 unused 0 loose 0 merged 0
ranks 4
step 0 part
rank 0 cells 1 held 7 owned 7 base 0
rank 1 cells 1 held 7 owned 4 base 7
rank 2 cells 1 held 7 owned 4 base 11
rank 3 cells 1 held 7 owned 2 base 15
ghost 1 0 3
ghost 2 0 1
ghost 2 1 2
ghost 3 0 3
ghost 3 2 2
total 17 cells 4 vertices 5 faces 0 edges 8
end
";

/// One triangle on the last of 64 ranks.
pub(crate) const LAST_OF_SIXTY_FOUR: &str = "mesh dim 2 cells 1 vertices 3 unused 0 loose 0 merged 0
ranks 64
step 0 part
rank 0 cells 0 held 0 owned 0 base 0
rank 1 cells 0 held 0 owned 0 base 0
rank 2 cells 0 held 0 owned 0 base 0
rank 3 cells 0 held 0 owned 0 base 0
rank 4 cells 0 held 0 owned 0 base 0
rank 5 cells 0 held 0 owned 0 base 0
rank 6 cells 0 held 0 owned 0 base 0
rank 7 cells 0 held 0 owned 0 base 0
rank 8 cells 0 held 0 owned 0 base 0
rank 9 cells 0 held 0 owned 0 base 0
rank 10 cells 0 held 0 owned 0 base 0
rank 11 cells 0 held 0 owned 0 base 0
rank 12 cells 0 held 0 owned 0 base 0
rank 13 cells 0 held 0 owned 0 base 0
rank 14 cells 0 held 0 owned 0 base 0
rank 15 cells 0 held 0 owned 0 base 0
rank 16 cells 0 held 0 owned 0 base 0
rank 17 cells 0 held 0 owned 0 base 0
rank 18 cells 0 held 0 owned 0 base 0
rank 19 cells 0 held 0 owned 0 base 0
rank 20 cells 0 held 0 owned 0 base 0
rank 21 cells 0 held 0 owned 0 base 0
rank 22 cells 0 held 0 owned 0 base 0
rank 23 cells 0 held 0 owned 0 base 0
rank 24 cells 0 held 0 owned 0 base 0
rank 25 cells 0 held 0 owned 0 base 0
rank 26 cells 0 held 0 owned 0 base 0
rank 27 cells 0 held 0 owned 0 base 0
rank 28 cells 0 held 0 owned 0 base 0
rank 29 cells 0 held 0 owned 0 base 0
rank 30 cells 0 held 0 owned 0 base 0
rank 31 cells 0 held 0 owned 0 base 0
rank 32 cells 0 held 0 owned 0 base 0
rank 33 cells 0 held 0 owned 0 base 0
rank 34 cells 0 held 0 owned 0 base 0
rank 35 cells 0 held 0 owned 0 base 0
rank 36 cells 0 held 0 owned 0 base 0
rank 37 cells 0 held 0 owned 0 base 0
rank 38 cells 0 held 0 owned 0 base 0
rank 39 cells 0 held 0 owned 0 base 0
rank 40 cells 0 held 0 owned 0 base 0
rank 41 cells 0 held 0 owned 0 base 0
rank 42 cells 0 held 0 owned 0 base 0
rank 43 cells 0 held 0 owned 0 base 0
rank 44 cells 0 held 0 owned 0 base 0
rank 45 cells 0 held 0 owned 0 base 0
rank 46 cells 0 held 0 owned 0 base 0
rank 47 cells 0 held 0 owned 0 base 0
rank 48 cells 0 held 0 owned 0 base 0
rank 49 cells 0 held 0 owned 0 base 0
rank 50 cells 0 held 0 owned 0 base 0
rank 51 cells 0 held 0 owned 0 base 0
rank 52 cells 0 held 0 owned 0 base 0
rank 53 cells 0 held 0 owned 0 base 0
rank 54 cells 0 held 0 owned 0 base 0
rank 55 cells 0 held 0 owned 0 base 0
rank 56 cells 0 held 0 owned 0 base 0
rank 57 cells 0 held 0 owned 0 base 0
rank 58 cells 0 held 0 owned 0 base 0
rank 59 cells 0 held 0 owned 0 base 0
rank 60 cells 0 held 0 owned 0 base 0
rank 61 cells 0 held 0 owned 0 base 0
rank 62 cells 0 held 0 owned 0 base 0
rank 63 cells 1 held 7 owned 7 base 0
total 7 cells 1 vertices 3 faces 0 edges 3
end
";
