//! Mesh files of the tests, and the texts of their diagrams. The texts were worked out by hand or by another program.

/// One triangle, line by line.
pub(crate) const ONE_TRIANGLE: &[&str] = &[
    "$MeshFormat",
    "2.2 0 8",
    "$EndMeshFormat",
    "$Nodes",
    "3",
    "1 0 0 0",
    "2 1 0 0",
    "3 0 1 0",
    "$EndNodes",
    "$Elements",
    "1",
    "1 2 2 0 1 1 2 3",
    "$EndElements",
];

pub(crate) const ONE_TRIANGLE_TEXT: &str = "mesh dim 2 cells 1 vertices 3 unused 0 loose 0 merged 0
ranks 1
step 0 part
rank 0 cells 1 held 7 owned 7 base 0
total 7 cells 1 vertices 3 faces 0 edges 3
P 0 c0 4:0 5:0 6:0
P 1 v0 @ 0 0 0
P 2 v1 @ 1 0 0
P 3 v2 @ 0 1 0
P 4 e8 1:0 2:0
P 5 e9 2:0 3:0
P 6 e10 3:0 1:0
end
";

pub(crate) const TWO_TRIANGLES: &str = "$MeshFormat
2.2 0 8
$EndMeshFormat
$Nodes
4
1 0 0 0
2 1 0 0
3 0 1 0
4 1 1 0
$EndNodes
$Elements
2
1 2 2 0 1 1 2 3
2 2 2 0 1 2 4 3
$EndElements
";

pub(crate) const TWO_TRIANGLES_TEXT: &str = "mesh dim 2 cells 2 vertices 4 unused 0 loose 0 merged 0
ranks 1
step 0 part
rank 0 cells 2 held 11 owned 11 base 0
total 11 cells 2 vertices 4 faces 0 edges 5
P 0 c0 6:0 7:0 8:0
P 1 c1 9:0 10:0 7:-1
P 2 v0 @ 0 0 0
P 3 v1 @ 1 0 0
P 4 v2 @ 0 1 0
P 5 v3 @ 1 1 0
P 6 e8 2:0 3:0
P 7 e9 3:0 4:0
P 8 e10 4:0 2:0
P 9 e72 3:0 5:0
P 10 e73 5:0 4:0
end
";

/// Of a triangle that is there twice.
pub(crate) const MERGED_TEXT: &str = "mesh dim 2 cells 1 vertices 3 unused 0 loose 0 merged 1
ranks 1
step 0 part
rank 0 cells 1 held 7 owned 7 base 0
total 7 cells 1 vertices 3 faces 0 edges 3
P 0 c0 4:0 5:0 6:0 cell=5 cell=6
P 1 v0 @ 0 0 0
P 2 v1 @ 1 0 0
P 3 v2 @ 0 1 0
P 4 e8 1:0 2:0
P 5 e9 2:0 3:0
P 6 e10 3:0 1:0
end
";

/// Temperatures at two nodes, behind the last line.
pub(crate) const TEMPERATURES: &str =
    "$EndElements\n$NodeData\n1\n\"temp\"\n1\n0.0\n3\n0\n1\n2\n1 20.5\n3 -4\n$EndNodeData";

pub(crate) const TEMPERATURES_TEXT: &str = "mesh dim 2 cells 1 vertices 3 unused 0 loose 0 merged 0
field 0 node 1 \"temp\"
ranks 1
step 0 part
rank 0 cells 1 held 7 owned 7 base 0
total 7 cells 1 vertices 3 faces 0 edges 3
P 0 c0 4:0 5:0 6:0
P 1 v0 @ 0 0 0 d0=20.5
P 2 v1 @ 1 0 0
P 3 v2 @ 0 1 0 d0=-4
P 4 e8 1:0 2:0
P 5 e9 2:0 3:0
P 6 e10 3:0 1:0
end
";

/// A square with a round hole, with names and labels, an unused node, and lines that end with CR LF.
pub(crate) const PLATE: &str = "$MeshFormat\r
2.2 0 8\r
$EndMeshFormat\r
$PhysicalNames\r
3\r
1 1 \"outer\"\r
1 2 \"hole\"\r
2 3 \"plate\"\r
$EndPhysicalNames\r
$Nodes\r
9\r
1 3 3 0\r
2 -3 3 0\r
3 -3 -3 0\r
4 3 -3 0\r
5 0 0 0\r
6 1 0 0\r
7 6.123233995736766e-17 1 0\r
8 -1 1.224646799147353e-16 0\r
9 -1.83697019872103e-16 -1 0\r
$EndNodes\r
$Elements\r
16\r
1 1 2 1 1 1 2\r
2 1 2 1 2 2 3\r
3 1 2 1 3 3 4\r
4 1 2 1 4 4 1\r
5 1 2 2 5 6 7\r
6 1 2 2 6 7 8\r
7 1 2 2 7 8 9\r
8 1 2 2 8 9 6\r
9 2 2 3 9 1 7 6\r
10 2 2 3 9 2 8 7\r
11 2 2 3 9 3 9 8\r
12 2 2 3 9 4 6 9\r
13 2 2 3 9 1 2 7\r
14 2 2 3 9 2 3 8\r
15 2 2 3 9 3 4 9\r
16 2 2 3 9 4 1 6\r
$EndElements\r
";

pub(crate) const PLATE_TEXT: &str = "mesh dim 2 cells 8 vertices 8 unused 1 loose 0 merged 0
name 1 1 \"outer\"
name 1 2 \"hole\"
name 2 3 \"plate\"
ranks 1
step 0 part
rank 0 cells 8 held 32 owned 32 base 0
total 32 cells 8 vertices 8 faces 0 edges 16
P 0 c0 16:0 17:0 18:0 cell=3
P 1 c1 19:0 20:0 21:0 cell=3
P 2 c2 22:0 23:0 24:0 cell=3
P 3 c3 25:0 26:0 27:0 cell=3
P 4 c4 28:0 21:-1 16:-1 cell=3
P 5 c5 29:0 24:-1 19:-1 cell=3
P 6 c6 30:0 27:-1 22:-1 cell=3
P 7 c7 31:0 18:-1 25:-1 cell=3
P 8 v0 @ 3 3 0
P 9 v1 @ -3 3 0
P 10 v2 @ -3 -3 0
P 11 v3 @ 3 -3 0
P 12 v4 @ 1 0 0
P 13 v5 @ 0 1 0
P 14 v6 @ -1 0 0
P 15 v7 @ 0 -1 0
P 16 e8 8:0 13:0
P 17 e9 13:0 12:0 face=2
P 18 e10 12:0 8:0
P 19 e72 9:0 14:0
P 20 e73 14:0 13:0 face=2
P 21 e74 13:0 9:0
P 22 e136 10:0 15:0
P 23 e137 15:0 14:0 face=2
P 24 e138 14:0 10:0
P 25 e200 11:0 12:0
P 26 e201 12:0 15:0 face=2
P 27 e202 15:0 11:0
P 28 e264 8:0 9:0 face=1
P 29 e328 9:0 10:0 face=1
P 30 e392 10:0 11:0 face=1
P 31 e456 11:0 8:0 face=1
end
";

/// Two tetrahedra on the vertices 0 to 4, up to the second one's nodes.
pub(crate) const TETRAHEDRA: &str = "$MeshFormat
2.2 0 8
$EndMeshFormat
$Nodes
5
1 0 0 0
2 1 0 0
3 0 1 0
4 0 0 1
5 1 1 1
$EndNodes
$Elements
2
1 4 2 0 1 1 2 3 4
2 4 2 0 1 ";

/// Two hexahedra, one on top of the other, up to the second one's nodes.
pub(crate) const HEXAHEDRA: &str = "$MeshFormat
2.2 0 8
$EndMeshFormat
$Nodes
12
1 0 0 0
2 1 0 0
3 1 1 0
4 0 1 0
5 0 0 1
6 1 0 1
7 1 1 1
8 0 1 1
9 0 0 2
10 1 0 2
11 1 1 2
12 0 1 2
$EndNodes
$Elements
2
1 5 2 0 1 1 2 3 4 5 6 7 8
2 5 2 0 1 ";

pub(crate) const LAST_LINE: &str = "\n$EndElements\n";

/// Two triangles with a field, two parts, and all that is shown of one rank.
pub(crate) const WINDOWS_PLAN: &str = "ranks 1
part block
show windows
";

/// Of one triangle.
pub(crate) const WINDOWS_TEXT: &str = "mesh dim 2 cells 1 vertices 3 unused 0 loose 0 merged 0
ranks 1
step 0 part
rank 0 cells 1 held 7 owned 7 base 0
total 7 cells 1 vertices 3 faces 0 edges 3
W number 0 0 7 0:7:0
end
";

pub(crate) const CLOSURES_PLAN: &str = "ranks 1
part block
show points
show closure
";

/// Of two triangles.
pub(crate) const CLOSURES_TEXT: &str = "mesh dim 2 cells 2 vertices 4 unused 0 loose 0 merged 0
ranks 1
step 0 part
rank 0 cells 2 held 11 owned 11 base 0
total 11 cells 2 vertices 4 faces 0 edges 5
P 0 c0 6:0 7:0 8:0
P 1 c1 9:0 10:0 7:-1
P 2 v0 @ 0 0 0
P 3 v1 @ 1 0 0
P 4 v2 @ 0 1 0
P 5 v3 @ 1 1 0
P 6 e8 2:0 3:0
P 7 e9 3:0 4:0
P 8 e10 4:0 2:0
P 9 e72 3:0 5:0
P 10 e73 5:0 4:0
C 0 0:0 6:0 7:0 8:0 2:0 3:0 4:0
C 1 1:0 9:0 10:0 7:-1 3:0 5:0 4:0
end
";

pub(crate) const SHOWN_PLAN: &str = "ranks 1
dofs u 1 0 2 0
part block
part stripe
show points
show local
show closure
show trace
show windows
";

pub(crate) const SHOWN_TEXT: &str = "mesh dim 2 cells 2 vertices 4 unused 0 loose 0 merged 0
field 0 dofs \"u\" 1 0 2 0
ranks 1
step 0 part
rank 0 cells 2 held 11 owned 11 base 0
total 11 cells 2 vertices 4 faces 0 edges 5
P 0 c0 6:0 7:0 8:0 d0=1,2
P 1 c1 9:0 10:0 7:-1 d0=2,4
P 2 v0 @ 0 0 0 d0=1
P 3 v1 @ 1 0 0 d0=3
P 4 v2 @ 0 1 0 d0=3
P 5 v3 @ 1 1 0 d0=2
P 6 e8 2:0 3:0
P 7 e9 3:0 4:0
P 8 e10 4:0 2:0
P 9 e72 3:0 5:0
P 10 e73 5:0 4:0
L 0 0 c0 0 0 6:0 7:0 8:0 d0=1,2
L 0 1 c1 0 1 9:0 10:0 7:-1 d0=2,4
L 0 2 v0 0 2 @ 0 0 0 d0=1
L 0 3 v1 0 3 @ 1 0 0 d0=3
L 0 4 v2 0 4 @ 0 1 0 d0=3
L 0 5 v3 0 5 @ 1 1 0 d0=2
L 0 6 e8 0 6 2:0 3:0
L 0 7 e9 0 7 3:0 4:0
L 0 8 e10 0 8 4:0 2:0
L 0 9 e72 0 9 3:0 5:0
L 0 10 e73 0 10 5:0 4:0
C 0 0:0 6:0 7:0 8:0 2:0 3:0 4:0
C 1 1:0 9:0 10:0 7:-1 3:0 5:0 4:0
T 0 0 0
T 1 0 1
T 2 0 2
T 3 0 3
T 4 0 4
T 5 0 5
T 6 0 6
T 7 0 7
T 8 0 8
T 9 0 9
T 10 0 10
W number 0 0 11 0:11:0
step 1 part
rank 0 cells 2 held 11 owned 11 base 0
total 11 cells 2 vertices 4 faces 0 edges 5
P 0 c0 6:0 7:0 8:0 d0=1,2
P 1 c1 9:0 10:0 7:-1 d0=2,4
P 2 v0 @ 0 0 0 d0=1
P 3 v1 @ 1 0 0 d0=3
P 4 v2 @ 0 1 0 d0=3
P 5 v3 @ 1 1 0 d0=2
P 6 e8 2:0 3:0
P 7 e9 3:0 4:0
P 8 e10 4:0 2:0
P 9 e72 3:0 5:0
P 10 e73 5:0 4:0
L 0 0 c0 0 0 6:0 7:0 8:0 d0=1,2
L 0 1 c1 0 1 9:0 10:0 7:-1 d0=2,4
L 0 2 v0 0 2 @ 0 0 0 d0=1
L 0 3 v1 0 3 @ 1 0 0 d0=3
L 0 4 v2 0 4 @ 0 1 0 d0=3
L 0 5 v3 0 5 @ 1 1 0 d0=2
L 0 6 e8 0 6 2:0 3:0
L 0 7 e9 0 7 3:0 4:0
L 0 8 e10 0 8 4:0 2:0
L 0 9 e72 0 9 3:0 5:0
L 0 10 e73 0 10 5:0 4:0
C 0 0:0 6:0 7:0 8:0 2:0 3:0 4:0
C 1 1:0 9:0 10:0 7:-1 3:0 5:0 4:0
T 0 0 0
T 1 0 1
T 2 0 2
T 3 0 3
T 4 0 4
T 5 0 5
T 6 0 6
T 7 0 7
T 8 0 8
T 9 0 9
T 10 0 10
W number 0 0 11 0:11:0
end
";
