//! The mesh files of the tests.

/// Three triangles (0, 1, 2), (0, 2, 3) and (2, 1, 4), with marks on two of them, on two edges and on two
/// vertices, and data at nodes and elements. Vertex 2 has two rows of data; the last one holds.
pub const THREE_TRIANGLES: &str =
    "$MeshFormat\n2.2 0 8\n$EndMeshFormat\n$Nodes\n5\n1 0 0 0\n2 1 0 0\n3 1 1 0\n4 0 1 0\n5 2 1 0\n$EndNodes\n$Elements\n7\n1 2 2 6 1 1 2 3\n2 2 2 7 1 1 3 4\n3 2 2 0 1 3 2 5\n4 1 2 8 1 2 1\n5 1 2 9 1 3 2\n6 15 2 5 1 4\n7 15 2 4 1 1\n$EndElements\n$NodeData\n1\n\"t\"\n0\n3\n0\n1\n4\n1 1\n3 2\n5 3\n3 4\n$EndNodeData\n$ElementData\n1\n\"e\"\n0\n3\n0\n3\n2\n1 7 8 9\n3 4 5 6\n$EndElementData\n";

/// Two cubes, one on the other, whose common face the upper one lists across its diagonals.
pub const TWO_CUBES: &str =
    "$MeshFormat\n2.2 0 8\n$EndMeshFormat\n$Nodes\n12\n1 0 0 0\n2 1 0 0\n3 1 1 0\n4 0 1 0\n5 0 0 1\n6 1 0 1\n7 1 1 1\n8 0 1 1\n9 0 0 2\n10 1 0 2\n11 1 1 2\n12 0 1 2\n$EndNodes\n$Elements\n2\n1 5 2 0 1 1 2 3 4 5 6 7 8\n2 5 2 0 1 5 7 6 8 9 10 11 12\n$EndElements\n";
