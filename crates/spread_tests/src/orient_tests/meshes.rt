//! The two triangles of the tests, their plan and their home round.
use crate::orient_tests::homes::Home;

/// Two triangles (0, 1, 2) and (1, 3, 2), with marks on both, on the edges (0, 1) and (1, 2) and on vertex 3,
/// and data at three nodes and at the second triangle.
pub(crate) const TWO_TRIANGLES: &str =
    "$MeshFormat\n2.2 0 8\n$EndMeshFormat\n$Nodes\n4\n1 0 0 0\n2 1 0 0\n3 0 1 0\n4 1 1 0\n$EndNodes\n$Elements\n5\n1 2 2 6 1 1 2 3\n2 2 2 7 1 2 4 3\n3 1 2 8 1 1 2\n4 1 2 9 1 3 2\n5 15 2 5 1 4\n$EndElements\n$NodeData\n1\n\"t\"\n0\n3\n0\n1\n3\n1 1\n3 2\n4 -3\n$EndNodeData\n$ElementData\n1\n\"e\"\n0\n3\n0\n1\n1\n2 7\n$EndElementData\n";

/// The second triangle on rank 0, the first one on rank 1; and a field of one word at each edge and cell.
pub(crate) const SECOND_FIRST: &str = "ranks 2\npart 1 0\ndofs u 0 1 1 0\n";

/// The edge (1, 2), which rank 0 owns and sees under the key 74.
pub(crate) const SHARED_EDGE: Home = Home {
    before: &[74],
    asked: &[9],
    after: &[9],
};
