//! The files of the tests.

use msh_reader::{MshFault, MshText, read_msh};
use std::alloc::Global;
use std::test::Fail;

/// One triangle.
pub const ONE_TRIANGLE: &str =
    "$MeshFormat\n2.2 0 8\n$EndMeshFormat\n$Nodes\n3\n1 0 0 0\n2 1 0 0\n3 0 1 0\n$EndNodes\n$Elements\n1\n1 2 2 0 1 1 2 3\n$EndElements\n";

/// Values at two of its nodes.
pub const TEMPERATURES: &str =
    "$NodeData\n1\n\"temp\"\n1\n0.0\n3\n0\n1\n2\n1 20.5\n3 -4\n$EndNodeData\n";

/// A square with a round hole.
pub const SQUARE_WITH_HOLE: &str =
    "$MeshFormat\r\n2.2 0 8\r\n$EndMeshFormat\r\n$PhysicalNames\r\n3\r\n1 1 \"outer\"\r\n1 2 \"hole\"\r\n2 3 \"plate\"\r\n$EndPhysicalNames\r\n$Nodes\r\n9\r\n1 3 3 0\r\n2 -3 3 0\r\n3 -3 -3 0\r\n4 3 -3 0\r\n5 0 0 0\r\n6 1 0 0\r\n7 6.123233995736766e-17 1 0\r\n8 -1 1.224646799147353e-16 0\r\n9 -1.83697019872103e-16 -1 0\r\n$EndNodes\r\n$Elements\r\n16\r\n1 1 2 1 1 1 2\r\n2 1 2 1 2 2 3\r\n3 1 2 1 3 3 4\r\n4 1 2 1 4 4 1\r\n5 1 2 2 5 6 7\r\n6 1 2 2 6 7 8\r\n7 1 2 2 7 8 9\r\n8 1 2 2 8 9 6\r\n9 2 2 3 9 1 7 6\r\n10 2 2 3 9 2 8 7\r\n11 2 2 3 9 3 9 8\r\n12 2 2 3 9 4 6 9\r\n13 2 2 3 9 1 2 7\r\n14 2 2 3 9 2 3 8\r\n15 2 2 3 9 3 4 9\r\n16 2 2 3 9 4 1 6\r\n$EndElements\r\n";

/// What is read of a short file.
pub fn read(alloc: Global, text: &str) -> Result<Result<MshText, MshFault>, Fail> {
    if text.len() > 2000 {
        return Err(Fail::from("too long"));
    }
    Ok(read_msh(alloc, text.as_bytes()))
}

/// A file with a piece of it changed.
pub fn changed(alloc: Global, file: &str, old: &str, new: &str) -> Result<String, Fail> {
    let (front, back) = file.split_once(old).ok_or("no such piece")?;
    Ok(format!(in alloc; "{front}{new}{back}")?)
}

/// The first fault of a file, or none.
pub fn fault_of(alloc: Global, text: &str) -> Result<Option<MshFault>, Fail> {
    Ok(read(alloc, text)?.err())
}
