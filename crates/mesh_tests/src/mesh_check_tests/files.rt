//! The files of the tests.

use mesh_check::{Mesh, MeshFault, accept};
use msh_reader::read_msh;
use std::alloc::Global;
use std::test::Fail;

/// A file with these nodes and elements: how many, and their lines.
pub fn file(alloc: Global, nodes: &str, elements: &str) -> Result<String, Fail> {
    Ok(format!(in alloc;
        "$MeshFormat\n2.2 0 8\n$EndMeshFormat\n$Nodes\n{nodes}$EndNodes\n$Elements\n{elements}$EndElements\n"
    )?)
}

/// The mesh of a file, or why it has none.
pub fn mesh_of(alloc: Global, text: &str) -> Result<Result<Mesh, MeshFault>, Fail> {
    if text.len() > 2000 {
        return Err(Fail::from("too long"));
    }
    match read_msh(alloc, text.as_bytes()) {
        Ok(content) => Ok(accept(alloc, content)),
        Err(_) => Err(Fail::from("the file is refused")),
    }
}

/// Five nodes, four of them at the corners of a square.
pub const FIVE: &str = "5\n1 0 0 0\n2 1 0 0\n3 1 1 0\n4 0 1 0\n5 9 9 9\n";
