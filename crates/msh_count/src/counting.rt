//! The text of what is counted.

ghost use Rattle.std.specs.Prelude.{◌≡◌, ◌++◌, flat_map, IfOk};
ghost use Rattle.msh_count.specs.Statuses.{rows_line, counts_text, mesh_text};

use crate::trouble::Trouble;
use msh_reader::MshText;
use plex_mesh::Mesh;
use std::alloc::Global;

/// Appends the line `rows N` of each data section.
fn append_rows(alloc: Global, text: &MshText, lines: &mut Vec<u8>) -> Result<(), Trouble>
    ensures { IfOk result (λ _. lines.new.items ≡ lines.old.items ++ flat_map rows_line text.now.fields) }
{
    for i in 0..text.fields() {
        let (_, field) = text.field(i);
        let rows = field.rows();
        let line = format!(in alloc; "rows {rows}\n")?;
        lines.extend_from_slice(line.as_bytes())?;
    }
    Ok(())
}

/// The lines `nodes N`, `elements N`, `names N`, and `rows N` for each data section.
pub fn lines(alloc: Global, text: &MshText) -> Result<Vec<u8>, Trouble>
    ensures { IfOk result (λ lines. lines.items ≡ counts_text text.now) }
{
    let (nodes, elements, names) = (text.nodes(), text.elements(), text.names());
    let head = format!(in alloc; "nodes {nodes}\nelements {elements}\nnames {names}\n")?;
    let mut lines = head.into_bytes();
    append_rows(alloc, text, &mut lines)?;
    Ok(lines)
}

/// Appends the lines `vertices N`, `cells N` and `marks N`.
pub fn append_mesh(alloc: Global, mesh: &Mesh, lines: &mut Vec<u8>) -> Result<(), Trouble>
    ensures { IfOk result (λ _. lines.new.items ≡ lines.old.items ++ mesh_text mesh.now) }
{
    let (vertices, cells, marks) = (mesh.vertices(), mesh.cells(), mesh.marks());
    let text = format!(in alloc; "vertices {vertices}\ncells {cells}\nmarks {marks}\n")?;
    lines.extend_from_slice(text.as_bytes())?;
    Ok(())
}
