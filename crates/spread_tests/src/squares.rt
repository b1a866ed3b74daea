//! Files of rows of squares.
ghost use Rattle.std.specs.Prelude.{◌≤◌};

use plex_base::NoMemory;
use std::alloc::Global;

/// A row of so many squares, each beside the next.
pub(crate) fn squares(alloc: Global, count: u32) -> Result<String, NoMemory>
    requires { count ≤ 1000 }
{
    let mut text = String::new(alloc);
    text.push_str("$MeshFormat\n2.2 0 8\n$EndMeshFormat\n$Nodes\n")?;
    push_nodes(alloc, &mut text, count)?;
    text.push_str("$EndNodes\n$Elements\n")?;
    push_squares(alloc, &mut text, count)?;
    text.push_str("$EndElements\n")?;
    Ok(text)
}

/// Appends the count of the nodes and the nodes, from left to right, the lower ones first.
fn push_nodes(alloc: Global, text: &mut String, count: u32) -> Result<(), NoMemory>
    requires { count ≤ 1000 }
{
    text.push_str(format!(in alloc; "{}\n", 2 * count + 2)?.as_str())?;
    for k in 0..2 * count + 2 {
        let (x, y) = (k % (count + 1), k / (count + 1));
        text.push_str(format!(in alloc; "{} {x} {y} 0\n", k + 1)?.as_str())?;
    }
    Ok(())
}

/// Appends the count of the squares and the squares.
fn push_squares(alloc: Global, text: &mut String, count: u32) -> Result<(), NoMemory>
    requires { count ≤ 1000 }
{
    text.push_str(format!(in alloc; "{count}\n")?.as_str())?;
    for k in 1..count + 1 {
        let above = k + count + 1;
        let line = format!(in alloc; "{k} 3 2 0 1 {k} {} {} {above}\n", k + 1, above + 1)?;
        text.push_str(line.as_str())?;
    }
    Ok(())
}
