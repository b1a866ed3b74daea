//! The section Nodes.

ghost use Rattle.std.specs.Prelude.{◌≡◌, ℕ, map, IfOk};
ghost use Rattle.input_defs.specs.Causes.{map_ok};
ghost use Rattle.input_defs.specs.Sections.{has_number, fresh_number, node, nodes};
ghost use Rattle.msh_reader.specs.Going.{Goes};
ghost use Rattle.msh_reader.specs.NumberSets.{numbers_of};
ghost use Rattle.msh_reader.specs.Views.{node_view, node_views, node_numbers};

use crate::number_set::NumberSet;
use crate::numbers::count;
use crate::text::FileNode;
use crate::trouble::Trouble;
use input_defs::{MshFault, What};
use msh_data::Numbers;
use msh_data::msh_body::{fixed, uint};
use plex_base::MAX_NODES;
use scan::Scan;
use std::alloc::Global;

/// The nodes of a file, and their numbers as a set.
#[derive(Drop)]
pub struct NodeList {
    pub nodes: Vec<FileNode>,
    pub numbers: NumberSet,
    ghost knows: { (n : ℕ) → has_number (numbers_of numbers) n ≡ has_number (node_numbers nodes.items) n },
}

/// The number of a node: at least 1, and none of the earlier ones.
fn fresh_number(scan: &mut Scan<'_>, earlier: &NumberSet) -> Result<u32, Trouble>
    ensures { Goes (fresh_number (numbers_of earlier.now)) scan.old result scan.new }
{
    let (number, line) = uint(scan)?;
    if number == 0 {
        return Err(Trouble::Fault(MshFault::OutOfRange { line }));
    }
    if earlier.knows(number) {
        return Err(Trouble::Fault(MshFault::RepeatedNodeNumber { line, number }));
    }
    Ok(number)
}

/// A node: its number and three coordinates.
fn node(scan: &mut Scan<'_>, earlier: &NumberSet) -> Result<FileNode, Trouble>
    ensures { Goes (node (numbers_of earlier.now)) scan.old (map_ok node_view result) scan.new }
{
    let number = fresh_number(scan, earlier)?;
    let (x, _) = fixed(scan)?;
    let (y, _) = fixed(scan)?;
    let (z, _) = fixed(scan)?;
    let at = [x, y, z];
    Ok(FileNode { number, at })
}

/// Reads the body of Nodes.
pub fn nodes(alloc: Global, scan: &mut Scan<'_>) -> Result<NodeList, Trouble>
    ensures { Goes nodes scan.old (map_ok (λ list. node_views list.nodes.items) result) scan.new }
{
    let count = count(scan, MAX_NODES, What::Nodes)?;
    let mut nodes = Vec::new(alloc);
    let mut numbers = NumberSet::new(alloc);
    for _ in 0..count {
        let node = node(scan, &numbers)?;
        numbers.insert(node.number)?;
        nodes.push(node)?;
    }
    Ok(NodeList { nodes, numbers })
}
