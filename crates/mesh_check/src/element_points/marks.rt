//! Which nodes elements below the mesh's dimension may have.

ghost use Rattle.std.specs.Prelude.{◌≡◌, ℕ, get_or, true, false, not, IfOk};
ghost use Rattle.std.specs.List.{list_any};
ghost use Rattle.input_defs.specs.Sections.{has_number};
ghost use Rattle.mesh_check.specs.element_points.Marks.{AreMarks};

use crate::element_places::{ElementPlaces, dim_of_type};
use plex_base::NoMemory;
use std::alloc::Global;

/// Marks the nodes of one element. Nodes of high numbers have no flag.
fn mark(flags: &mut [bool], nodes: &[u32])
    ensures { (n : ℕ) → get_or flags.new n true ≡ false → (get_or flags.old n true ≡ false) × (has_number nodes.now n ≡ false) }
{
    for node in nodes {
        if (*node as usize) < flags.len() {
            flags[*node as usize] = true;
        }
    }
}

/// A flag by node number: where it is down, no element below the mesh's dimension has the node. Nodes
/// of high numbers have none.
pub(crate) fn lower_nodes(alloc: Global, places: &ElementPlaces<'_>) -> Result<Vec<bool>, NoMemory>
    ensures { IfOk result (λ flags. AreMarks places.now flags.items) }
{
    let text = places.text();
    let top = places.greatest_dim().number();
    // There are at most 500,000 nodes: the proof takes this from the call.
    let mut flags = vec![in alloc; false; 2 * text.nodes()]?;
    for i in 0..text.elements() {
        let element = text.element(i);
        if dim_of_type(element.kind).number() != top {
            mark(&mut flags, element.nodes);
        }
    }
    Ok(flags)
}

fn is_marked(flags: &[bool], node: u32) -> bool
    ensures { result ≡ get_or flags.now node true }
{
    match flags.get(node as usize) {
        Some(flag) => *flag,
        None => true,
    }
}

/// Whether the flag of some node is down.
pub(crate) fn has_unmarked(flags: &[bool], nodes: &[u32]) -> bool
    ensures { result ≡ list_any (λ n. not (get_or flags.now n true)) nodes.now }
{
    for node in nodes {
        if !is_marked(flags, *node) {
            return true;
        }
    }
    false
}
