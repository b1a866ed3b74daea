//! The first element at each place.

ghost use Rattle.std.specs.Prelude.{◌≡◌, ℕ, List, IfOk};
ghost use Rattle.std.specs.List.{position};
ghost use Rattle.std.specs.HashMap as hash;
ghost use Rattle.input_laws.specs.place_laws.Places.{IsPlace, firsts_of, stands_on, filled, same_key};

use crate::element_places::element_type::dim_of_type;
use crate::element_places::key::{Key, key_on};
use msh_reader::MshText;
use plex_base::NoMemory;
use std::alloc::Global;
use std::collections::HashMap;

/// The place in the file of the first element at each place, by key, and for each element of the
/// file that of the first one where it stands.
#[derive(Drop)]
pub(crate) struct PlaceTable {
    pub(crate) by_key: HashMap<Key, u32>,
    pub(crate) firsts: Vec<u32>,
}

/// Finds the first element at each place of a file.
pub(crate) fn first_at_places(alloc: Global, text: &MshText) -> Result<PlaceTable, NoMemory>
    ensures found { IfOk result (λ table. (d : ℕ) (nodes : List ℕ) → IsPlace nodes → hash.get same_key table.by_key (d, filled nodes) ≡ position (stands_on d nodes) text.now.elements) }
    ensures firsts { IfOk result (λ table. table.firsts.items ≡ firsts_of text.now.elements) }
{
    // No node has the number 0: the proof takes this from the call.
    let _nodes = text.nodes();
    let mut by_key: HashMap<Key, u32> = HashMap::new(alloc);
    let mut firsts = Vec::with_capacity(alloc, text.elements())?;
    for i in 0..text.elements() {
        let element = text.element(i);
        let key = key_on(dim_of_type(element.kind), element.nodes);
        let first = match by_key.get(&key) {
            Some(first) => *first,
            None => {
                by_key.insert(key, i as u32)?;
                i as u32
            }
        };
        firsts.push(first)?;
    }
    Ok(PlaceTable { by_key, firsts })
}
