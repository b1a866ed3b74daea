//! The rows of some vertices and cells.

ghost use Rattle.std.specs.Prelude.{◌≡◌, ◌<◌, ◌≤◌, ◌∷◌, ◌++◌, [], length, map, IfOk, OnOk};
ghost use Rattle.std.specs.List.{AllByRecursion};
ghost use Rattle.mesh_defs.specs.Mesh.{Section};
ghost use Rattle.mesh_defs.specs.RightMesh.{count_on};
ghost use Rattle.plex_defs.specs.Fields.{row_values};
ghost use Rattle.dist_state.specs.scatter_state.Parts.{given_rows};
ghost use Rattle.dist_seed.specs.section_rows.Last.{values_by, last_values, HasLastRows, AreTablesOf, numbers_on};

use crate::section_rows::tables::RowTable;
use mesh_defs::Place;
use plex_base::{DataField, NoMemory};
use plex_mesh::Mesh;
use sf_fabric::FlatLists;
use sf_fabric::flat_lists::ListsBuilder;
use std::alloc::Global;

/// Puts the values of a row at the end, which is counted from 1; 0 is no row, and has no values.
fn push_row(lists: &mut ListsBuilder<i64>, rows: &DataField, place: usize) -> Result<(), NoMemory>
    requires { place ≤ length rows.now.rows }
    ensures { OnOk result (given_rows lists.new ≡ given_rows lists.old ++ values_by rows.now.rows place ∷ []) }
{
    // Each row has a value: the proof takes this from the call.
    let _comps = rows.comps();
    if place == 0 {
        lists.push(&[])?;
        return Ok(());
    }
    lists.push(rows.row(place - 1).1)?;
    Ok(())
}

/// The values of the last rows with these numbers.
fn values_of(
    alloc: Global,
    rows: &DataField,
    table: &RowTable,
    numbers: &[u32],
) -> Result<FlatLists<i64>, NoMemory>
    requires table { HasLastRows rows.now.rows (length table.now.places.items) table.now.places.items }
    requires numbers { AllByRecursion (λ n. n < length table.now.places.items) numbers.now }
    ensures { IfOk result (λ lists. given_rows lists ≡ map (last_values rows.now.rows) numbers.now) }
{
    let mut lists = ListsBuilder::new(alloc)?;
    for n in numbers {
        push_row(&mut lists, rows, table.places[*n as usize])?;
    }
    Ok(lists.finish())
}

/// The numbers by which a data section names these.
fn numbers_on<'a>(on: Place, cells: &'a [u32], vertices: &'a [u32]) -> &'a [u32]
    ensures { result.now ≡ numbers_on on cells.now vertices.now }
{
    match on {
        Place::Node => vertices,
        Place::Element => cells,
    }
}

/// The rows of these cells or vertices in each data section, by the tables of the mesh's last rows: a list
/// without values where there is no row.
///
/// Fails only for want of memory.
pub fn rows_of(
    alloc: Global,
    mesh: &Mesh,
    tables: &[RowTable],
    cells: &[u32],
    vertices: &[u32],
) -> Result<Vec<FlatLists<i64>>, NoMemory>
    requires tables { AreTablesOf mesh.now mesh.now.fields tables.now }
    requires cells { AllByRecursion (λ c. c < length mesh.now.cells) cells.now }
    requires vertices { AllByRecursion (λ v. v < length mesh.now.at) vertices.now }
    ensures { IfOk result (λ rows. map given_rows rows.items ≡ map (λ (f : Section). map (row_values f) (numbers_on f.on cells.now vertices.now)) mesh.now.fields) }
{
    let mut all = Vec::with_capacity(alloc, tables.len())?;
    for i in 0..mesh.fields() {
        let (on, rows) = mesh.field(i);
        let numbers = numbers_on(on, cells, vertices);
        all.push(values_of(alloc, rows, &tables[i], numbers)?)?;
    }
    Ok(all)
}
