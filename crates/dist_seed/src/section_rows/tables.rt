//! The last row that each data section has for each vertex or cell.

ghost use Rattle.std.specs.Prelude.{◌≡◌, ◌<◌, length, map, IfOk};
ghost use Rattle.std.specs.List.{AllByRecursion};
ghost use Rattle.mesh_defs.specs.Mesh.{Row};
ghost use Rattle.mesh_defs.specs.RightMesh.{IsRightMesh, count_on};
ghost use Rattle.dist_seed.specs.section_rows.Last.{HasLastRows, AreTablesOf};

use mesh_defs::Place;
use plex_base::{DataField, NoMemory};
use plex_mesh::Mesh;
use std::alloc::Global;

/// For each number the last row of a data section with it, counted from 1; 0 where there is none.
#[derive(Debug, Drop)]
pub struct RowTable {
    pub(crate) places: Vec<usize>,
}

/// The last rows with numbers below `count`.
pub(crate) fn last_rows(alloc: Global, rows: &DataField, count: u32) -> Result<RowTable, NoMemory>
    requires { AllByRecursion (λ (row : Row). row.number < count) rows.now.rows }
    ensures { IfOk result (λ table. HasLastRows rows.now.rows count table.places.items) }
{
    let mut places = vec![in alloc; 0usize; count as usize]?;
    for i in 0..rows.rows() {
        let (number, _) = rows.row(i);
        places[number as usize] = i + 1;
    }
    Ok(RowTable { places })
}

/// How many vertices or cells there are to have data.
fn count_on(mesh: &Mesh, on: Place) -> u32
    ensures { result ≡ count_on mesh.now on }
{
    match on {
        Place::Node => mesh.vertices(),
        Place::Element => mesh.cells(),
    }
}

/// The last rows of each data section of a mesh. Fails only for want of memory.
pub fn tables_of(alloc: Global, mesh: &Mesh) -> Result<Vec<RowTable>, NoMemory>
    ensures { IfOk result (λ tables. AreTablesOf mesh.now mesh.now.fields tables.items) }
{
    // Its rows are right: the proof takes this from the call.
    let _dim = mesh.dim();
    let mut tables = Vec::new(alloc);
    for i in 0..mesh.fields() {
        let (on, rows) = mesh.field(i);
        tables.push(last_rows(alloc, rows, count_on(mesh, on))?)?;
    }
    Ok(tables)
}
