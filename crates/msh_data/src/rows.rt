//! The rows of a data section.

ghost use Rattle.std.specs.Prelude.{◌≡◌, ◌*◌, length, IfOk};
ghost use Rattle.input_defs.specs.Bodies.{many, fixed};
ghost use Rattle.input_defs.specs.Causes.{map_ok};
ghost use Rattle.input_defs.specs.DataSections.{row};
ghost use Rattle.plex_base.specs.DataFields.{rows_of_values};
ghost use Rattle.input_laws.specs.reading_laws.Going.{onto, ok_as, Goes};
ghost use Rattle.msh_data.specs.Pieces.{known_number, flat_of, row_onto};

use crate::head::Shape;
use crate::known::Numbers;
use crate::msh_body::{fixed, uint};
use input_defs::DataFault;
use scan::Scan;
use std::alloc::Global;

/// Rows: the number of each, and their values one row after the other.
#[derive(Drop)]
pub struct Rows {
    pub numbers: Vec<u32>,
    pub values: Vec<i64>,
}

/// A number that a node or element has.
fn known_number<K: Numbers>(scan: &mut Scan<'_>, known: &K) -> Result<u32, DataFault>
    ensures { Goes (known_number (K.known known.now)) scan.old result scan.new }
{
    let (number, line) = uint(scan)?;
    if !known.knows(number) {
        return Err(DataFault::UnknownNumber { line, number });
    }
    Ok(number)
}

/// Puts so many values after others.
fn append_values(scan: &mut Scan<'_>, count: u32, values: &mut Vec<i64>) -> Result<(), DataFault>
    ensures { Goes (onto (λ _. fixed) values.old.items count) scan.old (ok_as values.new.items result) scan.new }
{
    for _ in 0..count {
        let (value, _) = fixed(scan)?;
        values.push(value)?;
    }
    Ok(())
}

/// Puts one row after others.
fn append_row<K: Numbers>(
    scan: &mut Scan<'_>,
    known: &K,
    comps: u32,
    rows: &mut Rows,
) -> Result<(), DataFault>
    ensures { Goes (row_onto (K.known known.now) comps (flat_of rows.old)) scan.old (ok_as (flat_of rows.new) result) scan.new }
{
    let number = known_number(scan, known)?;
    append_values(scan, comps, &mut rows.values)?;
    rows.numbers.push(number)?;
    Ok(())
}

/// The rows of a section of this shape.
pub fn read_rows<K: Numbers>(
    alloc: Global,
    scan: &mut Scan<'_>,
    known: &K,
    shape: Shape,
) -> Result<Rows, DataFault>
    ensures goes { Goes (many shape.rows (row (K.known known.now) shape.comps)) scan.old (map_ok (λ r. rows_of_values shape.comps r.numbers.items r.values.items) result) scan.new }
    ensures lengths { IfOk result (λ r. length r.values.items ≡ length r.numbers.items * shape.comps) }
{
    let mut rows = Rows {
        numbers: Vec::new(alloc),
        values: Vec::new(alloc),
    };
    for _ in 0..shape.rows {
        append_row(scan, known, shape.comps, &mut rows)?;
    }
    Ok(rows)
}
