//! What stands before the rows of a data section: its tags.

ghost use Rattle.std.specs.Prelude.{◌≡◌, ◌≤◌, [], IfOk};
ghost use Rattle.input_defs.specs.Causes.{map_ok};
ghost use Rattle.input_defs.specs.DataSections.{comps_on, rows_on};
ghost use Rattle.input_defs.specs.scan_defs.Numbers.{int_of};
ghost use Rattle.input_defs.specs.Bodies.{tested, quoted};
ghost use Rattle.input_laws.specs.reading_laws.Going.{first_of, Goes};
ghost use Rattle.msh_data.specs.Pieces.{field_name, reals, int_count, shape};

use crate::msh_body::{int, quoted, uint};
use crate::passing::{pass_ints, pass_reals, pass_texts};
use input_defs::DataFault;
use scan::Scan;
use std::alloc::Global;

/// How many values each row has, and how many rows there are.
#[derive(Clone, Copy)]
pub struct Shape {
    pub comps: u32,
    pub rows: u32,
}

/// The first of so many quoted texts, or the empty text.
fn first_text(alloc: Global, scan: &mut Scan<'_>, count: u32) -> Result<Vec<u8>, DataFault>
    ensures { Goes (first_of [] count quoted) scan.old (map_ok (λ text. text.items) result) scan.new }
{
    if count == 0 {
        return Ok(Vec::new(alloc));
    }
    let first = Vec::from_slice(alloc, quoted(scan)?)?;
    pass_texts(scan, count - 1)?;
    Ok(first)
}

/// The name of a section: the first of its string tags, or the empty text.
pub fn field_name(alloc: Global, scan: &mut Scan<'_>) -> Result<Vec<u8>, DataFault>
    ensures { Goes field_name scan.old (map_ok (λ text. text.items) result) scan.new }
{
    let (count, _) = uint(scan)?;
    first_text(alloc, scan, count)
}

/// Passes the real tags.
pub fn real_tags(scan: &mut Scan<'_>) -> Result<(), DataFault>
    ensures { Goes reals scan.old result scan.new }
{
    let (count, _) = uint(scan)?;
    pass_reals(scan, count)
}

/// How many integer tags there are: at least the time step, the components and the rows.
fn int_tag_count(scan: &mut Scan<'_>) -> Result<u32, DataFault>
    ensures { Goes int_count scan.old result scan.new }
{
    let (count, line) = uint(scan)?;
    if count < 3 {
        return Err(DataFault::BadCount { line });
    }
    Ok(count)
}

/// A number of components that a line gives: 1, 3 or 9.
fn checked_comps(line: u32, comps: i32) -> Result<u32, DataFault>
    ensures answer { result ≡ comps_on line comps }
    ensures some { IfOk result (λ comps. 1 ≤ comps) }
{
    match comps {
        1 | 3 | 9 => Ok(comps as u32),
        _ if comps < 0 => Err(DataFault::Components { line, got: 0 }),
        _ => Err(DataFault::Components {
            line,
            got: comps as u32,
        }),
    }
}

/// A number of rows that a line gives, which is not negative.
fn checked_rows(line: u32, rows: i32) -> Result<u32, DataFault>
    ensures { result ≡ rows_on line rows }
{
    if rows < 0 {
        return Err(DataFault::BadCount { line });
    }
    Ok(rows as u32)
}

/// How many values each row has.
fn comps(scan: &mut Scan<'_>) -> Result<u32, DataFault>
    ensures goes { Goes (tested int_of comps_on) scan.old result scan.new }
    ensures some { IfOk result (λ comps. 1 ≤ comps) }
{
    let (comps, line) = int(scan)?;
    checked_comps(line, comps)
}

/// How many rows there are.
fn row_count(scan: &mut Scan<'_>) -> Result<u32, DataFault>
    ensures { Goes (tested int_of rows_on) scan.old result scan.new }
{
    let (rows, line) = int(scan)?;
    checked_rows(line, rows)
}

/// What the integer tags say; the time step and further ones are passed.
pub fn int_tags(scan: &mut Scan<'_>) -> Result<Shape, DataFault>
    ensures goes { Goes shape scan.old result scan.new }
    ensures some { IfOk result (λ shape. 1 ≤ shape.comps) }
{
    let count = int_tag_count(scan)?;
    let _ = int(scan)?;
    let comps = comps(scan)?;
    let rows = row_count(scan)?;
    pass_ints(scan, count - 3)?;
    Ok(Shape { comps, rows })
}
