//! The values of one data section.

ghost use Rattle.std.specs.Prelude.{◌≡◌, ◌+◌, ◌*◌, ◌<◌, ◌≤◌, length, take, drop, Some};
ghost use Rattle.std.specs.List.{AllByRecursion, slice_get};
ghost use Rattle.mesh_defs.specs.Mesh.{Row};
ghost use Rattle.plex_base.specs.DataFields.{rows_of_values};

use std::marker::Model;

/// The values of one data section of a mesh file, in 10^-10 (Gmsh manual, MSH format): for each
/// row the number of a node or element, and as many values as there are components.
#[derive(Debug, Drop)]
pub struct DataField {
    name: Vec<u8>,
    comps: u32,
    numbers: Vec<u32>,
    /// The rows one after the other.
    values: Vec<i64>,
}

impl Model for DataField {
    ghost use Rattle.std.specs.Prelude.{◌≡◌, ◌*◌, ◌≤◌, length};
    ghost use Rattle.plex_base.specs.DataFields.{FieldRows, rows_of_values};

    ghost Value = { FieldRows };

    ghost view = { λ f. record { name = f.name.items; comps = f.comps; rows = rows_of_values f.comps f.numbers.items f.values.items } };

    ghost invariant = { λ f. (1 ≤ f.comps) × (length f.values.items ≡ length f.numbers.items * f.comps) };
}

/// Row `i` of rows of this width, which lie one after the other.
fn row_of(values: &[i64], i: usize, width: usize) -> &[i64]
    requires { i * width + width ≤ length values.now }
    ensures { result.now ≡ take width (drop (i * width) values.now) }
{
    let start = i * width;
    &values[start..start + width]
}

impl DataField {
    /// The data section of this name whose row `i` is `numbers[i]` with its `comps` values, which lie
    /// in `values` one row after the other.
    pub fn new(name: Vec<u8>, comps: u32, numbers: Vec<u32>, values: Vec<i64>) -> DataField
        requires some { 1 ≤ comps }
        requires lengths { length values.items ≡ length numbers.items * comps }
        ensures { result ≡ record { name = name.items; comps = comps; rows = rows_of_values comps numbers.items values.items } }
    {
        DataField {
            name,
            comps,
            numbers,
            values,
        }
    }

    /// The name, without its quotes.
    pub fn name(&self) -> &[u8]
        ensures { result.now ≡ self.now.name }
    {
        &self.name
    }

    /// How many values each row has.
    pub fn comps(&self) -> u32
        ensures comps { result ≡ self.now.comps }
        ensures some { 1 ≤ result }

        // What every data section keeps.
        ensures full { AllByRecursion (λ (row : Row). length row.values ≡ self.now.comps) self.now.rows }
    {
        self.comps
    }

    /// How many rows there are.
    pub fn rows(&self) -> usize
        ensures { result ≡ length self.now.rows }
    {
        self.numbers.len()
    }

    /// The number and the values of row `i`, from 0.
    pub fn row(&self, i: usize) -> (u32, &[i64])
        requires { i < length self.now.rows }
        ensures row { slice_get self.now.rows i ≡ Some (record { number = result.0; values = result.1.now }) }
        ensures comps { length result.1.now ≡ self.now.comps }
    {
        (
            self.numbers[i],
            row_of(&self.values, i, self.comps as usize),
        )
    }
}
