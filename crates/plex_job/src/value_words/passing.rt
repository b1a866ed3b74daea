//! One pass over the values of data sections.

ghost use Rattle.std.specs.List.{AllByRecursion};
ghost use Rattle.walk_defs.specs.step_defs.Words.{FitsWord, FitsWords};
ghost use Rattle.plex_job.specs.value_words.Rows.{FitsRows};

use plex_base::DataField;
use plex_mesh::Mesh;

/// Values of 64 bits are told by their words. Reads each of them, by which its range is known.
fn values_fit(values: &[i64])
    ensures { AllByRecursion FitsWord values.now }
{
    for value in values {
        let _value = *value;
    }
}

/// So are those of all rows of a data section.
fn rows_fit(rows: &DataField)
    ensures { FitsRows rows.now.rows }
{
    for i in 0..rows.rows() {
        values_fit(rows.row(i).1);
    }
}

/// Each value of the data sections of a mesh is the one whose two's complement its word is. A pass over
/// all of them, which takes no memory.
pub fn words_fit(mesh: &Mesh)
    ensures { FitsWords mesh.now }
{
    for i in 0..mesh.fields() {
        rows_fit(mesh.field(i).1);
    }
}
