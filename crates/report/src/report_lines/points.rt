//! What stands in the line of a point: its tag, its cone, the coordinates of a vertex, its label values.

ghost use Rattle.std.specs.Prelude.{◌≡◌, ◌++◌, ◌<◌, flat_map, OnOk};
ghost use Rattle.std.specs.Fmt.{signed_decimal};
ghost use Rattle.mesh_defs.specs.Tables.{dim_of};
ghost use Rattle.plex_defs.specs.Closure.{cone_entry};
ghost use Rattle.plex_defs.specs.Labels.{values_at};
ghost use Rattle.input_defs.specs.text_defs.Text.{tag, entry_text, at_text};
ghost use Rattle.input_defs.specs.Further.{label_text};

use crate::report_lines::numbers::{append_fixed, append_number};
use itoa::Buffer;
use mesh_defs::{ConeEntry, Poly};
use plex_base::{NoMemory, PointKey};
use plex_label::Label;
use poly_tables::dim;

/// The tag of a point of this polytope and key in a mesh of dimension `mesh_dim`: `c` and the cell's
/// index, or `v`, `f` or `e` and the key.
///
/// Fails only for want of memory.
#[tactic(auto, unfolding(input_defs::specs::text_defs::Text::tag))]
pub fn append_tag(
    line: &mut Vec<u8>,
    mesh_dim: u32,
    poly: Poly,
    key: PointKey,
) -> Result<(), NoMemory>
    ensures { OnOk result (line.new.items ≡ line.old.items ++ tag mesh_dim poly key.0) }
{
    let dim = dim(poly);
    if dim == mesh_dim {
        line.push(b'c')?;
        return append_number(line, key.cell());
    }
    let letter = match dim {
        0 => b'v',
        2 => b'f',
        _ => b'e',
    };
    line.push(letter)?;
    append_number(line, key.0)
}

/// An entry of a cone or a closure, as ` number:orientation`. The number comes from the caller, since
/// entries are shown under numbers of several kinds.
///
/// Fails only for want of memory.
#[tactic(auto, unfolding(input_defs::specs::text_defs::Text::entry_text), using(std::proofs::Common::append_assoc))]
pub fn append_entry(line: &mut Vec<u8>, number: u64, o: i8) -> Result<(), NoMemory>
    ensures { OnOk result (line.new.items ≡ line.old.items ++ entry_text (cone_entry number o)) }
{
    line.push(b' ')?;
    append_number(line, number)?;
    line.push(b':')?;
    line.extend_from_slice(Buffer::new().format(o).as_bytes())?;
    Ok(())
}

/// A cone, entry by entry, its points by the numbers that it has.
///
/// Fails only for want of memory.
pub fn append_cone(line: &mut Vec<u8>, cone: &[ConeEntry]) -> Result<(), NoMemory>
    ensures { OnOk result (line.new.items ≡ line.old.items ++ flat_map entry_text cone.now) }
{
    for entry in cone {
        append_entry(line, u64::from(entry.point), entry.o)?;
    }
    Ok(())
}

/// The coordinates of a vertex, as ` @ x y z`.
///
/// Fails only for want of memory.
#[tactic(auto, unfolding(input_defs::specs::text_defs::Text::at_text))]
pub fn append_at(line: &mut Vec<u8>, at: &[i64; 3]) -> Result<(), NoMemory>
    ensures { OnOk result (line.new.items ≡ line.old.items ++ at_text at.now) }
{
    line.extend_from_slice(b" @")?;
    for x in at {
        line.push(b' ')?;
        append_fixed(line, *x)?;
    }
    Ok(())
}

/// The name of the label of points of a dimension, as DMPlex has it without `Sets`.
fn label_text(mesh_dim: u32, dim: u32) -> &'static [u8]
    requires { dim < 4 }
    ensures { result.now ≡ label_text mesh_dim dim }
{
    if dim == mesh_dim {
        b" cell="
    } else if dim + 1 == mesh_dim {
        b" face="
    } else if dim == 0 {
        b" vertex="
    } else {
        b" edge="
    }
}

/// Label values, each after the name of the label.
fn append_label_values(line: &mut Vec<u8>, name: &[u8], values: &[i32]) -> Result<(), NoMemory>
    ensures { OnOk result (line.new.items ≡ line.old.items ++ flat_map (λ v. name.now ++ signed_decimal v) values.now) }
{
    for value in values {
        line.extend_from_slice(name)?;
        line.extend_from_slice(Buffer::new().format(*value).as_bytes())?;
    }
    Ok(())
}

/// The values that a label of points of dimension `dim` has at point `p`, rising, each after the
/// label's name.
///
/// Fails only for want of memory, and takes some only where there are values.
pub fn append_label(
    line: &mut Vec<u8>,
    mesh_dim: u32,
    dim: u32,
    label: &Label,
    p: u32,
) -> Result<(), NoMemory>
    requires { dim < 4 }
    ensures { OnOk result (line.new.items ≡ line.old.items ++ flat_map (λ v. label_text mesh_dim dim ++ signed_decimal v) (values_at label.now p)) }
{
    let values = label.values_at(p)?;
    append_label_values(line, label_text(mesh_dim, dim), &values)
}
