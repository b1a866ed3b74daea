ghost use Rattle.std.specs.Prelude.{◌≡◌, [], ◌∷◌, pos, length, IfOk};

use plex_base::{Dim, NoMemory};
use plex_mesh::{DataField, Mesh, MeshBuilder, Place, Poly};
use std::alloc::Global;
use std::test::Fail;

/// A data section with one value at the node or element of number 2.
fn one_value(alloc: Global) -> Result<DataField, NoMemory>
    ensures comps { IfOk result (λ field. field.comps ≡ 1) }
    ensures rows { IfOk result (λ field. field.rows ≡ record { number = 2; values = pos 205 ∷ [] } ∷ []) }
{
    let name = Vec::from_slice(alloc, b"temp")?;
    let numbers = Vec::from_slice(alloc, &[2])?;
    let values = Vec::from_slice(alloc, &[205])?;
    Ok(DataField::new(name, 1, numbers, values))
}

/// One triangle with a label on an edge, a data section and a name.
fn triangle(alloc: Global) -> Result<Mesh, NoMemory>
    ensures at { IfOk result (λ mesh. length mesh.at ≡ 3) }
    ensures cells { IfOk result (λ mesh. length mesh.cells ≡ 1) }
    ensures marks { IfOk result (λ mesh. length mesh.marks ≡ 1) }
    ensures fields { IfOk result (λ mesh. length mesh.fields ≡ 1) }
    ensures names { IfOk result (λ mesh. length mesh.names ≡ 1) }
{
    let mut builder = MeshBuilder::new(alloc, Dim::Two);
    builder.add_vertex([0, 0, 0])?;
    builder.add_vertex([10, 0, 0])?;
    builder.add_vertex([0, 10, -1])?;
    builder.add_cell(Poly::Triangle, &[0, 1, 2])?;
    builder.add_mark(Dim::One, &[2, 1], -7)?;
    let field = one_value(alloc)?;
    builder.add_field(field, Place::Node)?;
    builder.add_name(1, 5, b"rim")?;
    builder.counts(3, 2, 1);
    Ok(builder.finish())
}

#[test]
fn reads_what_was_added(rt: HostRuntime) -> Result<(), Fail> {
    let mesh = triangle(rt.alloc())?;
    assert_eq!(rt; mesh.dim(), Dim::Two);
    assert_eq!(rt; mesh.vertices(), 3);
    assert_eq!(rt; mesh.at(2), [0, 10, -1]);
    assert_eq!(rt; mesh.cells(), 1);
    assert_eq!(rt; mesh.cell_poly(0), Poly::Triangle);
    assert_eq!(rt; mesh.cell(0), [0, 1, 2].as_slice());
    assert_eq!(rt; mesh.marks(), 1);
    let (dim, verts, value) = mesh.mark(0);
    assert_eq!(rt; dim, Dim::One);
    assert_eq!(rt; verts, [2, 1].as_slice());
    assert_eq!(rt; value, -7);
    assert_eq!(rt; mesh.fields(), 1);
    let (on, field) = mesh.field(0);
    assert_eq!(rt; on, Place::Node);
    assert_eq!(rt; field.name(), b"temp".as_slice());
    assert_eq!(rt; (field.comps(), field.rows()), (1, 1));
    assert_eq!(rt; mesh.names(), 1);
    let (dim, number, name) = mesh.name(0);
    assert_eq!(rt; (dim, number), (1, 5));
    assert_eq!(rt; name, b"rim".as_slice());
    assert_eq!(rt; (mesh.unused(), mesh.loose(), mesh.merged()), (3, 2, 1));
    Ok(())
}
