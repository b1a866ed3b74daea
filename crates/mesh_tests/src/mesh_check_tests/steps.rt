use mesh_check::data_rows::{element_numbers, field_on_mesh, needs_element_numbers};
use mesh_check::element_places::ElementPlaces;
use mesh_check::element_points::{count_loose, on_points};
use mesh_check::mesh_vertices::Vertices;
use msh_reader::{MshText, read_msh};
use plex_base::{DataField, Dim};
use std::alloc::Global;
use std::process::Abort;
use std::test::Fail;

/// Nodes without order: four at the corners of a square, and one in no cell. Two triangles, the second
/// one written twice, a line on an edge, one on none, and a point. Values of the unused node and of two
/// vertices, and of a merged and a loose element.
const SQUARE: &str = "$MeshFormat
2.2 0 8
$EndMeshFormat
$Nodes
5
10 0 0 0
7 1 0 0
900 9 9 9
30 1 1 0
4 0 1 0
$EndNodes
$Elements
6
1 2 2 6 1 10 7 30
2 2 2 0 1 10 30 4
3 2 2 7 1 30 4 10
4 1 2 8 1 7 10
5 1 2 9 1 7 4
6 15 2 5 1 4
$EndElements
$NodeData
0
0
3
0
1
3
900 1
4 2
10 3
$EndNodeData
$ElementData
0
0
3
0
1
2
3 4
5 5
$EndElementData
";

fn content(alloc: Global) -> Result<MshText, Fail> {
    match read_msh(alloc, SQUARE.as_bytes()) {
        Ok(content) => Ok(content),
        Err(_) => Err(Fail::from("the file is refused")),
    }
}

#[test]
fn places_of_elements(rt: HostRuntime) -> Result<(), Fail> {
    let text = content(rt.alloc())?;
    let places = ElementPlaces::of(rt.alloc(), &text)?;
    assert_eq!(rt; (places.greatest_dim(), places.kept()), (Dim::Two, 5));
    assert_eq!(rt; places.cells(), [0, 1].as_slice());
    let on = on_points(rt.alloc(), &places)?;
    assert_eq!(rt;
        on.as_slice(),
        [true, true, true, true, false, true].as_slice()
    );
    assert_eq!(rt; count_loose(&places, &on), 1);
    Ok(())
}

#[test]
fn vertices_by_number(rt: HostRuntime) -> Result<(), Fail> {
    let text = content(rt.alloc())?;
    let places = ElementPlaces::of(rt.alloc(), &text)?;
    let vertices = Vertices::of(rt.alloc(), places.text(), places.greatest_dim())?;
    assert_eq!(rt; vertices.len(), 4);
    for (number, position) in [
        (10, Some(0)),
        (7, Some(1)),
        (30, Some(2)),
        (4, Some(3)),
        (900, None),
        (5, None),
    ] {
        assert_eq!(rt; vertices.position(number), position);
    }
    Ok(())
}

/// A data section of the file on its mesh.
fn section_on_mesh(alloc: Global, k: usize) -> Result<DataField, Fail> {
    let text = content(alloc)?;
    let places = ElementPlaces::of(alloc, &text)?;
    let vertices = Vertices::of(alloc, places.text(), places.greatest_dim())?;
    if k >= places.text().fields() || !needs_element_numbers(places.text()) {
        return Err(Fail::from("a section is missing"));
    }
    let numbers = element_numbers(alloc, places.text())?;
    let (on, field) = places.text().field(k);
    Ok(field_on_mesh(alloc, &places, &vertices, &numbers, on, field)?)
}

/// The last row, of so many, has this number and this value.
fn check_last_row(rt: &impl Abort, field: &DataField, rows: usize, number: u32, value: i64) {
    assert_eq!(rt; field.rows(), rows);
    assert!(rt; rows > 0);
    let (found, values) = field.row(rows - 1);
    assert_eq!(rt; found, number);
    assert_eq!(rt; values, [value].as_slice());
}

#[test]
fn rows_of_nodes(rt: HostRuntime) -> Result<(), Fail> {
    let field = section_on_mesh(rt.alloc(), 0)?;
    check_last_row(&rt, &field, 2, 0, 30_000_000_000);
    Ok(())
}

#[test]
fn rows_of_elements(rt: HostRuntime) -> Result<(), Fail> {
    let field = section_on_mesh(rt.alloc(), 1)?;
    check_last_row(&rt, &field, 1, 1, 40_000_000_000);
    Ok(())
}
