use crate::msh_reader_tests::files::{ONE_TRIANGLE, SQUARE_WITH_HOLE, TEMPERATURES, changed, read};
use msh_reader::{MshText, Place};
use plex_base::DataField;
use std::process::Abort;
use std::test::Fail;

fn check_one_triangle(rt: &impl Abort, text: &MshText) {
    assert_eq!(rt; text.nodes(), 3);
    assert_eq!(rt; text.node(1), (2, [10_000_000_000, 0, 0]));
    assert_eq!(rt; text.elements(), 1);
    let element = text.element(0);
    assert_eq!(rt; (element.number, element.kind, element.physical), (1, 2, 0));
    assert_eq!(rt; element.nodes, [1, 2, 3].as_slice());
    assert_eq!(rt; text.names(), 0);
    assert_eq!(rt; text.fields(), 0);
}

#[test]
fn one_triangle(rt: HostRuntime) -> Result<(), Fail> {
    let text = read(rt.alloc(), ONE_TRIANGLE)??;
    check_one_triangle(&rt, &text);
    Ok(())
}

#[test]
fn names_labels_and_lines_that_end_with_cr(rt: HostRuntime) -> Result<(), Fail> {
    let text = read(rt.alloc(), SQUARE_WITH_HOLE)??;
    assert_eq!(rt; text.nodes(), 9);
    assert_eq!(rt; text.elements(), 16);
    assert_eq!(rt; text.names(), 3);
    assert_eq!(rt; text.node(6), (7, [0, 10_000_000_000, 0]));
    let (dim, number, name) = text.name(2);
    assert_eq!(rt; (dim, number), (2, 3));
    assert_eq!(rt; name, b"plate".as_slice());
    let line = text.element(7);
    assert_eq!(rt; (line.number, line.kind, line.physical), (8, 1, 2));
    assert_eq!(rt; line.nodes, [9, 6].as_slice());
    let triangle = text.element(15);
    assert_eq!(rt;
        (triangle.number, triangle.kind, triangle.physical),
        (16, 2, 3)
    );
    assert_eq!(rt; triangle.nodes, [4, 1, 6].as_slice());
    Ok(())
}

/// A row of a data section has this number and these values.
fn check_row(rt: &impl Abort, field: &DataField, i: usize, number: u32, values: &[i64]) {
    assert!(rt; i < field.rows());
    let (found, own) = field.row(i);
    assert_eq!(rt; found, number);
    assert_eq!(rt; own, values);
}

/// The only data section has this place and this name, and so many rows.
fn check_section(rt: &impl Abort, text: &MshText, place: Place, name: &[u8], rows: usize) {
    assert_eq!(rt; text.fields(), 1);
    let (on, field) = text.field(0);
    assert_eq!(rt; on, place);
    assert_eq!(rt; field.name(), name, "the first tag is the name");
    assert_eq!(rt; field.rows(), rows);
}

fn check_values_at_nodes(rt: &impl Abort, text: &MshText) {
    check_section(rt, text, Place::Node, b"temp", 2);
    assert_eq!(rt; text.fields(), 1);
    let (_, field) = text.field(0);
    assert_eq!(rt; field.comps(), 1);
    check_row(rt, field, 0, 1, &[205_000_000_000]);
    check_row(rt, field, 1, 3, &[-40_000_000_000]);
}

fn check_values_at_elements(rt: &impl Abort, text: &MshText) {
    check_section(rt, text, Place::Element, b"first", 1);
    assert_eq!(rt; text.fields(), 1);
    let (_, field) = text.field(0);
    let values = [10_000_000_000, 20_000_000_000, -30_000_000_000];
    check_row(rt, field, 0, 1, &values);
}

#[test]
fn values_at_nodes(rt: HostRuntime) -> Result<(), Fail> {
    let file = format!(in rt.alloc(); "{ONE_TRIANGLE}{TEMPERATURES}")?;
    let text = read(rt.alloc(), file.as_str())??;
    check_values_at_nodes(&rt, &text);
    Ok(())
}

#[test]
fn values_at_elements_and_three_components(rt: HostRuntime) -> Result<(), Fail> {
    let values =
        "$ElementData\n2\n\"first\"\n\"second\"\n0\n4\n0 3 1 7\n1 1 2 -3\n$EndElementData\n";
    let file = format!(in rt.alloc(); "{ONE_TRIANGLE}{values}")?;
    let text = read(rt.alloc(), file.as_str())??;
    check_values_at_elements(&rt, &text);
    Ok(())
}

#[test]
fn the_first_tag_is_the_physical_one(rt: HostRuntime) -> Result<(), Fail> {
    for (old, new, physical) in [
        ("1 2 2 0 1 1 2 3", "1 2 4 0 1 1 1 1 2 3", 0),
        ("1 2 2 0 1 1 2 3", "1 2 2 -2147483648 1 1 2 3", i32::MIN),
        ("1 2 2 0 1 1 2 3", "1 2 0 1 2 3", 0),
        ("1 2 2 0 1 1 2 3", "1 2 1 9 1 2 3", 9),
    ] {
        let file = changed(rt.alloc(), ONE_TRIANGLE, old, new)?;
        let text = read(rt.alloc(), file.as_str())??;
        assert_eq!(rt; text.elements(), 1);
        assert_eq!(rt; text.element(0).physical, physical, "{new:?}");
        assert_eq!(rt; text.element(0).nodes, [1, 2, 3].as_slice());
    }
    Ok(())
}

#[test]
fn node_numbers_in_any_order(rt: HostRuntime) -> Result<(), Fail> {
    let file = changed(
        rt.alloc(),
        ONE_TRIANGLE,
        "1 0 0 0\n2 1 0 0\n3 0 1 0",
        "7 0 0 0\n1 1 0 0\n4294967295 0 1 0",
    )?;
    let file = changed(
        rt.alloc(),
        file.as_str(),
        "0 1 1 2 3\n",
        "0 1 4294967295 1 7\n",
    )?;
    let text = read(rt.alloc(), file.as_str())??;
    assert_eq!(rt; text.nodes(), 3);
    assert_eq!(rt; text.node(2).0, u32::MAX);
    assert_eq!(rt; text.elements(), 1);
    assert_eq!(rt; text.element(0).nodes, [u32::MAX, 1, 7].as_slice());
    Ok(())
}

#[test]
fn unknown_sections_and_text_between_sections(rt: HostRuntime) -> Result<(), Fail> {
    let before = "no section\n$Comments\n$Nodes\n$EndNodes\nx\n$EndComments\n";
    let file = format!(in rt.alloc(); "{before}{ONE_TRIANGLE}end")?;
    assert_eq!(rt; read(rt.alloc(), file.as_str())??.nodes(), 3);
    Ok(())
}
