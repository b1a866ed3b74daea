//! The section Elements.

ghost use Rattle.std.specs.Prelude.{◌≡◌, [], drop, take, length, is_some, IfOk};
ghost use Rattle.input_defs.specs.scan_defs.Numbers.{uint_of};
ghost use Rattle.input_defs.specs.declared.MshFault.TheVariants.{ElementType};
ghost use Rattle.input_defs.specs.Causes.{map_ok, ok_where};
ghost use Rattle.input_defs.specs.Bodies.{tested};
ghost use Rattle.input_defs.specs.Sections.{poly_of_type, corner, element, elements};
ghost use Rattle.input_laws.specs.reading_laws.Going.{onto, ok_as};
ghost use Rattle.msh_reader.specs.Going.{Goes};
ghost use Rattle.msh_reader.specs.NumberSets.{numbers_of};
ghost use Rattle.msh_reader.specs.Views.{element_view, LiesAfter, physical};

use crate::element_list::{ElementList, FileElement, corner_count};
use crate::number_set::NumberSet;
use crate::numbers::{count, first_int};
use crate::trouble::Trouble;
use input_defs::{MshFault, What};
use msh_data::Numbers;
use msh_data::msh_body::uint;
use plex_base::MAX_ELEMENTS;
use scan::Scan;
use std::alloc::Global;

/// The type of an element.
fn element_type(scan: &mut Scan<'_>) -> Result<u32, Trouble>
    ensures { Goes (tested uint_of (λ line n. ok_where (is_some (poly_of_type n)) n (ElementType line n))) scan.old result scan.new }
{
    let (kind, line) = uint(scan)?;
    if corner_count(kind) == 0 {
        return Err(Trouble::Fault(MshFault::ElementType { line, kind }));
    }
    Ok(kind)
}

/// The physical tag of an element: the first of its tags, or 0.
fn physical(scan: &mut Scan<'_>) -> Result<i32, Trouble>
    ensures { Goes physical scan.old result scan.new }
{
    let (count, _) = uint(scan)?;
    first_int(scan, count)
}

/// The number of a node of the file, which the element does not have yet.
fn corner(scan: &mut Scan<'_>, known: &NumberSet, earlier: &[u32]) -> Result<u32, Trouble>
    ensures { Goes (corner (numbers_of known.now) earlier.now) scan.old result scan.new }
{
    let (number, line) = uint(scan)?;
    if !known.knows(number) {
        return Err(Trouble::Fault(MshFault::UnknownNode { line, number }));
    }
    if earlier.contains(&number) {
        return Err(Trouble::Fault(MshFault::RepeatedNode { line, number }));
    }
    Ok(number)
}

/// Puts the nodes of one element after those of others.
fn append_corners(
    scan: &mut Scan<'_>,
    known: &NumberSet,
    count: u32,
    corners: &mut Vec<u32>,
) -> Result<(), Trouble>
    ensures goes { Goes (onto (corner (numbers_of known.now)) [] count) scan.old (ok_as (drop (length corners.old.items) corners.new.items) result) scan.new }
    ensures front { take (length corners.old.items) corners.new.items ≡ corners.old.items }
{
    let start = corners.len();
    for _ in 0..count {
        let number = corner(scan, known, &corners[start..])?;
        corners.push(number)?;
    }
    Ok(())
}

/// Reads one element, and puts its nodes after those of others.
fn element(
    scan: &mut Scan<'_>,
    known: &NumberSet,
    corners: &mut Vec<u32>,
) -> Result<FileElement, Trouble>
    ensures goes { Goes (element (numbers_of known.now)) scan.old (map_ok (λ e. element_view e (drop (length corners.old.items) corners.new.items)) result) scan.new }
    ensures front { take (length corners.old.items) corners.new.items ≡ corners.old.items }
    ensures lies { IfOk result (λ e. LiesAfter e corners.old.items corners.new.items) }
{
    let start = corners.len();
    let (number, _) = uint(scan)?;
    let kind = element_type(scan)?;
    let physical = physical(scan)?;
    append_corners(scan, known, corner_count(kind), corners)?;
    Ok(FileElement {
        number,
        kind,
        physical,
        start,
    })
}

/// Reads the body of Elements, whose nodes are of these numbers.
pub fn elements(
    alloc: Global,
    scan: &mut Scan<'_>,
    known: &NumberSet,
) -> Result<ElementList, Trouble>
    ensures { Goes (elements (numbers_of known.now)) scan.old result scan.new }
{
    let count = count(scan, MAX_ELEMENTS, What::Elements)?;
    let mut elements = Vec::new(alloc);
    let mut corners = Vec::new(alloc);
    for _ in 0..count {
        elements.push(element(scan, known, &mut corners)?)?;
    }
    Ok(ElementList::new(elements, corners))
}
