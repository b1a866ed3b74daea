//! What was read of a file up to some header line.

ghost use Rattle.std.specs.Prelude.{◌≡◌, ℕ, length, IfOk, OnOk};
ghost use Rattle.input_defs.specs.declared.MshFault.TheVariants.{BadCount};
ghost use Rattle.input_defs.specs.Causes.{map_ok, first_cause};
ghost use Rattle.input_defs.specs.Sections.{has_number, format, names, nodes, elements};
ghost use Rattle.input_defs.specs.Files.{nothing, misplaced, unfinished, file_numbers};
ghost use Rattle.mesh_defs.specs.declared.Place.TheVariants as place;
ghost use Rattle.plex_base.specs.DataFields.{section_on};
ghost use Rattle.input_laws.specs.reading_laws.Going.{closed, ok_as};
ghost use Rattle.msh_reader.specs.Going.{Goes};
ghost use Rattle.msh_reader.specs.NumberSets.{numbers_of};
ghost use Rattle.msh_reader.specs.Views.{name_views, node_views, element_numbers};
ghost use Rattle.msh_reader.specs.Headers.{known_of};
ghost use Rattle.msh_reader.specs.Taking.{parts_view, Takes, TakesField};

use crate::element_list::ElementList;
use crate::elements::elements;
use crate::format::format;
use crate::headers::Section;
use crate::names::names;
use crate::nodes::{NodeList, nodes};
use crate::number_set::NumberSet;
use crate::numbers::end_of_body;
use crate::text::{FileField, FileName};
use crate::trouble::Trouble;
use input_defs::{MshFault, What};
use msh_data::{DataField, Place, read_section};
use plex_base::MAX_DATA_SECTIONS;
use scan::Scan;
use std::alloc::{AllocError, Global};

/// What was read of a file: each section that stood, and the data sections in file order.
#[derive(Drop)]
pub struct Parts {
    pub format: bool,
    pub names: Option<Vec<FileName>>,
    pub nodes: Option<NodeList>,
    pub elements: Option<ElementList>,
    pub fields: Vec<FileField>,
}

/// The whole body of MeshFormat.
fn whole_format(scan: &mut Scan<'_>) -> Result<u32, Trouble>
    ensures { Goes (closed BadCount format) scan.old result scan.new }
{
    let size = format(scan)?;
    end_of_body(scan)?;
    Ok(size)
}

/// The whole body of PhysicalNames.
fn whole_names(alloc: Global, scan: &mut Scan<'_>) -> Result<Vec<FileName>, Trouble>
    ensures { Goes (closed BadCount names) scan.old (map_ok (λ v. name_views v.items) result) scan.new }
{
    let names = names(alloc, scan)?;
    end_of_body(scan)?;
    Ok(names)
}

/// The whole body of Nodes.
fn whole_nodes(alloc: Global, scan: &mut Scan<'_>) -> Result<NodeList, Trouble>
    ensures { Goes (closed BadCount nodes) scan.old (map_ok (λ list. node_views list.nodes.items) result) scan.new }
{
    let nodes = nodes(alloc, scan)?;
    end_of_body(scan)?;
    Ok(nodes)
}

/// The whole body of Elements, on nodes of these numbers.
fn whole_elements(
    alloc: Global,
    scan: &mut Scan<'_>,
    known: &NumberSet,
) -> Result<ElementList, Trouble>
    ensures { Goes (closed BadCount (elements (numbers_of known.now))) scan.old result scan.new }
{
    let elements = elements(alloc, scan, known)?;
    end_of_body(scan)?;
    Ok(elements)
}

/// The numbers of elements as a set.
fn element_numbers(alloc: Global, elements: &ElementList) -> Result<NumberSet, AllocError>
    ensures { IfOk result (λ set. (n : ℕ) → has_number (numbers_of set) n ≡ has_number (element_numbers elements.now) n) }
{
    let mut numbers = NumberSet::new(alloc);
    for i in 0..elements.len() {
        numbers.insert(elements.get(i).number)?;
    }
    Ok(numbers)
}

/// The data section of a body, for nodes or elements of these numbers.
fn field(
    alloc: Global,
    scan: &mut Scan<'_>,
    known: &NumberSet,
    on: Place,
) -> Result<DataField, Trouble>
    ensures { TakesField on (numbers_of known.now) scan.old (map_ok (section_on on) result) scan.new }
{
    Ok(read_section(alloc, scan, known, on)?)
}

impl Parts {
    /// Nothing was read.
    pub fn new(alloc: Global) -> Parts
        ensures { parts_view result ≡ nothing }
    {
        Parts {
            format: false,
            names: None,
            nodes: None,
            elements: None,
            fields: Vec::new(alloc),
        }
    }

    /// The elements of a body that uses the nodes read before.
    fn read_elements(&self, alloc: Global, scan: &mut Scan<'_>) -> Result<ElementList, Trouble>
        ensures { Goes (closed BadCount (elements (file_numbers (parts_view self.now) place.Node))) scan.old result scan.new }
    {
        match &self.nodes {
            Some(list) => whole_elements(alloc, scan, &list.numbers),
            None => whole_elements(alloc, scan, &NumberSet::new(alloc)),
        }
    }

    /// The numbers of the elements read before.
    fn known_elements(&self, alloc: Global) -> Result<NumberSet, AllocError>
        ensures { IfOk result (λ set. (n : ℕ) → has_number (numbers_of set) n ≡ has_number (file_numbers (parts_view self.now) place.Element) n) }
    {
        match &self.elements {
            Some(elements) => element_numbers(alloc, elements),
            None => Ok(NumberSet::new(alloc)),
        }
    }

    /// The data section of a body, for the nodes or elements read before.
    fn read_field(
        &self,
        alloc: Global,
        scan: &mut Scan<'_>,
        on: Place,
    ) -> Result<DataField, Trouble>
        ensures { TakesField on (file_numbers (parts_view self.now) on) scan.old (map_ok (section_on on) result) scan.new }
    {
        match on {
            Place::Node => match &self.nodes {
                Some(list) => field(alloc, scan, &list.numbers, on),
                None => field(alloc, scan, &NumberSet::new(alloc), on),
            },
            Place::Element => {
                let numbers = self.known_elements(alloc)?;
                field(alloc, scan, &numbers, on)
            }
        }
    }

    /// Takes over the body of a section, in which a scan stands.
    pub fn read(
        &mut self,
        alloc: Global,
        scan: &mut Scan<'_>,
        section: Section,
    ) -> Result<(), Trouble>
        ensures { Takes (known_of section) (parts_view self.old) scan.old (ok_as (parts_view self.new) result) scan.new }
    {
        match section {
            Section::Format => {
                let _ = whole_format(scan)?;
                self.format = true;
            }
            Section::Names => self.names = Some(whole_names(alloc, scan)?),
            Section::Nodes => self.nodes = Some(whole_nodes(alloc, scan)?),
            Section::Elements => self.elements = Some(self.read_elements(alloc, scan)?),
            Section::Data(on) => {
                let field = self.read_field(alloc, scan, on)?;
                self.fields.push(FileField { on, field })?;
            }
        }
        Ok(())
    }

    /// Why this section may not begin on a line.
    pub fn misplaced(&self, line: u32, section: Section) -> Option<MshFault>
        ensures { result ≡ misplaced (parts_view self.now) line (known_of section) }
    {
        let not_msh = (!self.format, MshFault::NotMsh { line });
        let no_nodes = (
            self.nodes.is_none(),
            MshFault::MissingSection { line, nodes: true },
        );
        let no_elements = (
            self.elements.is_none(),
            MshFault::MissingSection { line, nodes: false },
        );
        let repeated = MshFault::RepeatedSection { line };
        let too_many = (
            self.fields.len() >= MAX_DATA_SECTIONS as usize,
            MshFault::TooMany {
                line,
                what: What::Fields,
            },
        );
        match section {
            Section::Format => first_cause(&[(self.format, repeated)]),
            Section::Names => first_cause(&[not_msh, (self.names.is_some(), repeated)]),
            Section::Nodes => first_cause(&[not_msh, (self.nodes.is_some(), repeated)]),
            Section::Elements => first_cause(&[
                not_msh,
                no_nodes,
                (self.elements.is_some(), repeated),
            ]),
            Section::Data(Place::Node) => first_cause(&[not_msh, no_nodes, too_many]),
            Section::Data(Place::Element) => first_cause(&[not_msh, no_elements, too_many]),
        }
    }

    /// Why a file may not end on this line.
    pub fn unfinished(&self, line: u32) -> Option<MshFault>
        ensures { result ≡ unfinished (parts_view self.now) line }
    {
        let not_msh = (!self.format, MshFault::NotMsh { line });
        let no_nodes = (
            self.nodes.is_none(),
            MshFault::MissingSection { line, nodes: true },
        );
        let no_elements = (
            self.elements.is_none(),
            MshFault::MissingSection { line, nodes: false },
        );
        first_cause(&[not_msh, no_nodes, no_elements])
    }
}

/// The first fault whose cause stands.
fn first_cause(causes: &[(bool, MshFault)]) -> Option<MshFault>
    ensures { result ≡ first_cause causes.now }
{
    causes.iter().find(|cause| cause.0).map(|cause| cause.1)
}
