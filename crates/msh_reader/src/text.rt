//! What a mesh file says.

ghost use Rattle.std.specs.Prelude.{◌≡◌, ◌<◌, length, Some};
ghost use Rattle.std.specs.List.{slice_get};
ghost use Rattle.input_defs.specs.RightContent.{IsRight};
ghost use Rattle.plex_base.specs.DataFields.{section_on};

use crate::element_list::{ElementList, ElementView};
use msh_data::{DataField, Place};
use std::marker::Model;

/// A node of a file: its number, and its coordinates in 10^-10.
#[derive(Clone, Copy, Debug)]
pub struct FileNode {
    pub number: u32,
    pub at: [i64; 3],
}

/// A physical name.
#[derive(Debug, Drop)]
pub struct FileName {
    pub dim: u32,
    pub number: i32,
    pub text: Vec<u8>,
}

/// A data section, and what its values belong to.
#[derive(Debug, Drop)]
pub struct FileField {
    pub on: Place,
    pub field: DataField,
}

/// What a mesh file says, in file order (Gmsh manual, MSH format 2.2): its nodes, elements, physical
/// names and data sections.
#[derive(Debug, Drop)]
pub struct MshText {
    pub(crate) nodes: Vec<FileNode>,
    pub(crate) elements: ElementList,
    pub(crate) names: Vec<FileName>,
    pub(crate) fields: Vec<FileField>,
}

impl Model for MshText {
    ghost use Rattle.input_defs.specs.Content.{Content};

    ghost Value = { Content };

    ghost use Rattle.input_defs.specs.RightContent.{IsRight};
    ghost use Rattle.msh_reader.specs.Views.{text_content};

    ghost view = { λ t. text_content t.nodes.items t.elements t.names.items t.fields.items };

    ghost invariant = { λ t. IsRight (text_content t.nodes.items t.elements t.names.items t.fields.items) };
}

impl MshText {
    /// How many nodes there are.
    pub fn nodes(&self) -> usize
        ensures nodes { result ≡ length self.now.nodes }
        // What is said of every text: numbers in range and known where they are named, and so on.
        ensures right { IsRight self.now }
    {
        self.nodes.len()
    }

    /// The number and the coordinates, in 10^-10, of the node at place `i` in the file, from 0.
    pub fn node(&self, i: usize) -> (u32, [i64; 3])
        requires { i < length self.now.nodes }
        ensures { slice_get self.now.nodes i ≡ Some (record { number = result.0; at = result.1 }) }
    {
        let FileNode { number, at } = self.nodes[i];
        (number, at)
    }

    /// How many elements there are.
    pub fn elements(&self) -> usize
        ensures { result ≡ length self.now.elements }
    {
        self.elements.len()
    }

    /// The element at place `i` in the file, from 0.
    pub fn element(&self, i: usize) -> ElementView<'_>
        requires { i < length self.now.elements }
        ensures { slice_get self.now.elements i
            ≡ Some (record { number = result.number; kind = result.kind; physical = result.physical; nodes = result.nodes.now }) }
    {
        self.elements.get(i)
    }

    /// How many physical names there are.
    pub fn names(&self) -> usize
        ensures { result ≡ length self.now.names }
    {
        self.names.len()
    }

    /// The dimension, the number and the text of the physical name at place `i` in the file, from 0.
    pub fn name(&self, i: usize) -> (u32, i32, &[u8])
        requires { i < length self.now.names }
        ensures { slice_get self.now.names i ≡ Some (record { dim = result.0; number = result.1; text = result.2.now }) }
    {
        let name = &self.names[i];
        (name.dim, name.number, &name.text)
    }

    /// How many data sections there are.
    pub fn fields(&self) -> usize
        ensures { result ≡ length self.now.fields }
    {
        self.fields.len()
    }

    /// What the values of the data section at place `i` in the file, from 0, belong to, and its rows.
    pub fn field(&self, i: usize) -> (Place, &DataField)
        requires { i < length self.now.fields }
        ensures { slice_get self.now.fields i ≡ Some (section_on result.0 result.1.now) }
    {
        let field = &self.fields[i];
        (field.on, &field.field)
    }
}
