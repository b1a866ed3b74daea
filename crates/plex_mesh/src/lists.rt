use crate::cells::Cells;
use crate::marks::Marks;
use plex_base::{DataField, Dim, Place};

/// A data section with what its values belong to.
#[derive(Debug, Drop)]
pub(crate) struct PlacedField {
    pub on: Place,
    pub field: DataField,
}

/// A physical name as it is stored.
#[derive(Debug, Drop)]
pub(crate) struct StoredName {
    pub dim: u32,
    pub number: i32,
    pub text: Vec<u8>,
}

/// The lists of a mesh.
#[derive(Debug, Drop)]
pub(crate) struct Lists {
    pub dim: Dim,
    pub at: Vec<[i64; 3]>,
    pub cells: Cells,
    pub marks: Marks,
    pub fields: Vec<PlacedField>,
    pub names: Vec<StoredName>,
    pub unused: u32,
    pub loose: u32,
    pub merged: u32,
}
