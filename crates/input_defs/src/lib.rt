//! What comes in: mesh files, plans and words, the meshes that they stand for, and their refusals.
//!
//! The definitions stand in `specs/`, over plain lists and numbers, after the chapter on the MSH
//! format 2.2 of the Gmsh manual. Here are the types that they share with the code above, which the
//! crates that use them hand on. Lines count from 1; no definition gives a `NoMemory`.
#![tactic(auto)]

ghost use Rattle.std.specs.Prelude.{◌≡◌};

pub mod line_defs;
mod memory;
pub mod scan_defs;
pub mod text_defs;

/// What is wrong in the body of one data section.
#[derive(Clone, Copy, Debug, PartialEq, Eq)]
pub enum DataFault {
    /// A token has not the shape of the number that stands there.
    BadNumber { line: u32 },
    /// There are fewer than three integer tags, a negative number of rows, or more tokens than needed.
    BadCount { line: u32 },
    /// A string tag does not stand in quotes, alone on its line.
    BadName { line: u32 },
    /// The values have not 1, 3 or 9 components. A negative number is carried as 0.
    Components { line: u32, got: u32 },
    /// A row is for a number that no node or element has.
    UnknownNumber { line: u32, number: u32 },
    /// A number is out of range.
    OutOfRange { line: u32 },
    /// The body ends before the section has all its tokens: the line that ended it.
    Ended { line: u32 },
    NoMemory,
}

/// What there is too many of.
#[derive(Clone, Copy, Debug, PartialEq, Eq)]
pub enum What {
    Nodes,
    Elements,
    Names,
    Fields,
}

/// The first fault of a mesh file.
#[derive(Clone, Copy, Debug, PartialEq, Eq)]
pub enum MshFault {
    /// A known section begins, or the file ends, before `$MeshFormat` was read.
    NotMsh { line: u32 },
    /// The version is not 2.2.
    Version { line: u32 },
    /// The file is binary.
    Binary { line: u32 },
    /// Outside a section a header line has no name, or one that begins with `End`.
    Header { line: u32 },
    BadNumber { line: u32 },
    BadCount { line: u32 },
    BadName { line: u32 },
    /// A section's body ends at another line than the section's own closing line.
    Unclosed { line: u32 },
    RepeatedSection { line: u32 },
    /// `Nodes`, else `Elements`, are missing where they are needed.
    MissingSection { line: u32, nodes: bool },
    RepeatedNodeNumber { line: u32, number: u32 },
    ElementType { line: u32, kind: u32 },
    UnknownNode { line: u32, number: u32 },
    /// A node stands twice in an element.
    RepeatedNode { line: u32, number: u32 },
    Components { line: u32, got: u32 },
    UnknownNumber { line: u32, number: u32 },
    OutOfRange { line: u32 },
    TooMany { line: u32, what: What },
    NoMemory,
}

/// Why the content of a mesh file stands for no mesh.
#[derive(Clone, Copy, Debug, PartialEq, Eq)]
pub enum MeshFault {
    /// The greatest dimension of an element is below 2; without elements it is 0.
    NoCells { greatest: u32 },
    TooManyCells,
    /// Two elements on the same nodes are related by no orientation: the first such later one and the
    /// first one on these nodes, by their numbers in the file.
    CellTwist { element: u32, earlier: u32 },
    NoMemory,
}

/// The first fault of a plan, or the first way in which it does not fit a mesh.
#[derive(Clone, Copy, Debug, PartialEq, Eq)]
pub enum PlanFault {
    /// The line has none of the forms, or stands at the wrong place.
    Word { line: u32 },
    Ranks { line: u32, got: u32 },
    NoPart { line: u32 },
    Overlap { line: u32, total: u32 },
    Dofs { line: u32 },
    Steps { line: u32 },
    PartLength { line: u32, want: u32, got: u32 },
    PartRank { line: u32, rank: u32 },
    /// Cells times ranks are too many for overlap layers.
    Weight { line: u32, cells: u32, ranks: u32 },
    /// The line is read and is not built yet.
    NotYet { line: u32 },
    NoMemory,
}

/// One step of a plan: a part, or layers of overlap, where 0 drops all layers.
#[derive(Clone, Copy, Debug, PartialEq, Eq)]
pub enum Step {
    Part,
    Overlap(u32),
}

/// What a run prints.
#[derive(Clone, Copy, Debug, Default, PartialEq, Eq)]
pub struct Show {
    pub points: bool,
    pub local: bool,
    pub closure: bool,
    pub trace: bool,
    pub windows: bool,
    /// One line for each step in place of all others.
    pub summary: bool,
}

/// The kinds of generated meshes: triangles, quadrilaterals, tetrahedra, hexahedra.
#[derive(Clone, Copy, Debug, PartialEq, Eq)]
pub enum Kind {
    Tri,
    Quad,
    Tet,
    Hex,
}

/// How a run ended.
#[derive(Clone, Copy, Debug, PartialEq, Eq)]
pub enum Status {
    /// The whole text is written.
    Done,
    /// The words are not accepted.
    Words,
    /// The plan is refused.
    Plan,
    /// The mesh is refused.
    Mesh,
    /// A file could not be read.
    ReadFault,
    /// The output could not be written.
    WriteFault,
    /// Memory ran out.
    NoMemory,
    /// A file is longer than the limit.
    TooLong,
}

impl Status {
    ghost use Rattle.input_defs.specs.Statuses.{status_code};

    /// The exit status of a program that ends so.
    pub fn code(self) -> u8
        ensures { result ≡ status_code self }
    {
        match self {
            Status::Done => 0,
            Status::Words => 2,
            Status::Plan => 3,
            Status::Mesh => 4,
            Status::ReadFault => 6,
            Status::WriteFault => 7,
            Status::NoMemory => 8,
            Status::TooLong => 9,
        }
    }
}
