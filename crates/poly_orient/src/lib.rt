//! Orientations of the polytopes: the ways to list the corners of one again, as a group, and what
//! they do to its facets. After `DMPolytopeTypeComposeOrientation` and its kin of DMPlex, with this
//! library's own numbers. No call takes memory.
#![tactic(auto)]

mod corners;
mod facets;
mod group;
mod listing;
mod relation;
mod rules;
mod symmetry;
mod tables;

pub use facets::cone_under;
pub use group::{compose, inverse};
pub use listing::{act, orientations};
pub use poly_tables::Poly;
pub use relation::relative;
pub use rules::{hexahedron_permutations, tetrahedron_permutations};
