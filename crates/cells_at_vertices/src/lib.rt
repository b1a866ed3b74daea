//! How many cells of a mesh have each of its vertices, counted by ranks: the first thing to copy for a code
//! that adds up over cells.
//!
//! [`cells_at_vertices`] spreads a mesh over the ranks of a plan, lets each rank count by its own cells, and
//! adds the counts up over the copies of the points that ranks share, as `DMLocalToGlobal` with `ADD_VALUES`
//! and `DMGlobalToLocal` do in PETSc: the lumped mass of a mesh whose cells are each of size 1.
#![tactic(auto)]

mod closures;
mod counting;
mod counts;

pub use counting::cells_at_vertices;
pub use counts::{VertexCount, VertexCounts};
pub use orient_iface::OrientFault;
