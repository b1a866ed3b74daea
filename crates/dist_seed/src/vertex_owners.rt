//! The owners of vertices, by one round: each rank asks the minimum with its own number at each vertex that it
//! holds, and what is left is the least rank that holds the vertex. After `PetscSFFetchAndOp` of PETSc.

mod asks;
mod owners;

pub use owners::{owners_at, vertex_owners};
