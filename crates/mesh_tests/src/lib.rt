//! Tests of labels, accepted meshes and generated meshes.
#![tactic(auto)]

pub mod base_tests;
#[cfg(test)]
mod generated;
pub mod job_words_tests;
#[cfg(test)]
mod label;
pub mod law_rows;
#[cfg(test)]
mod mesh;
pub mod mesh_check_tests;
pub mod msh_reader_tests;
pub mod plan_tests;
pub mod scan_tests;
pub mod shelf_io_tests;
