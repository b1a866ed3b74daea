//! Worked rows beside the laws of meshes over ranks: small meshes that meet what the laws ask, and what the laws say of them.
//!
//! The rows stand in `proofs/`. There is no code.
