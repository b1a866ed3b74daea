//! A mesh spread over ranks: what each rank holds, and which points are the same.
//!
//! A [`RankMesh`] is made of its [`RankParts`], and a [`Dist`] of the meshes of its ranks. Both only
//! answer questions, none of which takes memory or searches along a list.
#![tactic(auto)]

mod dist;
mod rank_mesh;
pub mod scatter_state;
pub mod shared_state;

pub use dist::Dist;
pub use rank_mesh::{RankMesh, RankParts};
