//! Cells and vertices that are given to ranks, before any rank knows which points it shares.
//!
//! A [`RankPart`] is made of its [`PartLists`], and a [`Scatter`] of the parts of its ranks. Both only
//! answer questions, none of which takes memory or searches along a list.

mod rank_part;
mod scatter;

pub use rank_part::{MarkHead, PartLists, RankPart};
pub use scatter::Scatter;
