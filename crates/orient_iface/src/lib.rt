//! The distributed mesh of what ranks share, with one orientation of each face and edge on all ranks.
//!
//! [`orient`] runs the home round, by which each point gets the key of the first cell that sees it, lets the
//! ranks tell each other how that cell sees it, and assembles the [`Dist`](dist_state::Dist).
#![tactic(auto)]

mod agreeing;
pub mod dist_assembly;
pub mod iface_arrangements;
pub mod iface_keys;
pub mod iface_twist;
pub mod moved_points;
mod orienting;

pub use orienting::{OrientFault, orient};
