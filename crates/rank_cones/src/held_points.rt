//! The faces and edges of one rank in the order of their keys, once the rank knows the key and the arrangement of each.
//!
//! [`held_points`] takes what the rank has by its own cells ([`LocalPoints`](local_points::LocalPoints)), the keys and the
//! arrangements, and answers [`HeldPoints`]: the strata of faces and edges of the rank's chart, and the place there of each
//! of its own points.

mod held;
mod laws;
mod order;
mod stored;
mod strata;

pub use held::{HeldPoints, held_points};
pub use laws::points_by_key_are_a_chart;
