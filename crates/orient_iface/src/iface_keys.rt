//! The keys of the points that ranks see, learned in the home round.
//!
//! A rank sees a face or an edge under the least key that its own cells give it. Where other ranks have
//! the point too, the key is the least of all: the ranks find it in one round of least words, the home
//! round, after which each rank knows the keys of its points. After `DMPlexInterpolate` on a distributed
//! `DMPlex`, which takes the orientation of a shared point from one of the ranks.

mod home;
mod keys;
mod leaves;
mod places;
mod values;

pub use keys::home_keys;
