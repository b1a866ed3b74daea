//! What is called before each ask.

/// Sees each ask just before it is done. Tests hold ranks back with it, so that they meet.
pub trait Gate: Sync {
    /// A rank is about to do the ask at this place of its list.
    fn arrive(&self, rank: u32, index: u32);
}

/// Holds nothing back.
#[derive(Clone, Copy, Debug)]
pub struct NoGate;

impl Gate for NoGate {
    fn arrive(&self, _rank: u32, _index: u32) {}
}
