//! What a program reads and writes: a `Shelf` of files that are taken whole, and a `Sink` of bytes.
//!
//! Each counts how often it has failed, and answers `Failed` only where that count rose. So a
//! caller's contract can say that a fault of the outside was its cause.
#![tactic(auto)]

mod folder_shelf;
mod memory_shelf;
mod memory_sink;
mod out_sink;
mod reading;
mod shelf;
mod sink;
mod waiting;

pub use cause_defs::Failed;
pub use folder_shelf::FolderShelf;
pub use memory_shelf::MemoryShelf;
pub use memory_sink::MemorySink;
pub use out_sink::OutSink;
pub use shelf::{Shelf, ShelfFault};
pub use sink::Sink;
