//! Slots of star forests: as many at a root as it has leaves, so that each leaf has one of its own, after
//! `PetscSFGetMultiSF`, `PetscSFGatherBegin` and `PetscSFScatterBegin` of PETSc.

mod drawing;
mod laws;
mod making;
mod moving;
mod slots;
mod values;

pub use drawing::multi;
pub use laws::{gathered_words_come_back, sums_of_one_draw_each_number_once};
pub use moving::{gather, scatter};
pub use slots::SlotForest;
