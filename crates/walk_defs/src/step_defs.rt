//! The text of a step, over what the ranks hold.
//!
//! The definitions stand in `specs/`: a step is printed of a distributed mesh, numbers, a trace and rounds, each as plain
//! lists. No mesh is looked at. There is no code.
