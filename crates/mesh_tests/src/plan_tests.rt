//! Tests of plans: each fault by a plan that has it, what is read of others, and what they assign.

#[cfg(test)]
mod faults;
#[cfg(test)]
mod readers;
