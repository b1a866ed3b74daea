//! Tests of the top call: its texts, statuses and faults, from a shelf and a sink in memory.
#![tactic(auto)]

#[cfg(test)]
mod faults;
#[cfg(test)]
mod files;
#[cfg(test)]
mod made;
#[cfg(test)]
mod orientations;
#[cfg(test)]
mod plans;
#[cfg(test)]
mod rank_texts;
#[cfg(test)]
mod ranks;
#[cfg(test)]
mod refusals;
#[cfg(test)]
mod runs;
#[cfg(test)]
mod texts;
