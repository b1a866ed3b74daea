//! Tests of the last part of a distribution: keys, arrangements, drawings and the twist of ranks, and the
//! distributed mesh that is made of them.

#[cfg(test)]
mod drawings;
#[cfg(test)]
mod few_rounds;
#[cfg(test)]
mod held;
#[cfg(test)]
mod homes;
#[cfg(test)]
mod keys;
#[cfg(test)]
mod meshes;
#[cfg(test)]
mod moves;
#[cfg(test)]
mod orients;
#[cfg(test)]
mod readers;
#[cfg(test)]
mod twists;
