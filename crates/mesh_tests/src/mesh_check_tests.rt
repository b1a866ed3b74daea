//! Tests of the accepted mesh of a file: files that are read and accepted, and files whose content
//! stands for no mesh.

#[cfg(test)]
mod files;
#[cfg(test)]
mod meshes;
#[cfg(test)]
mod refused;
#[cfg(test)]
mod steps;
