//! Tests of `plex_walk`: supports, closures and stars of two triangles, and of the solids of generated meshes.

#[cfg(test)]
mod calls;
#[cfg(test)]
mod solids;
#[cfg(test)]
mod triangles;
