//! What each rank sees of its own cells: the points that it has, before it knows which of them other
//! ranks have too.
//!
//! A rank makes the faces and edges of its cells by itself ([`see_points`]), the ranks side by side
//! ([`see_all`]). [`point_sets`] lists the vertices of all its points: cells, vertices, faces, edges.

mod all_sets;
mod laws;
mod part_cells;
mod ranks;
mod seen;
mod sorting;

pub use all_sets::point_sets;
pub use laws::{own_charts_by_strata, scatters_give_parts};
pub use part_cells::PartCells;
pub use ranks::see_all;
pub use seen::{SeenPoints, see_points};
