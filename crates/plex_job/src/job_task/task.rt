//! What is to be done.

use plan_reader::Plan;
use plex_mesh::Mesh;

/// What words and files ask for.
#[derive(Drop)]
pub struct Task {
    pub mesh: Mesh,
    /// How the cells of the mesh are spread over ranks, and what is shown.
    pub plan: Plan,
    /// Whether one line of sums stands for each step.
    pub summary: bool,
}
