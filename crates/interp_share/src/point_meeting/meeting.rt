//! The forest of the points that ranks share.
ghost use Rattle.std.specs.Prelude.{◌≡◌, ℕ, List, IfOk};
ghost use Rattle.mesh_defs.specs.Mesh.{Mesh};
ghost use Rattle.rank_defs.specs.Spread.{point_forest, IsScatter};
ghost use Rattle.rank_laws.specs.share_laws.Charts.{own_charts};
ghost use Rattle.interp_share.specs.rank_points.Seen.{all_seen};

use crate::point_meeting::charts::PartCharts;
use crate::rank_points::SeenPoints;
use dist_state::scatter_state::Scatter;
use plex_base::NoMemory;
use sf_fabric::Fabric;
use sf_graph::Forest;
use shared_forest::shared_forest;
use std::alloc::Global;

/// The star forest of the points that the ranks share, as the point SF of a `DMPlex`: every point is a
/// root, and the leaves of a rank are its points that another rank owns, each on the same point there. A
/// point is named by its place on its rank: cells, vertices, faces, edges.
///
/// The scatter stands for some mesh, counts of words and assignment, and `seen` is what its ranks see
/// (`see_all`). No round is kept. `NoMemory` comes for want of memory alone.
pub fn mesh_forest<F: Fabric>(
    alloc: Global,
    scatter: &Scatter,
    seen: &[SeenPoints],
    fabric: &mut F,
) -> Result<Forest, NoMemory>
    requires mesh { (m : Mesh) × (dofs : List (List ℕ)) × (a : List ℕ) × (n : ℕ) × IsScatter scatter.now m dofs a n }
    requires seen { seen.now ≡ all_seen scatter.now.parts }
    ensures forest { (m : Mesh) (dofs : List (List ℕ)) (a : List ℕ) (n : ℕ) → IsScatter scatter.now m dofs a n → IfOk result (λ f. f ≡ point_forest m a (own_charts m a n)) }
    ensures kept { F.kept fabric.new ≡ F.kept fabric.old }
{
    let charts = PartCharts::of(scatter, seen);
    shared_forest(alloc, &charts, fabric)
}
