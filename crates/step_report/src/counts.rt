//! How many points a rank owns, and how many of its points each rank owns.

ghost use Rattle.std.specs.Prelude.{◌≡◌, ℕ, ◌+◌, ◌<◌, ◌≤◌, length, get_or};
ghost use Rattle.std.specs.List.{AllByRecursion};
ghost use Rattle.walk_defs.specs.step_defs.Points.{owner_of, owned_by, count_of};
ghost use Rattle.step_report.specs.Counts.{IsCounted, AreCounted};

use dist_state::RankMesh;
use poly_tables::dim;

/// How many points a rank owns, in all and of each dimension.
#[derive(Clone, Copy, Debug)]
pub(crate) struct Counts {
    pub owned: u32,
    pub by_dim: [u32; 4],
}

impl Counts {
    /// Counts point `p`, where the rank owns it.
    fn count(&mut self, local: &RankMesh, rank: u32, p: u32)
        requires counted { IsCounted local.now rank p self.old }
        requires p { p < length local.now.diagram.points }
        requires last { p < 4294967295 }
        ensures { IsCounted local.now rank (p + 1) self.new }
    {
        let plex = local.plex();
        if local.owner(p) == rank {
            self.owned += 1;
            self.by_dim[dim(plex.poly_of(p)) as usize] += 1;
        }
    }
}

/// Counts the points that a rank owns.
pub(crate) fn count_owned(local: &RankMesh, rank: u32) -> Counts
    ensures counted { IsCounted local.now rank (length local.now.diagram.points) result }
    ensures owned { result.owned ≡ length (owned_by rank local.now) }
    ensures by_dim { (d : ℕ) → d < 4 → get_or result.by_dim d 0 ≡ count_of d local.now (owned_by rank local.now) }
{
    let mut counts = Counts {
        owned: 0,
        by_dim: [0; 4],
    };
    for p in 0..local.plex().chart() {
        counts.count(local, rank, p);
    }
    counts
}

/// Counts a point for its owner.
fn count_owner(counts: &mut [u32; 64], local: &RankMesh, p: u32)
    requires counted { AreCounted local.now p counts.old }
    requires p { p < length local.now.diagram.points }
    requires owner { owner_of local.now p < 64 }
    requires last { p < 4294967295 }
    ensures { AreCounted local.now (p + 1) counts.new }
{
    let _plex = local.plex();
    counts[local.owner(p) as usize] += 1;
}

/// How many of the points of a rank each rank owns. Ranks are at most 64.
pub(crate) fn count_owners(local: &RankMesh, ranks: u32) -> [u32; 64]
    requires few { ranks ≤ 64 }
    requires owners { AllByRecursion (λ o. o < ranks) local.now.owners }
    ensures { AreCounted local.now (length local.now.diagram.points) result }
{
    let mut counts = [0; 64];
    for p in 0..local.plex().chart() {
        count_owner(&mut counts, local, p);
    }
    counts
}
