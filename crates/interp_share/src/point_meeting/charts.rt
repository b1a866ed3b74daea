//! What ranks are given and see, as charts that may meet.
ghost use Rattle.std.specs.Prelude.{◌≡◌};
ghost use Rattle.interp_share.specs.point_meeting.Charts.{charts_of, ArePartCharts};

use crate::rank_points::SeenPoints;
use dist_state::scatter_state::Scatter;
use shared_forest::RankCharts;
use std::marker::Model;

/// The points of ranks, by what each is given and what it sees of its cells. Contracts see the charts.
#[derive(Drop)]
pub(crate) struct PartCharts<'a> {
    scatter: &'a Scatter,
    seen: &'a [SeenPoints],
}

impl<'a> Model for PartCharts<'a> {
    ghost use Rattle.std.specs.Prelude.{List};
    ghost use Rattle.rank_chart_laws.specs.meeting_laws.Sets.{RankChart};
    ghost use Rattle.interp_share.specs.point_meeting.Charts.{charts_of, ArePartCharts};

    ghost Value = { List RankChart };

    ghost view = { λ c. charts_of c.scatter.now.parts };

    ghost invariant = { λ c. ArePartCharts c.scatter.now.parts c.seen.now };
}

impl<'a> PartCharts<'a> {
    /// The points of ranks that see these faces and edges. A rank has at most 250,000 cells.
    pub(crate) fn of(scatter: &'a Scatter, seen: &'a [SeenPoints]) -> PartCharts<'a>
        requires { ArePartCharts scatter.now.parts seen.now }
        ensures { result ≡ charts_of scatter.now.parts }
    {
        PartCharts { scatter, seen }
    }
}

impl<'a> RankCharts for PartCharts<'a> {
    ghost charts = { λ c. c };

    fn ranks(&self) -> u32 {
        self.scatter.ranks()
    }

    fn cells(&self, rank: u32) -> u32 {
        self.scatter.cells(rank).len() as u32
    }

    fn vertices(&self, rank: u32) -> &[u32] {
        self.scatter.vertices(rank)
    }

    fn owner(&self, rank: u32, i: usize) -> u32 {
        self.scatter.part(rank).owner(i)
    }

    fn sets(&self, rank: u32) -> &[[u32; 4]] {
        self.seen[rank as usize].sets()
    }
}
