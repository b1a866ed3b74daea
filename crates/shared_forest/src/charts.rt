//! What the ranks have.
ghost use Rattle.std.specs.Prelude.{◌≡◌, ◌<◌, List, get_or, length};
ghost use Rattle.rank_chart_laws.specs.meeting_laws.Sets.{RankChart, chart_at};

/// Stands in a set in the places behind its last vertex.
pub const NO_VERTEX: u32 = 4294967295;

/// The points of the ranks: on each rank cells, which no other rank has, then vertices, then faces and
/// edges as sets of two to four vertices.
pub trait RankCharts {
    /// What each rank has.
    ghost charts: { Self → List RankChart };

    /// The number of ranks.
    fn ranks(&self) -> u32
        ensures { result ≡ length (charts self.now) };

    /// How many cells a rank has.
    fn cells(&self, rank: u32) -> u32
        requires { rank < length (charts self.now) }
        ensures { result ≡ (chart_at (charts self.now) rank).cells };

    /// The vertices of a rank, by their positions in the whole mesh, rising.
    fn vertices(&self, rank: u32) -> &[u32]
        requires { rank < length (charts self.now) }
        ensures { result.now ≡ (chart_at (charts self.now) rank).vertices };

    /// The owner of the `i`th vertex of a rank: the first rank that has the vertex.
    fn owner(&self, rank: u32, i: usize) -> u32
        requires rank { rank < length (charts self.now) }
        requires place { i < length (chart_at (charts self.now) rank).vertices }
        ensures { result ≡ get_or (chart_at (charts self.now) rank).owners i 0 };

    /// The faces and edges of a rank as sets of vertices, rising, with `NO_VERTEX` behind the last one.
    fn sets(&self, rank: u32) -> &[[u32; 4]]
        requires { rank < length (charts self.now) }
        ensures { result.now ≡ (chart_at (charts self.now) rank).sets };
}
