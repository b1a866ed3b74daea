//! What the ranks bring to the meeting.
ghost use Rattle.std.specs.Prelude.{◌≡◌, ◌+◌, ◌*◌, ◌^◌, ◌<◌, length, IfOk};
ghost use Rattle.rank_laws.specs.share_laws.Packed.{packed};
ghost use Rattle.rank_chart_laws.specs.meeting_laws.Sets.{AreRankCharts, IsSetOf, chart_at};
ghost use Rattle.rank_chart_laws.specs.meeting_laws.Steps.{candidates, meeting_ids, meeting_keys, meeting_leaves, meeting_place};

use crate::charts::RankCharts;
use crate::vertices::place_of;
use plex_base::NoMemory;
use sf_graph::Leaf;
use std::alloc::Global;

/// Where a set of a rank meets: at the owner of its first vertex, at the place of that vertex there.
fn meeting_place<C: RankCharts>(charts: &C, rank: u32, set: &[u32; 4]) -> (u32, u32)
    requires right { AreRankCharts (C.charts charts.now) }
    requires rank { rank < length (C.charts charts.now) }
    requires set { IsSetOf (chart_at (C.charts charts.now) rank) set.now }
    ensures { result ≡ meeting_place (C.charts charts.now) rank set.now }
{
    let vertex = set[0];
    let place = place_of(charts.vertices(rank), vertex);
    let owner = charts.owner(rank, place as usize);
    (owner, place_of(charts.vertices(owner), vertex))
}

/// A leaf for each candidate of a rank, on the root where its set meets.
pub(crate) fn meeting_leaves<C: RankCharts>(
    alloc: Global,
    charts: &C,
    rank: u32,
    places: &[u32],
) -> Result<Vec<Leaf>, NoMemory>
    requires right { AreRankCharts (C.charts charts.now) }
    requires rank { rank < length (C.charts charts.now) }
    requires places { places.now ≡ candidates (C.charts charts.now) rank }
    ensures { IfOk result (λ leaves. leaves.items ≡ meeting_leaves (C.charts charts.now) rank) }
{
    let sets = charts.sets(rank);
    let mut leaves = Vec::with_capacity(alloc, places.len())?;
    for j in 0..places.len() {
        let (owner, index) = meeting_place(charts, rank, &sets[places[j] as usize]);
        leaves.push(Leaf {
            local: j as u32,
            rank: owner,
            index,
        })?;
    }
    Ok(leaves)
}

/// The key of each candidate of a rank: its set, packed.
pub(crate) fn meeting_keys<C: RankCharts>(
    alloc: Global,
    charts: &C,
    rank: u32,
    places: &[u32],
) -> Result<Vec<[u64; 2]>, NoMemory>
    requires right { AreRankCharts (C.charts charts.now) }
    requires rank { rank < length (C.charts charts.now) }
    requires places { places.now ≡ candidates (C.charts charts.now) rank }
    ensures { IfOk result (λ keys. keys.items ≡ meeting_keys (C.charts charts.now) rank) }
{
    let sets = charts.sets(rank);
    let mut keys = Vec::with_capacity(alloc, places.len())?;
    for place in places {
        keys.push(packed_set(sets[*place as usize]))?;
    }
    Ok(keys)
}

/// A set in two words.
#[tactic(auto, unfolding(rank_laws::specs::share_laws::Packed::packed))]
fn packed_set(set: [u32; 4]) -> [u64; 2]
    ensures { result ≡ packed set }
{
    let [a, b, c, d] = set;
    [one_word(a, b), one_word(c, d)]
}

/// Two numbers in one word.
fn one_word(high: u32, low: u32) -> u64
    ensures { result ≡ high * 2 ^ 32 + low }
{
    u64::from(high) * 4294967296 + u64::from(low)
}

/// The id of each candidate of a rank: the rank, and the place among all its points.
pub(crate) fn meeting_ids<C: RankCharts>(
    alloc: Global,
    charts: &C,
    rank: u32,
    places: &[u32],
) -> Result<Vec<u64>, NoMemory>
    requires right { AreRankCharts (C.charts charts.now) }
    requires rank { rank < length (C.charts charts.now) }
    requires places { places.now ≡ candidates (C.charts charts.now) rank }
    ensures { IfOk result (λ ids. ids.items ≡ meeting_ids (C.charts charts.now) rank) }
{
    let first = charts.cells(rank) + charts.vertices(rank).len() as u32;
    let mut ids = Vec::with_capacity(alloc, places.len())?;
    for place in places {
        ids.push(one_word(rank, first + *place))?;
    }
    Ok(ids)
}
