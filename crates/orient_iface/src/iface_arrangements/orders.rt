//! Orders of up to four vertices, as numbers.

ghost use Rattle.std.specs.Prelude.{◌≡◌, ◌<◌, get_or};
ghost use Rattle.rank_laws.specs.share_laws.Packed.{no_vertex};
ghost use Rattle.rank_chart_laws.specs.meeting_laws.Sets.{filled};
ghost use Rattle.rank_cones.specs.arrangement_laws.Orders.{in_order, order_number, place_of};

/// Stands in the place of a vertex that there is not.
const NO_VERTEX: u32 = 4294967295;

/// The first four vertices, with [`NO_VERTEX`] behind the last one up to four numbers.
pub(crate) fn filled(vertices: &[u32]) -> [u32; 4]
    ensures { result ≡ filled vertices.now }
{
    [
        vertex_or_none(vertices, 0),
        vertex_or_none(vertices, 1),
        vertex_or_none(vertices, 2),
        vertex_or_none(vertices, 3),
    ]
}

/// The vertex at a place, or [`NO_VERTEX`] behind the last one.
fn vertex_or_none(vertices: &[u32], k: usize) -> u32
    ensures { result ≡ get_or vertices.now k no_vertex }
{
    match vertices.get(k) {
        Some(vertex) => *vertex,
        None => NO_VERTEX,
    }
}

/// The order of these numbers among four, as a number of eight bits: two bits for the place of each.
#[tactic(auto, unfolding(rank_cones::specs::arrangement_laws::Orders::order_number))]
pub(crate) fn order_number(four: [u32; 4], list: [u32; 4]) -> u64
    ensures { result ≡ order_number four list }
{
    let [first, second, third, last] = list;
    ((place_of(first, four) * 4 + place_of(second, four)) * 4 + place_of(third, four)) * 4
        + place_of(last, four)
}

/// The place of a number among four; one that is not among the first three counts as the last.
fn place_of(number: u32, four: [u32; 4]) -> u64
    ensures place { result ≡ place_of number four }
    ensures low { result < 4 }
{
    let [first, second, third, _] = four;
    if first == number {
        0
    } else if second == number {
        1
    } else if third == number {
        2
    } else {
        3
    }
}

/// Four numbers in the order of this number.
pub(crate) fn in_order(four: [u32; 4], order: u64) -> [u32; 4]
    ensures { result ≡ in_order four order }
{
    [
        four[(order / 64 % 4) as usize],
        four[(order / 16 % 4) as usize],
        four[(order / 4 % 4) as usize],
        four[(order % 4) as usize],
    ]
}
