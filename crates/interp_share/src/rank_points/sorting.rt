//! Vertices of points in rising order.
ghost use Rattle.std.specs.Prelude.{◌≡◌, ◌≤◌, ◌∷◌, [], ◌++◌, length, OnOk};
ghost use Rattle.plain_lists.specs.Lists.{sorted};
ghost use Rattle.rank_chart_laws.specs.meeting_laws.Sets.{filled};

use plex_base::NoMemory;
use sf_fabric::flat_lists::ListsBuilder;

/// Stands in a set in the places behind its last vertex.
const NO_VERTEX: u32 = 4294967295;

/// Puts these vertices, rising, over numbers of which there are as many.
fn sort_into(own: &mut [u32], vertices: &[u32])
    requires { length own.old ≡ length vertices.now }
    ensures { own.new ≡ sorted vertices.now }
{
    own.copy_from_slice(vertices);
    own.sort_unstable();
}

/// The vertices of a face or an edge as a set: rising, with `NO_VERTEX` behind the last one.
pub(crate) fn set_on(vertices: &[u32]) -> [u32; 4]
    requires { length vertices.now ≤ 4 }
    ensures { result ≡ filled (sorted vertices.now) }
{
    let mut set = [NO_VERTEX; 4];
    sort_into(&mut set[..vertices.len()], vertices);
    set
}

/// Puts the vertices of a point, rising, behind the lists that are there.
pub(crate) fn push_sorted(lists: &mut ListsBuilder<u32>, vertices: &[u32]) -> Result<(), NoMemory>
    requires { length vertices.now ≤ 8 }
    ensures { OnOk result (lists.new ≡ lists.old ++ sorted vertices.now ∷ []) }
{
    let mut room = [0; 8];
    let own = &mut room[..vertices.len()];
    sort_into(own, vertices);
    lists.push(own)
}
