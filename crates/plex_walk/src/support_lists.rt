//! The supports of all points, one after the other.
ghost use Rattle.std.specs.Prelude.{◌≡◌, ◌+◌, ◌<◌, ◌≤◌, [], length, get_or, IfOk};
ghost use Rattle.plex_walk.specs.Supports.{supports_of, segment};

use crate::fill::{add_up, count, fill};
use plex_base::NoMemory;
use plex_chart::Plex;
use std::alloc::Global;
use std::marker::Model;

/// The support of each point of a diagram: the points whose cone has it. Contracts see the lists of
/// the points, by their numbers.
#[derive(Debug, Drop)]
pub struct SupportLists {
    /// Where the support of each point begins in `points`, and at the end their number.
    starts: Vec<usize>,
    points: Vec<u32>,
}

impl Model for SupportLists {
    ghost use Rattle.std.specs.Prelude.{ℕ, List};
    ghost use Rattle.plex_walk.specs.Supports.{segments, IsSegmented};

    ghost Value = { List (List ℕ) };

    ghost view = { λ s. segments s.starts.items s.points.items };

    ghost invariant = { λ s. IsSegmented s.starts.items s.points.items };
}

impl SupportLists {
    /// The support of point `p`, rising, a point once even where its cone has `p` twice:
    /// `DMPlexGetSupport`. Takes no memory.
    pub fn of(&self, p: u32) -> &[u32]
        requires { p < length self.now }
        ensures { result.now ≡ get_or self.now p [] }
    {
        segment(&self.starts, &self.points, p as usize)
    }
}

/// List p of those that stand one after the other.
fn segment<'a>(starts: &[usize], points: &'a [u32], p: usize) -> &'a [u32]
    requires there { p + 1 < length starts.now }
    requires rising { get_or starts.now p 0 ≤ get_or starts.now (p + 1) 0 }
    requires within { get_or starts.now (p + 1) 0 ≤ length points.now }
    ensures { result.now ≡ segment starts.now points.now p }
{
    &points[starts[p]..starts[p + 1]]
}

/// The supports of all points of a diagram (`DMPlexSymmetrize`), in two passes over the cones: one
/// counts how long each support is, and one fills them.
pub fn supports(alloc: Global, x: &Plex) -> Result<SupportLists, NoMemory>
    ensures value { IfOk result (λ lists. lists ≡ supports_of x.now) }
    ensures length { IfOk result (λ lists. length lists ≡ length x.now.points) }
{
    let mut starts = vec![in alloc; 0usize; x.chart() as usize + 1]?;
    count(x, &mut starts);
    let total = add_up(&mut starts);
    let mut points = vec![in alloc; 0u32; total]?;
    fill(x, &mut starts, &mut points);
    Ok(SupportLists { starts, points })
}
