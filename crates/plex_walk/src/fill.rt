//! The supports of all points in one list: first how long each of them is, then where each begins,
//! and then the points. The numbers of point p stand at place p + 1 of a list, so that where its
//! support ends is in the end where the next one begins.
ghost use Rattle.std.specs.Prelude.{◌≡◌, ℕ, ◌+◌, ◌*◌, ◌^◌, ◌<◌, ◌≤◌, length, get_or};
ghost use Rattle.std.specs.List.{All};
ghost use Rattle.mesh_defs.specs.declared.ConeEntry.{ConeEntry as Entry};
ghost use Rattle.plex_walk.specs.Supports.{supports_of, segments, IsSegmented};
ghost use Rattle.plex_walk.specs.Filling.{IsCounted, AreSizes, AreSums, IsPut, CanPut, HasRoom};

use crate::entries::is_there;
use plex_chart::{ConeEntry, Plex};

/// Adds to the number of each point how many points have it in their cones.
pub(crate) fn count(x: &Plex, counts: &mut [usize])
    requires size { length counts.old ≡ length x.now.points + 1 }
    requires none { (j : ℕ) → j < length counts.old → get_or counts.old j 0 ≡ 0 }
    ensures { AreSizes x.now (length x.now.points) counts.new }
{
    for q in 0..x.chart() {
        count_cone(x.cone(q), counts);
    }
}

/// Adds one to the number of each point that the cone has.
fn count_cone(cone: &[ConeEntry], counts: &mut [usize])
    requires entries { All (λ (e : Entry). e.point + 1 < length counts.old) cone.now }
    requires fits { (j : ℕ) → j < length counts.old → get_or counts.old j 0 < 2 ^ 32 }
    ensures { IsCounted cone.now counts.old counts.new }
{
    for k in 0..cone.len() {
        if !is_there(cone[k].point, &cone[..k]) {
            counts[cone[k].point as usize + 1] += 1;
        }
    }
}

/// Puts in place of each number the sum of those before it, and answers the sum of all.
pub(crate) fn add_up(numbers: &mut [usize]) -> usize
    requires few { length numbers.old ≤ 2 ^ 32 }
    requires small { (j : ℕ) → j < length numbers.old → get_or numbers.old j 0 < 2 ^ 32 }
    ensures { AreSums numbers.old numbers.new result }
{
    let mut sum = 0;
    for number in numbers.iter_mut() {
        let next = sum + *number;
        *number = sum;
        sum = next;
    }
    sum
}

/// Puts the support of each point where there is room for it.
pub(crate) fn fill(x: &Plex, ends: &mut [usize], points: &mut [u32])
    requires { HasRoom x.now ends.old (length points.old) }
    ensures supports { segments ends.new points.new ≡ supports_of x.now }
    ensures segmented { IsSegmented ends.new points.new }
{
    for q in 0..x.chart() {
        put(q, x.cone(q), ends, points);
    }
}

/// Puts point `q` at the end of the support of each point that its cone has.
fn put(q: u32, cone: &[ConeEntry], ends: &mut [usize], points: &mut [u32])
    requires entries { All (λ (e : Entry). e.point + 1 < length ends.old) cone.now }
    requires room { CanPut cone.now ends.old (length points.old) }
    ensures { IsPut q cone.now ends.old points.old ends.new points.new }
{
    for k in 0..cone.len() {
        let entry = cone[k];
        if !is_there(entry.point, &cone[..k]) {
            let end = &mut ends[entry.point as usize + 1];
            points[*end] = q;
            *end += 1;
        }
    }
}
