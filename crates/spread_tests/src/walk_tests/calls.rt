//! The calls, at numbers that a row gives, and what the row says of their answers.

use plex_base::NoMemory;
use plex_chart::{ConeEntry, Plex};
use plex_walk::{closure, star, supports};
use poly_orient::orientations;
use std::alloc::Global;
use std::process::Abort;
use std::test::Fail;

/// The closure of a point, and none where there is no such point or it has no such orientation.
pub fn closure_of(
    alloc: Global,
    x: &Plex,
    p: u32,
    o: i8,
) -> Result<Option<Vec<ConeEntry>>, NoMemory> {
    if p >= x.chart() {
        return Ok(None);
    }
    let (least, greatest) = orientations(x.poly_of(p));
    if o < least {
        return Ok(None);
    }
    if greatest < o {
        return Ok(None);
    }
    Ok(Some(closure(alloc, x, p, o)?))
}

/// The closure of a point under an orientation, as it is to be.
#[derive(Clone, Copy, Debug)]
pub struct Closure<'a> {
    pub point: u32,
    pub o: i8,
    pub entries: &'a [(u32, i8)],
}

/// Whether the closure has these entries, in this order.
pub fn has_closure(
    alloc: Global,
    x: &Plex,
    p: u32,
    o: i8,
    entries: &[(u32, i8)],
) -> Result<bool, NoMemory> {
    match closure_of(alloc, x, p, o)? {
        None => Ok(false),
        Some(closure) => {
            let same = closure
                .iter()
                .zip(entries)
                .all(|(seen, entry)| seen.point == entry.0 && seen.o == entry.1);
            Ok(same && closure.len() == entries.len())
        }
    }
}

/// Whether the point has this star.
pub fn has_star(alloc: Global, x: &Plex, p: u32, points: &[u32]) -> Result<bool, NoMemory> {
    let lists = supports(alloc, x)?;
    if p >= x.chart() {
        return Ok(false);
    }
    let star = star(alloc, x, &lists, p)?;
    Ok(star.as_slice() == points)
}

/// Whether the point has this support.
pub fn has_support(alloc: Global, x: &Plex, p: u32, points: &[u32]) -> Result<bool, NoMemory> {
    let lists = supports(alloc, x)?;
    if p >= x.chart() {
        return Ok(false);
    }
    Ok(lists.of(p) == points)
}

/// The diagram has these closures.
pub fn check_closures(
    rt: &impl Abort,
    alloc: Global,
    x: &Plex,
    rows: &[Closure],
) -> Result<(), Fail> {
    for row in rows {
        assert!(rt; has_closure(alloc, x, row.point, row.o, row.entries)?);
    }
    Ok(())
}

/// These points have these supports.
pub fn check_supports(
    rt: &impl Abort,
    alloc: Global,
    x: &Plex,
    rows: &[(u32, &[u32])],
) -> Result<(), Fail> {
    for (p, points) in rows {
        assert!(rt; has_support(alloc, x, *p, points)?);
    }
    Ok(())
}

/// These points have these stars.
pub fn check_stars(
    rt: &impl Abort,
    alloc: Global,
    x: &Plex,
    rows: &[(u32, &[u32])],
) -> Result<(), Fail> {
    for (p, points) in rows {
        assert!(rt; has_star(alloc, x, *p, points)?);
    }
    Ok(())
}
