//! What is counted of a diagram.

ghost use Rattle.std.specs.Prelude.{◌≤◌, length};

use crate::trouble::Trouble;
use plex_chart::Plex;
use plex_walk::{SupportLists, supports};
use std::alloc::Global;

/// How many entries all cones have.
fn cone_entries(plex: &Plex) -> u64 {
    let mut entries = 0u64;
    for p in 0..plex.chart() {
        entries = entries.wrapping_add(plex.cone(p).len() as u64);
    }
    entries
}

/// Appends the lines `points N` and `entries N`, of the cones.
pub(crate) fn append_diagram(
    alloc: Global,
    plex: &Plex,
    lines: &mut Vec<u8>,
) -> Result<(), Trouble> {
    let (points, entries) = (plex.chart(), cone_entries(plex));
    let text = format!(in alloc; "points {points}\nentries {entries}\n")?;
    lines.extend_from_slice(text.as_bytes())?;
    Ok(())
}

/// How many points so many supports have.
fn supporting(lists: &SupportLists, chart: u32) -> u64
    requires { chart ≤ length lists.now }
{
    let mut points = 0u64;
    for p in 0..chart {
        points = points.wrapping_add(lists.of(p).len() as u64);
    }
    points
}

/// Appends the line `supports N`, of how many points all supports have.
pub(crate) fn append_supports(
    alloc: Global,
    plex: &Plex,
    lines: &mut Vec<u8>,
) -> Result<(), Trouble> {
    let points = supporting(&supports(alloc, plex)?, plex.chart());
    let text = format!(in alloc; "supports {points}\n")?;
    lines.extend_from_slice(text.as_bytes())?;
    Ok(())
}
