//! The fields of data sections, from the rows that a rank is given.

ghost use Rattle.std.specs.Prelude.{◌≡◌, ◌+◌, ◌<◌, ◌^◌, ◌++◌, length, map, get_or, take, None, IfOk, OnOk};
ghost use Rattle.dist_state.specs.scatter_state.Parts.{rows_at};
ghost use Rattle.interp_share.specs.rank_fields.Words.{after_on, before_on, count_on, row_words, section_words};

use crate::rank_fields::builder::{FieldBuilder, push_words};
use crate::rank_fields::sizes::ChartSizes;
use dist_state::scatter_state::RankPart;
use mesh_defs::Place;
use plex_base::NoMemory;
use plex_section::Field;
use std::alloc::Global;

/// The words of all points of a rank's own chart in data section `f`, which is on vertices or cells: the
/// rows that the rank is given, each value as its two's complement, and no words elsewhere.
///
/// There is a row for each vertex or cell, and the points are fewer than 2^32. `NoMemory` comes for want
/// of memory alone.
pub fn data_field(
    alloc: Global,
    part: &RankPart,
    f: usize,
    on: Place,
    sizes: ChartSizes,
) -> Result<Field, NoMemory>
    requires section { f < length part.now.rows }
    requires rows { length (rows_at part.now.rows f) ≡ count_on sizes on }
    requires few { sizes.cells + sizes.vertices + sizes.faces + sizes.edges < 2 ^ 32 }
    ensures { IfOk result (λ field. field ≡ section_words sizes on (rows_at part.now.rows f)) }
{
    let mut field = FieldBuilder::new(alloc);
    field.push_empty(before_on(sizes, on))?;
    push_rows(&mut field, alloc, part, f, count_on(sizes, on))?;
    field.push_empty(after_on(sizes, on))?;
    field.finish(alloc)
}

/// How many points a data section has rows for.
fn count_on(sizes: ChartSizes, on: Place) -> u32
    ensures { result ≡ count_on sizes on }
{
    match on {
        Place::Node => sizes.vertices,
        Place::Element => sizes.cells,
    }
}

/// How many points stand before them in the chart.
fn before_on(sizes: ChartSizes, on: Place) -> u32
    ensures { result ≡ before_on sizes on }
{
    match on {
        Place::Node => sizes.cells,
        Place::Element => 0,
    }
}

/// And how many stand behind them.
fn after_on(sizes: ChartSizes, on: Place) -> u32
    requires { sizes.cells + sizes.vertices + sizes.faces + sizes.edges < 2 ^ 32 }
    ensures { result ≡ after_on sizes on }
{
    match on {
        Place::Node => sizes.faces + sizes.edges,
        Place::Element => sizes.vertices + sizes.faces + sizes.edges,
    }
}

/// Pushes points with the words of the rows of a section.
fn push_rows(
    field: &mut FieldBuilder,
    alloc: Global,
    part: &RankPart,
    f: usize,
    count: u32,
) -> Result<(), NoMemory>
    requires section { f < length part.now.rows }
    requires rows { length (rows_at part.now.rows f) ≡ count }
    ensures { OnOk result (field.new ≡ field.old ++ map row_words (rows_at part.now.rows f)) }
{
    let mut words = Vec::new(alloc);
    for i in 0..count {
        words.clear();
        if let Some(values) = part.row(f, i as usize) {
            push_words(&mut words, values)?;
        }
        field.push(&words)?;
    }
    Ok(())
}
