//! The sums of a step.
//!
//! A sum that leaves its type would be of more numbers than any memory holds: it is answered as want of memory.

ghost use Rattle.std.specs.Prelude.{◌≡◌, ◌+◌, ◌-◌, ◌<◌, ◌≤◌, ◌+ℤ◌, ◌++◌, true, pos, length, take, drop, map, fold, count_by, int_lt, IfOk, OnOk};
ghost use Rattle.cause_defs.specs.Reports.{Reports};
ghost use Rattle.mesh_defs.specs.declared.ConeEntry.{ConeEntry as Entry};
ghost use Rattle.walk_defs.specs.step_defs.Words.{signed_of};
ghost use Rattle.walk_defs.specs.step_defs.Steps.{ranks_of, words_in, coordinates_at, plain_sums};
ghost use Rattle.step_report.specs.Conditions.{local_at};
ghost use Rattle.step_report.specs.Counts.{is_of};
ghost use Rattle.step_report.specs.Sums.{AddsPoint, AreSums, back_of};

use cause_defs::ReportFault;
use dist_state::{Dist, RankMesh};
use mesh_defs::ConeEntry;
use plex_base::NoMemory;
use poly_tables::dim;
use report::report_lines::{Sums, append_sum_line, signed_of, write_line};
use shelf_io::Sink;

fn plus(sum: u64, more: u64) -> Result<u64, NoMemory>
    ensures { IfOk result (λ n. n ≡ sum + more) }
{
    match sum.checked_add(more) {
        Some(sum) => Ok(sum),
        None => Err(NoMemory),
    }
}

fn plus_signed(sum: i128, more: i64) -> Result<i128, NoMemory>
    ensures { IfOk result (λ n. n ≡ sum +ℤ more) }
{
    match sum.checked_add(i128::from(more)) {
        Some(sum) => Ok(sum),
        None => Err(NoMemory),
    }
}

fn plus_large(sum: u128, more: u64) -> Result<u128, NoMemory>
    ensures { IfOk result (λ n. n ≡ sum + more) }
{
    match sum.checked_add(u128::from(more)) {
        Some(sum) => Ok(sum),
        None => Err(NoMemory),
    }
}

/// Whether an entry has a negative orientation, as 1 or 0.
fn back_of(entry: ConeEntry) -> u64
    ensures { result ≡ back_of entry }
{
    if entry.o < 0 { 1 } else { 0 }
}

/// The entries with a negative orientation.
fn add_back(mut sum: u64, cone: &[ConeEntry]) -> Result<u64, NoMemory>
    ensures { IfOk result (λ n. n ≡ sum + count_by (λ (e : Entry). int_lt e.o (pos 0)) cone.now) }
{
    for entry in cone {
        sum = plus(sum, back_of(*entry))?;
    }
    Ok(sum)
}

/// Coordinates.
fn add_values(mut sum: i128, values: &[i64]) -> Result<i128, NoMemory>
    ensures { IfOk result (λ n. n ≡ fold ◌+ℤ◌ sum values.now) }
{
    for value in values {
        sum = plus_signed(sum, *value)?;
    }
    Ok(sum)
}

/// The coordinates of a point that is a vertex.
fn add_coordinates(sum: i128, local: &RankMesh, p: u32) -> Result<i128, NoMemory>
    requires { p < length local.now.diagram.points }
    ensures { IfOk result (λ n. n ≡ fold ◌+ℤ◌ sum (coordinates_at local.now p)) }
{
    let plex = local.plex();
    // Every diagram has its vertices after its cells: the proof takes this from the call.
    let _points = plex.chart();
    if dim(plex.poly_of(p)) == 0 {
        return add_values(sum, &local.at(p));
    }
    Ok(sum)
}

/// Words that are signed values.
fn add_signed(mut sum: i128, words: &[u64]) -> Result<i128, NoMemory>
    ensures { IfOk result (λ n. n ≡ fold ◌+ℤ◌ sum (map signed_of words.now)) }
{
    for word in words {
        sum = plus_signed(sum, signed_of(*word))?;
    }
    Ok(sum)
}

/// The data of a point, in the first fields.
fn add_data(mut sum: i128, local: &RankMesh, sections: u32, p: u32) -> Result<i128, NoMemory>
    requires p { p < length local.now.diagram.points }
    requires sections { sections ≤ length local.now.fields }
    ensures { IfOk result (λ n. n ≡ fold ◌+ℤ◌ sum (map signed_of (words_in (take sections local.now.fields) p))) }
{
    let _plex = local.plex();
    for i in 0..sections as usize {
        sum = add_signed(sum, local.field(i).at(p))?;
    }
    Ok(sum)
}

/// Words that are whole numbers.
fn add_whole(mut sum: u128, words: &[u64]) -> Result<u128, NoMemory>
    ensures { IfOk result (λ n. n ≡ fold ◌+◌ sum words.now) }
{
    for word in words {
        sum = plus_large(sum, *word)?;
    }
    Ok(sum)
}

/// The words of a point in the other fields.
fn add_dofs(mut sum: u128, local: &RankMesh, sections: u32, p: u32) -> Result<u128, NoMemory>
    requires p { p < length local.now.diagram.points }
    requires sections { sections ≤ length local.now.fields }
    ensures { IfOk result (λ n. n ≡ fold ◌+◌ sum (words_in (drop sections local.now.fields) p)) }
{
    let _plex = local.plex();
    let first = sections as usize;
    for i in 0..local.fields() - first {
        sum = add_whole(sum, local.field(first + i).at(p))?;
    }
    Ok(sum)
}

/// The sums with an owned point more.
fn with_point(sums: Sums, local: &RankMesh, sections: u32, p: u32) -> Result<Sums, NoMemory>
    requires p { p < length local.now.diagram.points }
    requires sections { sections ≤ length local.now.fields }
    ensures { IfOk result (λ new. AddsPoint local.now sections p sums new) }
{
    let cone = local.plex().cone(p);
    let owned = plus(sums.owned, 1)?;
    let entries = plus(sums.entries, cone.len() as u64)?;
    let back = add_back(sums.back, cone)?;
    let at = add_coordinates(sums.at, local, p)?;
    let values = add_data(sums.values, local, sections, p)?;
    let dofs = add_dofs(sums.dofs, local, sections, p)?;
    Ok(Sums {
        held: sums.held,
        owned,
        entries,
        back,
        at,
        values,
        dofs,
    })
}

/// The sums with point `p` of a rank more, where the rank owns it.
fn with_next(sums: Sums, d: &Dist, rank: u32, p: u32) -> Result<Sums, NoMemory>
    requires rank { rank < length d.now.locals }
    requires p { p < length (local_at d.now rank).diagram.points }
    requires sums { AreSums d.now rank p sums }
    ensures { IfOk result (λ new. AreSums d.now rank (p + 1) new) }
{
    let _ranks = d.ranks();
    let local = d.local(rank);
    let _plex = local.plex();
    if local.owner(p) == rank {
        return with_point(sums, local, d.sections(), p);
    }
    Ok(sums)
}

/// The sums with the points of a rank more that it owns.
fn with_owned(mut sums: Sums, d: &Dist, rank: u32) -> Result<Sums, NoMemory>
    requires rank { rank < length d.now.locals }
    requires sums { AreSums d.now rank 0 sums }
    ensures { IfOk result (λ new. AreSums d.now rank (length (local_at d.now rank).diagram.points) new) }
{
    for p in 0..d.local(rank).plex().chart() {
        sums = with_next(sums, d, rank, p)?;
    }
    Ok(sums)
}

/// The sums with a rank more.
fn with_rank(sums: Sums, d: &Dist, rank: u32) -> Result<Sums, NoMemory>
    requires rank { rank < length d.now.locals }
    requires sums { AreSums d.now rank 0 sums }
    ensures { IfOk result (λ new. AreSums d.now (rank + 1) 0 new) }
{
    let mut owned = with_owned(sums, d, rank)?;
    let held = plus(owned.held, u64::from(d.local(rank).plex().chart()))?;
    owned.held = held;
    Ok(owned)
}

/// The sums of all ranks.
fn sums_of(d: &Dist) -> Result<Sums, NoMemory>
    ensures { IfOk result (λ sums. AreSums d.now (length d.now.locals) 0 sums) }
{
    let mut sums = Sums {
        held: 0,
        owned: 0,
        entries: 0,
        back: 0,
        at: 0,
        values: 0,
        dofs: 0,
    };
    for rank in 0..d.ranks() {
        sums = with_rank(sums, d, rank)?;
    }
    Ok(sums)
}

/// The line of the sums.
fn append_sums(line: &mut Vec<u8>, d: &Dist) -> Result<(), NoMemory>
    ensures { OnOk result (line.new.items ≡ line.old.items ++ plain_sums d.now.sections (ranks_of d.now)) }
{
    let sums = sums_of(d)?;
    append_sum_line(line, &sums)
}

/// Writes the line of the sums.
pub(crate) fn write_sums<W: Sink>(
    line: &mut Vec<u8>,
    d: &Dist,
    out: &mut W,
) -> Result<(), ReportFault>
    ensures { Reports W.written W.flushed W.faults W.counts_failures_alone result out.old out.new (plain_sums d.now.sections (ranks_of d.now)) }
{
    line.clear();
    append_sums(line, d)?;
    write_line(out, line)
}
