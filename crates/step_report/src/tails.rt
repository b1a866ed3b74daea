//! What stands in the line of a point by its local number: its tag, its cone, and what follows.

ghost use Rattle.std.specs.Prelude.{◌≡◌, ◌++◌, ◌<◌, [], length, get_or, slice_index, flat_map, OnOk};
ghost use Rattle.std.specs.List.{All};
ghost use Rattle.mesh_defs.specs.declared.ConeEntry.{ConeEntry as Entry};
ghost use Rattle.mesh_defs.specs.Tables.{dim_of};
ghost use Rattle.plex_base.specs.Dim.{dim_number};
ghost use Rattle.plex_defs.specs.Closure.{cone_entry};
ghost use Rattle.input_defs.specs.text_defs.Text.{entry_text};
ghost use Rattle.walk_defs.specs.step_defs.Points.{poly_of, covers_of, renamed, name_of, labels_of, fields_of, tail_of};
ghost use Rattle.walk_defs.specs.step_defs.Steps.{numbers_on};
ghost use Rattle.step_report.specs.Tails.{coordinates_of, rest_of};

use dist_number::Numbers;
use dist_state::RankMesh;
use mesh_defs::{ConeEntry, Poly};
use plex_base::{Dim, NoMemory};
use poly_tables::dim;
use report::report_lines::{
    append_at, append_cone, append_entry, append_label, append_tag, append_words,
};

/// The tag of a point.
pub(crate) fn append_name(line: &mut Vec<u8>, local: &RankMesh, p: u32) -> Result<(), NoMemory>
    requires { p < length local.now.diagram.points }
    ensures { OnOk result (line.new.items ≡ line.old.items ++ name_of local.now p) }
{
    let plex = local.plex();
    append_tag(line, plex.dim().number(), plex.poly_of(p), local.key(p))
}

/// The coordinates of a point that is a vertex.
fn append_coordinates(line: &mut Vec<u8>, local: &RankMesh, p: u32) -> Result<(), NoMemory>
    requires { p < length local.now.diagram.points }
    ensures { OnOk result (line.new.items ≡ line.old.items ++ coordinates_of local.now p) }
{
    let plex = local.plex();
    // Every diagram has its vertices after its cells: the proof takes this from the call.
    let _points = plex.chart();
    if dim(plex.poly_of(p)) == 0 {
        append_at(line, &local.at(p))?;
    }
    Ok(())
}

/// The dimension of a polytope.
fn dimension(poly: Poly) -> Dim
    ensures { dim_number result ≡ dim_of poly }
{
    match poly {
        Poly::Vertex => Dim::Zero,
        Poly::Segment => Dim::One,
        Poly::Triangle | Poly::Quad => Dim::Two,
        Poly::Tet | Poly::Hex => Dim::Three,
    }
}

/// The label values of a point.
#[tactic(auto, unfolding(walk_defs::specs::step_defs::Points::labels_of))]
fn append_labels(line: &mut Vec<u8>, local: &RankMesh, p: u32) -> Result<(), NoMemory>
    requires { p < length local.now.diagram.points }
    ensures { OnOk result (line.new.items ≡ line.old.items ++ labels_of local.now p) }
{
    let plex = local.plex();
    let of_points = dimension(plex.poly_of(p));
    append_label(
        line,
        plex.dim().number(),
        of_points.number(),
        local.label(of_points),
        p,
    )
}

/// The words of a point in all fields.
fn append_fields(
    line: &mut Vec<u8>,
    local: &RankMesh,
    sections: u32,
    p: u32,
) -> Result<(), NoMemory>
    requires { p < length local.now.diagram.points }
    ensures { OnOk result (line.new.items ≡ line.old.items ++ fields_of sections local.now p) }
{
    let _plex = local.plex();
    for i in 0..local.fields() {
        append_words(line, sections, i as u64, local.field(i).at(p))?;
    }
    Ok(())
}

/// What stands after the cone of a point.
#[tactic(auto, unfolding(crate::specs::Tails::rest_of), using(std::proofs::Common::append_assoc))]
fn append_rest(line: &mut Vec<u8>, local: &RankMesh, sections: u32, p: u32) -> Result<(), NoMemory>
    requires { p < length local.now.diagram.points }
    ensures { OnOk result (line.new.items ≡ line.old.items ++ rest_of sections local.now p) }
{
    append_coordinates(line, local, p)?;
    append_labels(line, local, p)?;
    append_fields(line, local, sections, p)
}

/// An entry, its point by the number that a rank has of it.
fn append_renumbered(
    line: &mut Vec<u8>,
    numbers: &Numbers,
    rank: u32,
    entry: ConeEntry,
) -> Result<(), NoMemory>
    requires rank { rank < length numbers.now }
    requires point { entry.point < length (numbers_on numbers.now rank) }
    ensures { OnOk result (line.new.items ≡ line.old.items ++ entry_text (cone_entry (slice_index (numbers_on numbers.now rank) entry.point) entry.o)) }
{
    append_entry(line, numbers.of(rank, entry.point), entry.o)
}

/// Entries, their points by the numbers that a rank has of them.
pub(crate) fn append_numbered(
    line: &mut Vec<u8>,
    numbers: &Numbers,
    rank: u32,
    entries: &[ConeEntry],
) -> Result<(), NoMemory>
    requires rank { rank < length numbers.now }
    requires points { All (λ (e : Entry). e.point < length (numbers_on numbers.now rank)) entries.now }
    ensures { OnOk result (line.new.items ≡ line.old.items ++ flat_map entry_text (renamed (numbers_on numbers.now rank) entries.now)) }
{
    for entry in entries {
        append_renumbered(line, numbers, rank, *entry)?;
    }
    Ok(())
}

/// What stands after the tag of a point, its cone by numbers.
pub(crate) fn append_numbered_tail(
    line: &mut Vec<u8>,
    local: &RankMesh,
    sections: u32,
    numbers: &Numbers,
    rank: u32,
    p: u32,
) -> Result<(), NoMemory>
    requires p { p < length local.now.diagram.points }
    requires rank { rank < length numbers.now }
    requires numbers { length (numbers_on numbers.now rank) ≡ length local.now.diagram.points }
    ensures { OnOk result (line.new.items ≡ line.old.items ++ tail_of sections local.now (renamed (numbers_on numbers.now rank) (covers_of local.now p)) p) }
{
    append_numbered(line, numbers, rank, local.plex().cone(p))?;
    append_rest(line, local, sections, p)
}

/// The same, its cone by local numbers.
pub(crate) fn append_local_tail(
    line: &mut Vec<u8>,
    local: &RankMesh,
    sections: u32,
    p: u32,
) -> Result<(), NoMemory>
    requires { p < length local.now.diagram.points }
    ensures { OnOk result (line.new.items ≡ line.old.items ++ tail_of sections local.now (covers_of local.now p) p) }
{
    append_cone(line, local.plex().cone(p))?;
    append_rest(line, local, sections, p)
}
