//! The head of a text: the mesh, its physical names, its data sections, and the number of ranks.

ghost use Rattle.std.specs.Prelude.{◌≡◌, ◌++◌, ◌<◌, ◌+◌, [], length, OnOk, flat_map, decimal, codes};
ghost use Rattle.std.specs.List.{enumerate_from};
ghost use Rattle.plex_base.specs.DataFields.{section_on};
ghost use Rattle.cause_defs.specs.Reports.{Reports};
ghost use Rattle.input_defs.specs.text_defs.Text.{mesh_line, ranks_line};
ghost use Rattle.input_defs.specs.Further.{in_quotes, place_text, name_line, section_line, dofs_line, full_head};
ghost use Rattle.report.specs.Heads.{mesh_head_line, name_at, field_at, dofs_at};

use crate::report_lines::{append_field, append_number, write_line};
use cause_defs::ReportFault;
use itoa::Buffer;
use mesh_defs::Place;
use plan_reader::{Plan, Show};
use plex_base::{DataField, NoMemory};
use plex_mesh::Mesh;
use shelf_io::Sink;
use std::alloc::Global;

/// A text in quotes, after a blank.
#[tactic(auto, using(std::proofs::Common::append_assoc))]
fn append_quoted(line: &mut Vec<u8>, text: &[u8]) -> Result<(), NoMemory>
    ensures { OnOk result (line.new.items ≡ line.old.items ++ in_quotes text.now) }
{
    line.extend_from_slice(b" \"")?;
    line.extend_from_slice(text)?;
    line.push(b'"')?;
    Ok(())
}

#[tactic(auto, unfolding(input_defs::specs::text_defs::Text::mesh_line), using(std::proofs::Common::append_assoc))]
fn append_mesh_line(line: &mut Vec<u8>, mesh: &Mesh) -> Result<(), NoMemory>
    ensures { OnOk result (line.new.items ≡ line.old.items ++ mesh_head_line mesh.now) }
{
    append_field(line, b"mesh dim ", u64::from(mesh.dim().number()))?;
    append_field(line, b" cells ", u64::from(mesh.cells()))?;
    append_field(line, b" vertices ", u64::from(mesh.vertices()))?;
    append_field(line, b" unused ", u64::from(mesh.unused()))?;
    append_field(line, b" loose ", u64::from(mesh.loose()))?;
    append_field(line, b" merged ", u64::from(mesh.merged()))?;
    line.push(b'\n')?;
    Ok(())
}

#[tactic(auto, unfolding(input_defs::specs::Further::name_line), using(std::proofs::Common::append_assoc))]
fn append_name_line(line: &mut Vec<u8>, dim: u32, number: i32, text: &[u8]) -> Result<(), NoMemory>
    ensures { OnOk result (line.new.items ≡ line.old.items ++ name_line (record { dim = dim; number = number; text = text.now })) }
{
    append_field(line, b"name ", u64::from(dim))?;
    line.push(b' ')?;
    line.extend_from_slice(Buffer::new().format(number).as_bytes())?;
    append_quoted(line, text)?;
    line.push(b'\n')?;
    Ok(())
}

fn place_text(on: Place) -> &'static [u8]
    ensures { result.now ≡ place_text on }
{
    match on {
        Place::Node => b" node ",
        Place::Element => b" element ",
    }
}

#[tactic(auto, unfolding(input_defs::specs::Further::section_line), using(std::proofs::Common::append_assoc))]
fn append_section_line(
    line: &mut Vec<u8>,
    i: usize,
    on: Place,
    field: &DataField,
) -> Result<(), NoMemory>
    ensures { OnOk result (line.new.items ≡ line.old.items ++ section_line (i, section_on on field.now)) }
{
    append_field(line, b"field ", i as u64)?;
    append_field(line, place_text(on), u64::from(field.comps()))?;
    append_quoted(line, field.name())?;
    line.push(b'\n')?;
    Ok(())
}

/// Writes the line of physical name `i`.
fn write_name<W: Sink>(
    line: &mut Vec<u8>,
    mesh: &Mesh,
    i: usize,
    out: &mut W,
) -> Result<(), ReportFault>
    requires { i < length mesh.now.names }
    ensures { Reports W.written W.flushed W.faults W.counts_failures_alone result out.old out.new (name_line (name_at mesh.now.names i)) }
{
    let (dim, number, text) = mesh.name(i);
    line.clear();
    append_name_line(line, dim, number, text)?;
    write_line(out, line)
}

fn write_names<W: Sink>(line: &mut Vec<u8>, mesh: &Mesh, out: &mut W) -> Result<(), ReportFault>
    ensures { Reports W.written W.flushed W.faults W.counts_failures_alone result out.old out.new (flat_map name_line mesh.now.names) }
{
    for i in 0..mesh.names() {
        write_name(line, mesh, i, out)?;
    }
    Ok(())
}

/// Writes the line of data section `i`.
fn write_section<W: Sink>(
    line: &mut Vec<u8>,
    mesh: &Mesh,
    i: usize,
    out: &mut W,
) -> Result<(), ReportFault>
    requires { i < length mesh.now.fields }
    ensures { Reports W.written W.flushed W.faults W.counts_failures_alone result out.old out.new (section_line (i, field_at mesh.now.fields i)) }
{
    let (on, field) = mesh.field(i);
    line.clear();
    append_section_line(line, i, on, field)?;
    write_line(out, line)
}

fn write_sections<W: Sink>(line: &mut Vec<u8>, mesh: &Mesh, out: &mut W) -> Result<(), ReportFault>
    ensures { Reports W.written W.flushed W.faults W.counts_failures_alone result out.old out.new (flat_map section_line (enumerate_from 0 mesh.now.fields)) }
{
    for i in 0..mesh.fields() {
        write_section(line, mesh, i, out)?;
    }
    Ok(())
}

fn write_mesh_line<W: Sink>(line: &mut Vec<u8>, mesh: &Mesh, out: &mut W) -> Result<(), ReportFault>
    ensures { Reports W.written W.flushed W.faults W.counts_failures_alone result out.old out.new (mesh_head_line mesh.now) }
{
    line.clear();
    append_mesh_line(line, mesh)?;
    write_line(out, line)
}

#[tactic(auto, unfolding(input_defs::specs::text_defs::Text::ranks_line), using(std::proofs::Common::append_assoc))]
fn write_ranks_line<W: Sink>(line: &mut Vec<u8>, ranks: u32, out: &mut W) -> Result<(), ReportFault>
    ensures { Reports W.written W.flushed W.faults W.counts_failures_alone result out.old out.new (ranks_line ranks) }
{
    line.clear();
    append_field(line, b"ranks ", u64::from(ranks))?;
    line.push(b'\n')?;
    write_line(out, line)
}

/// How many words a section has at the points of each dimension, each after a blank.
fn append_counts(line: &mut Vec<u8>, counts: &[u32; 4]) -> Result<(), NoMemory>
    ensures { OnOk result (line.new.items ≡ line.old.items ++ flat_map (λ n. codes " " ++ decimal n) counts.now) }
{
    for count in counts {
        line.push(b' ')?;
        append_number(line, u64::from(*count))?;
    }
    Ok(())
}

#[tactic(auto, unfolding(input_defs::specs::Further::dofs_line), using(std::proofs::Common::append_assoc))]
fn append_dofs_line(
    line: &mut Vec<u8>,
    i: u64,
    name: &[u8],
    counts: &[u32; 4],
) -> Result<(), NoMemory>
    ensures { OnOk result (line.new.items ≡ line.old.items ++ dofs_line (i, record { name = name.now; dofs = counts.now })) }
{
    append_field(line, b"field ", i)?;
    line.extend_from_slice(b" dofs")?;
    append_quoted(line, name)?;
    append_counts(line, counts)?;
    line.push(b'\n')?;
    Ok(())
}

/// Writes the line of section `i` of a plan, after so many data sections.
fn write_dofs_of<W: Sink>(
    line: &mut Vec<u8>,
    plan: &Plan,
    first: usize,
    i: usize,
    out: &mut W,
) -> Result<(), ReportFault>
    requires { i < length plan.now.plan.dofs }
    ensures { Reports W.written W.flushed W.faults W.counts_failures_alone result out.old out.new (dofs_line (first + i, dofs_at plan.now.plan.dofs i)) }
{
    let (name, counts) = plan.dof(i);
    // More sections than fit 64 bits fit no memory.
    let number = first.checked_add(i).ok_or(NoMemory)?;
    line.clear();
    append_dofs_line(line, number as u64, name, &counts)?;
    write_line(out, line)
}

fn write_dofs<W: Sink>(
    line: &mut Vec<u8>,
    mesh: &Mesh,
    plan: &Plan,
    out: &mut W,
) -> Result<(), ReportFault>
    ensures { Reports W.written W.flushed W.faults W.counts_failures_alone result out.old out.new (flat_map dofs_line (enumerate_from (length mesh.now.fields) plan.now.plan.dofs)) }
{
    for i in 0..plan.dofs() {
        write_dofs_of(line, plan, mesh.fields(), i, out)?;
    }
    Ok(())
}

/// Writes the head of a text: the mesh, its physical names, its data sections, the sections of the
/// plan, and the number of ranks. What is shown does not change it.
///
/// Fails where the sink does, or for want of memory. Then nothing, or a part of the head from its
/// beginning, is added.
pub fn write_head<W: Sink>(
    alloc: Global,
    mesh: &Mesh,
    plan: &Plan,
    _show: &Show,
    out: &mut W,
) -> Result<(), ReportFault>
    ensures { Reports W.written W.flushed W.faults W.counts_failures_alone result out.old out.new (full_head mesh.now plan.now.plan.dofs plan.now.plan.ranks) }
{
    let line = &mut Vec::new(alloc);
    write_mesh_line(line, mesh, out)?;
    write_names(line, mesh, out)?;
    write_sections(line, mesh, out)?;
    write_dofs(line, mesh, plan, out)?;
    write_ranks_line(line, plan.ranks(), out)
}
