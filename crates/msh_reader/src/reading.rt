//! Reading a whole mesh file.

ghost use Rattle.std.specs.Prelude.{◌≡◌, ◌≢◌, ◌<◌, ◌≤◌, [], length, option_map, unwrap_or, Some, None, Ok, Err, IfOk, IfErr};
ghost use Rattle.input_defs.specs.Content.{Content};
ghost use Rattle.input_defs.specs.RightContent.{IsRight};
ghost use Rattle.input_defs.specs.Files.{Opening, known, said, finished, content_of, content, Parts as FileParts};
ghost use Rattle.input_laws.specs.reading_laws.Lexemes.{lexemes, beyond};
ghost use Rattle.input_laws.specs.reading_laws.Blocks.{blocks, last_line};
ghost use Rattle.msh_reader.specs.Headers.{known_of};
ghost use Rattle.msh_reader.specs.Views.{name_views, node_views};
ghost use Rattle.msh_reader.specs.Taking.{parts_view, said_after};

use crate::element_list::ElementList;
use crate::headers::{
    HeaderLine, Section, cut_short, is_wrong_header, next_header, pass_closing, section_named,
    skip_section,
};
use crate::nodes::NodeList;
use crate::parts::Parts;
use crate::text::{FileName, FileNode, MshText};
use crate::trouble::Trouble;
use input_defs::MshFault;
use plex_base::MAX_FILE_BYTES;
use scan::Scan;
use std::alloc::Global;

/// The nodes that were read, or none.
fn nodes_in(alloc: Global, nodes: Option<NodeList>) -> Vec<FileNode>
    ensures { node_views result.items ≡ unwrap_or (option_map (λ (list : NodeList). node_views list.nodes.items) nodes) [] }
{
    match nodes {
        Some(list) => list.nodes,
        None => Vec::new(alloc),
    }
}

/// The elements that were read, or none.
fn elements_in(alloc: Global, elements: Option<ElementList>) -> ElementList
    ensures { result ≡ unwrap_or elements [] }
{
    match elements {
        Some(list) => list,
        None => ElementList::new(Vec::new(alloc), Vec::new(alloc)),
    }
}

/// The names that were read, or none.
fn names_in(alloc: Global, names: Option<Vec<FileName>>) -> Vec<FileName>
    ensures { name_views result.items ≡ unwrap_or (option_map (λ v. name_views v.items) names) [] }
{
    match names {
        Some(names) => names,
        None => Vec::new(alloc),
    }
}

/// What was read, as a whole file.
fn text_of(alloc: Global, parts: Parts) -> MshText
    requires { IsRight (content_of (parts_view parts)) }
    ensures { result ≡ content_of (parts_view parts) }
{
    let Parts {
        format: _,
        names,
        nodes,
        elements,
        fields,
    } = parts;
    MshText {
        nodes: nodes_in(alloc, nodes),
        elements: elements_in(alloc, elements),
        names: names_in(alloc, names),
        fields,
    }
}

/// What was read, where the file ends on this line.
fn finish(alloc: Global, parts: Parts, line: u32) -> Result<MshText, MshFault>
    requires { (c : Content) → finished line Opening (parts_view parts) ≡ Ok c → IsRight c }
    ensures ok { IfOk result (λ text. finished line Opening (parts_view parts) ≡ Ok text) }
    ensures err { IfErr result (λ e. finished line Opening (parts_view parts) ≡ Err e) }
{
    match parts.unfinished(line) {
        Some(fault) => Err(fault),
        None => Ok(text_of(alloc, parts)),
    }
}

/// Takes over a section that begins with this header line, up to its closing line.
fn take_section(
    alloc: Global,
    scan: &mut Scan<'_>,
    header: HeaderLine<'_>,
    section: Section,
    parts: &mut Parts,
) -> Result<(), MshFault>
    requires { known header.name.now ≡ Some (known_of section) }
    ensures ok { IfOk result (λ _. said_after header.entry.name.now header.entry.line (parts_view parts.old) scan.old ≡ said (last_line (beyond scan.old)) Opening (parts_view parts.new) (blocks (beyond scan.new))) }
    ensures err { IfErr result (λ e. e ≢ MshFault.NoMemory → said_after header.entry.name.now header.entry.line (parts_view parts.old) scan.old ≡ Err e) }
    ensures file { IfOk result (λ _. last_line (beyond scan.new) ≡ last_line (beyond scan.old)) }
    ensures fewer { IfOk result (λ _. length (blocks (beyond scan.new)) < length (blocks (beyond scan.old))) }
{
    if let Some(fault) = parts.misplaced(header.line, section) {
        return Err(fault);
    }
    match parts.read(alloc, scan, section) {
        Ok(()) => pass_closing(scan, header.name),
        Err(Trouble::Fault(fault)) => Err(fault),
        Err(Trouble::Ended) => Err(cut_short(scan, header.name)),
    }
}

/// Passes a section that is not read, and begins with this header line.
fn pass_unknown(scan: &mut Scan<'_>, header: HeaderLine<'_>) -> Result<(), MshFault>
    requires { known header.name.now ≡ None }
    ensures ok { IfOk result (λ _. (parts : FileParts) → said_after header.entry.name.now header.entry.line parts scan.old ≡ said (last_line (beyond scan.old)) Opening parts (blocks (beyond scan.new))) }
    ensures err { IfErr result (λ e. (parts : FileParts) → said_after header.entry.name.now header.entry.line parts scan.old ≡ Err e) }
    ensures file { IfOk result (λ _. last_line (beyond scan.new) ≡ last_line (beyond scan.old)) }
    ensures fewer { IfOk result (λ _. length (blocks (beyond scan.new)) < length (blocks (beyond scan.old))) }
{
    if is_wrong_header(header.name) {
        return Err(MshFault::Header { line: header.line });
    }
    skip_section(scan, header.name)
}

/// Takes over the section that begins with this header line, or passes it.
fn take(
    alloc: Global,
    scan: &mut Scan<'_>,
    header: HeaderLine<'_>,
    parts: &mut Parts,
) -> Result<(), MshFault>
    ensures ok { IfOk result (λ _. said_after header.entry.name.now header.entry.line (parts_view parts.old) scan.old ≡ said (last_line (beyond scan.old)) Opening (parts_view parts.new) (blocks (beyond scan.new))) }
    ensures err { IfErr result (λ e. e ≢ MshFault.NoMemory → said_after header.entry.name.now header.entry.line (parts_view parts.old) scan.old ≡ Err e) }
    ensures file { IfOk result (λ _. last_line (beyond scan.new) ≡ last_line (beyond scan.old)) }
    ensures fewer { IfOk result (λ _. length (blocks (beyond scan.new)) < length (blocks (beyond scan.old))) }
{
    match section_named(header.name) {
        Some(section) => take_section(alloc, scan, header, section, parts),
        None => pass_unknown(scan, header),
    }
}

/// Reads a mesh file. Condition: at most [`MAX_FILE_BYTES`].
///
/// The bytes are a file in the MSH format 2.2 of the Gmsh manual, as text. An `Err` is its first
/// fault, by the order of the bytes, or that memory ran out.
pub fn read_msh(alloc: Global, bytes: &[u8]) -> Result<MshText, MshFault>
    requires { length bytes.now ≤ MAX_FILE_BYTES }
    // What is read is what the file says.
    ensures ok { IfOk result (λ text. content bytes.now ≡ Ok text) }
    // A fault is the first one of the file.
    ensures err { IfErr result (λ e. e ≢ MshFault.NoMemory → content bytes.now ≡ Err e) }
{
    let mut scan = Scan::new(bytes);
    let mut parts = Parts::new(alloc);
    loop {
        match next_header(&mut scan) {
            Ok(header) => take(alloc, &mut scan, header, &mut parts)?,
            Err(line) => return finish(alloc, parts, line),
        }
    }
}
