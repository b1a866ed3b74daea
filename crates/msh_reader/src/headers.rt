//! Header lines, and what may stand on them.

ghost use Rattle.std.specs.Prelude.{◌≡◌, ◌<◌, [], ◌∷◌, length, option_map, Ok, Err, IfOk, IfErr};
ghost use Rattle.plain_lists.specs.Lists.{same_list};
ghost use Rattle.input_defs.specs.Files.{Parts, Opening, Closing, Skipping, known, closing, cut_short, is_wrong_header, said};
ghost use Rattle.input_laws.specs.reading_laws.Lexemes.{lexemes, beyond};
ghost use Rattle.input_laws.specs.reading_laws.Blocks.{blocks, last_line};
ghost use Rattle.msh_reader.specs.Headers.{known_of, block_of};

use input_defs::MshFault;
use msh_data::Place;
use scan::Scan;

/// The name on a header line, and the number of that line.
#[derive(Clone, Copy)]
pub struct HeaderLine<'a> {
    pub name: &'a [u8],
    pub line: u32,
}

/// The sections that are read.
#[derive(Clone, Copy)]
pub enum Section {
    Format,
    Names,
    Nodes,
    Elements,
    Data(Place),
}

/// The section of this name, where it is one that is read.
pub fn section_named(name: &[u8]) -> Option<Section>
    ensures { option_map known_of result ≡ known name.now }
{
    if b"MeshFormat".as_slice() == name {
        Some(Section::Format)
    } else if b"PhysicalNames".as_slice() == name {
        Some(Section::Names)
    } else if b"Nodes".as_slice() == name {
        Some(Section::Nodes)
    } else if b"Elements".as_slice() == name {
        Some(Section::Elements)
    } else if b"NodeData".as_slice() == name {
        Some(Section::Data(Place::Node))
    } else if b"ElementData".as_slice() == name {
        Some(Section::Data(Place::Element))
    } else {
        None
    }
}

/// Whether a section can't have this name: it is empty, or begins with `End`.
pub fn is_wrong_header(name: &[u8]) -> bool
    ensures { result ≡ is_wrong_header name.now }
{
    matches!(name, [] | [b'E', b'n', b'd', ..])
}

/// Whether this is what stands on the closing line of a section of this name.
fn is_closing(text: &[u8], name: &[u8]) -> bool
    ensures { result ≡ same_list text.now (closing name.now) }
{
    match text {
        [b'E', b'n', b'd', rest @ ..] => rest == name,
        _ => false,
    }
}

/// The next header line; an `Err` is that there is none, with the line of the end of the file.
pub fn next_header<'a>(scan: &mut Scan<'a>) -> Result<HeaderLine<'a>, u32>
    ensures block { IfOk result (λ header. blocks (beyond scan.old) ≡ block_of header.name.now header.line (lexemes scan.new) ∷ blocks (beyond scan.new)) }
    ensures none { IfErr result (λ _. blocks (beyond scan.old) ≡ []) }
    ensures end { IfErr result (λ line. line ≡ last_line (beyond scan.old)) }
    ensures file { last_line (beyond scan.new) ≡ last_line (beyond scan.old) }
{
    match scan.header() {
        Some(token) => Ok(HeaderLine {
            name: scan.text(&token),
            line: token.line,
        }),
        None => Err(scan.line()),
    }
}

/// The fault of the body of a section that ends too early: a wrong count where the closing line is
/// the section's own.
pub fn cut_short(scan: &mut Scan<'_>, name: &[u8]) -> MshFault
    ensures { result ≡ cut_short (last_line (beyond scan.old)) name.now (blocks (beyond scan.old)) }
{
    match next_header(scan) {
        Ok(next) => {
            let line = next.line;
            if is_closing(next.name, name) {
                MshFault::BadCount { line }
            } else {
                MshFault::Unclosed { line }
            }
        }
        Err(line) => MshFault::Unclosed { line },
    }
}

/// Passes the closing line of a section.
pub fn pass_closing(scan: &mut Scan<'_>, name: &[u8]) -> Result<(), MshFault>
    ensures ok { IfOk result (λ _. (parts : Parts) → said (last_line (beyond scan.old)) (Closing name.now) parts (blocks (beyond scan.old)) ≡ said (last_line (beyond scan.old)) Opening parts (blocks (beyond scan.new))) }
    ensures err { IfErr result (λ e. (parts : Parts) → said (last_line (beyond scan.old)) (Closing name.now) parts (blocks (beyond scan.old)) ≡ Err e) }
    ensures file { last_line (beyond scan.new) ≡ last_line (beyond scan.old) }
    ensures fewer { IfOk result (λ _. length (blocks (beyond scan.new)) < length (blocks (beyond scan.old))) }
{
    match next_header(scan) {
        Ok(next) => {
            let line = next.line;
            if is_closing(next.name, name) {
                Ok(())
            } else {
                Err(MshFault::Unclosed { line })
            }
        }
        Err(line) => Err(MshFault::Unclosed { line }),
    }
}

/// Passes all up to the closing line of a section that is not read.
pub fn skip_section(scan: &mut Scan<'_>, name: &[u8]) -> Result<(), MshFault>
    ensures ok { IfOk result (λ _. (parts : Parts) → said (last_line (beyond scan.old)) (Skipping name.now) parts (blocks (beyond scan.old)) ≡ said (last_line (beyond scan.old)) Opening parts (blocks (beyond scan.new))) }
    ensures err { IfErr result (λ e. (parts : Parts) → said (last_line (beyond scan.old)) (Skipping name.now) parts (blocks (beyond scan.old)) ≡ Err e) }
    ensures file { last_line (beyond scan.new) ≡ last_line (beyond scan.old) }
    ensures fewer { IfOk result (λ _. length (blocks (beyond scan.new)) < length (blocks (beyond scan.old))) }
{
    loop {
        match next_header(scan) {
            Ok(next) => {
                if is_closing(next.name, name) {
                    return Ok(());
                }
            }
            Err(line) => return Err(MshFault::Unclosed { line }),
        }
    }
}
