//! A whole data section.

ghost use Rattle.std.specs.Prelude.{◌≡◌, ◌≢◌, Ok, Err, IfOk, IfErr};
ghost use Rattle.input_defs.specs.DataSections.{section_of};
ghost use Rattle.plex_base.specs.DataFields.{section_on};
ghost use Rattle.input_laws.specs.reading_laws.Lexemes.{lexemes, beyond, end_line, at_end};

use crate::head::{field_name, int_tags, real_tags};
use crate::known::Numbers;
use crate::msh_body::end_of_body;
use crate::rows::read_rows;
use input_defs::DataFault;
use plex_base::{DataField, Place};
use scan::Scan;
use std::alloc::Global;

/// Reads the body of one data section, in which a scan stands; `known` has the numbers of the nodes
/// or elements that the values belong to.
///
/// The rows of the answer name the numbers of the file. After `Ok` and after `Ended` the scan stands
/// at the header line that ended the body, or at the end of the bytes. An `Err` is the first fault of
/// the body, or that memory ran out; `Ended` is that the body ends before the section has all its
/// tokens, with the line that ended it.
pub fn read_section<K: Numbers>(
    alloc: Global,
    s: &mut Scan<'_>,
    known: &K,
    on: Place,
) -> Result<DataField, DataFault>
    // The answer is what the body says, or its first fault.
    ensures ok { IfOk result (λ field. section_of on (K.known known.now) (end_line (beyond s.old)) (lexemes s.old) ≡ Ok (section_on on field)) }
    ensures err { IfErr result (λ e. e ≢ DataFault.NoMemory → section_of on (K.known known.now) (end_line (beyond s.old)) (lexemes s.old) ≡ Err e) }
    // It stays in the body, and stands at its end after these answers.
    ensures stays { beyond s.new ≡ beyond s.old }
    ensures read { IfOk result (λ _. s.new ≡ at_end (beyond s.old)) }
    ensures ended { IfErr result (λ e. e ≡ DataFault.Ended (end_line (beyond s.old)) → s.new ≡ at_end (beyond s.old)) }
{
    let name = field_name(alloc, s)?;
    real_tags(s)?;
    let shape = int_tags(s)?;
    let rows = read_rows(alloc, s, known, shape)?;
    end_of_body(s)?;
    Ok(DataField::new(name, shape.comps, rows.numbers, rows.values))
}
