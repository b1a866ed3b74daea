//! The section PhysicalNames.

ghost use Rattle.std.specs.Prelude.{map};
ghost use Rattle.input_defs.specs.Causes.{map_ok};
ghost use Rattle.input_defs.specs.Sections.{name, names};
ghost use Rattle.msh_reader.specs.Going.{Goes};
ghost use Rattle.msh_reader.specs.Views.{name_view, name_views};

use crate::numbers::count;
use crate::text::FileName;
use crate::trouble::Trouble;
use input_defs::What;
use msh_data::msh_body::{int, quoted, uint};
use plex_base::MAX_NAMES;
use scan::Scan;
use std::alloc::Global;

/// A physical name: its dimension, its number and its text.
fn name(alloc: Global, scan: &mut Scan<'_>) -> Result<FileName, Trouble>
    ensures { Goes name scan.old (map_ok name_view result) scan.new }
{
    let (dim, _) = uint(scan)?;
    let (number, _) = int(scan)?;
    let text = Vec::from_slice(alloc, quoted(scan)?)?;
    Ok(FileName { dim, number, text })
}

/// Reads the body of PhysicalNames.
pub fn names(alloc: Global, scan: &mut Scan<'_>) -> Result<Vec<FileName>, Trouble>
    ensures { Goes names scan.old (map_ok (λ v. name_views v.items) result) scan.new }
{
    let count = count(scan, MAX_NAMES, What::Names)?;
    let mut names = Vec::new(alloc);
    for _ in 0..count {
        names.push(name(alloc, scan)?)?;
    }
    Ok(names)
}
