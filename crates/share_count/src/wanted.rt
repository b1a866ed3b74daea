//! What is asked for.
ghost use Rattle.std.specs.Prelude.{◌≤◌, IfOk};
ghost use Rattle.input_defs.specs.Words.{most as greatest};

use crate::trouble::Trouble;
use mesh_make::{Kind, most};
use scan::read_uint;

/// What is counted of a mesh.
#[derive(Clone, Copy, Debug)]
pub(crate) enum Wanted {
    /// Its cells.
    Made,
    /// The points of its diagram, which one rank has.
    Drawn,
    /// The points of so many ranks.
    Shared(u32),
}

/// The kind and the size of the mesh, and what is counted.
pub(crate) fn read_wanted(words: &[String]) -> Result<(Kind, u32, Wanted), Trouble>
    ensures some { IfOk result (λ w. 1 ≤ w.1) }
    ensures few { IfOk result (λ w. w.1 ≤ greatest w.0) }
{
    match words {
        [kind, n, wanted] => {
            let kind = kind_of(kind.as_str())?;
            let n = number_of(n.as_str())?;
            if n == 0 || n > most(kind) {
                return Err(Trouble::Words);
            }
            Ok((kind, n, wanted_of(wanted.as_str())?))
        }
        _ => Err(Trouble::Words),
    }
}

fn kind_of(word: &str) -> Result<Kind, Trouble> {
    match word {
        "tri" => Ok(Kind::Tri),
        "quad" => Ok(Kind::Quad),
        "tet" => Ok(Kind::Tet),
        "hex" => Ok(Kind::Hex),
        _ => Err(Trouble::Words),
    }
}

fn number_of(word: &str) -> Result<u32, Trouble> {
    if word.len() > 100 {
        return Err(Trouble::Words);
    }
    read_uint(word.as_bytes()).map_err(|_| Trouble::Words)
}

fn wanted_of(word: &str) -> Result<Wanted, Trouble> {
    match word {
        "made" => Ok(Wanted::Made),
        "drawn" => Ok(Wanted::Drawn),
        _ => Ok(Wanted::Shared(number_of(word)?)),
    }
}
