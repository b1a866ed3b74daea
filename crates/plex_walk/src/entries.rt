//! Looking through the entries of one cone or of one closure.
ghost use Rattle.std.specs.Prelude.{◌≡◌};
ghost use Rattle.plex_defs.specs.Closure.{covers};

use plex_chart::ConeEntry;

/// Whether one of the entries is of point `p`.
pub(crate) fn is_there(p: u32, entries: &[ConeEntry]) -> bool
    ensures { result ≡ covers entries.now p }
{
    entries.iter().any(|e| e.point == p)
}
