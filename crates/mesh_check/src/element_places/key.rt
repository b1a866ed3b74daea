//! Places as keys.

ghost use Rattle.std.specs.Prelude.{◌≡◌, ◌≤◌, length};
ghost use Rattle.input_laws.specs.place_laws.Places.{filled};
ghost use Rattle.plex_base.specs.Dim.{dim_number};

use plex_base::Dim;

/// A dimension, and a set of up to eight nodes: their numbers in rising order, with 0, which is no
/// node's number, before them.
pub(crate) type Key = (u32, [u32; 8]);

fn filled(nodes: &[u32]) -> [u32; 8]
    requires { length nodes.now ≤ 8 }
    ensures { result ≡ filled nodes.now }
{
    let mut all = [0; 8];
    all[8 - nodes.len()..].copy_from_slice(nodes);
    all.sort_unstable();
    all
}

/// The key of the elements of this dimension on these nodes.
pub(crate) fn key_on(dim: Dim, nodes: &[u32]) -> Key
    requires { length nodes.now ≤ 8 }
    ensures { result ≡ (dim_number dim, filled nodes.now) }
{
    (dim.number(), filled(nodes))
}
