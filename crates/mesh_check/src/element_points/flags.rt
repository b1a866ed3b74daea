//! Flags of the elements that parts lead to.

ghost use Rattle.std.specs.Prelude.{◌≡◌, [], ◌∷◌, length};
ghost use Rattle.plex_base.specs.Dim.{dim_number};
ghost use Rattle.input_laws.specs.place_laws.Places.{IsPlace};
ghost use Rattle.mesh_check.specs.element_points.Parts.{part};
ghost use Rattle.mesh_check.specs.element_points.Flags.{AreSet};
ghost use Rattle.mesh_check.specs.element_points.Marks.{AreMarks};

use crate::element_places::ElementPlaces;
use crate::element_points::marks::has_unmarked;
use plex_base::Dim;

/// Sets the flag of the first element of this dimension on these nodes, if there is one.
///
/// Where no element below the mesh's dimension has one of the nodes, there is none, and nothing is
/// looked up.
pub(crate) fn set_flag(
    found: &mut [bool],
    places: &ElementPlaces<'_>,
    lower: &[bool],
    dim: Dim,
    nodes: &[u32],
)
    requires each { length found.old ≡ length places.now.elements }
    requires marks { AreMarks places.now lower.now }
    requires place { IsPlace nodes.now }
    ensures { AreSet places.now.elements (part (dim_number dim) nodes.now ∷ []) found.old found.new }
{
    if dim.number() != places.greatest_dim().number() && has_unmarked(lower, nodes) {
        return;
    }
    if let Some(first) = places.first_on(dim, nodes) {
        found[first] = true;
    }
}
