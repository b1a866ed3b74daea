//! Whether the content of a file stands for a mesh.

ghost use Rattle.std.specs.Prelude.{◌≡◌, ◌<◌, ◌&&◌, length, nat_eq, is_none, Ok, Err, IfSome, IfNone};
ghost use Rattle.mesh_defs.specs.Orientation.{relative};
ghost use Rattle.plex_base.specs.Dim.{dim_number};
ghost use Rattle.input_defs.specs.Meshes.{poly, dim, greatest_dim, is_twisted, twist, mesh_of, accepted};
ghost use Rattle.input_laws.specs.place_laws.Places.{element_at};

use crate::element_places::{ElementPlaces, dim_of_type, poly_of_type};
use input_defs::MeshFault;
use plex_base::MAX_CELLS;
use poly_orient::relative;

/// Whether the element at place `i` becomes no cell although it stands where one does, and is no
/// copy of it: no orientation relates its nodes to those of the first element there.
fn is_twisted(places: &ElementPlaces<'_>, i: usize) -> bool
    requires { i < length places.now.elements }
    ensures { result ≡ is_twisted places.now (element_at places.now.elements i) }
{
    let text = places.text();
    // Elements have as many nodes as corners, and they differ: the proof takes this from the call.
    let _nodes = text.nodes();
    let element = text.element(i);
    if dim_of_type(element.kind).number() != places.greatest_dim().number() {
        return false;
    }
    let first = text.element(places.first(i));
    relative(poly_of_type(element.kind), first.nodes, element.nodes).is_none()
}

/// The first element that is twisted against the first one on its nodes.
fn first_twist(places: &ElementPlaces<'_>) -> Option<MeshFault>
    ensures { result ≡ twist places.now }
{
    let text = places.text();
    for i in 0..text.elements() {
        if is_twisted(places, i) {
            return Some(MeshFault::CellTwist {
                element: text.element(i).number,
                earlier: text.element(places.first(i)).number,
            });
        }
    }
    None
}

/// Why the content stands for no mesh, if it does not. That there are too many cells comes before a
/// twist.
pub(crate) fn fault_of(places: &ElementPlaces<'_>) -> Option<MeshFault>
    ensures some { IfSome result (λ fault. accepted places.now ≡ Err fault) }
    ensures none { IfNone result (accepted places.now ≡ Ok (mesh_of places.now)) }
{
    let greatest = places.greatest_dim().number();
    if greatest < 2 {
        return Some(MeshFault::NoCells { greatest });
    }
    if places.cells().len() > MAX_CELLS as usize {
        return Some(MeshFault::TooManyCells);
    }
    first_twist(places)
}
