//! One orientation after another, and the one that undoes another.

ghost use Rattle.std.specs.Prelude.{◌≡◌, ◌<◌, ℕ, List, length, pos};
ghost use Rattle.mesh_defs.specs.Tables.{corner_count};
ghost use Rattle.plain_lists.specs.Lists.{picked};
ghost use Rattle.mesh_defs.specs.Orientation.{act};
ghost use Rattle.poly_orient.specs.Group.{IsOrientation, composition, corners_of};
ghost use Rattle.poly_orient.specs.Symmetries.{corners_listed, IsSymmetry, combine_senses, place, second, undo};

use crate::corners::{corner, place, second};
use crate::symmetry::{Symmetry, orientation_of, symmetry_of};
use crate::tables::{
    HEX_REFLECTION_INVERSES, HEX_ROTATION_INVERSES, TET_REFLECTION_INVERSES, TET_ROTATION_INVERSES,
};
use poly_tables::Poly;

/// The symmetry at this place whose sense is kept where both symmetries keep it or neither does.
#[tactic(auto, unfolding(crate::specs::Symmetries::combine_senses))]
fn combine_senses(a: Symmetry, b: Symmetry, place: usize) -> Symmetry
    ensures { result ≡ combine_senses a b place }
{
    match (a, b) {
        (Symmetry::Rotation(_), Symmetry::Rotation(_))
        | (Symmetry::Reflection(_), Symmetry::Reflection(_)) => { Symmetry::Rotation(place) }
        _ => Symmetry::Reflection(place),
    }
}

/// The symmetry that is `a` applied after `b`.
fn compose_symmetries(p: Poly, a: Symmetry, b: Symmetry) -> Symmetry
    requires after { IsSymmetry p a }
    requires before { IsSymmetry p b }
    ensures symmetry { IsSymmetry p result }
    ensures corners { corners_listed p result ≡ picked (corners_listed p b) (corners_listed p a) }
{
    let first = corner(p, b, corner(p, a, 0));
    let second = corner(p, b, corner(p, a, second(p)));
    combine_senses(a, b, place(p, first, second))
}

/// The symmetry that undoes this one. A reflection of a polygon undoes itself.
#[tactic(auto, unfolding(crate::specs::Symmetries::undo, mesh_defs::specs::Orientation::rotations, mesh_defs::specs::Orientation::reflections))]
fn undo(p: Poly, symmetry: Symmetry) -> Symmetry
    requires { IsSymmetry p symmetry }
    ensures { result ≡ undo p symmetry }
{
    match (p, symmetry) {
        (Poly::Triangle, Symmetry::Rotation(o)) => Symmetry::Rotation((3 - o) % 3),
        (Poly::Quad, Symmetry::Rotation(o)) => Symmetry::Rotation((4 - o) % 4),
        (Poly::Tet, Symmetry::Rotation(o)) => Symmetry::Rotation(TET_ROTATION_INVERSES[o] as usize),
        (Poly::Tet, Symmetry::Reflection(s)) => Symmetry::Reflection(
            TET_REFLECTION_INVERSES[s] as usize,
        ),
        (Poly::Hex, Symmetry::Rotation(o)) => Symmetry::Rotation(HEX_ROTATION_INVERSES[o] as usize),
        (Poly::Hex, Symmetry::Reflection(s)) => Symmetry::Reflection(
            HEX_REFLECTION_INVERSES[s] as usize,
        ),
        _ => symmetry,
    }
}

/// The orientation that is `a` applied after `b`: acting by it is acting by `b` and then by `a`. Both
/// are orientations of `p`. After `DMPolytopeTypeComposeOrientation`.
pub fn compose(p: Poly, a: i8, b: i8) -> i8
    requires after { IsOrientation p a }
    requires before { IsOrientation p b }

    ensures orientation { IsOrientation p result }
    ensures value { result ≡ composition p a b }
    ensures acts { (vertices : List ℕ) → act p result vertices ≡ act p a (act p b vertices) }
{
    orientation_of(compose_symmetries(p, symmetry_of(a), symmetry_of(b)))
}

/// The orientation of `p` that undoes `o`, one of `p` as well: composed with it on either side it
/// gives 0. After `DMPolytopeTypeComposeOrientationInv`.
pub fn inverse(p: Poly, o: i8) -> i8
    requires { IsOrientation p o }

    ensures orientation { IsOrientation p result }
    ensures after { composition p result o ≡ pos 0 }
    ensures before { composition p o result ≡ pos 0 }
    ensures undoes { (vertices : List ℕ) → length vertices ≡ corner_count p → act p result (act p o vertices) ≡ vertices }
{
    orientation_of(undo(p, symmetry_of(o)))
}
