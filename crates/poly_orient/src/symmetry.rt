//! An orientation by its sense and its place among those of that sense.

ghost use Rattle.std.specs.Prelude.{◌≡◌, ◌<◌};
ghost use Rattle.mesh_defs.specs.declared.Poly.{Poly};
ghost use Rattle.poly_orient.specs.Group.{IsOrientation};
ghost use Rattle.poly_orient.specs.Symmetries.{symmetry_of, orientation_of, symmetry_number, IsSymmetry};

/// How the corners of a polytope are listed again.
#[derive(Clone, Copy, Debug)]
pub enum Symmetry {
    /// Sense kept: orientations 0, 1, 2 and so on.
    Rotation(usize),
    /// Sense turned over: orientations -1, -2, -3 and so on.
    Reflection(usize),
}

/// What an orientation does.
#[tactic(auto, unfolding(crate::specs::Symmetries::symmetry_of))]
pub fn symmetry_of(o: i8) -> Symmetry
    ensures symmetry { result ≡ symmetry_of o }
    ensures of_each { (p : Poly) → IsOrientation p o → IsSymmetry p result }
{
    if o >= 0 {
        Symmetry::Rotation(o.unsigned_abs() as usize)
    } else {
        Symmetry::Reflection(o.unsigned_abs() as usize - 1)
    }
}

/// The orientation that does this.
#[tactic(auto, unfolding(crate::specs::Symmetries::orientation_of))]
pub fn orientation_of(symmetry: Symmetry) -> i8
    requires { symmetry_number symmetry < 128 }
    ensures number { result ≡ orientation_of symmetry }
    ensures of_each { (p : Poly) → IsSymmetry p symmetry → IsOrientation p result }
{
    match symmetry {
        Symmetry::Rotation(o) => o as i8,
        Symmetry::Reflection(s) => -1 - s as i8,
    }
}
