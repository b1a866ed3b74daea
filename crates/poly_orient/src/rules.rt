//! Which permutations of the corners the orientations of the solids are.
//!
//! Each function below does nothing: its contract is the law, and its proof is the law's.

ghost use Rattle.std.specs.Prelude.{◌≡◌, ◌↔◌, ℕ, List, Contains, true, false};
ghost use Rattle.mesh_defs.specs.declared.Poly.TheVariants.{Tet, Hex};
ghost use Rattle.mesh_defs.specs.Orientation.{rotations, reflections, keeps_facets};
ghost use Rattle.poly_orient.specs.Rules.{IsOrder, AreRising, is_even, KeepsEdges};

/// The orientations of the tetrahedron are its permutations: from 0 on the even ones, from -1 down
/// the odd ones, each in lexicographic order.
pub fn tetrahedron_permutations()
    ensures even { (corners : List ℕ) → Contains (rotations Tet) corners ↔ (IsOrder 4 corners × (is_even corners ≡ true)) }
    ensures odd { (corners : List ℕ) → Contains (reflections Tet) corners ↔ (IsOrder 4 corners × (is_even corners ≡ false)) }
    ensures rotations_rise { AreRising (rotations Tet) }
    ensures reflections_rise { AreRising (reflections Tet) }
{}

/// The orientations of the hexahedron are the permutations that carry the set of its edges to itself:
/// from 0 on those that keep the sense of its facets, from -1 down the others, each in lexicographic
/// order.
pub fn hexahedron_permutations()
    ensures kept { (corners : List ℕ) → Contains (rotations Hex) corners ↔ (IsOrder 8 corners × KeepsEdges corners × (keeps_facets corners ≡ true)) }
    ensures turned_over { (corners : List ℕ) → Contains (reflections Hex) corners ↔ (IsOrder 8 corners × KeepsEdges corners × (keeps_facets corners ≡ false)) }
    ensures rotations_rise { AreRising (rotations Hex) }
    ensures reflections_rise { AreRising (reflections Hex) }
{}
