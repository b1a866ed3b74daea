//! How ranks learn in which order the cell of the key has the vertices of each face and edge: the steps, and
//! what they come to.
//!
//! Each function below does nothing: its contract is the law, and its proof is the law's.

ghost use Rattle.std.specs.Prelude.{◌≡◌, ◌≤◌, ℕ, List, length, map};
ghost use Rattle.plain_lists.specs.Lists.{sorted};
ghost use Rattle.mesh_defs.specs.Mesh.{Mesh};
ghost use Rattle.rank_defs.specs.Spread.{PlainShared, IsShared};
ghost use Rattle.rank_chart_laws.specs.meeting_laws.Sets.{filled};
ghost use Rattle.rank_chart_laws.specs.key_laws.Keys.{own_point_keys};
ghost use Rattle.rank_cones.specs.arrangement_laws.Arrangements.{own_arrangements};
ghost use Rattle.rank_cones.specs.arrangement_laws.Orders.{in_order, order_number};
ghost use Rattle.rank_cones.specs.arrangement_laws.Told.{all_ordered, offers, AreGreatest};

/// At most four vertices are told by the rising vertices of their point and the number of their order.
pub fn orders_tell_vertices()
    ensures { (list : List ℕ) → length list ≤ 4 → in_order (filled (sorted list)) (order_number (filled (sorted list)) (filled list)) ≡ filled list }
{}

/// Where each rank offers what it sees under the keys, the greatest offers of all copies tell the vertices of
/// each face and edge as the cell of the key has them.
pub fn greatest_offers_tell_the_arrangements()
    ensures { (s : PlainShared) (m : Mesh) (dofs : List (List ℕ)) (a : List ℕ) (n : ℕ) (keys : List (List ℕ)) (orders : List (List ℕ)) → IsShared s m dofs a n → keys ≡ own_point_keys m a n → AreGreatest s.forest (offers s keys) orders → all_ordered s orders ≡ own_arrangements m a n }
{}
