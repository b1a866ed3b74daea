//! Faces and edges of ranks.

ghost use Rattle.std.specs.Prelude.{◌≡◌, ◌<◌, List, length};
ghost use Rattle.local_points.specs.Points.{Local};
ghost use Rattle.interp_share.specs.part_fields.Ranks.{local_at};

use local_points::LocalPoints;

/// The faces and edges that each rank sees of its own cells.
pub trait RankLocals {
    /// Those of each rank.
    ghost locals: { Self → List Local };

    /// Those of one rank.
    fn local(&self, rank: u32) -> &LocalPoints
        requires { rank < length (locals self.now) }
        ensures { result.now ≡ local_at (locals self.now) rank };
}
