//! The faces and edges that each rank sees.
ghost use Rattle.std.specs.Prelude.{map};
ghost use Rattle.interp_share.specs.rank_points.Seen.{Seen};

use crate::part_fields::RankLocals;
use crate::rank_points::SeenPoints;
use local_points::LocalPoints;

/// Of what ranks see the faces and edges.
#[derive(Drop)]
pub(crate) struct SeenLocals<'a> {
    pub(crate) seen: &'a [SeenPoints],
}

impl<'a> RankLocals for SeenLocals<'a> {
    ghost locals = { λ all. map (λ (own : Seen). own.local) all.seen.now };

    fn local(&self, rank: u32) -> &LocalPoints {
        self.seen[rank as usize].local()
    }
}
