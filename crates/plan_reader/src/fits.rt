//! Whether a plan fits a mesh, the ranks that its parts assign, and its first step that is not built yet.

ghost use Rattle.std.specs.Prelude.{◌≡◌, ◌<◌, ◌≤◌, length, drop, find, nat_le, option_map};
ghost use Rattle.std.specs.List.{flat_map};
ghost use Rattle.input_defs.specs.Ahead.{is_ahead};
ghost use Rattle.input_defs.specs.Causes.{first_cause, unless};
ghost use Rattle.input_defs.specs.Plans.{misfits, rank_by};
ghost use Rattle.plan_reader.specs.Reading.{move_line_view, move_views, spread_view};
ghost use Rattle.plan_reader.specs.Fits.{ranks_fit, HasRankFor};

use crate::moves::{Move, MoveLine, RankList, Spread};
use input_defs::PlanFault;
use plex_base::MAX_OVERLAP_CELLS;

/// The first of these that is not below the number of ranks.
fn rank_above(each: &[u32], ranks: u32) -> Option<u32>
    ensures { result ≡ find (nat_le ranks) each.now }
{
    each.iter().copied().find(|rank| ranks <= *rank)
}

/// Whether a part lists a rank below `ranks` for each cell.
fn list_fits(list: &RankList, line: u32, ranks: u32, cells: u32) -> Result<(), PlanFault>
    ensures { result ≡ unless (first_cause (ranks_fit ranks cells line list.now.ranks.items)) tt }
{
    let got = list.ranks.len();
    if got != cells as usize {
        return Err(PlanFault::PartLength {
            line,
            want: cells,
            got: got as u32,
        });
    }
    match rank_above(&list.ranks, ranks) {
        Some(rank) => Err(PlanFault::PartRank { line, rank }),
        None => Ok(()),
    }
}

/// Whether a move fits a mesh of so many cells.
#[tactic(auto, unfolding(input_defs::specs::Plans::misfits))]
fn move_fits(m: &MoveLine, ranks: u32, cells: u32) -> Result<(), PlanFault>
    requires { ranks ≤ 64 }
    ensures { result ≡ unless (first_cause (misfits ranks cells (move_line_view m.now))) tt }
{
    let line = m.line;
    match &m.what {
        Move::Part(Spread::Listed(list)) => list_fits(list, line, ranks, cells),
        Move::Part(_) => Ok(()),
        Move::Layers(k) => {
            let weight = u64::from(cells) * u64::from(ranks);
            if *k > 0 && weight > u64::from(MAX_OVERLAP_CELLS) {
                return Err(PlanFault::Weight { line, cells, ranks });
            }
            Ok(())
        }
    }
}

/// Whether all moves fit a mesh of so many cells, or the first misfit.
pub(crate) fn first_misfit(ranks: u32, cells: u32, moves: &[MoveLine]) -> Result<(), PlanFault>
    requires { ranks ≤ 64 }
    ensures { result ≡ unless (first_cause (flat_map (misfits ranks cells) (move_views moves.now))) tt }
{
    for m in moves {
        move_fits(m, ranks, cells)?;
    }
    Ok(())
}

/// Whether a step after the first one is read and not built yet.
fn is_ahead(ranks: u32, m: &MoveLine) -> bool
    ensures { result ≡ is_ahead ranks (move_line_view m.now) }
{
    match m.what {
        Move::Part(_) => ranks >= 2,
        Move::Layers(_) => true,
    }
}

/// The line of the first step that is read and not built yet.
pub(crate) fn line_ahead(ranks: u32, moves: &[MoveLine]) -> Option<u32>
    ensures { result ≡ option_map (λ m. m.0) (find (is_ahead ranks) (drop 1 (move_views moves.now))) }
{
    for i in 1..moves.len() {
        let m = &moves[i];
        if is_ahead(ranks, m) {
            return Some(m.line);
        }
    }
    None
}

impl Spread {
    /// The rank of a cell of so many.
    #[tactic(auto, unfolding(input_defs::specs::Plans::rank_by))]
    pub(crate) fn rank_of(&self, ranks: u32, cell: u32, cells: u32) -> u32
        requires some { 1 ≤ ranks }
        requires few { ranks ≤ 64 }
        requires cell { cell < cells }
        requires listed { HasRankFor cells (spread_view self.now) }
        ensures { result ≡ rank_by ranks (spread_view self.now) cell cells }
    {
        match self {
            Spread::Block => (u64::from(cell) * u64::from(ranks) / u64::from(cells)) as u32,
            Spread::Stripe => cell % ranks,
            Spread::Listed(list) => list.ranks[cell as usize],
        }
    }
}
