//! A plan that was read.

ghost use Rattle.std.specs.Prelude.{◌≡◌, ◌<◌, ◌≤◌, length, None, Some, option_map, IfOk, OnOk, IsSome};
ghost use Rattle.std.specs.List.{slice_get};
ghost use Rattle.input_defs.specs.Ahead.{first_ahead};
ghost use Rattle.input_defs.specs.Causes.{unless};
ghost use Rattle.input_defs.specs.Plans.{misfit, plain_plan, rank_by, step_of};
ghost use Rattle.plex_defs.specs.Fields.{AreRightDofs};
ghost use Rattle.plan_reader.specs.Drafts.{counts_of, spread_at};

use crate::fits::{first_misfit, line_ahead};
use crate::moves::{DofsLine, Move, MoveLine, Spread};
use input_defs::{PlanFault, Show, Step};
use plex_base::NoMemory;
use std::alloc::Global;
use std::marker::Model;

/// How the cells of a mesh are spread over ranks, step by step, which sections its points have, and
/// what is printed. Contracts see what its lines say.
#[derive(Debug, Drop)]
pub struct Plan {
    pub(crate) ranks: u32,
    pub(crate) moves: Vec<MoveLine>,
    pub(crate) dofs: Vec<DofsLine>,
    pub(crate) shows: Show,
}

impl Model for Plan {
    ghost use Rattle.std.specs.Prelude.{◌≤◌, IsSome};
    ghost use Rattle.plex_defs.specs.Fields.{AreRightDofs};
    ghost use Rattle.plan_reader.specs.Drafts.{PlanText, counts_of, plan_text, spread_at};
    ghost use Rattle.plan_reader.specs.Reading.{dofs_views, move_views};

    ghost Value = { PlanText };

    ghost view = { λ p. plan_text p.ranks p.moves.items p.dofs.items p.shows };

    ghost invariant = { λ p. (1 ≤ p.ranks) × (p.ranks ≤ 64) × AreRightDofs (counts_of (dofs_views p.dofs.items)) × IsSome (spread_at (move_views p.moves.items) 0) };
}

impl Plan {
    /// The plan without a plan file: `ranks 1`, `part block`, `show points`.
    ///
    /// Fails only for want of memory.
    pub fn plain(alloc: Global) -> Result<Plan, NoMemory>
        ensures { IfOk result (λ p. p.plan ≡ plain_plan) }
    {
        let what = Move::Part(Spread::Block);
        let mut moves = Vec::new(alloc);
        moves.push(MoveLine { line: 2, what })?;
        let mut shows = Show::default();
        shows.points = true;
        Ok(Plan {
            ranks: 1,
            moves,
            dofs: Vec::new(alloc),
            shows,
        })
    }

    /// How many ranks there are, from 1 to 64.
    pub fn ranks(&self) -> u32
        ensures ranks { result ≡ self.now.plan.ranks }
        ensures some { 1 ≤ result }
        ensures few { result ≤ 64 }

        // Every plan begins with a part.
        ensures part { IsSome (spread_at self.now.plan.moves 0) }
    {
        self.ranks
    }

    /// How many steps there are: parts, and lines of overlap.
    pub fn steps(&self) -> usize
        ensures { result ≡ length self.now.plan.moves }
    {
        self.moves.len()
    }

    /// Step `i`, from 0.
    pub fn step(&self, i: usize) -> Step
        requires { i < length self.now.plan.moves }
        ensures { option_map (λ m. step_of m.1) (slice_get self.now.plan.moves i) ≡ Some result }
    {
        match self.moves[i].what {
            Move::Part(_) => Step::Part,
            Move::Layers(k) => Step::Overlap(k),
        }
    }

    /// The rank to which step `i`, which is a part, assigns a cell of a mesh of so many cells, which
    /// the plan fits.
    pub fn rank_of(&self, i: usize, cell: u32, cells: u32) -> u32
        requires fits { misfit self.now.plan cells ≡ None }
        requires part { IsSome (spread_at self.now.plan.moves i) }
        requires cell { cell < cells }
        ensures { option_map (λ spread. rank_by self.now.plan.ranks spread cell cells) (spread_at self.now.plan.moves i) ≡ Some result }
    {
        match &self.moves[i].what {
            Move::Part(spread) => spread.rank_of(self.ranks, cell, cells),
            Move::Layers(_) => 0,
        }
    }

    /// What is printed. `summary` is not told by a plan.
    pub fn show(&self) -> Show
        ensures { result ≡ self.now.plan.shows }
    {
        self.shows
    }

    /// How many sections there are, at most eight.
    pub fn dofs(&self) -> usize
        ensures count { result ≡ length self.now.plan.dofs }

        // What the sections of every plan are.
        ensures right { AreRightDofs (counts_of self.now.plan.dofs) }
    {
        self.dofs.len()
    }

    /// The name of section `i`, from 0, and how many words it has at each point of dimension 0, 1, 2
    /// and 3.
    pub fn dof(&self, i: usize) -> (&[u8], [u32; 4])
        requires { i < length self.now.plan.dofs }
        ensures { slice_get self.now.plan.dofs i ≡ Some (record { name = result.0.now; dofs = result.1 }) }
    {
        let section = &self.dofs[i];
        (&section.name, section.dofs)
    }

    /// The line of the first step that is read and not built yet, if there is one: layers of overlap,
    /// or on two ranks or more a second part. Takes no memory.
    #[tactic(auto, unfolding(input_defs::specs::Ahead::first_ahead))]
    pub fn ahead(&self) -> Option<u32>
        ensures { result ≡ first_ahead self.now.plan }
    {
        line_ahead(self.ranks, &self.moves)
    }

    /// Whether the plan fits a mesh of so many cells. Takes no memory.
    ///
    /// An `Err` is the first misfit by line: `PartLength` where a part lists another number of ranks,
    /// else `PartRank` with the first listed rank that is not below the ranks; `Weight` where layers
    /// of overlap are added and cells times ranks exceed 4,000,000.
    #[tactic(auto, unfolding(input_defs::specs::Plans::misfit))]
    pub fn fits(&self, cells: u32) -> Result<(), PlanFault>
        ensures exact { result ≡ unless (misfit self.now.plan cells) tt }
        ensures fits { OnOk result (misfit self.now.plan cells ≡ None) }
    {
        first_misfit(self.ranks, cells, &self.moves)
    }
}
