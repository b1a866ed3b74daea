//! What was read of a plan up to a line.

ghost use Rattle.std.specs.Prelude.{◌≡◌, ◌<◌, ◌^◌, ◌||◌, [], ◌∷◌, ◌++◌, length, nat_le, nat_lt, not, Ok, Some};
ghost use Rattle.std.specs.List.{list_all, list_any};
ghost use Rattle.plain_lists.specs.Lists.{same_list};
ghost use Rattle.input_defs.specs.line_defs.Rows.{tokens_of};
ghost use Rattle.input_defs.specs.Causes.{map_ok};
ghost use Rattle.input_defs.specs.Plans.{IsRanks, IsMove, IsDofs, Part, Layers, before_any_line, with_form, with_line, plan_with, is_field_name, is_letter, both};
ghost use Rattle.plan_reader.specs.Reading.{Gives, ok_as, form_view, spread_view};
ghost use Rattle.plex_defs.specs.Fields.{AreRightDofs};
ghost use Rattle.plan_reader.specs.Drafts.{counts_of, HasFewLayers};

use crate::forms::{Form, read_form};
use crate::moves::{DofsLine, Move, MoveLine, Spread};
use crate::plan::Plan;
use crate::tokens::token;
use input_defs::{PlanFault, Show};
use plex_base::{MAX_DOFS, MAX_DOFS_LINES, MAX_OVERLAP, MAX_RANKS, MAX_STEPS};
use std::alloc::Global;
use std::marker::Model;

/// The most bytes of the name of a section.
const MAX_NAME_BYTES: usize = 32;

/// What was read of a plan up to a line.
#[derive(Drop)]
pub(crate) struct Draft {
    ranks: Option<u32>,
    moves: Vec<MoveLine>,
    /// The layers since the last part, or since they were dropped.
    layers: u32,
    dofs: Vec<DofsLine>,
    shows: Show,
}

impl Model for Draft {
    ghost use Rattle.input_defs.specs.Plans.{Before};
    ghost use Rattle.plan_reader.specs.Drafts.{drafted, IsDraft};
    ghost use Rattle.plan_reader.specs.Reading.{move_views, dofs_views};

    ghost Value = { Before };

    ghost view = { λ d. drafted d.ranks d.moves.items d.dofs.items d.shows };

    ghost invariant = { λ d. IsDraft d.ranks d.layers (move_views d.moves.items) (dofs_views d.dofs.items) };
}

/// What two lines show.
fn both(a: Show, b: Show) -> Show
    ensures { result ≡ both a b }
{
    Show {
        points: a.points || b.points,
        local: a.local || b.local,
        closure: a.closure || b.closure,
        trace: a.trace || b.trace,
        windows: a.windows || b.windows,
        summary: false,
    }
}

/// Whether a byte is a letter, a digit or `_`.
fn is_letter(byte: u8) -> bool
    ensures { result ≡ is_letter byte }
{
    matches!(byte, b'A'..=b'Z' | b'a'..=b'z' | b'0'..=b'9' | b'_')
}

fn are_letters(bytes: &[u8]) -> bool
    ensures { result ≡ list_all is_letter bytes.now }
{
    bytes.iter().all(|byte| is_letter(*byte))
}

/// Whether the name of a section is 1 to 32 letters, digits or `_`.
fn is_field_name(name: &[u8]) -> bool
    ensures { result ≡ is_field_name name.now }
{
    if name.is_empty() || name.len() > MAX_NAME_BYTES {
        return false;
    }
    are_letters(name)
}

/// Whether a section has this name.
fn has_name(sections: &[DofsLine], name: &[u8]) -> bool
    ensures { result ≡ list_any (λ (d : DofsLine). same_list d.name.items name.now) sections.now }
{
    sections.iter().any(|d| d.name.as_slice() == name)
}

/// Whether there are too many words at some dimension.
fn has_many(dofs: [u32; 4]) -> bool
    ensures { result ≡ list_any (λ n. nat_lt 16 n) dofs }
{
    dofs.iter().any(|n| *n > MAX_DOFS)
}

/// Whether a section can't be added to these.
fn is_wrong(sections: &[DofsLine], name: &[u8], dofs: [u32; 4]) -> bool
    ensures { result ≡ (not (is_field_name name.now) || list_any (λ (d : DofsLine). same_list d.name.items name.now) sections.now
        || list_any (λ n. nat_lt 16 n) dofs || nat_le 8 (length sections.now)) }
{
    !is_field_name(name)
        || has_name(sections, name)
        || has_many(dofs)
        || sections.len() >= MAX_DOFS_LINES as usize
}

impl Draft {
    /// What is known before any line.
    pub(crate) fn new(alloc: Global) -> Draft
        ensures { result ≡ before_any_line }
    {
        Draft {
            ranks: None,
            moves: Vec::new(alloc),
            layers: 0,
            dofs: Vec::new(alloc),
            shows: Show::default(),
        }
    }

    /// Takes `ranks n`.
    #[tactic(auto, unfolding(input_defs::specs::Plans::with_form))]
    fn take_ranks(&mut self, line: u32, n: u32) -> Result<(), PlanFault>
        ensures { Gives (ok_as self.new result) (with_form self.old line (Some (IsRanks n))) }
    {
        if self.ranks.is_some() {
            return Err(PlanFault::Word { line });
        }
        if n == 0 || n > MAX_RANKS {
            return Err(PlanFault::Ranks { line, got: n });
        }
        self.ranks = Some(n);
        Ok(())
    }

    /// Takes a part.
    #[tactic(auto, unfolding(input_defs::specs::Plans::with_form))]
    fn take_part(&mut self, line: u32, spread: Spread) -> Result<(), PlanFault>
        ensures { Gives (ok_as self.new result) (with_form self.old line (Some (IsMove (Part (spread_view spread))))) }
    {
        if self.ranks.is_none() {
            return Err(PlanFault::Word { line });
        }
        if self.moves.len() >= MAX_STEPS as usize {
            return Err(PlanFault::Steps { line });
        }
        let what = Move::Part(spread);
        self.moves
            .push(MoveLine { line, what })
            .map_err(|_| PlanFault::NoMemory)?;
        self.layers = 0;
        Ok(())
    }

    /// Takes `overlap k`.
    #[tactic(auto, unfolding(input_defs::specs::Plans::with_form))]
    fn take_layers(&mut self, line: u32, k: u32) -> Result<(), PlanFault>
        requires { k < 10 ^ 9 }
        ensures { Gives (ok_as self.new result) (with_form self.old line (Some (IsMove (Layers k)))) }
    {
        if self.moves.is_empty() {
            return Err(PlanFault::NoPart { line });
        }
        if self.moves.len() >= MAX_STEPS as usize {
            return Err(PlanFault::Steps { line });
        }
        let total = if k == 0 { 0 } else { self.layers + k };
        if total > MAX_OVERLAP {
            return Err(PlanFault::Overlap { line, total });
        }
        let what = Move::Layers(k);
        self.moves
            .push(MoveLine { line, what })
            .map_err(|_| PlanFault::NoMemory)?;
        self.layers = total;
        Ok(())
    }

    /// Adds a section, where no more than eight have no more than 16 words each.
    fn add_dofs(&mut self, alloc: Global, name: &[u8], dofs: [u32; 4]) -> Result<(), PlanFault>
        requires { AreRightDofs (counts_of self.old.dofs ++ dofs ∷ []) }
        ensures { Gives (ok_as self.new result) (Ok (record self.old { dofs = self.old.dofs ++ record { name = name.now; dofs = dofs } ∷ [] })) }
    {
        let name = Vec::from_slice(alloc, name).map_err(|_| PlanFault::NoMemory)?;
        self.dofs
            .push(DofsLine { name, dofs })
            .map_err(|_| PlanFault::NoMemory)?;
        Ok(())
    }

    /// Takes a section.
    #[tactic(auto, unfolding(input_defs::specs::Plans::with_form))]
    fn take_dofs(
        &mut self,
        alloc: Global,
        line: u32,
        name: &[u8],
        dofs: [u32; 4],
    ) -> Result<(), PlanFault>
        ensures { Gives (ok_as self.new result) (with_form self.old line (Some (IsDofs (record { name = name.now; dofs = dofs })))) }
    {
        if is_wrong(&self.dofs, name, dofs) {
            return Err(PlanFault::Dofs { line });
        }
        self.add_dofs(alloc, name, dofs)
    }

    /// Takes what a line says.
    #[tactic(auto, unfolding(input_defs::specs::Plans::with_form))]
    fn take(&mut self, alloc: Global, line: u32, form: Form<'_>) -> Result<(), PlanFault>
        requires { HasFewLayers (form_view form) }
        ensures { Gives (ok_as self.new result) (with_form self.old line (Some (form_view form.entry))) }
    {
        match form {
            Form::Ranks(n) => self.take_ranks(line, n),
            Form::Move(Move::Part(spread)) => self.take_part(line, spread),
            Form::Move(Move::Layers(k)) => self.take_layers(line, k),
            Form::Dofs(name, dofs) => self.take_dofs(alloc, line, name, dofs),
            Form::Show(shows) => {
                self.shows = both(self.shows, shows);
                Ok(())
            }
        }
    }

    /// Reads a line, which has this number.
    pub(crate) fn read_line(
        &mut self,
        alloc: Global,
        line: u32,
        text: &[u8],
    ) -> Result<(), PlanFault>
        requires { length text.now < 2 ^ 32 }
        ensures { Gives (ok_as self.new result) (with_line self.old line (tokens_of text.now)) }
    {
        let Some((word, rest)) = token(text) else {
            return Ok(());
        };
        if word[0] == b'#' {
            return Ok(());
        }
        let Some(form) = read_form(alloc, word, rest).map_err(|_| PlanFault::NoMemory)? else {
            return Err(PlanFault::Word { line });
        };
        self.take(alloc, line, form)
    }

    /// The plan, where its end is on this line.
    pub(crate) fn finish(self, line: u32) -> Result<Plan, PlanFault>
        ensures { map_ok (λ p. p.plan) result ≡ plan_with self line self.ranks }
    {
        let Some(ranks) = self.ranks else {
            return Err(PlanFault::NoPart { line });
        };
        if self.moves.is_empty() {
            return Err(PlanFault::NoPart { line });
        }
        Ok(Plan {
            ranks,
            moves: self.moves,
            dofs: self.dofs,
            shows: self.shows,
        })
    }
}
