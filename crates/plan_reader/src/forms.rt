//! The forms of a line.

ghost use Rattle.std.specs.Prelude.{◌≡◌, ◌<◌, ◌^◌, length, codes, option_map, IfOk, IfSome};
ghost use Rattle.input_defs.specs.line_defs.Rows.{tokens_of};
ghost use Rattle.input_defs.specs.Plans.{form_of, part_of, dofs_of, show_of, IsMove, Part};
ghost use Rattle.plan_reader.specs.Reading.{form_view, spread_view};
ghost use Rattle.plan_reader.specs.Drafts.{HasFewLayers};

use crate::moves::{Move, RankList, Spread};
use crate::numbers::{number, numbers, sole_number};
use crate::tokens::{sole_token, token};
use input_defs::Show;
use plex_base::NoMemory;
use std::alloc::Global;

/// What a line says.
#[derive(Debug, Drop)]
pub(crate) enum Form<'a> {
    Ranks(u32),
    Move(Move),
    Dofs(&'a [u8], [u32; 4]),
    Show(Show),
}

/// How a line spreads the cells that says `part` before: `block`, `stripe`, or at least one number.
fn part(alloc: Global, line: &[u8]) -> Result<Option<Spread>, NoMemory>
    requires { length line.now < 2 ^ 32 }
    ensures { IfOk result (λ found. option_map (λ spread. IsMove (Part (spread_view spread))) found ≡ part_of (tokens_of line.now)) }
{
    let Some((first, rest)) = token(line) else {
        return Ok(None);
    };
    let is_alone = token(rest).is_none();
    if first == b"block".as_slice() && is_alone {
        return Ok(Some(Spread::Block));
    }
    if first == b"stripe".as_slice() && is_alone {
        return Ok(Some(Spread::Stripe));
    }
    let Some(ranks) = numbers(alloc, line)? else {
        return Ok(None);
    };
    Ok(Some(Spread::Listed(RankList { ranks })))
}

/// The name and the four numbers of a line that says `dofs` before.
fn dofs(line: &[u8]) -> Option<Form<'_>>
    ensures form { option_map form_view result ≡ dofs_of (tokens_of line.now) }
    ensures layers { IfSome result (λ form. HasFewLayers (form_view form)) }
{
    let (name, rest) = token(line)?;
    let (vertices, rest) = token(rest)?;
    let (edges, rest) = token(rest)?;
    let (faces, rest) = token(rest)?;
    let cells = sole_token(rest)?;
    let dofs = [
        number(vertices)?,
        number(edges)?,
        number(faces)?,
        number(cells)?,
    ];
    Some(Form::Dofs(name, dofs))
}

/// What is shown by a line that says `show` before.
fn show(line: &[u8]) -> Option<Form<'_>>
    ensures form { option_map form_view result ≡ show_of (tokens_of line.now) }
    ensures layers { IfSome result (λ form. HasFewLayers (form_view form)) }
{
    let what = sole_token(line)?;
    let mut show = Show::default();
    if what == b"points".as_slice() {
        show.points = true;
    } else if what == b"local".as_slice() {
        show.local = true;
    } else if what == b"closure".as_slice() {
        show.closure = true;
    } else if what == b"trace".as_slice() {
        show.trace = true;
    } else if what == b"windows".as_slice() {
        show.windows = true;
    } else {
        return None;
    }
    Some(Form::Show(show))
}

/// What a line says that begins with this word, where it has one of the forms.
#[tactic(auto, unfolding(input_defs::specs::Plans::form_of))]
pub(crate) fn read_form<'a>(
    alloc: Global,
    word: &[u8],
    line: &'a [u8],
) -> Result<Option<Form<'a>>, NoMemory>
    requires { length line.now < 2 ^ 32 }
    ensures form { IfOk result (λ form. option_map form_view form ≡ form_of word.now (tokens_of line.now)) }
    ensures layers { IfOk result (λ form. IfSome form (λ f. HasFewLayers (form_view f))) }
{
    if word == b"ranks".as_slice() {
        let Some(n) = sole_number(line) else {
            return Ok(None);
        };
        return Ok(Some(Form::Ranks(n)));
    }
    if word == b"part".as_slice() {
        let Some(spread) = part(alloc, line)? else {
            return Ok(None);
        };
        return Ok(Some(Form::Move(Move::Part(spread))));
    }
    if word == b"overlap".as_slice() {
        let Some(k) = sole_number(line) else {
            return Ok(None);
        };
        return Ok(Some(Form::Move(Move::Layers(k))));
    }
    if word == b"dofs".as_slice() {
        return Ok(dofs(line));
    }
    if word == b"show".as_slice() {
        return Ok(show(line));
    }
    Ok(None)
}
