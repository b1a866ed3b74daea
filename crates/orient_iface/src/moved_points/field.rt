//! Fields of points in another order.

ghost use Rattle.std.specs.Prelude.{◌≡◌, ◌==◌, ◌<◌, ◌^◌, [], length, map, IfOk};
ghost use Rattle.std.specs.List.{position_or_len};
ghost use Rattle.plain_lists.specs.Lists.{below};
ghost use Rattle.rank_chart_laws.specs.moved_laws.Moves.{IsReordering, moved_list};

use interp_share::rank_fields::FieldBuilder;
use plex_base::NoMemory;
use plex_section::Field;
use std::alloc::Global;

/// A field after its points moved: point `p` went to place `moves[p]` with its words.
///
/// There is a move for each point, each to a place of its own, and there are fewer than 2^32 points. Fails only
/// for want of memory.
pub fn moved_field(alloc: Global, field: &Field, moves: &[u32]) -> Result<Field, NoMemory>
    requires points { length field.now ≡ length moves.now }
    requires order { IsReordering moves.now }
    requires few { length moves.now < 2 ^ 32 }
    ensures { IfOk result (λ moved. moved ≡ moved_list [] moves.now field.now) }
{
    let sources = sources_of(alloc, moves)?;
    let mut moved = FieldBuilder::new(alloc);
    for from in &sources {
        moved.push(field.at(*from))?;
    }
    moved.finish(alloc)
}

/// From where the point at each place came.
///
/// There is a move for each of fewer than 2^32 points, each to a place of its own. Fails only for want of
/// memory.
pub fn sources_of(alloc: Global, moves: &[u32]) -> Result<Vec<u32>, NoMemory>
    requires order { IsReordering moves.now }
    requires few { length moves.now < 2 ^ 32 }
    ensures { IfOk result (λ sources. sources.items ≡ map (λ j. position_or_len (λ k. k == j) moves.now) (below (length moves.now))) }
{
    let mut sources = vec![in alloc; 0u32; moves.len()]?;
    for i in 0..moves.len() {
        sources[moves[i] as usize] = i as u32;
    }
    Ok(sources)
}
