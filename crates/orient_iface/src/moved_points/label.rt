//! Labels of points in another order.

ghost use Rattle.std.specs.Prelude.{◌≡◌, ◌<◌, ◌^◌, ℕ, ℤ, length, map, fold, IfOk, OnOk};
ghost use Rattle.std.specs.List.{AllByRecursion};
ghost use Rattle.plex_defs.specs.Labels.{with_pair, values_at};
ghost use Rattle.rank_chart_laws.specs.moved_laws.Moves.{moved_label};

use plex_base::NoMemory;
use plex_label::Label;
use std::alloc::Global;

/// A label after its points moved: point `p` went to place `moves[p]` with its values.
///
/// There is a move for each point with a value, and there are fewer than 2^32. Fails only for want of memory.
pub fn moved_label(alloc: Global, label: &Label, moves: &[u32]) -> Result<Label, NoMemory>
    requires points { AllByRecursion (λ (pair : ℕ × ℤ). pair.0 < length moves.now) label.now }
    requires few { length moves.now < 2 ^ 32 }
    ensures { IfOk result (λ moved. moved ≡ moved_label moves.now label.now) }
{
    let mut moved = Label::new(alloc);
    for p in 0..moves.len() {
        move_values(&mut moved, label, p as u32, moves[p])?;
    }
    Ok(moved)
}

/// Gives a point of one label the values that another point has in another one.
fn move_values(moved: &mut Label, label: &Label, from: u32, to: u32) -> Result<(), NoMemory>
    ensures { OnOk result (moved.new ≡ fold with_pair moved.old (map (λ value. (to, value)) (values_at label.now from))) }
{
    let values = label.values_at(from)?;
    for value in &values {
        moved.add(to, *value)?;
    }
    Ok(())
}
