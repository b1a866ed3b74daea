//! Flags of numbers.

ghost use Rattle.std.specs.Prelude.{◌≡◌, ℕ, Bool, ◌||◌, length, map};
ghost use Rattle.input_defs.specs.RightContent.{NumbersDiffer};
ghost use Rattle.input_defs.specs.Sections.{has_number};

use crate::mesh_vertices::number_table::NumberTable;

/// Sets the flags of these numbers, where each number of a table has its flag at its place. Other
/// numbers have none.
pub(crate) fn set_flags(flags: &mut [bool], table: &NumberTable, numbers: &[u32])
    requires differ { NumbersDiffer table.now }
    requires count { length flags.old ≡ length table.now }
    ensures { (test : ℕ → Bool) → flags.old ≡ map test table.now → flags.new ≡ map (λ n. test n || has_number numbers.now n) table.now }
{
    for number in numbers {
        if let Some(place) = table.place(*number) {
            flags[place as usize] = true;
        }
    }
}
