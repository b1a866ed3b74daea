//! Laws of sorting: whatever sort is used, it gives what the sort of the definitions gives.
//!
//! Each function below does nothing: its contract is the law, and its proof is the law's.

ghost use Rattle.std.specs.Prelude.{◌≡◌, ℕ, List, IsPermutation, IsSorted};
ghost use Rattle.std.specs.Ordering.{nat_cmp};
ghost use Rattle.plain_lists.specs.Lists.{sorted};

/// A permutation of some numbers in which none is below the one before it, as any sort leaves it, is the sorted list.
pub fn sorts_give_the_sorted_list()
    ensures { (xs : List ℕ) (ys : List ℕ) → IsPermutation xs ys → IsSorted nat_cmp ys → ys ≡ sorted xs }
{}
