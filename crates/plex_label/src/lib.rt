//! Labels of points, after DMLabel of PETSc: sets of pairs of a point and a value.
#![tactic(auto)]

ghost use Rattle.std.specs.Prelude.{◌≡◌, not, [], map, filter, IfOk, OnOk, OnErr};
ghost use Rattle.std.specs.Ordering.{nat_cmp, int_cmp};
ghost use Rattle.std.specs.List.Sorted.{IsStrictlySortedBy};
ghost use Rattle.plex_defs.specs.Labels.{has_pair, with_pair, points_with, values_at};
ghost use Rattle.plex_label.specs.Pairs.{pair_cmp, is_of_point};

use plex_base::NoMemory;
use std::alloc::Global;
use std::collections::BTreeSet;
use std::marker::Model;

/// A label, after DMLabel of PETSc: a set of pairs of a point and a value, where a point may have
/// several values. Contracts see it as the list of its pairs, by rising point and then by rising
/// value.
#[derive(Debug, Drop)]
pub struct Label {
    pairs: BTreeSet<(u32, i32)>,
    alloc: Global,
}

impl Model for Label {
    ghost use Rattle.std.specs.Prelude.{ℕ, ℤ, List};

    ghost Value = { List (ℕ × ℤ) };

    ghost use Rattle.plex_label.specs.Pairs.{IsPair};
    ghost use Rattle.std.specs.List.{AllByRecursion};

    ghost view = { λ l. l.pairs.keys };

    ghost invariant = { λ l. AllByRecursion IsPair l.pairs.keys };
}

/// The points that these pairs have with a value.
fn points_among(
    alloc: Global,
    pairs: &BTreeSet<(u32, i32)>,
    value: i32,
) -> Result<Vec<u32>, NoMemory>
    ensures points { IfOk result (λ points. points.items ≡ points_with pairs.now.keys value) }
    ensures ordered { IsStrictlySortedBy pair_cmp pairs.now.keys }
{
    let points = pairs
        .iter()
        .filter(|pair| pair.1 == value)
        .map(|pair| pair.0)
        .collect(alloc)?;
    Ok(points)
}

/// The values that these pairs have with a point.
fn values_among(alloc: Global, pairs: &BTreeSet<(u32, i32)>, p: u32) -> Result<Vec<i32>, NoMemory>
    ensures values { IfOk result (λ values. values.items ≡ map (λ pair. pair.1) (filter (is_of_point p) pairs.now.keys)) }
    ensures ordered { IsStrictlySortedBy pair_cmp pairs.now.keys }
{
    let values = pairs
        .range((p, i32::MIN)..=(p, i32::MAX))
        .map(|pair| pair.1)
        .collect(alloc)?;
    Ok(values)
}

impl Label {
    /// A label without pairs. It keeps the allocator.
    pub fn new(alloc: Global) -> Label
        ensures { result ≡ [] }
    {
        Label {
            pairs: BTreeSet::new(alloc),
            alloc,
        }
    }

    /// Gives a point a value: `DMLabelSetValue`. Answers true exactly where the pair is new.
    ///
    /// Fails only for want of memory, and then has added nothing.
    pub fn add(&mut self, p: u32, value: i32) -> Result<bool, NoMemory>
        ensures new { IfOk result (λ added. added ≡ not (has_pair self.old (p, value))) }
        ensures ok { OnOk result (self.new ≡ with_pair self.old (p, value)) }
        ensures err { OnErr result (self.new ≡ self.old) }
    {
        let added = self.pairs.insert((p, value))?;
        Ok(added)
    }

    /// Whether the point has the value: `DMLabelStratumHasPoint`. Takes no memory.
    pub fn has(&self, p: u32, value: i32) -> bool
        ensures { result ≡ has_pair self.now (p, value) }
    {
        self.pairs.contains(&(p, value))
    }

    /// The points with a value, ascending: `DMLabelGetStratumIS`. Looks at each pair of the label.
    ///
    /// Fails only for want of memory.
    pub fn points(&self, value: i32) -> Result<Vec<u32>, NoMemory>
        ensures points { IfOk result (λ points. points.items ≡ points_with self.now value) }
        ensures ascending { IfOk result (λ points. IsStrictlySortedBy nat_cmp points.items) }
    {
        let points = points_among(self.alloc, &self.pairs, value)?;
        Ok(points)
    }

    /// The values of a point, ascending: `DMLabelGetValue`, for points that may have several. Looks
    /// at the pairs of this point alone, and takes no memory where there are none.
    ///
    /// Fails only for want of memory.
    pub fn values_at(&self, p: u32) -> Result<Vec<i32>, NoMemory>
        ensures values { IfOk result (λ values. values.items ≡ values_at self.now p) }
        ensures ascending { IfOk result (λ values. IsStrictlySortedBy int_cmp values.items) }
    {
        let values = values_among(self.alloc, &self.pairs, p)?;
        Ok(values)
    }
}
