ghost use Rattle.std.specs.Prelude.{◌≡◌, ◌+◌, ◌<◌, [], ◌∷◌, ◌++◌, length, slice_index, slice_index_or, slice_range, IfOk, OnOk, OnErr};
ghost use Rattle.plex_chart.specs.Chart.{no_point};
ghost use Rattle.plex_chart.specs.Cones.{LiesAt};

use mesh_defs::{ConeEntry, Poly};
use plex_base::NoMemory;
use std::alloc::Global;
use std::marker::Model;

/// Points with their cones, in the order in which they were pushed. The cones lie flat, one after
/// another.
#[derive(Debug, Drop)]
pub(crate) struct Cones {
    polys: Vec<Poly>,
    entries: Vec<ConeEntry>,
    /// Where the cone of each point ends among the entries. It begins where the one before ends.
    ends: Vec<u32>,
}

impl Model for Cones {
    ghost use Rattle.std.specs.Prelude.{List};
    ghost use Rattle.mesh_defs.specs.Diagram.{Covering};
    ghost use Rattle.plex_chart.specs.Cones.{coverings, AreFlat};

    ghost Value = { List Covering };

    ghost view = { λ c. coverings c.entries.items 0 c.polys.items c.ends.items };

    ghost invariant = { λ c. AreFlat c.polys.items c.entries.items c.ends.items };
}

/// The entries of point `p`.
fn entries_at<'a>(entries: &'a [ConeEntry], ends: &[u32], p: usize) -> &'a [ConeEntry]
    requires { LiesAt entries.now ends.now p }
    ensures { result.now ≡ slice_range entries.now (slice_index (0 ∷ ends.now) p) (slice_index ends.now p) }
{
    let start = if p == 0 { 0 } else { ends[p - 1] };
    &entries[start as usize..ends[p] as usize]
}

/// Puts a cone behind those of earlier points. Answers where it ends.
fn append_cone(entries: &mut Vec<ConeEntry>, cone: &[ConeEntry]) -> Result<u32, NoMemory>
    ensures end { IfOk result (λ end. end ≡ length entries.old.items + length cone.now) }
    ensures ok { OnOk result (entries.new.items ≡ entries.old.items ++ cone.now) }
    ensures err { OnErr result (entries.new.items ≡ entries.old.items) }
{
    let Ok(end) = u32::try_from(entries.len() + cone.len()) else {
        return Err(NoMemory);
    };
    entries.extend_from_slice(cone)?;
    Ok(end)
}

impl Cones {
    pub(crate) fn new(alloc: Global) -> Cones
        ensures { result ≡ [] }
    {
        Cones {
            polys: Vec::new(alloc),
            entries: Vec::new(alloc),
            ends: Vec::new(alloc),
        }
    }

    pub(crate) fn len(&self) -> usize
        ensures { result ≡ length self.now }
    {
        self.polys.len()
    }

    /// Takes room for this many more points, and entries of their cones.
    pub(crate) fn reserve(&mut self, points: usize, entries: usize) -> Result<(), NoMemory>
        ensures { self.new ≡ self.old }
    {
        self.polys.reserve_exact(points)?;
        self.ends.reserve_exact(points)?;
        self.entries.reserve_exact(entries)?;
        Ok(())
    }

    /// Puts a point at the end. Fails for want of memory, and where there would be 2^32 entries.
    pub(crate) fn push(&mut self, poly: Poly, cone: &[ConeEntry]) -> Result<(), NoMemory>
        ensures ok { OnOk result (self.new ≡ self.old ++ record { poly = poly; covers = cone.now } ∷ []) }
        ensures err { OnErr result (self.new ≡ self.old) }
    {
        self.polys.reserve(1)?;
        self.ends.reserve(1)?;
        let end = append_cone(&mut self.entries, cone)?;
        self.polys.push_reserved(poly);
        self.ends.push_reserved(end);
        Ok(())
    }

    /// Gives back the memory that growing left over.
    pub(crate) fn shrink_to_fit(&mut self)
        ensures { self.new ≡ self.old }
    {
        self.polys.shrink_to_fit();
        self.entries.shrink_to_fit();
        self.ends.shrink_to_fit();
    }

    pub(crate) fn poly_of(&self, p: usize) -> Poly
        requires { p < length self.now }
        ensures { result ≡ (slice_index_or self.now p no_point).poly }
    {
        self.polys[p]
    }

    pub(crate) fn cone(&self, p: usize) -> &[ConeEntry]
        requires { p < length self.now }
        ensures { result.now ≡ (slice_index_or self.now p no_point).covers }
    {
        entries_at(&self.entries, &self.ends, p)
    }
}
