//! The table in which each edge is found again.

ghost use Rattle.std.specs.Prelude.{◌≡◌, ◌+◌, ◌<◌, ◌≤◌, ◌^◌, [], ◌∷◌, map, length, IfOk, OnOk, Some};
ghost use Rattle.std.specs.List.{slice_get};
ghost use Rattle.mesh_defs.specs.declared.Poly.TheVariants.{Segment};
ghost use Rattle.mesh_defs.specs.Points.{point_of};
ghost use Rattle.mesh_defs.specs.Diagram.{firsts, place_in};
ghost use Rattle.local_points.specs.Cells.{AreFit};
ghost use Rattle.local_points.specs.Points.{with_sight, places_in, edges_among, edge_places};
ghost use Rattle.local_points.specs.Stored.{AreEdgeSets, edge_sight_of};

use crate::cell_list::CellList;
use crate::entries::Entries;
use crate::seen_edges::{Edge, edge_firsts, see_edges};
use crate::sets::rising_two;
use indexmap::IndexSet;
use plex_base::{NoMemory, PointKey};
use std::alloc::Global;
use std::marker::Model;
use std::thread::Threads;

/// Edges in the order of first sight, each as it was seen first. Contracts see them as sights.
#[derive(Drop)]
pub(crate) struct Edges {
    edges: Vec<Edge>,
}

impl Model for Edges {
    ghost use Rattle.std.specs.Prelude.{List, map};
    ghost use Rattle.mesh_defs.specs.Points.{Sight};
    ghost use Rattle.local_points.specs.Stored.{edge_sight_of};

    ghost Value = { List Sight };

    ghost view = { λ t. map edge_sight_of t.edges.items };
}

/// Edges with the table by which each of them is found again while they are numbered.
#[derive(Drop)]
pub(crate) struct EdgeTable {
    /// The ends of each edge, the smaller one first.
    sets: IndexSet<[u32; 2]>,
    edges: Vec<Edge>,
}

impl Model for EdgeTable {
    ghost use Rattle.std.specs.Prelude.{◌≡◌, List, map};
    ghost use Rattle.mesh_defs.specs.Points.{Sight};
    ghost use Rattle.local_points.specs.Stored.{edge_sight_of, edge_set};

    ghost Value = { List Sight };

    ghost view = { λ t. map edge_sight_of t.edges.items };

    ghost invariant = { λ t. t.sets.keys ≡ map edge_set t.edges.items };
}

/// The edges of these cells, and for each cell where its edges stand among them.
pub(crate) fn join_edges<R: Threads + Sync, C: CellList + Sync>(
    rt: &R,
    alloc: Global,
    cells: &C,
) -> Result<(EdgeTable, Entries), NoMemory>
    requires { AreFit (C.cells cells.now) }
    ensures edges { IfOk result (λ r. r.0 ≡ edges_among (C.cells cells.now)) }
    ensures places { IfOk result (λ r. r.1 ≡ edge_places (C.cells cells.now)) }
{
    let seen = see_edges(rt, alloc, cells)?;
    let firsts = edge_firsts(alloc, cells)?;
    let mut table = EdgeTable::new(alloc);
    let places = table.number(alloc, &seen)?;
    Ok((table, Entries::new(places, firsts)))
}

impl Edges {
    pub(crate) fn len(&self) -> usize
        ensures { result ≡ length self.now }
    {
        self.edges.len()
    }

    /// The key and the ends of edge `k`.
    pub(crate) fn get(&self, k: usize) -> (PointKey, [u32; 2])
        requires { k < length self.now }
        ensures { slice_get self.now k ≡ Some (record { key = result.0.0; poly = Segment; arrangement = result.1 }) }
    {
        let edge = &self.edges[k];
        (PointKey(u64::from(edge.key)), edge.ends)
    }
}

impl EdgeTable {
    fn new(alloc: Global) -> EdgeTable
        ensures { result ≡ [] }
    {
        EdgeTable {
            sets: IndexSet::new(alloc),
            edges: Vec::new(alloc),
        }
    }

    /// Takes edges into an empty table as they are seen, and answers the place of each.
    fn number(&mut self, alloc: Global, seen: &[Edge]) -> Result<Vec<u32>, NoMemory>
        requires start { self.old ≡ [] }
        requires few { length seen.now < 2 ^ 32 }
        ensures edges { OnOk result (self.new ≡ firsts (map edge_sight_of seen.now)) }
        ensures places { IfOk result (λ places. places.items ≡ places_in self.new (map edge_sight_of seen.now)) }
    {
        let mut places = Vec::with_capacity(alloc, seen.len())?;
        for edge in seen {
            places.push(self.place(*edge)?)?;
        }
        Ok(places)
    }

    /// The place of an edge; one that is new goes to the end.
    fn place(&mut self, edge: Edge) -> Result<u32, NoMemory>
        requires { length self.old < 2 ^ 32 }
        ensures place { IfOk result (λ k. k ≡ place_in self.new (point_of (edge_sight_of edge))) }
        ensures ok { OnOk result (self.new ≡ with_sight self.old (edge_sight_of edge)) }
    {
        self.edges.reserve(1)?;
        let (place, is_new) = self.sets.insert_full(rising_two(edge.ends))?;
        if is_new {
            self.edges.push_reserved(edge);
        }
        Ok(place as u32)
    }

    /// The sets by which the edges are found, and the edges. Takes no memory.
    pub(crate) fn into_parts(self) -> (IndexSet<[u32; 2]>, Edges)
        ensures edges { result.1 ≡ self }
        ensures sets { AreEdgeSets result.0.keys self }
    {
        let EdgeTable { sets, edges } = self;
        (sets, Edges { edges })
    }
}
