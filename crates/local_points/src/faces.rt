//! The table in which each face of a solid is found again.

ghost use Rattle.std.specs.Prelude.{◌≡◌, ◌+◌, ◌<◌, ◌≤◌, ◌^◌, [], map, length, IsNone, IfSome, IfOk, OnOk, Some};
ghost use Rattle.std.specs.List.{slice_get, AllByRecursion};
ghost use Rattle.mesh_defs.specs.Points.{point_of};
ghost use Rattle.mesh_defs.specs.Diagram.{firsts, place_in};
ghost use Rattle.local_points.specs.Cells.{AreFit};
ghost use Rattle.local_points.specs.Points.{with_sight, places_in, faces_among, face_places};
ghost use Rattle.local_points.specs.Stored.{AreFaceSets, IsFace, IsSetOn, IsOnNoFace, face_sight_of};

use crate::cell_list::CellList;
use crate::entries::Entries;
use crate::seen_faces::{Face, NO_VERTEX, face_firsts, see_faces};
use crate::sets::rising_four;
use indexmap::IndexSet;
use mesh_defs::Poly;
use plex_base::{NoMemory, PointKey};
use std::alloc::Global;
use std::marker::Model;
use std::thread::Threads;

/// Faces in the order of first sight, each as it was seen first. Contracts see them as sights.
#[derive(Drop)]
pub(crate) struct Faces {
    faces: Vec<Face>,
}

impl Model for Faces {
    ghost use Rattle.std.specs.Prelude.{List, map};
    ghost use Rattle.mesh_defs.specs.Points.{Sight};
    ghost use Rattle.local_points.specs.Stored.{face_sight_of};

    ghost Value = { List Sight };

    ghost view = { λ t. map face_sight_of t.faces.items };
}

/// Faces with the table by which each of them is found again while they are numbered.
#[derive(Drop)]
pub(crate) struct FaceTable {
    /// The vertices of each face in rising order, `NO_VERTEX` last.
    sets: IndexSet<[u32; 4]>,
    faces: Vec<Face>,
}

impl Model for FaceTable {
    ghost use Rattle.std.specs.Prelude.{List, map};
    ghost use Rattle.mesh_defs.specs.Points.{Sight};
    ghost use Rattle.local_points.specs.Stored.{AreFaces, face_sight_of};

    ghost Value = { List Sight };

    ghost view = { λ t. map face_sight_of t.faces.items };

    ghost invariant = { λ t. AreFaces t.sets.keys t.faces.items };
}

/// The faces of these cells, and for each cell where its faces stand among them.
pub(crate) fn join_faces<R: Threads + Sync, C: CellList + Sync>(
    rt: &R,
    alloc: Global,
    cells: &C,
) -> Result<(FaceTable, Entries), NoMemory>
    requires { AreFit (C.cells cells.now) }
    ensures faces { IfOk result (λ r. r.0 ≡ faces_among (C.cells cells.now)) }
    ensures places { IfOk result (λ r. r.1 ≡ face_places (C.cells cells.now)) }
{
    let seen = see_faces(rt, alloc, cells)?;
    let firsts = face_firsts(alloc, cells)?;
    let mut table = FaceTable::new(alloc);
    let places = table.number(alloc, &seen)?;
    Ok((table, Entries::new(places, firsts)))
}

impl Faces {
    pub(crate) fn len(&self) -> usize
        ensures { result ≡ length self.now }
    {
        self.faces.len()
    }

    /// The key, the polytope and the vertices of face `k`.
    pub(crate) fn get(&self, k: usize) -> (PointKey, Poly, &[u32])
        requires { k < length self.now }
        ensures { slice_get self.now k ≡ Some (record { key = result.0.0; poly = result.1; arrangement = result.2.now }) }
    {
        let face = &self.faces[k];
        let key = PointKey(u64::from(face.key));
        if face.corners[3] == NO_VERTEX {
            (key, Poly::Triangle, &face.corners[..3])
        } else {
            (key, Poly::Quad, &face.corners)
        }
    }
}

impl FaceTable {
    fn new(alloc: Global) -> FaceTable
        ensures { result ≡ [] }
    {
        FaceTable {
            sets: IndexSet::new(alloc),
            faces: Vec::new(alloc),
        }
    }

    /// Takes faces into an empty table as they are seen, and answers the place of each.
    fn number(&mut self, alloc: Global, seen: &[Face]) -> Result<Vec<u32>, NoMemory>
        requires start { self.old ≡ [] }
        requires few { length seen.now < 2 ^ 32 }
        requires sound { AllByRecursion IsFace seen.now }
        ensures faces { OnOk result (self.new ≡ firsts (map face_sight_of seen.now)) }
        ensures places { IfOk result (λ places. places.items ≡ places_in self.new (map face_sight_of seen.now)) }
    {
        let mut places = Vec::with_capacity(alloc, seen.len())?;
        for face in seen {
            places.push(self.place(*face)?)?;
        }
        Ok(places)
    }

    /// The place of a face; one that is new goes to the end.
    fn place(&mut self, face: Face) -> Result<u32, NoMemory>
        requires few { length self.old < 2 ^ 32 }
        requires sound { IsFace face }
        ensures place { IfOk result (λ k. k ≡ place_in self.new (point_of (face_sight_of face))) }
        ensures ok { OnOk result (self.new ≡ with_sight self.old (face_sight_of face)) }
    {
        self.faces.reserve(1)?;
        let (place, is_new) = self.sets.insert_full(rising_four(face.corners))?;
        if is_new {
            self.faces.push_reserved(face);
        }
        Ok(place as u32)
    }

    /// The sets by which the faces are found, and the faces. Takes no memory.
    pub(crate) fn into_parts(self) -> (IndexSet<[u32; 4]>, Faces)
        ensures faces { result.1 ≡ self }
        ensures sets { AreFaceSets result.0.keys self }
    {
        let FaceTable { sets, faces } = self;
        (sets, Faces { faces })
    }
}

/// The set by which a face on these vertices is found; none where no face is on them.
pub(crate) fn set_on(vertices: &[u32]) -> Option<[u32; 4]>
    ensures none { IsNone result → IsOnNoFace vertices.now }
    ensures some { IfSome result (λ set. IsSetOn set vertices.now) }
{
    if vertices.contains(&NO_VERTEX) {
        return None;
    }
    match vertices {
        [a, b, c] => Some(rising_four([*a, *b, *c, NO_VERTEX])),
        [a, b, c, d] => Some(rising_four([*a, *b, *c, *d])),
        _ => None,
    }
}
