//! The vertices of cells.
ghost use Rattle.std.specs.Prelude.{◌≡◌, ℕ, ◌<◌, ◌≤◌, ◌^◌, ◌==◌, ◌||◌, false, length, filter, get_or, IfOk};
ghost use Rattle.std.specs.List.{AllByRecursion, list_any};
ghost use Rattle.plain_lists.specs.Lists.{below};
ghost use Rattle.mesh_defs.specs.RightMesh.{IsRightMesh};
ghost use Rattle.dist_seed.specs.rank_cells.Seen.{some_has};

use plex_base::NoMemory;
use plex_mesh::Mesh;
use std::alloc::Global;

/// Notes that these vertices are seen.
fn see(seen: &mut Vec<bool>, vertices: &[u32])
    requires { AllByRecursion (λ v. v < length seen.old.items) vertices.now }
    ensures many { length seen.new.items ≡ length seen.old.items }
    ensures each { (v : ℕ) → v < length seen.old.items → get_or seen.new.items v false ≡ (get_or seen.old.items v false || list_any (λ w. w == v) vertices.now) }
{
    for v in vertices {
        seen[*v as usize] = true;
    }
}

/// The numbers that are seen, rising.
fn seen_numbers(alloc: Global, seen: &[bool]) -> Result<Vec<u32>, NoMemory>
    requires { length seen.now < 2 ^ 32 }
    ensures { IfOk result (λ numbers. numbers.items ≡ filter (λ v. get_or seen.now v false) (below (length seen.now))) }
{
    let mut numbers = Vec::new(alloc);
    for v in 0..seen.len() {
        if seen[v] {
            numbers.push(v as u32)?;
        }
    }
    Ok(numbers)
}

/// The vertices that some of these cells has, rising.
pub(crate) fn vertices_of(alloc: Global, mesh: &Mesh, cells: &[u32]) -> Result<Vec<u32>, NoMemory>
    requires right { IsRightMesh mesh.now }
    requires cells { AllByRecursion (λ c. c < length mesh.now.cells) cells.now }
    ensures { IfOk result (λ vertices. vertices.items ≡ filter (some_has mesh.now cells.now) (below (length mesh.now.at))) }
{
    let mut seen = vec![in alloc; false; mesh.vertices() as usize]?;
    for c in cells {
        see(&mut seen, mesh.cell(*c));
    }
    Ok(seen_numbers(alloc, &seen)?)
}
