//! The points that ranks have words for in the home round, in the order of their vertices.
ghost use Rattle.std.specs.Prelude.{◌≡◌, ℕ, ◌+◌, ◌<◌, ◌≤◌, [], length, map, get_or, IfOk};
ghost use Rattle.plain_lists.specs.Vectors.{lists_of};
ghost use Rattle.rank_laws.specs.share_laws.Packed.{IsPackable};
ghost use Rattle.rank_chart_laws.specs.key_laws.Places.{digit, first_edge, first_face, is_word, set_number, words_among, AreInOrder};
ghost use Rattle.rank_chart_laws.specs.key_laws.Words.{part, AreAllWords, AreWordPlaces, IsLaidOut};

use dist_state::shared_state::Shared;
use plex_base::NoMemory;
use std::alloc::Global;

/// A point by the number of its set of vertices, and its place on its rank.
type Numbered = (u128, u32);

/// Where the faces of a rank begin: behind its cells and its vertices.
pub(crate) fn first_face(shared: &Shared, rank: u32) -> u32
    requires laid_out { IsLaidOut shared.now }
    requires rank { rank < length shared.now.parts }
    ensures { result ≡ first_face (part shared.now rank) }
{
    // All points have numbers of 32 bits: the proof takes this from the call.
    let _points = shared.points(rank);
    shared.cells(rank).len() as u32 + shared.vertices(rank).len() as u32
}

/// The places of the words of all ranks.
pub(crate) fn all_words(alloc: Global, shared: &Shared) -> Result<Vec<Vec<u32>>, NoMemory>
    requires { IsLaidOut shared.now }
    ensures { IfOk result (λ places. AreAllWords shared.now (lists_of places.items)) }
{
    let mut places = Vec::with_capacity(alloc, shared.ranks() as usize)?;
    for rank in 0..shared.ranks() {
        places.push(word_places(alloc, shared, rank)?)?;
    }
    Ok(places)
}

/// The places of the words of a rank: faces, then edges, each in the order of vertices.
fn word_places(alloc: Global, shared: &Shared, rank: u32) -> Result<Vec<u32>, NoMemory>
    requires laid_out { IsLaidOut shared.now }
    requires rank { rank < length shared.now.parts }
    ensures { IfOk result (λ places. AreWordPlaces shared.now rank places.items) }
{
    // All points have numbers of 32 bits: the proof takes this from the call.
    let _points = shared.points(rank);
    let faces = shared.local(rank).faces();
    let edges = shared.local(rank).edges();
    let first = first_face(shared, rank);
    let mut places = ordered_words(alloc, shared, rank, first, faces)?;
    let of_edges = ordered_words(alloc, shared, rank, first + faces, edges)?;
    places.extend_from_slice(&of_edges)?;
    Ok(places)
}

/// The words among `count` points of a rank, in the order of vertices.
fn ordered_words(
    alloc: Global,
    shared: &Shared,
    rank: u32,
    first: u32,
    count: u32,
) -> Result<Vec<u32>, NoMemory>
    requires laid_out { IsLaidOut shared.now }
    requires rank { rank < length shared.now.parts }
    requires behind { first_face (part shared.now rank) ≤ first }
    requires inside { first + count ≤ length (part shared.now rank).sets }
    ensures { IfOk result (λ places. AreInOrder (part shared.now rank).sets (words_among shared.now.forest rank first count) places.items) }
{
    let mut words = words_among(alloc, shared, rank, first, count)?;
    words.sort_unstable_by_key(|word| word.0);
    let mut places = Vec::with_capacity(alloc, words.len())?;
    for word in &words {
        places.push(word.1)?;
    }
    Ok(places)
}

/// The words among `count` points of a rank, by place.
fn words_among(
    alloc: Global,
    shared: &Shared,
    rank: u32,
    first: u32,
    count: u32,
) -> Result<Vec<Numbered>, NoMemory>
    requires laid_out { IsLaidOut shared.now }
    requires rank { rank < length shared.now.parts }
    requires behind { first_face (part shared.now rank) ≤ first }
    requires inside { first + count ≤ length (part shared.now rank).sets }
    ensures { IfOk result (λ words. words.items ≡ map (λ i. (set_number (get_or (part shared.now rank).sets i []), i)) (words_among shared.now.forest rank first count)) }
{
    let _points = shared.points(rank);
    let mut words = Vec::new(alloc);
    for k in 0..count {
        let place = first + k;
        if is_word(shared, rank, place) {
            words.push((set_number(shared.set(rank, place)), place))?;
        }
    }
    Ok(words)
}

/// Whether the rank owns the point and another one has it too.
fn is_word(shared: &Shared, rank: u32, place: u32) -> bool
    requires laid_out { IsLaidOut shared.now }
    requires rank { rank < length shared.now.parts }
    requires place { place < length (part shared.now rank).sets }
    ensures { result ≡ is_word shared.now.forest rank place }
{
    let forest = shared.forest();
    forest.root_of(rank, place).is_none() && forest.degree(rank, place) > 0
}

/// A number that rises along the order of sets of at most four vertices.
#[tactic(auto, unfolding(rank_chart_laws::specs::key_laws::Places::set_number))]
fn set_number(set: &[u32]) -> u128
    requires { IsPackable set.now }
    ensures { result ≡ set_number set.now }
{
    ((digit(set, 0) * 4294967296 + digit(set, 1)) * 4294967296 + digit(set, 2)) * 4294967296
        + digit(set, 3)
}

/// One more than the vertex at a place of a set, or 0 behind the last one.
fn digit(set: &[u32], k: usize) -> u128
    requires { IsPackable set.now }
    ensures value { result ≡ digit set.now k }
    ensures low { result < 4294967296 }
{
    match set.get(k) {
        Some(vertex) => u128::from(*vertex) + 1,
        None => 0,
    }
}
