// The queue of the searches: "the queue of waiting cells lies in the second half of the lent work buffer" (document 01). A cell is queued
// in the step that stores its word, and `put` lends that half on to `push`. Proved by the law of a store into a lent tail (`grid_laws`,
// `proofs/Parts`): of the whole buffer it is a store at the place after the queue.
#![tactic(auto)]

ghost use Rattle.std.specs.Prelude.{◌≡◌, ◌+◌, ◌<◌, ◌^◌, length, set};

// Puts a cell at the end of the queue.
fn push(queue: &mut [u32], len: usize, m: usize) -> usize
    requires len_in_bounds { len < length queue.old }
    requires m_bound { m < 2 ^ 24 }
    ensures value { result ≡ len + 1 }
    ensures queue_after { queue.new ≡ set queue.old len m }
{
    queue[len] = m as u32;
    len + 1
}

// Stores a word at a place, and puts the cell `m` at the end of the queue.
pub fn put(half: usize, len: usize, m: usize, place: usize, word: u32, work: &mut [u32]) -> usize
    requires m_bound { m < 2 ^ 24 }
    requires place_in_bounds { place < length work.old }
    requires len_in_bounds { half + len < length work.old }
    ensures value { result ≡ len + 1 }
    ensures work_after { work.new ≡ set (set work.old place word) (half + len) m }
{
    work[place] = word;
    push(&mut work[half..], len, m)
}
