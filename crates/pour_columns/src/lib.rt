// Table 6, from scans to columns: "Entries rise by smaller, then larger label, in four lent columns"; "places past it are untouched".
// `count_on` goes through the sheet until a scan of `pour` is not full, and so knows the number of entries before anything is written;
// `write_all` does the same and writes the entries of each scan after those of the one before.
// Proved by `Between` of pour_laws: after each scan the first n entries are done, and the next scan gives those after them.
#![tactic(auto)]

ghost use Rattle.std.specs.Prelude.{◌≡◌, ◌+◌, ◌-◌, ◌/◌, ◌%◌, ◌<◌, ◌≤◌, length, get_or, pos, ℕ};
ghost use Rattle.std.specs.List.{SameBelow, SameFrom};
ghost use Rattle.cells.specs.Keys.{level_of};
ghost use Rattle.pour_laws.specs.Batch.{capacity};
ghost use Rattle.pour.specs.Taken.{entries};
ghost use Rattle.pour_laws.specs.Columns.{Puts, Between, OneLength, Written};

use pour::{Batch, CAPACITY, Sheets};

// Counts on from a first batch: scans until one is not full.
pub fn count_on(sheets: &Sheets, batch: &mut Batch) -> usize
    requires { Between sheets.now.g sheets.now.elevations.now sheets.now.labels.now (get_or batch.old.pairs 16383 0) batch.old.count batch.old.count }
    ensures { result ≡ length (entries sheets.now) }
{
    let mut n = batch.count;
    while batch.count == CAPACITY {
        let limit = batch.pairs[CAPACITY - 1];
        batch.scan(sheets, limit);
        n += batch.count;
    }
    n
}

// What `value` gives for each of the first `k` numbers into a column, from a place on.
fn put<T: Copy, F: Fn(u64) -> T>(
    words: &[u64; CAPACITY],
    k: usize,
    place: usize,
    column: &mut [T],
    value: F,
)
    requires words_len { length words.now ≡ capacity }
    requires k_le_capacity { k ≤ capacity }
    requires k_in_bounds { place + k ≤ length column.old }
    requires callable { F.IsAlwaysCallable value }
    ensures written { (i : ℕ) (d : T) → i < k → F.post value (get_or words.now i 0) (get_or column.new (place + i) d) }
    ensures before { SameBelow column.old column.new place }
    ensures after { SameFrom column.old column.new (place + k) }
{
    for i in 0..k {
        column[place + i] = value(words[i]);
    }
}

// A batch into the four columns, from a place on.
pub fn put_entries(
    batch: &Batch,
    place: usize,
    smaller: &mut [u32],
    larger: &mut [u32],
    elevation: &mut [i16],
    cell: &mut [u32],
)
    requires in_bounds { place + batch.now.count ≤ length smaller.old }
    requires one_length { OneLength smaller.old larger.old elevation.old cell.old }
    ensures { Puts batch.now.count place batch.now.pairs batch.now.ranks smaller.old smaller.new
        larger.old larger.new elevation.old elevation.new cell.old cell.new }
{
    put(
        &batch.pairs,
        batch.count,
        place,
        smaller,
        |pair| (pair / 4294967296 % 4294967296) as u32,
    );
    put(
        &batch.pairs,
        batch.count,
        place,
        larger,
        |pair| (pair % 4294967296) as u32,
    );
    put(
        &batch.ranks,
        batch.count,
        place,
        elevation,
        |rank| cells::elevation((rank / 16777216 % 65536) as u32),
    );
    put(
        &batch.ranks,
        batch.count,
        place,
        cell,
        |rank| (rank % 16777216) as u32,
    );
}

// All entries into the columns: those of a scan after those of the one before, until one is not full.
pub fn write_all(
    sheets: &Sheets,
    batch: &mut Batch,
    smaller: &mut [u32],
    larger: &mut [u32],
    elevation: &mut [i16],
    cell: &mut [u32],
)
    requires one_length { OneLength smaller.old larger.old elevation.old cell.old }
    requires in_bounds { length (entries sheets.now) ≤ length smaller.old }
    ensures { Written (entries sheets.now) smaller.old smaller.new
        larger.old larger.new elevation.old elevation.new cell.old cell.new }
{
    let mut limit: u64 = 0;
    let mut n: usize = 0;
    'scans: loop {
        batch.scan(sheets, limit);
        put_entries(batch, n, smaller, larger, elevation, cell);
        if batch.count < CAPACITY {
            return;
        }
        n += CAPACITY;
        limit = batch.pairs[CAPACITY - 1];
    }
}
