// Table 5. "Cells with count and delta both above the threshold get 1, 2, 3 and so on by rising cell number, others 0": from the marks at
// the front of a lent tail, which say where each cell flows, one scan numbers the starts. "delta is the count of the cell flowed into
// minus the cell's own": it is above the threshold where the one count is above the sum of the other and the threshold, in 64 bits, so
// nothing wraps. `proofs/Starts` shows that these are the cells of the definition.
#![tactic(auto)]

ghost use Rattle.std.specs.Prelude.{◌≡◌, false, cond, ◌+◌, ◌<◌, ◌≤◌, ltb, length, set};
ghost use Rattle.grid.specs.Below.{table, count_below};
ghost use Rattle.starting.specs.Marked.{start_by, start_number};

// Whether `next` minus `own` is above `threshold`.
fn rises_above(threshold: u32, next: u32, own: u32) -> bool
    ensures { result ≡ ltb (own + threshold) next }
{
    u64::from(own) + u64::from(threshold) < u64::from(next)
}

fn is_start(n: usize, tail: &[u32], counts: &[u32], threshold: u32, c: usize) -> bool
    requires n_in_bounds { n ≤ length tail.now }
    requires counts_len { length counts.now ≡ n }
    requires c_lt_n { c < n }
    ensures { result ≡ start_by n tail.now counts.now threshold c }
{
    let next = tail[c] as usize;
    if next >= n {
        return false;
    }
    let own = counts[c];
    if own <= threshold {
        return false;
    }
    rises_above(threshold, counts[next], own)
}

// The number of the cell `c`, or 0; the result is how many starts there are then.
fn number_cell(
    n: usize,
    tail: &[u32],
    counts: &[u32],
    threshold: u32,
    starts: &mut [u32],
    c: usize,
    found: u32,
) -> u32
    requires n_in_bounds { n ≤ length tail.now }
    requires counts_len { length counts.now ≡ n }
    requires starts_len { length starts.old ≡ n }
    requires c_lt_n { c < n }
    requires found_bound { found < 16777216 }
    ensures starts_after { starts.new
        ≡ set starts.old c (cond (start_by n tail.now counts.now threshold c) (found + 1) 0) }
    ensures value { result ≡ found + cond (start_by n tail.now counts.now threshold c) 1 0 }
{
    if !is_start(n, tail, counts, threshold, c) {
        starts[c] = 0;
        return found;
    }
    starts[c] = found + 1;
    found + 1
}

// All cells; the result is the number of starts.
pub fn number_starts(
    n: usize,
    tail: &[u32],
    counts: &[u32],
    threshold: u32,
    starts: &mut [u32],
) -> u32
    requires n_bound { n < 16777216 }
    requires n_in_bounds { n ≤ length tail.now }
    requires counts_len { length counts.now ≡ n }
    requires starts_len { length starts.old ≡ n }
    ensures starts_after { starts.new ≡ table n (start_number n tail.now counts.now threshold) }
    ensures value { result ≡ count_below n (start_by n tail.now counts.now threshold) }
{
    let mut found: u32 = 0;
    for c in 0..n {
        found = number_cell(n, tail, counts, threshold, starts, c, found);
    }
    found
}
