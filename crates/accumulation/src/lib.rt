// Flow accumulation. "The count of a cell is the number of other cells whose routes contain it": the sum, over the cells that flow into
// it, of 1 and their counts. The tail of the work buffer holds the marks of `route_laws` (where each cell flows), and after them a word
// for each cell: the donors still to come and the count so far. A cell with no donors to come hands its count and 1 down, and the walk
// goes on with its receiver as soon as that awaits no more; so each cell is passed once, with no queue. If a cell is never passed, some
// route does not end. Proved by what one passing keeps (`count_laws`, `Passing`), and by what then holds when all cells are done, or some
// are not.
#![tactic(auto)]

ghost use Rattle.std.specs.Prelude.{◌≡◌, ℕ, ◌+◌, ◌<◌, ◌≤◌, take};
ghost use Rattle.count_laws.specs.Passing.{FewDonors, DonorsTo};
ghost use Rattle.route_laws.specs.Receivers.{Marks};
ghost use Rattle.accumulation.specs.Tail.{mark_at, word_at, Roomy, Kept, donor_added, passed, onward, Ready, Between, Down};
ghost use Rattle.accumulation.specs.Tail.{Accumulated, Counted};

// The awaited donors of a word begin at UNIT; a word of DONE or more is that of a cell that has handed its count on.
const UNIT: u32 = 16777216;

const DONE: u32 = 4278190080;

// Words of 0.
fn clear(n: usize, tail: &mut [u32])
    requires { Roomy n tail.old }
    ensures kept { Kept n tail.old tail.new }
    ensures by_index { (c : ℕ) → c < n → word_at n tail.new c ≡ 0 }
{
    tail[n..n + n].fill(0);
}

// One donor more for the cell that `d` flows into.
fn add_donor(n: usize, tail: &mut [u32], d: usize)
    requires roomy { Roomy n tail.old }
    requires d_lt_n { d < n }
    requires by_index { (c : ℕ) → c < n → word_at n tail.old c ≤ 134217728 }
    ensures { tail.new ≡ donor_added n tail.old d }
{
    let next = tail[d] as usize;
    if next >= n {
        return;
    }
    tail[n + next] += UNIT;
}

// Of each cell the number of its donors.
fn count_donors(n: usize, tail: &mut [u32])
    requires roomy { Roomy n tail.old }
    requires few_donors { FewDonors n (mark_at tail.old) }
    requires by_index { (c : ℕ) → c < n → word_at n tail.old c ≡ 0 }
    ensures kept { Kept n tail.old tail.new }
    ensures donors_to { DonorsTo n (mark_at tail.old) n (word_at n tail.new) }
{
    for d in 0..n {
        add_donor(n, tail, d);
    }
}

// Closes the cell `c` and hands its count down; the result is the cell to go on with, or n.
fn pass(n: usize, tail: &mut [u32], c: usize) -> usize
    requires roomy { Roomy n tail.old }
    requires ready { Ready n tail.old c }
    ensures tail_after { tail.new ≡ passed n tail.old c }
    ensures value { result ≡ onward n tail.old c }
{
    let count = tail[n + c];
    let next = tail[c] as usize;
    if next >= n {
        tail[n + c] = count + DONE;
        return n;
    }
    let word = tail[n + next] - UNIT + count + 1;
    tail[n + c] = count + DONE;
    tail[n + next] = word;
    if word < UNIT {
        return next;
    }
    n
}

// From a cell that awaits nothing, down as long as cells await no more. `left` cells are not done; the result is how many are left then.
fn go_down(n: usize, tail: &mut [u32], start: usize, left: usize) -> usize
    requires roomy { Roomy n tail.old }
    requires start_lt_n { start < n }
    requires start_bound { word_at n tail.old start < 16777216 }
    requires between { Between n tail.old tail.old left }
    ensures { Down n start tail.old tail.new result }
{
    let mut c = start;
    let mut left = left;
    while c < n {
        c = pass(n, tail, c);
        left -= 1;
    }
    left
}

// A cell of the scan: a walk down, if it awaits nothing.
fn visit(n: usize, tail: &mut [u32], i: usize, left: usize) -> usize
    requires roomy { Roomy n tail.old }
    requires i_lt_n { i < n }
    requires between { Between n tail.old tail.old left }
    ensures { Down n i tail.old tail.new result }
{
    if tail[n + i] >= UNIT {
        return left;
    }
    go_down(n, tail, i, left)
}

// Every cell once.
fn scan(n: usize, tail: &mut [u32]) -> usize
    requires roomy { Roomy n tail.old }
    requires between { Between n tail.old tail.old n }
    ensures { Accumulated n tail.old tail.new result }
{
    let mut left = n;
    for i in 0..n {
        left = visit(n, tail, i, left);
    }
    left
}

// The counts of the sheet whose marks begin the tail, in the words after them; the result is the number of cells that are not done: 0
// where every route ends.
pub fn accumulate(n: usize, tail: &mut [u32]) -> usize
    requires roomy { Roomy n tail.old }
    requires few_donors { FewDonors n (mark_at tail.old) }
    ensures { Accumulated n tail.old tail.new result }
{
    clear(n, tail);
    count_donors(n, tail);
    scan(n, tail)
}

// "12. Does every route end? Place: the first cell whose route doesn't": that cell, or n, and then the counts in the words. Only where a
// cell is left does the walk look for the place; it writes over the marks.
pub fn count_routes(n: usize, tail: &mut [u32]) -> usize
    requires roomy { Roomy n tail.old }
    requires marks { Marks n (take n tail.old) }
    requires few_donors { FewDonors n (mark_at tail.old) }
    ensures { Counted n tail.old tail.new result }
{
    let left = accumulate(n, tail);
    if left == 0 {
        return n;
    }
    walk::walk(n, tail)
}
