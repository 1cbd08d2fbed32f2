// The walk: for every cell with a code the last cell of its route, or the first cell whose route does not end ("12. Does every route end?
// Place: the first cell whose route doesn't"). It serves labels, watersheds and question 12.
//
// The lent buffer begins with n receivers (`route_laws`, `specs/Receivers`), and the walk overwrites each by n + 1 + (1 plus the last cell
// of the route, 0 without a code), which is above n: one word for each cell, each written once. One pass by falling cell number writes
// what one step finds. Then from each start in turn it goes down to the first cell that has a result or is the route's end, then goes down
// again and writes. A walk of more than n steps has met a ring, so its start is the first endless cell: those before it have results. That
// a walk's steps are the route's is a law (`route_laws`, `proofs/Walking`).
#![tactic(auto)]

ghost use Rattle.std.specs.Prelude.{true, false, ◌+◌, ◌<◌, ◌≤◌, ◌^◌, length, get_or, take};
ghost use Rattle.route_laws.specs.Receivers.{Marks};
ghost use Rattle.route_laws.specs.Walking.{Descent, Settled, Stepped, Lifted, WalkedTo, Walked, WalkedOn};

// What the walk down from `start` finds; 0 where it takes more than n steps.
fn descend(n: usize, tail: &[u32], start: usize) -> usize
    requires n_bound { n < 2 ^ 24 }
    requires n_in_bounds { n ≤ length tail.now }
    requires start_lt_n { start < n }
    ensures { Descent n tail.now start result }
{
    let mut cell = start;
    for _ in 0..=n {
        let mark = tail[cell] as usize;
        if mark > n {
            return mark;
        }
        if mark == n {
            return n + 2 + cell;
        }
        cell = mark;
    }
    0
}

// Writes what was found at `start` and down from it, up to the first result or the route's end.
fn settle(n: usize, tail: &mut [u32], start: usize, found: u32)
    requires n_bound { n < 2 ^ 24 }
    requires n_in_bounds { n ≤ length tail.old }
    requires start_lt_n { start < n }
    requires n_lt_found { n < found }
    requires start_bound { get_or tail.old start 0 ≤ n }
    ensures { Settled n start found tail.old tail.new }
{
    let mut cell = start;
    while cell < n {
        let mark = tail[cell] as usize;
        if mark > n {
            return;
        }
        tail[cell] = found;
        cell = mark;
    }
}

// One start: false where its route does not end.
fn walk_from(n: usize, tail: &mut [u32], start: usize) -> bool
    requires n_bound { n < 2 ^ 24 }
    requires n_in_bounds { n ≤ length tail.old }
    requires start_lt_n { start < n }
    ensures { Stepped n start tail.old tail.new result }
{
    if tail[start] as usize > n {
        return true;
    }
    let found = descend(n, tail, start);
    if found == 0 {
        return false;
    }
    settle(n, tail, start, found as u32);
    true
}

// The result of a cell, if its route ends there or its next cell has one: no walk is taken.
fn lift(n: usize, tail: &mut [u32], cell: usize)
    requires n_bound { n < 2 ^ 24 }
    requires n_in_bounds { n ≤ length tail.old }
    requires cell_lt_n { cell < n }
    ensures { Lifted n cell tail.old tail.new }
{
    let mark = tail[cell] as usize;
    if mark > n {
        return;
    }
    if mark == n {
        tail[cell] = (n + 2 + cell) as u32;
        return;
    }
    let next = tail[mark];
    if next as usize > n {
        tail[cell] = next;
    }
}

// Every cell by falling number: a route that only goes on to higher numbers has its result at once, where a walk from each start by
// rising number would go down it to the end, across all rows of a sheet that drains south.
fn lift_all(n: usize, tail: &mut [u32])
    requires n_bound { n < 2 ^ 24 }
    requires n_in_bounds { n ≤ length tail.old }
    requires marks { Marks n (take n tail.old) }
    ensures { WalkedTo n 0 tail.old tail.new }
{
    for cell in (0..n).rev() {
        lift(n, tail, cell);
    }
}

// All starts by rising cell number, from a buffer that may have results. The answer is the first cell whose route does not end, or n.
fn walk_on(n: usize, tail: &mut [u32]) -> usize
    requires n_bound { n < 2 ^ 24 }
    requires n_in_bounds { n ≤ length tail.old }
    ensures { WalkedOn n tail.old tail.new result }
{
    for start in 0..n {
        if !walk_from(n, tail, start) {
            return start;
        }
    }
    n
}

// The last cell of every route, or the first cell whose route does not end.
pub fn walk(n: usize, tail: &mut [u32]) -> usize
    requires n_bound { n < 2 ^ 24 }
    requires n_in_bounds { n ≤ length tail.old }
    requires marks { Marks n (take n tail.old) }
    ensures { Walked n tail.old tail.new result }
{
    lift_all(n, tail);
    walk_on(n, tail)
}
