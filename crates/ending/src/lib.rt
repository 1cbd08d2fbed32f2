// The call `shared_ending` (document 02, Wish 6): "the longest ending that both lists share, handed back as a part of the first list
// itself", a slice of that list with its lifetime. The lists are checked first (crate `lists`); then a walk goes back from both ends while
// the cells are alike. That the part which it cuts off is the longest, and that of two whole routes it begins where they meet, are laws
// (`ending_laws`).
#![tactic(auto)]

ghost use Rattle.std.specs.Prelude.{◌≡◌, ◌≤◌, ◌<◌, length};
ghost use Rattle.grid.specs.Endings.{from_end, shared_length};
ghost use Rattle.grid.specs.Promises.{EndingPromise};

use grid::Grid;

// The cell that has `k` cells after it.
fn from_end(list: &[u32], k: usize) -> u32
    requires { k < length list.now }
    ensures { result ≡ from_end list.now k }
{
    let at = list.len() - (k + 1);
    list[at]
}

// How many cells, counted from the end, both lists have alike.
fn shared_length(first: &[u32], second: &[u32]) -> usize
    ensures value { result ≡ shared_length first.now second.now }
    ensures upper_bound { result ≤ length first.now }
{
    let n = first.len().min(second.len());
    for k in 0..n {
        if from_end(first, k) != from_end(second, k) {
            return k;
        }
    }
    n
}

// Two lists of cells to the end of the first that both share.
pub fn shared_ending<'a, 'b>(g: Grid, first: &'a [u32], second: &'b [u32]) -> &'a [u32]
    ensures { EndingPromise g first.entry second.entry result }
{
    if lists::check_lists(g, first, second).is_err() {
        let end = first.len();
        return &first[end..];
    }
    let k = shared_length(first, second);
    let at = first.len() - k;
    &first[at..]
}
