// Counts from the marks at the front of a lent tail (`route_laws`, `specs/Receivers`), written to the result only when question 12 is
// answered: "A no changes no result buffer". The counts call and the one call share this. `proofs/Sheet` carries marks, counts and the
// first endless cell over to a sheet of codes.
#![tactic(auto)]

ghost use Rattle.std.specs.Prelude.{◌≡◌, ℕ, ◌+◌, ◌<◌, ◌≤◌, length, take};
ghost use Rattle.grid.specs.Below.{table};
ghost use Rattle.route_laws.specs.Receivers.{Marks};
ghost use Rattle.count_laws.specs.Passing.{tally, FewDonors};
ghost use Rattle.accumulation.specs.Tail.{mark_at, word_at, Roomy};
ghost use Rattle.counting.specs.Copied.{CountsOf};

// The counts of the words that stand after n marks.
fn copy_counts(n: usize, tail: &[u32], counts: &mut [u32])
    requires n_in_bounds { n + n ≤ length tail.now }
    requires counts_len { length counts.old ≡ n }
    ensures { counts.new ≡ table n (λ (c : ℕ). tally (word_at n tail.now c)) }
{
    for i in 0..n {
        counts[i] = tail[n + i] % 16777216;
    }
}

// The counts, if every route ends; the result is the first cell whose route does not, or n.
pub fn counts_of(n: usize, tail: &mut [u32], counts: &mut [u32]) -> usize
    requires roomy { Roomy n tail.old }
    requires marks { Marks n (take n tail.old) }
    requires few_donors { FewDonors n (mark_at tail.old) }
    requires counts_len { length counts.old ≡ n }
    ensures { CountsOf n tail.old tail.new counts.old counts.new result }
{
    let first = accumulation::count_routes(n, tail);
    if first < n {
        return first;
    }
    copy_counts(n, tail, counts);
    first
}
