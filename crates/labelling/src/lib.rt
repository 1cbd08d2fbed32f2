// Labels from the marks at the front of a lent tail (`route_laws`, `specs/Receivers`), written to the result only when question 12 is
// answered: "A no changes no result buffer". The labels call and the one call share this. The walk (crate `walk`) leaves each label raised
// by n + 1 in place of the mark; what is left is to take that off again.
#![tactic(auto)]

ghost use Rattle.std.specs.Prelude.{◌≡◌, ℕ, ◌+◌, ◌-◌, ◌<◌, ◌≤◌, ◌^◌, length, get_or, take};
ghost use Rattle.grid.specs.Below.{table};
ghost use Rattle.route_laws.specs.Receivers.{Marks};
ghost use Rattle.labelling.specs.Labelled.{LabelsOf};

// The first n words less n + 1.
fn read_labels(n: usize, tail: &[u32], labels: &mut [u32])
    requires n_bound { n < 2 ^ 24 }
    requires n_in_bounds { n ≤ length tail.now }
    requires labels_len { length labels.old ≡ n }
    requires by_index { (c : ℕ) → c < n → n + 1 ≤ get_or tail.now c 0 }
    ensures { labels.new ≡ table n (λ (c : ℕ). get_or tail.now c 0 - (n + 1)) }
{
    let raised = (n + 1) as u32;
    for c in 0..n {
        labels[c] = tail[c] - raised;
    }
}

// The labels, if every route ends; the result is the first cell whose route does not, or n.
pub fn labels_of(n: usize, tail: &mut [u32], labels: &mut [u32]) -> usize
    requires n_bound { n < 2 ^ 24 }
    requires n_in_bounds { n ≤ length tail.old }
    requires marks { Marks n (take n tail.old) }
    requires labels_len { length labels.old ≡ n }
    ensures { LabelsOf n tail.old labels.old labels.new result }
{
    let first = walk::walk(n, tail);
    if first < n {
        return first;
    }
    read_labels(n, tail, labels);
    first
}
