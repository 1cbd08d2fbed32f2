#![tactic(auto)]

// Laws of Table 6: no function. The entries of `pour_points` are, pair by pair, the best of the candidates (`proofs/Whole`); a batch of the
// smallest pairs above a limit among the candidates seen grows by one candidate at a time (`proofs/Batch`), and once it has seen them all
// it is the next stretch of the entries (`proofs/Agree`). A pair of labels is one number and so is a candidate's rank, so that all orders
// are those of ℕ. Each two neighbouring cells are looked at once (`proofs/Neighbours`, `proofs/Lines`).
