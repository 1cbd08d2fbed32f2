#![tactic(auto)]

// Laws of joined cells (document 02, "joined as neighbours"), and no function: the passes of `grid` join a cell exactly if a way through
// the set leads from it to a cell that is joined from the start; and the state of a search over marks, which joins the cells of a set one
// by one from a queue. Each step of the search leaves what it will come to as it was (`joined_marks`), and once the queue is empty that is
// the marks themselves.
