#![tactic(auto)]

// Laws about shared endings (grid's specs/Endings.antt): the part that a walk back from both ends cuts off is the longest ending that two
// lists share, and of two whole routes on one sheet it begins where they meet. There is no function here.
