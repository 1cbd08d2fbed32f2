#![tactic(auto)]

// Labels that are used twice (Wish 11 of document 02): what a search for the lowest of them shows, and that Table 5's starts have none.
